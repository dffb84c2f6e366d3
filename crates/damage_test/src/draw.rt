// Texts of small charts: their fields, and charts that are drawn.
use reference::generate::below;

// Room for the longest of them, 301 lines, and for more lines that damage adds.
pub type Page = [u8; 4096];

// What stands in a field: a number of up to five digits, nothing, or one of the fields that are neither.
#[derive(Clone, Copy)]
pub enum Field {
    Number(usize),
    Blank,
    Bad(usize),
}

// The k-th byte of a field.
pub fn glyph(field: Field, k: usize) -> u8 {
    match field {
        Field::Number(x) => figure(x, k),
        Field::Blank => b' ',
        Field::Bad(i) => bad(i, k),
    }
}

// Of the number's digits after spaces.
fn figure(x: usize, k: usize) -> u8 {
    let left = match k {
        0 => x / 10000,
        1 => x / 1000,
        2 => x / 100,
        3 => x / 10,
        _ => x,
    };
    if left == 0 && k < 4 {
        return b' ';
    }
    b'0' + (left % 10) as u8
}

// Sixteen fields that are neither a number nor blank: some nearly blank, some with a leading zero, a sign or a space inside.
fn bad(i: usize, k: usize) -> u8 {
    let fields =
        *b"    \t\t    \t\t\t\t\t\0\0\0\0\0    \0  0     0 0       1     \n    -   0500000   +1 ever  1 0";
    fields[i % 16 * 5 + k % 5]
}

pub fn put_field(page: &mut Page, at: usize, field: Field) {
    for k in 0..5 {
        page[(at % 4096 + k) % 4096] = glyph(field, k);
    }
}

fn put_line(page: &mut Page, i: usize, letter: u8, a: usize, b: Field) {
    let at = i % 341 * 12;
    page[at] = letter;
    put_field(page, at + 1, Field::Number(a));
    put_field(page, at + 6, b);
    page[at + 11] = b'\n';
}

// Writes a chart of 1 to 12 positions, some of rest where that is asked for, and answers how many lines it has.
pub fn draw(page: &mut Page, rests: bool, seed: &mut usize) -> usize {
    let most = below(seed, 12) % 12 + 1;
    let n = below(seed, most) % 12 + 1;
    draw_positions(page, n, rests, seed);
    let lines = draw_moves(page, n, seed) % 341;
    put_line(page, 0, b'H', n, Field::Number(lines.saturating_sub(n + 1)));
    lines
}

fn draw_positions(page: &mut Page, n: usize, rests: bool, seed: &mut usize) {
    for v in 0..n {
        let letter = draw_owner(rests, seed);
        put_line(page, v + 1, letter, v, draw_mark(below(seed, 6)));
    }
}

fn draw_owner(rests: bool, seed: &mut usize) -> u8 {
    let letter = if below(seed, 3) == 0 { b'L' } else { b'O' };
    if !rests {
        return letter;
    }
    if below(seed, 3) == 0 { b'R' } else { letter }
}

fn draw_mark(x: usize) -> Field {
    match x {
        0 => Field::Number(1),
        1 | 2 => Field::Blank,
        _ => Field::Number(0),
    }
}

// The moves of all positions in the chart's order. Answers the line after them.
fn draw_moves(page: &mut Page, n: usize, seed: &mut usize) -> usize {
    let mut next = n % 16 + 1;
    for v in 0..n {
        next = draw_from(page, n, v, next, seed);
    }
    next
}

fn draw_from(page: &mut Page, n: usize, v: usize, next: usize, seed: &mut usize) -> usize {
    let owner = page[v % 16 * 12 + 12];
    let sure = below(seed, n);
    if owner == b'R' {
        // A chart has a move: the last position has one where no other has.
        let only = (v % 16 + 1 == n) & (next == n % 16 + 1);
        return draw_kind(page, n, v, b'D', next, if only { sure } else { n }, seed);
    }
    let after = draw_kind(page, n, v, b'M', next, sure, seed);
    if owner == b'L' {
        return after;
    }
    draw_kind(page, n, v, b'D', after, n, seed)
}

// Moves with a letter from v: into the sure target, and into every fifth of the others.
fn draw_kind(
    page: &mut Page,
    n: usize,
    v: usize,
    letter: u8,
    next: usize,
    sure: usize,
    seed: &mut usize,
) -> usize {
    let mut line = next;
    for t in 0..n {
        if (below(seed, 5) == 0) | (t == sure) {
            put_line(page, line, letter, v, Field::Number(t));
            line = line % 341 + 1;
        }
    }
    line
}
