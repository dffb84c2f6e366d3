// Damage to a text. Letters and numbers are drawn near those that a chart has, so that a fault is often one of meaning and not of form.
use crate::draw::{Field, Page, put_field};
use crate::table::number;
use reference::generate::below;

// What is damaged.
#[derive(Clone, Copy, PartialEq, Eq)]
pub enum Kind {
    // Nothing.
    Whole,
    Byte,
    Field,
    Letter,
    // A line.
    Dropped,
    Doubled,
    // Two lines.
    Exchanged,
    Header,
    // The text is cut or lengthened.
    Length,
    // A move line, into a meant move from a position of rest.
    FromRest,
    // Two of these.
    Two,
}

// Damages a text by a kind; by two of these, half of the time at one line. Where the chart has positions of rest, the damage makes some,
// and takes some away. Answers the text's length.
pub fn damage(page: &mut Page, size: usize, kind: Kind, rests: bool, seed: &mut usize) -> usize {
    let line = below(seed, size / 12);
    if kind != Kind::Two {
        return damage_line(page, size, line, kind, rests, seed);
    }
    let first = kind_of(below(seed, 16), rests);
    let left = damage_line(page, size, line, first, rests, seed);
    let other = below(seed, left / 12 * 2);
    let second = kind_of(below(seed, 16), rests);
    let at = if other < left / 12 { other } else { line };
    damage_line(page, left, at, second, rests, seed)
}

// Those kinds more often that leave the text its lines and its header.
fn kind_of(code: usize, rests: bool) -> Kind {
    match code {
        0 => Kind::Byte,
        1..=4 => {
            if rests | (1 < code) {
                Kind::Field
            } else {
                Kind::Byte
            }
        }
        5..=6 => { if rests { Kind::Letter } else { Kind::Field } }
        7..=8 => Kind::Letter,
        9..=10 => { if rests { Kind::FromRest } else { Kind::Letter } }
        11 => Kind::Dropped,
        12 => Kind::Doubled,
        13 => Kind::Exchanged,
        14 => Kind::Header,
        _ => Kind::Length,
    }
}

fn damage_line(
    page: &mut Page,
    size: usize,
    line: usize,
    kind: Kind,
    rests: bool,
    seed: &mut usize,
) -> usize {
    let at = line % 341 * 12;
    match kind {
        Kind::Byte => change_byte(page, at + below(seed, 12) % 12, rests, seed),
        Kind::Field => change_field(page, at, seed),
        Kind::Letter => page[at] = draw_letter(page[at], below(seed, 16), rests),
        Kind::Dropped => shift(page, at + 12, at),
        Kind::Doubled => shift(page, at, at + 12),
        Kind::Exchanged => exchange(page, at, below(seed, size / 12) % 341 * 12),
        Kind::Header => change_field(page, 0, seed),
        Kind::FromRest => move_from_rest(page, size, line, seed),
        Kind::Whole | Kind::Length | Kind::Two => {}
    }
    resized(page, size % 4096, kind, seed)
}

fn change_byte(page: &mut Page, at: usize, rests: bool, seed: &mut usize) {
    let bytes = *b"      00011123459HOLMDhod\t\n\r-+.\0";
    let resting = *b"      00011123459HOLRMDor\t\n\r-+.\0";
    let x = below(seed, 32) % 32;
    page[at % 4096] = if rests { resting[x] } else { bytes[x] };
}

fn change_field(page: &mut Page, at: usize, seed: &mut usize) {
    let column = below(seed, 2) % 2 * 5 + 1;
    let field = draw_field(below(seed, 8), below(seed, 13), below(seed, 16));
    put_field(page, at % 4096 + column, field);
}

// A blank, a bad field, a limit, or a number that a small chart may have.
fn draw_field(kind: usize, small: usize, code: usize) -> Field {
    let limits = [99999, 10000, 4097, 4096, 513, 512, 20, 15];
    match kind {
        0 => Field::Blank,
        1 => Field::Bad(code % 16 + 1),
        2 => Field::Number(limits[code % 8]),
        3 => Field::Number(small % 3),
        _ => Field::Number(small),
    }
}

// Mostly another letter that is allowed there.
fn draw_letter(letter: u8, code: usize, rests: bool) -> u8 {
    if code < 4 {
        let letters = *b"OLMH";
        return letters[code];
    }
    let resting = rests & (code % 2 == 0);
    match letter {
        b'O' => { if resting { b'R' } else { b'L' } }
        b'L' => { if resting { b'R' } else { b'O' } }
        b'R' => { if resting { b'L' } else { b'O' } }
        b'M' => b'D',
        _ => b'M',
    }
}

// Makes a move line a meant move from a position, and that one of rest.
fn move_from_rest(page: &mut Page, size: usize, line: usize, seed: &mut usize) {
    // Other damage may have left no number there.
    let n = number(page, 0, 1).unwrap_or(100000);
    let v = below(seed, n);
    let at = move_line(size, n % 16 + 1, line) % 341 * 12;
    page[at] = b'M';
    put_field(page, at + 1, Field::Number(v));
    page[v % 16 * 12 + 12] = b'R';
}

// A line of those from the first move on.
fn move_line(size: usize, first: usize, line: usize) -> usize {
    let count = (size / 12).saturating_sub(first);
    if count == 0 {
        line
    } else {
        first % 341 + line % count % 341
    }
}

// Moves what lies from one place on to another.
fn shift(page: &mut Page, from: usize, to: usize) {
    let from = from % 4096;
    let to = to % 4096;
    let length = 4096 - from.max(to);
    page.copy_within(from..from + length, to);
}

fn exchange(page: &mut Page, a: usize, b: usize) {
    for k in 0..12 {
        page.swap((a % 4096 + k) % 4096, (b % 4096 + k) % 4096);
    }
}

// The length after the damage. Where a line came or went, the header mostly follows.
fn resized(page: &mut Page, size: usize, kind: Kind, seed: &mut usize) -> usize {
    match kind {
        Kind::Dropped => recounted(page, size.saturating_sub(12), below(seed, 5)),
        Kind::Doubled => recounted(page, size % 4080 + 12, below(seed, 5)),
        Kind::Length => below(seed, size % 4080 + 14) % 4096,
        _ => size,
    }
}

// Sets m, or n, to what the count of lines asks for, or leaves both.
fn recounted(page: &mut Page, size: usize, way: usize) -> usize {
    let rest = (size / 12).saturating_sub(1);
    match way {
        0 => {}
        1 => recount(page, 1, 6, rest),
        _ => recount(page, 6, 1, rest),
    }
    size
}

// Sets one of the header's numbers to what the other leaves of the lines.
fn recount(page: &mut Page, column: usize, other: usize, rest: usize) {
    let left = number(page, 0, other).map_or(0, |x| rest.saturating_sub(x));
    put_field(page, column, Field::Number(left));
}
