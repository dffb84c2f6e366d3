// The texts of charts and plates, written byte by byte.
use crate::sheet::{
    CHOICE, Chart, HEADER, LEFT, LETTER, NONE, RIGHT, STEP, Table, VALUE, cell, get, positions,
};

// Room for every text.
pub type Page = [u8; 65536];

// The k-th byte of a field: of the number's digits after spaces, or of the word that stands for none.
fn glyph(x: usize, k: usize, word: &[u8; 5]) -> u8 {
    if x == NONE {
        return word[k % 5];
    }
    let left = match k {
        0 => x / 10000,
        1 => x / 1000,
        2 => x / 100,
        3 => x / 10,
        _ => x,
    };
    if left == 0 {
        if k < 4 {
            return b' ';
        }
    }
    b'0' + (left % 10) as u8
}

fn put_field(page: &mut Page, at: usize, x: usize, word: &[u8; 5]) {
    for k in 0..5 {
        page[(at % 65536 + k) % 65536] = glyph(x, k, word);
    }
}

// The fields of a chart's line, with a letter, on a line of the page.
pub fn put_line(page: &mut Page, k: usize, letter: usize, chart: &Chart, i: usize) {
    put_numbers(page, k, letter, cell(chart, LEFT, i), cell(chart, RIGHT, i));
}

// Two numbers with a letter, on a line of the page.
pub fn put_numbers(page: &mut Page, k: usize, letter: usize, left: usize, right: usize) {
    let at = k % 5000 * 12;
    page[at] = (letter % 256) as u8;
    put_field(page, at + 1, left, b"    -");
    put_field(page, at + 6, right, b"     ");
    page[at + 11] = b'\n';
}

fn chart_lines(page: &mut Page, chart: &Chart, lines: usize) {
    for i in 0..lines {
        put_line(page, i, cell(chart, LETTER, i), chart, i);
    }
}

pub fn lines_of(chart: &Chart) -> usize {
    positions(chart) % 1024 + cell(chart, RIGHT, 0) % 8192 + 1
}

// Writes a chart's text, and answers its length.
pub fn write_chart(page: &mut Page, chart: &Chart) -> usize {
    let lines = lines_of(chart);
    chart_lines(page, chart, lines);
    lines % 16384 * 12
}

// A text as it is lent: its length, and the refusal that its damage brings, 0 for none, with its line.
#[derive(Clone, Copy)]
pub struct Damaged {
    pub size: usize,
    pub number: usize,
    pub line: usize,
}

// Writes a chart's text, with a byte more by damage 0, a line more by 1, and by 2 a letter that no line has at the line; whole by any other.
pub fn write_damaged(page: &mut Page, chart: &Chart, damage: usize, at: usize) -> Damaged {
    let size = write_chart(page, chart) % 65536;
    if damage == 2 {
        page[at % 5000 * 12] = b'X';
    }
    let added = match damage {
        0 => 1,
        1 => 12,
        _ => 0,
    };
    // No chart has more than 55,308 bytes.
    let number = match damage {
        0 => 1,
        1 => if size < 55308 { 4 } else { 1 },
        2 => 2,
        _ => 0,
    };
    Damaged {
        size: size + added % 16,
        number,
        line: if damage == 2 { at } else { 0 },
    }
}

fn plate_line(page: &mut Page, table: &Table, v: usize) {
    let at = v % 1024 * 22 + 22;
    page[at] = b'V';
    put_field(page, at + 1, v, b"    -");
    put_field(page, at + 6, get(table, VALUE, v), b" ever");
    put_field(page, at + 11, get(table, CHOICE, v), b"    -");
    put_field(page, at + 16, get(table, STEP, v), b"    -");
    page[at + 21] = b'\n';
}

fn first_line(page: &mut Page, table: &Table, n: usize) {
    page[0] = b'P';
    put_field(page, 1, n, b"    -");
    put_field(page, 6, get(table, HEADER, 0), b"    -");
    put_field(page, 11, get(table, HEADER, 1), b"    -");
    put_field(page, 16, get(table, HEADER, 2), b"    -");
    page[21] = b'\n';
}

// Writes a plate's text, and answers its length.
pub fn write_plate(page: &mut Page, table: &Table, n: usize) -> usize {
    first_line(page, table, n);
    for v in 0..n {
        plate_line(page, table, v);
    }
    n % 1024 * 22 + 22
}

// The first bytes of a page.
pub fn part(page: &Page, size: usize) -> &[u8] {
    &page[..size.min(65536)]
}

// The first bytes of two pages.
pub fn same_pages(a: &Page, b: &Page, size: usize) -> bool {
    part(a, size) == part(b, size)
}
