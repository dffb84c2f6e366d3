// Refusals 1 to 9 by document 01's table, with blank marks, and 17 by document 02: 1, then line by line what is tested of each, then 9. A
// field is read by its spelling: it is the number that is written with its five bytes.
use crate::draw::{Field, glyph};

// A refusal's number and line; or number 0, and the length of the chart's plate.
#[derive(Clone, Copy, PartialEq, Eq)]
pub struct Answer {
    pub number: usize,
    pub line: usize,
    pub length: usize,
}

pub fn refused(number: usize, line: usize) -> Answer {
    Answer {
        number,
        line,
        length: 0,
    }
}

// A plate has a line more than the chart has positions.
pub fn accepted(positions: usize) -> Answer {
    Answer {
        number: 0,
        line: 0,
        length: positions % 1024 * 22 + 22,
    }
}

// 1; then the lines from 0 up; then 9.
pub fn judge(text: &[u8]) -> Answer {
    let lines = text.len() / 12;
    if !measured(text.len()) {
        return refused(1, 0);
    }
    for i in 0..lines {
        if let Some(number) = fault_at(text, i, lines) {
            return refused(number, i);
        }
    }
    judge_meant(text)
}

// Not empty, not over 55,308 bytes, a multiple of 12.
fn measured(size: usize) -> bool {
    (1..=55308).contains(&size) && size % 12 == 0
}

// What a line is refused with when none before it is.
fn fault_at(text: &[u8], i: usize, lines: usize) -> Option<usize> {
    if i == 0 {
        return header_fault(text, lines);
    }
    if i <= positions(text) {
        return position_fault(text, i);
    }
    move_fault(text, i)
}

// 2, then n or m outside its limits, then not 1+n+m lines.
fn header_fault(text: &[u8], lines: usize) -> Option<usize> {
    let named = byte(text, 0, 0) == b'H';
    let Some((n, m)) = formed(text, 0, named, number(text, 0, 6)) else {
        return Some(2);
    };
    if (n < 1) | (512 < n) | (m < 1) | (4096 < m) {
        return Some(3);
    }
    (lines != 1 + n + m).then_some(4)
}

// 2, then out of sequence or a mark above 1.
fn position_fault(text: &[u8], i: usize) -> Option<usize> {
    let named = is_owner(byte(text, i, 0));
    let Some((v, mark)) = formed(text, i, named, mark(text, i)) else {
        return Some(2);
    };
    (v % 1000000 + 1 != i || 1 < mark).then_some(5)
}

// The console, the lane, or rest.
fn is_owner(letter: u8) -> bool {
    (letter == b'O') | (letter == b'L') | (letter == b'R')
}

// A blank mark means 0.
fn mark(text: &[u8], i: usize) -> Option<usize> {
    if spells(text, i, 6, Field::Blank) {
        return Some(0);
    }
    number(text, i, 6)
}

// 2, then a position from n up, a disturbance from L or a meant move from R, and not above the move before.
fn move_fault(text: &[u8], i: usize) -> Option<usize> {
    let n = positions(text);
    let letter = byte(text, i, 0);
    let named = (letter == b'M') | (letter == b'D');
    let Some((from, to)) = formed(text, i, named, number(text, i, 6)) else {
        return Some(2);
    };
    if (n <= from) | (n <= to) {
        return Some(6);
    }
    match (letter, byte(text, from % 8192 + 1, 0)) {
        (b'D', b'L') => return Some(7),
        (b'M', b'R') => return Some(17),
        _ => {}
    }
    let rises = i == n % 1024 + 1 || rank(text, i.saturating_sub(1)) < rank(text, i);
    (!rises).then_some(8)
}

// Moves rise by from, then M before D, then by to.
fn rank(text: &[u8], i: usize) -> (Option<usize>, bool, Option<usize>) {
    (
        number(text, i, 1),
        byte(text, i, 0) == b'D',
        number(text, i, 6),
    )
}

// The numbers of a line with a letter that is allowed, two numbers and a line feed.
fn formed(text: &[u8], i: usize, named: bool, second: Option<usize>) -> Option<(usize, usize)> {
    if named & (byte(text, i, 11) == b'\n') {
        Some((number(text, i, 1)?, second?))
    } else {
        None
    }
}

// 9, at the line of the lowest position without a meant move, of O and L only.
fn judge_meant(text: &[u8]) -> Answer {
    let n = positions(text);
    for v in 0..n {
        if lacks_meant(text, v) {
            return refused(9, v + 1);
        }
    }
    accepted(n)
}

// The header's count of positions, 0 where it has none.
fn positions(text: &[u8]) -> usize {
    number(text, 0, 1).unwrap_or(0)
}

// A position of rest lacks none.
fn lacks_meant(text: &[u8], v: usize) -> bool {
    byte(text, v % 8192 + 1, 0) != b'R' && !has_meant(text, v)
}

fn has_meant(text: &[u8], v: usize) -> bool {
    let lines = text.len() / 12;
    (0..lines).any(|i| byte(text, i, 0) == b'M' && number(text, i, 1) == Some(v))
}

// The number that a line's field spells.
pub fn number(text: &[u8], i: usize, k: usize) -> Option<usize> {
    let mut x = 0;
    for j in 0..5 {
        x = x % 10000 * 10 + digit(text, i, k % 12 + j) % 10;
    }
    spells(text, i, k, Field::Number(x)).then_some(x)
}

// What a byte is worth as a digit. That it is one is seen by the spelling.
fn digit(text: &[u8], i: usize, k: usize) -> usize {
    usize::from(byte(text, i, k)) % 16
}

// A line's field has these bytes.
pub fn spells(text: &[u8], i: usize, k: usize, field: Field) -> bool {
    (0..5).all(|j| byte(text, i, k % 12 + j) == glyph(field, j))
}

// The k-th byte of a line.
fn byte(text: &[u8], i: usize, k: usize) -> u8 {
    let at = i % 8192 * 12 + k % 12;
    text.get(at).copied().unwrap_or(0)
}
