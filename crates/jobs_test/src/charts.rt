// Charts: their examination, the program's answer to them, the longest ones, and the rows that loading leaves.
ghost use Rattle.std.specs.Prelude.{◌≡◌, length};

use crate::writer;
use refusal::{Numbers, Refusal};
use rows::Chart;
use std::fmt::Display;
use std::io;

// `A` with the counts, or `R` with the number and the line of the refusal.
pub fn examine(rt: &impl Print, text: &[u8]) -> io::Result<()> {
    match chart::examine(text) {
        Ok(c) => {
            rt.write_all(b"A")?;
            writer::field(rt, c.positions)?;
            writer::field(rt, c.moves)?;
        }
        Err(m) => {
            let r = Numbers::from(Refusal::from(m));
            rt.write_all(b"R")?;
            writer::field(rt, r.number as usize)?;
            writer::field(rt, r.line)?;
        }
    }
    Ok(())
}

// The plate, or the refusal's line.
pub fn respond(rt: &impl Print, text: &[u8]) -> io::Result<()> {
    let mut out = [0u8; 11286];
    let size = response::respond(text, &mut out);
    rt.write_all(&out[..size.min(11286)])
}

// Document 01's chart.
fn document() -> [u8; 168]
    ensures { 168 ≡ length result }
{
    *b"H    5    8\nO    0    0\nL    1    0\nO    2    0\nL    3    1\nO    4    0\nM    0    1\nD    0    2\nM    1    0\nM    2    0\nM    2    2\nD    2    3\nM    3    3\nM    4    4\n"
}

// Room for the longest chart, and more.
pub type LongText = [u8; 65536];

// The longest chart: 512 positions, 8 meant moves from each.
pub fn longest(rt: &impl Print) -> io::Result<()> {
    let mut text = [0u8; 65536];
    fill(&mut text, 512, 4096);
    part(rt, b"the longest chart", &text, 55308)?;
    part(rt, b"the longest chart, a byte shorter", &text, 55307)?;
    part(rt, b"the longest chart, a line shorter", &text, 55296)?;
    part(rt, b"the longest chart, a byte longer", &text, 55309)?;
    part(rt, b"the longest chart, a line longer", &text, 55320)?;
    fill(&mut text, 513, 4095);
    part(rt, b"513 positions", &text, 55308)?;
    fill(&mut text, 511, 4097);
    part(rt, b"4,097 moves", &text, 55308)?;
    fill(&mut text, 511, 4096);
    part(rt, b"511 positions", &text, 55296)
}

fn part(rt: &impl Print, name: &[u8], text: &[u8], size: usize) -> io::Result<()> {
    if size <= text.len() {
        examine(rt, &text[..size])?;
        rt.write_all(b"  ")?;
        writer::name(rt, name)?;
    }
    Ok(())
}

// A header with these counts, n positions and 4,608 - n moves, up to 8 from each.
pub fn fill(text: &mut LongText, n: usize, m: usize) {
    put_line(text, 0, b'H', n, m);
    for i in 1..4609 {
        fill_line(text, n, i);
    }
}

fn fill_line(text: &mut LongText, n: usize, i: usize) {
    if i <= n {
        put_line(text, i, b'O', i.saturating_sub(1), 0);
    } else {
        let k = i - n - 1;
        put_line(text, i, b'M', k / 8, k % 8);
    }
}

fn put_line(text: &mut LongText, i: usize, letter: u8, a: usize, b: usize) {
    let at = i % 5461 * 12;
    text[at] = letter;
    field::write((a % 100000) as u32, text, at + 1);
    field::write((b % 100000) as u32, text, at + 6);
    text[at + 11] = b'\n';
}

// The rows that loading fills, each of which begins with 9s.
#[derive(Drop)]
struct Loaded {
    owners: [u8; Chart::POSITIONS],
    marks: [u8; Chart::POSITIONS],
    costs: [u8; Chart::MOVES],
    froms: [u16; Chart::MOVES],
    tos: [u16; Chart::MOVES],
}

impl Loaded {
    fn of_9s() -> Loaded {
        Loaded {
            owners: [9; Chart::POSITIONS],
            marks: [9; Chart::POSITIONS],
            costs: [9; Chart::MOVES],
            froms: [9; Chart::MOVES],
            tos: [9; Chart::MOVES],
        }
    }

    fn load(&mut self, text: &[u8]) {
        let _ = decode::load(
            text,
            &mut self.owners,
            &mut self.marks,
            &mut self.costs,
            &mut self.froms,
            &mut self.tos,
        );
    }
}

// The rows of document 01's chart, behind which what was there stays, and that a refusal clears them.
pub fn rows(rt: &impl Print) -> io::Result<()> {
    let mut rows = Loaded::of_9s();
    rows.load(&document());
    show_row(rt, b"  owners", &rows.owners[..6])?;
    show_row(rt, b"  marks", &rows.marks[..6])?;
    show_row(rt, b"  costs", &rows.costs[..9])?;
    show_row(rt, b"  froms", &rows.froms[..9])?;
    show_row(rt, b"  tos", &rows.tos[..9])?;
    rows.load(b"H    1    1\n");
    show_row(rt, b"  owners after a refusal", &rows.owners[..6])?;
    show_row(rt, b"  tos after a refusal", &rows.tos[..2])
}

// The rows of a chart with a position of rest.
pub fn resting_rows(rt: &impl Print) -> io::Result<()> {
    let mut rows = Loaded::of_9s();
    rows.load(
        b"H    3    3\nL    0    0\nR    1    0\nO    2    1\nM    0    1\nD    1    2\nM    2    2\n",
    );
    show_row(rt, b"  owners, one of rest", &rows.owners[..4])?;
    show_row(rt, b"  costs", &rows.costs[..4])?;
    show_row(rt, b"  froms", &rows.froms[..4])?;
    show_row(rt, b"  tos", &rows.tos[..4])
}

// The numbers of a row, and under which name.
fn show_row<T: Copy + Display + Drop>(rt: &impl Print, name: &[u8], row: &[T]) -> io::Result<()> {
    for x in row {
        rt.print(*x)?;
    }
    writer::name(rt, name)
}
