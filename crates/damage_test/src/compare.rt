// Compares the library's answers to a text with the table's, and with its answers to the same text with 0 in the place of blank marks;
// and counts.
use crate::damage::{Kind, damage};
use crate::draw::{Field, Page, draw, put_field};
use crate::table::{Answer, accepted, judge, number, refused, spells};
use chart::examine;
use listing::list_good_moves;
use refusal::{Misdrawn, Numbers, Refusal};
use rows::Chart;
use std::io;
use writing::write_plate;

// Answers by their number, 0 for accepted ones, and what follows.
pub type Tally = [usize; 14];

const BLANK: usize = 10;

const BLANK_ACCEPTED: usize = 11;

const MISMATCHES: usize = 12;

// Answers with number 17.
pub const RESTING: usize = 13;

fn add(tally: &mut Tally, k: usize) {
    tally[k % 14] = tally[k % 14] % 1000000000 + 1;
}

// Draws a chart, damages it by a kind, and compares.
pub fn compare_drawn(
    rt: &impl Print,
    kind: Kind,
    rests: bool,
    seed: &mut usize,
    tally: &mut Tally,
) -> io::Result<()> {
    let mut page = [b'#'; 4096];
    let lines = draw(&mut page, rests, seed) % 341;
    let size = if kind == Kind::Whole {
        lines * 12
    } else {
        damage(&mut page, lines * 12, kind, rests, seed)
    };
    let mut filled = page;
    let blanks = fill(&mut filled, size);
    compare_text(rt, part(&page, size), part(&filled, size), blanks, tally)
}

// The first bytes of a page.
fn part(page: &Page, size: usize) -> &[u8] {
    &page[..size.min(4096)]
}

// Writes 0 for blank marks, and answers how many there were.
fn fill(page: &mut Page, size: usize) -> usize {
    let mut count = 0;
    for v in 0..marked(page, size) {
        if spells(page, v + 1, 6, Field::Blank) {
            put_field(page, v % 340 * 12 + 18, Field::Number(0));
            count += 1;
        }
    }
    count
}

// How many lines have a mark: as many as the header says, 0 where the text has not so many.
fn marked(page: &Page, size: usize) -> usize {
    number(page, 0, 1).filter(|n| *n < size / 12).unwrap_or(0)
}

// All comparisons of a text. In the filled one every blank mark is 0.
pub fn compare_text(
    rt: &impl Print,
    text: &[u8],
    filled: &[u8],
    blanks: usize,
    tally: &mut Tally,
) -> io::Result<()> {
    // Room for a small chart's plate.
    let mut plate = [b'#'; 2048];
    let mut other = [b'#'; 2048];
    let expected = judge(text);
    count(expected.number, blanks, tally);
    expect(rt, examined(examine(text)), expected, true, text, tally)?;
    let answer = written(write_plate(text, &mut plate));
    expect(rt, answer, expected, true, text, tally)?;
    let answer = written(write_plate(filled, &mut other));
    expect(rt, answer, expected, plate == other, text, tally)?;
    compare_sheets(rt, text, filled, expected, tally)
}

// Listing. The table says nothing of the lines: there are as many as in the filled text. A refusal leaves the sheet.
fn compare_sheets(
    rt: &impl Print,
    text: &[u8],
    filled: &[u8],
    expected: Answer,
    tally: &mut Tally,
) -> io::Result<()> {
    let blank = [b'#'; 2048];
    let mut sheet = [b'#'; 2048];
    let mut other = [b'#'; 2048];
    let answer = listed(list_good_moves(text, &mut sheet));
    let again = listed(list_good_moves(filled, &mut other));
    let wanted = Answer {
        number: expected.number,
        line: expected.line,
        length: again.length,
    };
    let stayed = (expected.number == 0) | (sheet == blank);
    expect(rt, answer, wanted, stayed, text, tally)?;
    expect(rt, again, wanted, sheet == other, text, tally)
}

fn count(number: usize, blanks: usize, tally: &mut Tally) {
    add(tally, if number == 17 { RESTING } else { number });
    if 0 < blanks {
        add(tally, BLANK);
        if number == 0 {
            add(tally, BLANK_ACCEPTED);
        }
    }
}

fn examined(answer: Result<Chart, Misdrawn>) -> Answer {
    match answer {
        Ok(c) => accepted(c.positions),
        Err(m) => numbered(Refusal::Chart(m)),
    }
}

fn written(answer: Result<usize, Refusal>) -> Answer {
    match answer {
        Ok(length) => Answer {
            number: 0,
            line: 0,
            length,
        },
        Err(r) => numbered(r),
    }
}

// The count of lines stands as the length.
fn listed(answer: Result<usize, Refusal>) -> Answer {
    match answer {
        Ok(length) => Answer {
            number: 0,
            line: 0,
            length,
        },
        Err(r) => numbered(r),
    }
}

fn numbered(refusal: Refusal) -> Answer {
    let r = Numbers::from(refusal);
    refused(r.number as usize, r.line)
}

// Counts an answer that is not the table's, or sheets that differ. The first few are shown, with their text.
fn expect(
    rt: &impl Print,
    answer: Answer,
    expected: Answer,
    sheets: bool,
    text: &[u8],
    tally: &mut Tally,
) -> io::Result<()> {
    if sheets && answer == expected {
        return Ok(());
    }
    add(tally, MISMATCHES);
    if tally[MISMATCHES] < 5 {
        show(rt, b"answered", answer)?;
        show(rt, b", by the table", expected)?;
        rt.write_all(b"\n")?;
        rt.write_all(text)?;
    }
    Ok(())
}

fn show(rt: &impl Print, name: &[u8], answer: Answer) -> io::Result<()> {
    rt.write_all(name)?;
    rt.write_all(b" ")?;
    rt.print(answer.number)?;
    rt.write_all(b" at line ")?;
    rt.print(answer.line)
}
