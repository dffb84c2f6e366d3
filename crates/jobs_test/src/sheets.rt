// Sheets: Listing into a buffer of a given length, and the longest sheet.
ghost use Rattle.std.specs.Prelude.{◌≤◌};

use crate::charts::{LongText, fill};
use crate::writer::number;
use crate::{Texts, writer};
use listing::list_good_moves;
use refusal::{Numbers, Refusal};
use std::io;

// `A` with the count of lines, or `R` with the number and the line of the refusal; under the name the whole lent buffer, which held `#`,
// and a bar where it ends. Its length is the case's third text, a field.
pub fn list(rt: &impl Print, texts: Texts) -> io::Result<()> {
    let mut buffer = [b'#'; 256];
    // A longer room gets no answer.
    let Some(lent) = buffer.get_mut(..room(texts.words, 0)) else {
        return Ok(());
    };
    answer(rt, list_good_moves(texts.chart, lent))?;
    show(rt, texts.name, lent)
}

// A name, and under it a lent buffer, with a bar where it ends.
pub fn show(rt: &impl Print, name: &[u8], lent: &[u8]) -> io::Result<()> {
    writer::name(rt, name)?;
    rt.write_all(lent)?;
    rt.write_all(b"|\n")
}

// The field's number, or more than any buffer has.
pub fn room(words: &[u8], at: usize) -> usize
    requires { at ≤ 325 }
{
    number(words, at, 99999)
}

fn answer(rt: &impl Print, r: Result<usize, Refusal>) -> io::Result<()> {
    match r {
        Ok(count) => {
            rt.write_all(b"A")?;
            writer::field(rt, count)?;
        }
        Err(f) => {
            let r = Numbers::from(f);
            rt.write_all(b"R")?;
            writer::field(rt, r.number as usize)?;
            writer::field(rt, r.line)?;
        }
    }
    rt.write_all(b"  ")
}

// The longest sheet: all 4,096 moves of the longest chart are good.
pub fn longest(rt: &impl Print) -> io::Result<()> {
    let mut text = [0u8; 65536];
    fill(&mut text, 512, 4096);
    let mut short = [0u8; 49151];
    let mut sheet = [0u8; 49152];
    longest_into(rt, &text, &mut short, b"the longest sheet, a byte short")?;
    longest_into(rt, &text, &mut sheet, b"the longest sheet")
}

// The answer, and how many of the sheet's bytes are as the chart has them.
fn longest_into(rt: &impl Print, text: &LongText, sheet: &mut [u8], name: &[u8]) -> io::Result<()> {
    let text = &text[..55308];
    answer(rt, list_good_moves(text, sheet))?;
    writer::field(rt, same(text, sheet))?;
    rt.write_all(b"  ")?;
    writer::name(rt, name)
}

// The chart's moves stand from line 513 on. A line of the sheet has another letter.
fn same(text: &[u8], sheet: &[u8]) -> usize {
    text.iter()
        .skip(6156)
        .zip(sheet.iter())
        .enumerate()
        .filter(|(i, (b, listed))| **listed == if i % 12 == 0 { b'G' } else { **b })
        .count()
}
