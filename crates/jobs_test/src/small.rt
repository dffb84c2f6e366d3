// Small charts: the chart of an index into a buffer of a given length, and the index of a chart.
use crate::sheets::{room, show};
use crate::writer::number;
use crate::{Texts, runs, writer};
use generating::write_small_chart;
use indexing::index_small_chart;
use refusal::Refusal;
use std::io;

// `A` with the length, or the refusal with its four numbers; under the name the whole lent buffer. The case's third text has the count of
// positions, the index in two fields, its hundred thousands and the rest, and the buffer's length. `max` is the largest number.
pub fn generate(rt: &impl Print, texts: Texts) -> io::Result<()> {
    let mut buffer = [b'#'; 288];
    let words = texts.words;
    let positions = number(words, 0, usize::MAX);
    let index = joined(number(words, 5, usize::MAX), number(words, 10, usize::MAX));
    // A longer room gets no answer.
    let Some(lent) = buffer.get_mut(..room(words, 15)) else {
        return Ok(());
    };
    answer(rt, write_small_chart(positions, index, lent))?;
    show(rt, texts.name, lent)
}

// A number in two fields.
fn joined(thousands: usize, rest: usize) -> usize {
    if 99999 < thousands {
        return thousands;
    }
    thousands * 100000 + rest % 100000
}

fn answer(rt: &impl Print, r: Result<usize, Refusal>) -> io::Result<()> {
    match r {
        Ok(length) => {
            rt.write_all(b"A")?;
            writer::field(rt, length)?;
        }
        Err(refusal) => writer::refused(rt, refusal)?,
    }
    rt.write_all(b"  ")
}

// `A` with the index, or the refusal with its four numbers.
pub fn index(rt: &impl Print, text: &[u8]) -> io::Result<()> {
    match index_small_chart(text) {
        Ok(x) => {
            rt.write_all(b"A")?;
            runs::show(rt, x as u64)?;
        }
        Err(refusal) => writer::refused(rt, refusal)?,
    }
    Ok(())
}
