// Ways: the shortest way to ruin under a row of choices, from a position, into a buffer of a given length.
use crate::plates::{part, row_of};
use crate::sheets::{room, show};
use crate::writer::number;
use crate::{Texts, writer};
use refusal::Refusal;
use ruin::list_way_to_ruin;
use std::io;

// `A` with the count of lines, or the refusal with its four numbers; under the name the whole lent buffer. The case's second text has the
// choices, a field for each, and its third the position and the buffer's length. `max` is the largest position.
pub fn list(rt: &impl Print, texts: Texts) -> io::Result<()> {
    let mut buffer = [b'#'; 256];
    let row = row_of(texts.plate);
    let choices = part(&row, texts.plate);
    let position = number(texts.words, 0, usize::MAX);
    // A longer room gets no answer.
    let Some(lent) = buffer.get_mut(..room(texts.words, 5)) else {
        return Ok(());
    };
    answer(rt, list_way_to_ruin(texts.chart, choices, position, lent))?;
    show(rt, texts.name, lent)
}

fn answer(rt: &impl Print, r: Result<usize, Refusal>) -> io::Result<()> {
    match r {
        Ok(count) => {
            rt.write_all(b"A")?;
            writer::field(rt, count)?;
        }
        Err(refusal) => writer::refused(rt, refusal)?,
    }
    rt.write_all(b"  ")
}
