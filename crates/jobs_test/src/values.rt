// Values: Valuing by the filed way and by the plain one, into rows of given lengths that hold 7.
use crate::sheets::room;
use crate::{Texts, runs, writer};
use refusal::Refusal;
use std::io;
use valuing::{value_chart, value_plain};

// The rows that are lent.
#[derive(Drop)]
struct Rows<'a> {
    values: &'a mut [u16],
    choices: &'a mut [u16],
    steps: &'a mut [u16],
}

// Under the name a line for each way. The case's third text has the lengths of the three rows, a field for each.
pub fn show(rt: &impl Print, texts: Texts) -> io::Result<()> {
    let text = texts.chart;
    if texts.words.len() < 15 {
        return Ok(());
    }
    writer::name(rt, texts.name)?;
    show_way(rt, b"  filed ", texts.words, |r| {
        answer(rt, value_chart(text, r.values, r.choices, r.steps))
    })?;
    show_way(rt, b"  plain ", texts.words, |r| {
        answer(rt, value_plain(text, r.values, r.choices, r.steps))
    })
}

// The answer for so much of each row, and the numbers of these. Longer rows get none.
fn show_way<F: FnOnce(&mut Rows) -> io::Result<()>>(
    rt: &impl Print,
    way: &[u8],
    words: &[u8],
    value: F,
) -> io::Result<()>
    requires { F.IsAlwaysCallable value }
{
    let mut values = [7; 16];
    let mut choices = [7; 16];
    let mut steps = [7; 16];
    rt.write_all(way)?;
    if let (Some(values), Some(choices), Some(steps)) = (
        values.get_mut(..room(words, 0)),
        choices.get_mut(..room(words, 5)),
        steps.get_mut(..room(words, 10)),
    ) {
        let mut rows = Rows {
            values,
            choices,
            steps,
        };
        value(&mut rows)?;
        show_row(rt, b"  values", rows.values)?;
        show_row(rt, b"  choices", rows.choices)?;
        show_row(rt, b"  steps", rows.steps)?;
    }
    rt.write_all(b"\n")
}

// `A` with the rounds, or the refusal with its four numbers.
fn answer(rt: &impl Print, r: Result<u16, Refusal>) -> io::Result<()> {
    match r {
        Ok(rounds) => {
            rt.write_all(b"A")?;
            writer::field(rt, rounds as usize)?;
        }
        Err(refusal) => writer::refused(rt, refusal)?,
    }
    Ok(())
}

fn show_row(rt: &impl Print, name: &[u8], row: &[u16]) -> io::Result<()> {
    rt.write_all(name)?;
    for x in row {
        runs::show(rt, *x)?;
    }
    Ok(())
}
