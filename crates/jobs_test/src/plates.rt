// Plates: Checking, Reading and Comparing.
ghost use Rattle.std.specs.Prelude.{◌≤◌};

use crate::writer::number;
use crate::{Texts, writer};
use comparing::Difference;
use reading::read_plate;
use refusal::{Numbers, Refusal};
use rows::FirstLine;
use std::io;

// Room for a row of choices, or of a house's reports.
pub type Row = [u16; 66];

// `A`, or the refusal.
pub fn check(rt: &impl Print, text: &[u8], plate: &[u8]) -> io::Result<()> {
    match checking::check(text, plate) {
        Ok(()) => writer::four(rt, b"A", 0, 0, 0, 0)?,
        Err(refusal) => writer::refused(rt, refusal)?,
    }
    Ok(())
}

// A plate of a chart, or of the one with one position where no chart is given.
pub fn read(rt: &impl Print, plate: &[u8], chart: &[u8]) -> io::Result<()> {
    let given = if chart.is_empty() { SMALLEST } else { chart };
    read_of(rt, given, plate)
}

const SMALLEST: &[u8] = b"H    1    1\nO    0    0\nM    0    0\n";

// A plate into rows that hold 7: `A` with rounds, highest value and count of "ever", or `R` with the number and the line of the refusal;
// then the first two values, choices and steps.
fn read_of(rt: &impl Print, chart: &[u8], plate: &[u8]) -> io::Result<()> {
    let mut values = [7u16; 2];
    let mut choices = [7u16; 2];
    let mut steps = [7u16; 2];
    let r = read_plate(chart, plate, &mut values, &mut choices, &mut steps);
    answer(rt, r)?;
    numbers(rt, values[0], values[1])?;
    numbers(rt, choices[0], choices[1])?;
    numbers(rt, steps[0], steps[1])
}

fn answer(rt: &impl Print, r: Result<FirstLine, Refusal>) -> io::Result<()> {
    match r {
        Ok(h) => {
            rt.write_all(b"A")?;
            numbers(rt, h.rounds, h.highest)?;
            writer::column(rt, h.evers as usize)?;
        }
        Err(f) => {
            let r = Numbers::from(f);
            rt.write_all(b"R")?;
            writer::column(rt, r.number as usize)?;
            writer::column(rt, r.line)?;
        }
    }
    Ok(())
}

fn numbers(rt: &impl Print, a: u16, b: u16) -> io::Result<()> {
    writer::column(rt, usize::from(a))?;
    writer::column(rt, usize::from(b))
}

// The chart's refusal comes before a short row, and that before a bad plate.
pub fn rows(rt: &impl Print) -> io::Result<()> {
    let mut full = [7u16; 1];
    let mut other = [7u16; 1];
    let mut none = [7u16; 0];
    answer(rt, read_plate(b"", b"", &mut full, &mut other, &mut none))?;
    rt.write_all(b"  no chart\n")?;
    answer(
        rt,
        read_plate(SMALLEST, b"", &mut full, &mut other, &mut none),
    )?;
    rt.write_all(b"  a row short\n")
}

// The answer for a chart, a plate and a row of choices.
pub fn compare(rt: &impl Print, texts: Texts) -> io::Result<()> {
    let row = row_of(texts.words);
    let choices = part(&row, texts.words);
    if texts.plate.len() == 1 {
        compare_written(rt, texts.chart, choices)
    } else {
        difference(rt, texts.chart, texts.plate, choices)
    }
}

// The numbers of a row, a field for each, and 0 past its end.
pub fn row_of(fields: &[u8]) -> Row {
    let mut row = [0; 66];
    for v in 0..66 {
        row[v] = (number(fields, v * 5, 0) % 65536) as u16;
    }
    row
}

// A row's numbers up to the end of its fields.
pub fn part<'a>(row: &'a Row, fields: &[u8]) -> &'a [u16] {
    let count = fields.len() / 5;
    &row[..count.min(66)]
}

// The answer with the plate that Writing makes.
fn compare_written(rt: &impl Print, text: &[u8], choices: &[u16]) -> io::Result<()> {
    let mut plate = [0u8; 132];
    if let Ok(k) = writing::write_plate(text, &mut plate) {
        difference(rt, text, &plate[..k.min(132)], choices)?;
    }
    Ok(())
}

// `A` where the rows agree, `D` with position, value and worth of the first difference, or the refusal.
fn difference(rt: &impl Print, text: &[u8], plate: &[u8], choices: &[u16]) -> io::Result<()> {
    match comparing::compare(text, plate, choices) {
        Ok(None) => writer::four(rt, b"A", 0, 0, 0, 0)?,
        Ok(
            Some(
                Difference {
                    position: v,
                    value,
                    worth,
                },
            ),
        ) => writer::four(rt, b"D", v, value as usize, worth as usize, 0)?,
        Err(refusal) => writer::refused(rt, refusal)?,
    }
    Ok(())
}
