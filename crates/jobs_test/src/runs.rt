// Runs: a start or a report, `A` with the run's position, disturbances seen, starting value and held value, then choice and value; or `R`,
// number and line, for 14 the fault's position and condition, for a report the run's four numbers. A step is a letter and fields: `S` and a
// position, a start; `G` and a target, a report of the run that the case before left, with the case's own texts; `T`, a target, a position
// and a count, the same after so many reports of the target and the position in turn. `max` is the largest number.
use crate::Texts;
use crate::writer::number;
use refusal::{Numbers, Refusal};
use run::{Advice, Run};
use std::fmt::Display;
use std::io;

// The answer to a step, and the run after it.
pub fn step(rt: &impl Print, texts: Texts, run: Run) -> io::Result<Run> {
    if texts.words.len() < 6 {
        return Ok(run);
    }
    let to = number(texts.words, 1, usize::MAX);
    if texts.words[0] == b'S' {
        return start(rt, texts.chart, texts.plate, to);
    }
    report(rt, turned(texts, run, to), texts.chart, texts.plate, to)
}

// The run that a report is of: the one left, after the turns that the step's fields ask for.
fn turned(texts: Texts, run: Run, to: usize) -> Run {
    if texts.words.len() < 16 {
        return run;
    }
    let back = number(texts.words, 6, usize::MAX);
    let count = number(texts.words, 11, usize::MAX);
    let mut after = run;
    for _ in 0..count {
        after = went(went(after, texts, to), texts, back);
    }
    after
}

// The run that a report hands back.
fn went(run: Run, texts: Texts, to: usize) -> Run {
    let r = run.report(texts.chart, texts.plate, to);
    r.run
}

// A start's answer; the run that began, or none.
fn start(rt: &impl Print, chart: &[u8], plate: &[u8], position: usize) -> io::Result<Run> {
    match Run::start(chart, plate, position) {
        Ok((run, advice)) => taken(rt, run, advice),
        Err(refusal) => {
            refused(rt, refusal)?;
            Ok(Run::none())
        }
    }
}

// A report's answer, and the run that it hands back.
fn report(rt: &impl Print, run: Run, chart: &[u8], plate: &[u8], to: usize) -> io::Result<Run> {
    let r = run.report(chart, plate, to);
    let after = r.run;
    let answer = r.answer;
    match answer {
        Ok(advice) => taken(rt, after, advice),
        Err(refusal) => {
            refused(rt, refusal)?;
            show_run(rt, after)?;
            Ok(after)
        }
    }
}

fn taken(rt: &impl Print, run: Run, advice: Advice) -> io::Result<Run> {
    rt.write_all(b"A")?;
    show_run(rt, run)?;
    show(rt, advice.choice)?;
    show(rt, advice.value)?;
    Ok(run)
}

pub fn refused(rt: &impl Print, refusal: Refusal) -> io::Result<()> {
    let r = Numbers::from(refusal);
    rt.write_all(b"R")?;
    show(rt, r.number)?;
    show(rt, r.line)?;
    if r.number == 14 {
        show(rt, r.position)?;
        show(rt, r.condition)?;
    }
    Ok(())
}

pub fn show_run(rt: &impl Print, run: Run) -> io::Result<()> {
    show(rt, run.position())?;
    show(rt, run.seen())?;
    show(rt, run.initial())?;
    show(rt, run.value())
}

pub fn show<T: Display + Drop>(rt: &impl Print, x: T) -> io::Result<()> {
    rt.write_all(b" ")?;
    rt.print(x)
}
