// Houses: a step is a letter and fields. `S` and positions begin a house, a run at each, with the case's texts; a lane whose start is refused
// has no run. `P` and a lane put the run that the cases before left there. `G`, a count of lanes and reports are a report of the house that the
// cases before left, with the case's own texts. Its answer is `A` with the lanes moved, or the refusal as for a run, `at` its lane, and then how
// many records are to be put back. Under the name stands each of the 64 lanes that has a run, with the run's four numbers.
ghost use Rattle.std.specs.Prelude.{◌≤◌};

use crate::plates::{part, row_of};
use crate::writer::number;
use crate::{Texts, runs, writer};
use house::{House, drive};
use run::Run;
use std::io;

pub type Lanes = [Run; Run::LANES];

// A house with no run.
pub fn empty() -> Lanes {
    [Run::none(); Run::LANES]
}

// A step's answer and name, and the lanes after it.
pub fn show(rt: &impl Print, texts: Texts, run: Run, lanes: Lanes) -> io::Result<Lanes> {
    let after = step(rt, texts, run, lanes)?;
    rt.write_all(b"  ")?;
    writer::name(rt, texts.name)?;
    show_lanes(rt, after)?;
    Ok(after)
}

fn step(rt: &impl Print, texts: Texts, run: Run, lanes: Lanes) -> io::Result<Lanes> {
    let words = texts.words;
    if words.len() < 6 {
        return Ok(lanes);
    }
    let x = number(words, 1, usize::MAX);
    match words[0] {
        b'S' => {
            rt.write_all(b"S")?;
            Ok(start(texts))
        }
        b'P' => {
            rt.write_all(b"P")?;
            Ok(put(lanes, x, run))
        }
        _ => report(rt, texts, x, &words[6..], lanes),
    }
}

fn start(texts: Texts) -> Lanes {
    let mut lanes = empty();
    for lane in 0..Run::LANES {
        lanes[lane] = start_lane(texts, lane * 5 + 1);
    }
    lanes
}

// A run at the position at `at`, or none.
fn start_lane(texts: Texts, at: usize) -> Run
    requires { at ≤ 316 }
{
    if texts.words.len() < at + 5 {
        return Run::none();
    }
    let position = number(texts.words, at, usize::MAX);
    match Run::start(texts.chart, texts.plate, position) {
        Ok((run, _)) => run,
        Err(_) => Run::none(),
    }
}

fn put(lanes: Lanes, lane: usize, run: Run) -> Lanes {
    let mut after = lanes;
    if lane < Run::LANES {
        after[lane] = run;
    }
    after
}

fn report(
    rt: &impl Print,
    texts: Texts,
    count: usize,
    fields: &[u8],
    lanes: Lanes,
) -> io::Result<Lanes> {
    let row = row_of(fields);
    let reports = part(&row, fields);
    answer(rt, drive(lanes, count, reports, texts.chart, texts.plate))
}

fn answer(rt: &impl Print, house: House) -> io::Result<Lanes> {
    let lanes = house.runs;
    let answer = house.answer;
    match answer {
        Ok(count) => {
            rt.write_all(b"A")?;
            runs::show(rt, count as u64)?;
        }
        Err((lane, refusal)) => {
            runs::refused(rt, refusal)?;
            rt.write_all(b" at")?;
            runs::show(rt, lane as u64)?;
        }
    }
    rt.write_all(b" of")?;
    runs::show(rt, house.written)?;
    Ok(lanes)
}

fn show_lanes(rt: &impl Print, lanes: Lanes) -> io::Result<()> {
    for (lane, run) in lanes.iter().enumerate() {
        show_lane(rt, lane, *run)?;
    }
    rt.write_all(b"\n")
}

fn show_lane(rt: &impl Print, lane: usize, run: Run) -> io::Result<()> {
    let nowhere = run.position() == usize::MAX;
    if nowhere & (run.seen() == 0) & (run.initial() == 0) & (run.value() == 0) {
        return Ok(());
    }
    rt.write_all(b"  ")?;
    rt.print(lane)?;
    rt.write_all(b":")?;
    runs::show_run(rt, run)
}
