// Asks the jobs about charts, plates, steps and rows of choices, good and bad, and writes what each answers and what the case is.
// `stdin` has the cases, `stdout` what the documents say of each. The first letter of a case's name is its job: `E` examines a chart, `C`
// is Checking, `R` Reading, `W` the program's answer, `S` a step of a run, `D` Comparing, `G` Listing, `P` the way to ruin, `H` a step of a
// house, `V` Valuing, the filed way and the plain one, `N` the small chart of an index and `I` the index of a small chart.
#![tactic(auto)]

ghost use Rattle.cases.specs.CaseLaws.{Ordered};
ghost use Rattle.std.specs.Prelude.{length};

use crate::houses::Lanes;
use cases::{Case, case_at};
use input::read_full;
use run::Run;
use std::io;

mod charts;
mod houses;
mod plates;
mod runs;
mod sheets;
mod small;
mod values;
mod ways;
mod writer;

// Where the next case begins, and what it goes on with.
#[derive(Clone, Copy)]
struct Next {
    at: usize,
    held: Held,
}

// What the cases leave to each other: a run, and the lanes of a house.
#[derive(Clone, Copy)]
struct Held {
    run: Run,
    lanes: Lanes,
}

// A case's texts: its name without the letter, and the three that its job takes.
#[derive(Clone, Copy)]
pub struct Texts<'a> {
    name: &'a [u8],
    chart: &'a [u8],
    plate: &'a [u8],
    words: &'a [u8],
}

// The input is longer than 65,536 bytes.
fn main(rt: HostRuntime) -> io::Result<()> {
    let mut input = [0u8; 262144];
    let got = read_full(&mut rt.stdin(), &mut input)?;
    cases(&rt, &input[..got])?;
    charts::longest(&rt)?;
    charts::rows(&rt)?;
    charts::resting_rows(&rt)?;
    plates::rows(&rt)?;
    sheets::longest(&rt)
}

// The cases of the input, of which there are fewer than 2,000.
fn cases(rt: &impl Print, input: &[u8]) -> io::Result<()> {
    let mut at: usize = 0;
    let mut held = Held {
        run: Run::none(),
        lanes: houses::empty(),
    };
    for _ in 0..2000 {
        let next = show_case(rt, input, case_at(input, at), held)?;
        at = next.at;
        held = next.held;
    }
    Ok(())
}

// Shows a case. Past the input's end it shows nothing.
fn show_case(rt: &impl Print, input: &[u8], c: Case, held: Held) -> io::Result<Next>
    requires { Ordered (length input.now) c }
{
    let Case {
        name,
        first,
        second,
        third,
        end,
    } = c;
    if input.len() <= end {
        return Ok(Next {
            at: input.len(),
            held,
        });
    }
    let mut after = held;
    if let Some((job, rest)) = input[name..first].split_first() {
        let texts = Texts {
            name: rest,
            chart: &input[first..second],
            plate: &input[second..third],
            words: &input[third..end],
        };
        after = show(rt, *job, texts, held)?;
    }
    Ok(Next {
        at: end + 1,
        held: after,
    })
}

// The answer and the name; a plate, a sheet or lanes stand under its name. Answers what is held after the case.
fn show(rt: &impl Print, job: u8, texts: Texts, held: Held) -> io::Result<Held> {
    let mut after = held;
    match job {
        b'W' => {
            writer::name(rt, texts.name)?;
            charts::respond(rt, texts.chart)?;
        }
        b'G' => sheets::list(rt, texts)?,
        b'P' => ways::list(rt, texts)?,
        b'V' => values::show(rt, texts)?,
        b'N' => small::generate(rt, texts)?,
        b'H' => after.lanes = houses::show(rt, texts, held.run, held.lanes)?,
        _ => {
            after.run = answer(rt, job, texts, held.run)?;
            rt.write_all(b"  ")?;
            writer::name(rt, texts.name)?;
        }
    }
    Ok(after)
}

fn answer(rt: &impl Print, job: u8, texts: Texts, run: Run) -> io::Result<Run> {
    match job {
        b'S' => return runs::step(rt, texts, run),
        b'E' => charts::examine(rt, texts.chart)?,
        b'C' => plates::check(rt, texts.chart, texts.plate)?,
        b'R' => plates::read(rt, texts.chart, texts.plate)?,
        b'D' => plates::compare(rt, texts)?,
        b'I' => small::index(rt, texts.chart)?,
        _ => {}
    }
    Ok(run)
}
