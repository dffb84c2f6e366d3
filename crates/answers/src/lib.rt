// The jobs' answers as C has them: numbers in structs that lie as C's do. Each is the result's own numbers, or the refusal's by the one
// table and zeros.
#![tactic(auto)]

ghost use Rattle.std.specs.Prelude.{◌≡◌};
ghost use Rattle.answers.specs.Numbers.{answer_numbers, compared_numbers, count_numbers, housed_numbers, reading_numbers, refusal_numbers, refused_step, reported_numbers, started_numbers, valued_numbers};

use comparing::Difference;
use refusal::{Numbers, Refusal};
use rows::FirstLine;
use run::{Advice, Reported, Run};

#[repr(C)]
#[derive(Clone, Copy)]
pub struct ValuedNumbers {
    pub refusal: Numbers,
    pub rounds: u16,
}

// A job that answers one number: a length in bytes (Writing, Generating), a count of lines (the sheets) or an index (Indexing). C has a name
// of its own for each.
#[repr(C)]
#[derive(Clone, Copy)]
pub struct CountNumbers {
    pub refusal: Numbers,
    pub count: usize,
}

#[repr(C)]
#[derive(Clone, Copy)]
pub struct ReadingNumbers {
    pub refusal: Numbers,
    pub first: FirstLine,
}

#[repr(C)]
#[derive(Clone, Copy)]
pub struct ComparedNumbers {
    pub refusal: Numbers,
    pub agree: bool,
    pub position: usize,
    pub value: u16,
    pub worth: u16,
}

// A run that was started or moved on, or that a refusal left as it was.
#[repr(C)]
#[derive(Clone, Copy)]
pub struct Step {
    pub refusal: Numbers,
    pub run: Run,
    pub advice: Advice,
}

// A house's report: the refused lane, 0 where none is or the whole house is, and how many lanes moved.
#[repr(C)]
#[derive(Clone, Copy)]
pub struct HouseNumbers {
    pub refusal: Numbers,
    pub lane: usize,
    pub moved: usize,
}

pub fn valued_numbers(answer: Result<u16, Refusal>) -> ValuedNumbers
    ensures { result ≡ valued_numbers answer }
{
    match answer {
        Ok(rounds) => ValuedNumbers {
            refusal: Numbers::none(),
            rounds,
        },
        Err(r) => ValuedNumbers {
            refusal: Numbers::from(r),
            rounds: 0,
        },
    }
}

pub fn count_numbers(answer: Result<usize, Refusal>) -> CountNumbers
    ensures { result ≡ count_numbers answer }
{
    match answer {
        Ok(count) => CountNumbers {
            refusal: Numbers::none(),
            count,
        },
        Err(r) => CountNumbers {
            refusal: Numbers::from(r),
            count: 0,
        },
    }
}

pub fn reading_numbers(answer: Result<FirstLine, Refusal>) -> ReadingNumbers
    ensures { result ≡ reading_numbers answer }
{
    match answer {
        Ok(first) => ReadingNumbers {
            refusal: Numbers::none(),
            first,
        },
        Err(r) => ReadingNumbers {
            refusal: Numbers::from(r),
            first: FirstLine {
                rounds: 0,
                highest: 0,
                evers: 0,
            },
        },
    }
}

// The numbers of a job that answers nothing but whether it refuses: Checking's and Weighing's.
pub fn refusal_numbers(answer: Result<(), Refusal>) -> Numbers
    ensures { result ≡ refusal_numbers answer }
{
    match answer {
        Ok(()) => Numbers::none(),
        Err(r) => Numbers::from(r),
    }
}

pub fn compared_numbers(answer: Result<Option<Difference>, Refusal>) -> ComparedNumbers
    ensures { result ≡ compared_numbers answer }
{
    match answer {
        Ok(None) => ComparedNumbers {
            refusal: Numbers::none(),
            agree: true,
            position: 0,
            value: 0,
            worth: 0,
        },
        Ok(Some(d)) => ComparedNumbers {
            refusal: Numbers::none(),
            agree: false,
            position: d.position,
            value: d.value,
            worth: d.worth,
        },
        Err(r) => ComparedNumbers {
            refusal: Numbers::from(r),
            agree: false,
            position: 0,
            value: 0,
            worth: 0,
        },
    }
}

pub fn started_numbers(answer: Result<(Run, Advice), Refusal>) -> Step
    ensures { result ≡ started_numbers answer }
{
    match answer {
        Ok((run, advice)) => Step {
            refusal: Numbers::none(),
            run,
            advice,
        },
        Err(r) => refused_step(r, Run::none()),
    }
}

pub fn reported_numbers(reported: Reported) -> Step
    ensures { result ≡ reported_numbers reported }
{
    let run = reported.run;
    let answer = reported.answer;
    answer_numbers(run, answer)
}

fn answer_numbers(run: Run, answer: Result<Advice, Refusal>) -> Step
    ensures { result ≡ answer_numbers run answer }
{
    match answer {
        Ok(advice) => Step {
            refusal: Numbers::none(),
            run,
            advice,
        },
        Err(r) => refused_step(r, run),
    }
}

// A refusal with the run that comes back, and no advice.
fn refused_step(refusal: Refusal, run: Run) -> Step
    ensures { result ≡ refused_step refusal run }
{
    Step {
        refusal: Numbers::from(refusal),
        run,
        advice: Advice {
            choice: 0,
            value: 0,
        },
    }
}

pub fn housed_numbers(answer: Result<usize, (usize, Refusal)>) -> HouseNumbers
    ensures { result ≡ housed_numbers answer }
{
    match answer {
        Ok(moved) => HouseNumbers {
            refusal: Numbers::none(),
            lane: 0,
            moved,
        },
        Err((lane, r)) => HouseNumbers {
            refusal: Numbers::from(r),
            lane,
            moved: 0,
        },
    }
}
