// Runs: a start and reports, each with texts of its own, held against the definitions. The texts are those of two charts: each with its
// plate, with another optimal plate, with a plate that is mostly wrong, and the chart with another mark with its plate.
use reference::altered::{change, ways};
use reference::checker::{Fault, first_fault};
use reference::definition::{GREATEST, Weight, over, solve, target};
use reference::generate::{below, build};
use reference::sheet::{
    CHOICE, CONTROLLER, COUNTS, Chart, DISTURBED, LANE, MEANT, NONE, RIGHT, Table, VALUE, cell,
    get, is_unsafe, owner, positions, put, put_line, wide,
};
use reference::tally::{Tally, add, expect};
use reference::text::{part, write_chart, write_plate};
use refusal::{Numbers, Refusal};
use run::{Advice, Reported, Run};
use std::io;

// What is counted, in the order in which it is written: runs begun and not begun; reports that were taken as meant and as disturbances, and
// refused with 13, 14, 18 and 15; and those taken that were lent other texts than the step taken before.
pub const COUNTED: usize = 9;

const BEGUN: usize = 0;

const NOT_BEGUN: usize = 1;

const MEANT_MOVES: usize = 2;

const DISTURBANCES: usize = 3;

const SWAPPED: usize = 8;

// The most disturbances that a run counts.
const MOST: usize = 99999;

// What a step asks: a start at a position, or a report of a target.
#[derive(Clone, Copy)]
enum Asked {
    Start(usize),
    Report(usize),
}

// A chart: its kind, and its number or what it is drawn from.
#[derive(Clone, Copy)]
pub struct Card {
    pub kind: usize,
    pub number: usize,
    pub seed: usize,
}

// A run by the definitions.
#[derive(Clone, Copy)]
struct Model {
    position: usize,
    seen: usize,
    initial: usize,
    value: usize,
}

// The library's run, the same by the definitions, and the texts of the last step that was taken.
#[derive(Clone, Copy)]
struct Followed {
    run: Run,
    model: Model,
    texts: usize,
}

// What the library answers to a start or a report.
#[derive(Clone, Copy)]
pub struct Step {
    pub refusal: Numbers,
    pub run: Run,
    pub advice: Advice,
}

// What the definitions answer: the refusal's number, 0 for none, its position and condition, and the run.
#[derive(Clone, Copy)]
struct Due {
    number: usize,
    position: usize,
    condition: usize,
    model: Model,
}

// A run that begins on the first chart, and twelve reports.
pub fn compare_run(
    rt: &impl Print,
    first: Card,
    second: Card,
    seed: &mut usize,
    tally: &mut Tally,
) -> io::Result<()> {
    let mut followed = start(rt, first, seed, tally)?;
    for _ in 0..12 {
        followed = report(rt, followed, first, second, below(seed, 12), seed, tally)?;
    }
    Ok(())
}

// The start: once in sixteen on a wrong plate.
fn start(rt: &impl Print, card: Card, seed: &mut usize, tally: &mut Tally) -> io::Result<Followed> {
    let mut chart = [0usize; 32768];
    let mut table = [0usize; 4096];
    let way = if below(seed, 16) == 0 { WRONG } else { OWN };
    let none = Followed {
        run: Run::none(),
        model: nobody(),
        texts: way,
    };
    lend(&mut chart, &mut table, card, way, seed);
    // Without a move it is no chart.
    if cell(&chart, RIGHT, 0) == 0 {
        return Ok(none);
    }
    let position = draw_start(&chart, seed);
    let asked = Asked::Start(position);
    compare_step(rt, &chart, &table, none, asked, way, tally)
}

// A position, or once in sixteen the first number that is none.
pub fn draw_start(chart: &Chart, seed: &mut usize) -> usize {
    let n = positions(chart) % 1024;
    if below(seed, 16) == 0 {
        n
    } else {
        below(seed, n)
    }
}

// A report with the texts of a number: eight of twelve are of the first chart.
fn report(
    rt: &impl Print,
    before: Followed,
    first: Card,
    second: Card,
    texts: usize,
    seed: &mut usize,
    tally: &mut Tally,
) -> io::Result<Followed> {
    let mut chart = [0usize; 32768];
    let mut table = [0usize; 4096];
    let card = if texts < 8 { first } else { second };
    lend(&mut chart, &mut table, card, texts % 4, seed);
    if cell(&chart, RIGHT, 0) == 0 {
        return Ok(before);
    }
    let at = before.model.position;
    let asked = Asked::Report(draw_target(&chart, &table, at, seed));
    let texts = texts / 8 * 4 + texts % 4;
    compare_step(rt, &chart, &table, before, asked, texts, tally)
}

// The ways in which a chart is lent.
pub const OWN: usize = 0;

const OPTIMAL: usize = 1;

const WRONG: usize = 2;

const MARKED: usize = 3;

pub fn lend(chart: &mut Chart, table: &mut Table, card: Card, way: usize, seed: &mut usize) {
    let mut from = card.seed;
    build(chart, card.kind, card.number, &mut from);
    if way == MARKED {
        mark(chart, card.seed);
    }
    solve(chart, table);
    if way == OPTIMAL {
        choose_good(chart, table, below(seed, positions(chart)), seed);
    }
    if way == WRONG {
        let codes = positions(chart) % 1024 * 6 + 6;
        change(table, positions(chart), below(seed, codes));
    }
}

// The other mark for a position, the same each time.
pub fn mark(chart: &mut Chart, number: usize) {
    let n = positions(chart);
    if 0 < n {
        let v = number % n;
        let other = usize::from(!is_unsafe(chart, v));
        put_line(chart, v % 512 + 1, owner(chart, v), v, other);
    }
}

// Another choice at a position, where a move that is as good is drawn.
fn choose_good(chart: &Chart, table: &mut Table, v: usize, seed: &mut usize) {
    if owner(chart, v) == CONTROLLER {
        let t = target(chart, v, MEANT, below(seed, ways(chart, v)));
        if get(table, VALUE, v) <= get(table, VALUE, t) {
            put(table, CHOICE, v, t);
        }
    }
}

// Where the machine goes: by the choice, a meant move or a disturbance, or anywhere, one position further than the chart has.
pub fn draw_target(chart: &Chart, table: &Table, v: usize, seed: &mut usize) -> usize {
    let way = below(seed, 8);
    if way < 3 && owner(chart, v) == CONTROLLER {
        return get(table, CHOICE, v);
    }
    let kind = if way < 4 { MEANT } else { DISTURBED };
    let count = cell(chart, COUNTS, kind % 4096 + v % 512);
    if (0 < count) & (way < 7) {
        return target(chart, v, kind, below(seed, count));
    }
    below(seed, positions(chart) % 1024 + 1)
}

// The library's answer beside what is due by the definitions.
fn compare_step(
    rt: &impl Print,
    chart: &Chart,
    table: &Table,
    before: Followed,
    asked: Asked,
    texts: usize,
    tally: &mut Tally,
) -> io::Result<Followed> {
    let mut page = [b'#'; 65536];
    let mut plate = [b'#'; 65536];
    let size = write_chart(&mut page, chart);
    let length = write_plate(&mut plate, table, positions(chart));
    let text = part(&page, size);
    let from = before.model;
    let due = answer_due(chart, table, from, asked);
    let step = answer(before.run, asked, text, part(&plate, length));
    count_step(due, from, asked, before.texts != texts, tally);
    expect(rt, same_step(step, due, table), b"a run", text, tally)?;
    expect(
        rt,
        sustained(chart, due),
        b"what a run promises",
        text,
        tally,
    )?;
    let run = step.run;
    let model = due.model;
    let last = if due.number == 0 { texts } else { before.texts };
    Ok(Followed {
        run,
        model,
        texts: last,
    })
}

fn answer(run: Run, asked: Asked, text: &[u8], plate: &[u8]) -> Step {
    match asked {
        Asked::Start(position) => start_step(Run::start(text, plate, position)),
        Asked::Report(to) => report_step(run.report(text, plate, to)),
    }
}

pub fn start_step(started: Result<(Run, Advice), Refusal>) -> Step {
    match started {
        Ok((run, advice)) => taken_step(run, advice),
        Err(r) => refused_step(Run::none(), Numbers::from(r)),
    }
}

pub fn report_step(reported: Reported) -> Step {
    let run = reported.run;
    let answer = reported.answer;
    match answer {
        Ok(advice) => taken_step(run, advice),
        Err(r) => refused_step(run, Numbers::from(r)),
    }
}

fn taken_step(run: Run, advice: Advice) -> Step {
    Step {
        refusal: Numbers::none(),
        run,
        advice,
    }
}

fn refused_step(run: Run, refusal: Numbers) -> Step {
    let advice = Advice {
        choice: 0,
        value: 0,
    };
    Step {
        refusal,
        run,
        advice,
    }
}

fn answer_due(chart: &Chart, table: &Table, from: Model, asked: Asked) -> Due {
    match asked {
        Asked::Start(position) => started(chart, table, position),
        Asked::Report(to) => reported(chart, table, from, to),
    }
}

fn count_step(due: Due, from: Model, asked: Asked, swapped: bool, tally: &mut Tally) {
    let after = due.model;
    let number = due.number;
    if let Asked::Start(_) = asked {
        add(tally, if number == 0 { BEGUN } else { NOT_BEGUN }, 1);
        return;
    }
    let taken = if after.seen == from.seen {
        MEANT_MOVES
    } else {
        DISTURBANCES
    };
    let k = match number {
        0 => taken,
        13 => 4,
        14 => 5,
        18 => 6,
        _ => 7,
    };
    add(tally, k, 1);
    if (number == 0) & swapped {
        add(tally, SWAPPED, 1);
    }
}

// The whole answer: the refusal, the run, and the choice and the value where it stands, which are 0 on a refusal.
fn same_step(step: Step, due: Due, table: &Table) -> bool {
    let model = due.model;
    let (choice, value) = if due.number == 0 {
        (
            get(table, CHOICE, model.position),
            get(table, VALUE, model.position),
        )
    } else {
        (0, 0)
    };
    let advised = (wide(step.advice.choice) == choice) & (wide(step.advice.value) == value);
    same_refusal(step, due) & same_run(step.run, model) & advised
}

fn same_refusal(step: Step, due: Due) -> bool {
    let refusal = step.refusal;
    let placed = (refusal.line == 0) & (refusal.position == due.position);
    placed & (refusal.number as usize == due.number) & (refusal.condition as usize == due.condition)
}

fn same_run(run: Run, model: Model) -> bool {
    let counts = (run.position() == model.position) & (run.seen() as usize == model.seen);
    counts & (run.initial() as usize == model.initial) & (run.value() as usize == model.value)
}

// After a start or a report that is taken: held value plus disturbances seen is at least the starting value, and the held value is the position's by
// the definition of values, whatever the plate says.
fn sustained(chart: &Chart, due: Due) -> bool {
    if due.number != 0 {
        return true;
    }
    let model = due.model;
    let mut solved = [0usize; 4096];
    solve(chart, &mut solved);
    let sum = if model.value == NONE {
        NONE
    } else {
        model.value % 65536 + model.seen % 131072
    };
    let kept = if model.initial == NONE {
        sum == NONE
    } else {
        model.initial <= sum
    };
    kept & (get(&solved, VALUE, model.position) == model.value)
}

// No run, which is on no chart.
fn nobody() -> Model {
    Model {
        position: usize::MAX,
        seen: 0,
        initial: 0,
        value: 0,
    }
}

// A start by the documents: 13, then 14.
fn started(chart: &Chart, table: &Table, position: usize) -> Due {
    if positions(chart) <= position {
        return refused(13, nobody());
    }
    if let Some(fault) = first_fault(chart, table) {
        return faulted(fault, nobody());
    }
    let value = get(table, VALUE, position);
    taken(Model {
        position,
        seen: 0,
        initial: value,
        value,
    })
}

// A report by the documents: 13, 14, 18, 15, 16.
fn reported(chart: &Chart, table: &Table, from: Model, to: usize) -> Due {
    let v = from.position;
    if (positions(chart) <= v) | (positions(chart) <= to) {
        return refused(13, from);
    }
    if let Some(fault) = first_fault(chart, table) {
        return faulted(fault, from);
    }
    if get(table, VALUE, v) != from.value {
        return refused(18, from);
    }
    if follows(chart, table, v, to) {
        return taken(moved(table, from, to, from.seen));
    }
    if over(chart, table, v, DISTURBED, Weight::Named(to), GREATEST) != 1 {
        return refused(15, from);
    }
    if MOST <= from.seen {
        return refused(16, from);
    }
    taken(moved(table, from, to, from.seen + 1))
}

// A meant move that follows without a disturbance: at O the choice, at L any, at R none.
fn follows(chart: &Chart, table: &Table, v: usize, to: usize) -> bool {
    let meant = over(chart, table, v, MEANT, Weight::Named(to), GREATEST) == 1;
    if owner(chart, v) == LANE {
        return meant;
    }
    if owner(chart, v) == CONTROLLER {
        return meant & (get(table, CHOICE, v) == to);
    }
    false
}

fn moved(table: &Table, from: Model, to: usize, seen: usize) -> Model {
    Model {
        position: to,
        seen,
        initial: from.initial,
        value: get(table, VALUE, to),
    }
}

fn taken(model: Model) -> Due {
    refused(0, model)
}

fn refused(number: usize, model: Model) -> Due {
    Due {
        number,
        position: 0,
        condition: 0,
        model,
    }
}

fn faulted(fault: Fault, model: Model) -> Due {
    Due {
        number: 14,
        position: fault.position,
        condition: fault.condition,
        model,
    }
}
