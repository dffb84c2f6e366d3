// Holds the library's jobs against the definitions, chart by chart, and counts. Lent rows and buffers are filled before, so that what
// lies past the last position or line is seen to stay.
use crate::listed::compare_sheets;
use comparing::{Difference, compare};
use reading::read_plate;
use reference::altered::{change, choose, choose_drawn, ways};
use reference::answers::{length_of, numbers_of};
use reference::checker::{Fault, first_fault};
use reference::definition::{solve, weigh_choices};
use reference::generate::below;
use reference::sheet::{
    CHOICE, Chart, HEADER, NONE, RIGHT, STEP, Table, VALUE, WORTH, cell, first_difference, get,
    positions, rests, wide,
};
use reference::tally::{Tally, add, expect};
use reference::text::{part, write_chart, write_plate};
use refusal::{Numbers, Refusal};
use rows::FirstLine;
use std::io;
use valuing::{value_chart, value_plain};
use weighing::weigh_chart;

// What is counted, in the order in which it is written. Plates that were refused are counted by the condition.
const CHARTS: usize = 0;

const POSITIONS: usize = 1;

const MOVES: usize = 2;

const ROUNDS: usize = 3;

const HIGHEST: usize = 4;

const CHECKSUM: usize = 5;

const CONTROLLERS: usize = 6;

const ACCEPTED: usize = 7;

pub const LINES: usize = 14;

pub const OPTIMAL: usize = 15;

pub const OTHERS: usize = 16;

// Positions of rest.
pub const RESTS: usize = 18;

// What lent rows are filled with.
const FILLED: u16 = 4660;

// A chart, what the definitions give to its positions, and its text.
#[derive(Clone, Copy)]
pub struct Case<'a> {
    pub chart: &'a Chart,
    pub table: &'a Table,
    pub text: &'a [u8],
}

// Three rows that are lent.
#[derive(Drop)]
pub struct Rows {
    pub values: [u16; 512],
    pub choices: [u16; 512],
    pub steps: [u16; 512],
}

impl Rows {
    pub fn filled() -> Rows {
        Rows {
            values: [FILLED; 512],
            choices: [FILLED; 512],
            steps: [FILLED; 512],
        }
    }

    // The rows have the table's first n entries, and the rest of them stayed.
    pub fn are(&self, table: &Table, n: usize) -> bool {
        same_row(table, VALUE, n, &self.values)
            && same_row(table, CHOICE, n, &self.choices)
            && same_row(table, STEP, n, &self.steps)
    }
}

// A lent row has a column's first n entries, and the rest of it stayed.
fn same_row(table: &Table, column: usize, n: usize, row: &[u16; 512]) -> bool {
    row.iter().enumerate().all(|(v, x)| {
        let wanted = if v < n {
            get(table, column, v)
        } else {
            wide(FILLED)
        };
        wide(*x) == wanted
    })
}

// All comparisons of one chart.
pub fn compare_chart(
    rt: &impl Print,
    chart: &Chart,
    seed: &mut usize,
    tally: &mut Tally,
) -> io::Result<()> {
    let mut page = [b'#'; 65536];
    let size = write_chart(&mut page, chart);
    let mut table = [0usize; 4096];
    solve(chart, &mut table);
    count_chart(chart, &table, tally);
    let case = Case {
        chart,
        table: &table,
        text: part(&page, size),
    };
    compare_jobs(rt, case, seed, tally)
}

fn count_chart(chart: &Chart, table: &Table, tally: &mut Tally) {
    let n = positions(chart);
    add(tally, CHARTS, 1);
    add(tally, POSITIONS, n);
    add(tally, MOVES, cell(chart, RIGHT, 0));
    add(tally, ROUNDS, get(table, HEADER, 0));
    add(tally, CHECKSUM, checksum(table, n));
    add(tally, RESTS, rests(chart));
    let highest = get(table, HEADER, 1);
    if highest != NONE {
        tally[HIGHEST] = tally[HIGHEST].max(highest);
    }
}

// A number that changes with the values, the choices and the steps.
fn checksum(table: &Table, n: usize) -> usize {
    let mut sum = 0;
    for v in 0..n {
        let more = get(table, VALUE, v) % 65536 * 7 + get(table, CHOICE, v) % 65536 * 5;
        sum = (sum % 1000003 * 31 + more + get(table, STEP, v) % 65536) % 1000003;
    }
    sum
}

fn compare_jobs(
    rt: &impl Print,
    case: Case,
    seed: &mut usize,
    tally: &mut Tally,
) -> io::Result<()> {
    compare_values(rt, case, tally)?;
    compare_plate(rt, case, tally)?;
    compare_check(rt, case, case.table, tally)?;
    change_plates(rt, case, seed, tally)?;
    weigh_controllers(rt, case, seed, tally)?;
    compare_sheets(rt, case, tally)
}

// Valuing, the filed way and the plain one: three rows and the rounds.
fn compare_values(rt: &impl Print, case: Case, tally: &mut Tally) -> io::Result<()> {
    let text = case.text;
    let filed = same_values(case, |v, c, s| rounds_of(value_chart(text, v, c, s)));
    expect(rt, filed, b"valuing", text, tally)?;
    let plain = same_values(case, |v, c, s| rounds_of(value_plain(text, v, c, s)));
    expect(rt, plain, b"valuing the plain way", text, tally)
}

fn same_values<F: FnOnce(&mut [u16], &mut [u16], &mut [u16]) -> usize>(case: Case, value: F) -> bool
    requires { F.IsAlwaysCallable value }
{
    let mut rows = Rows::filled();
    let rounds = value(&mut rows.values, &mut rows.choices, &mut rows.steps);
    rows.are(case.table, positions(case.chart)) & (rounds == get(case.table, HEADER, 0))
}

// The rounds, or a number that no chart has.
fn rounds_of(answer: Result<u16, Refusal>) -> usize {
    match answer {
        Ok(r) => wide(r),
        Err(_) => 99999,
    }
}

// Writing: the bytes and the length; then Reading of what was written.
fn compare_plate(rt: &impl Print, case: Case, tally: &mut Tally) -> io::Result<()> {
    let mut page = [b'#'; 65536];
    let mut written = [b'#'; 65536];
    let size = write_plate(&mut page, case.table, positions(case.chart));
    let answer = length_of(writing::write_plate(case.text, &mut written));
    let same = page == written;
    expect(rt, same & (answer == size), b"writing", case.text, tally)?;
    compare_reading(rt, case, part(&written, size), tally)
}

// Reading: three rows and the first line's numbers.
fn compare_reading(rt: &impl Print, case: Case, plate: &[u8], tally: &mut Tally) -> io::Result<()> {
    let mut rows = Rows::filled();
    let answer = read_plate(
        case.text,
        plate,
        &mut rows.values,
        &mut rows.choices,
        &mut rows.steps,
    );
    let same = rows.are(case.table, positions(case.chart)) & same_header(case.table, answer);
    expect(rt, same, b"reading", case.text, tally)
}

fn same_header(table: &Table, answer: Result<FirstLine, Refusal>) -> bool {
    let Ok(header) = answer else {
        return false;
    };
    [header.rounds, header.highest, header.evers]
        .iter()
        .enumerate()
        .all(|(k, x)| wide(*x) == get(table, HEADER, k))
}

// Checking: the plate of a table, good or bad.
fn compare_check(rt: &impl Print, case: Case, table: &Table, tally: &mut Tally) -> io::Result<()> {
    let mut page = [b'#'; 65536];
    let size = write_plate(&mut page, table, positions(case.chart));
    let answer = numbers_of(checking::check(case.text, part(&page, size)));
    let fault = first_fault(case.chart, table);
    let condition = fault.map_or(0, |f| f.condition);
    add(tally, ACCEPTED + condition % 7, 1);
    expect(
        rt,
        same_answer(answer, fault),
        b"checking",
        case.text,
        tally,
    )
}

// Accepted, or 14 with position and condition.
fn same_answer(answer: Numbers, fault: Option<Fault>) -> bool {
    let (number, position, condition) = match fault {
        None => (0, 0, 0),
        Some(f) => (14, f.position, f.condition),
    };
    let placed = (answer.line == 0) & (answer.position == position);
    placed & (answer.number == number) & (usize::from(answer.condition) == condition)
}

// Plates in which one entry is changed, or two: in a small chart each change of one by itself, and as many of those that are drawn.
fn turns_of(n: usize) -> usize {
    if n < 100 { n * 12 + 12 } else { 60 }
}

fn change_plates(
    rt: &impl Print,
    case: Case,
    seed: &mut usize,
    tally: &mut Tally,
) -> io::Result<()> {
    for i in 0..turns_of(positions(case.chart)) {
        change_plate(rt, case, i, seed, tally)?;
    }
    Ok(())
}

// The i-th change of one entry; or one that is drawn, and every other time another one.
fn change_plate(
    rt: &impl Print,
    case: Case,
    i: usize,
    seed: &mut usize,
    tally: &mut Tally,
) -> io::Result<()> {
    let n = positions(case.chart);
    let codes = n % 1024 * 6 + 6;
    let mut changed = *case.table;
    if i < turns_of(n) / 2 {
        change(&mut changed, n, i);
    } else {
        change(&mut changed, n, below(seed, codes));
        change(&mut changed, n, i % 2 * 8192 + below(seed, codes) % 8192);
    }
    compare_check(rt, case, &changed, tally)
}

// Weighing and Comparing: each positional controller of a chart of one or two positions, else four that are drawn.
fn weigh_controllers(
    rt: &impl Print,
    case: Case,
    seed: &mut usize,
    tally: &mut Tally,
) -> io::Result<()> {
    for i in 0..4 {
        if 2 < positions(case.chart) {
            weigh_drawn(rt, case, seed, tally)?;
        } else {
            weigh_numbered(rt, case, i % 2, i / 2, tally)?;
        }
    }
    Ok(())
}

fn weigh_numbered(
    rt: &impl Print,
    case: Case,
    here: usize,
    there: usize,
    tally: &mut Tally,
) -> io::Result<()> {
    let chart = case.chart;
    let mut table = *case.table;
    let mut row = [FILLED; 512];
    if here < ways(chart, 0) && there < ways(chart, 1) {
        choose(chart, &mut table, &mut row, 0, here);
        choose(chart, &mut table, &mut row, 1, there);
        compare_worths(rt, case, &mut table, &row, tally)?;
        compare_rows(rt, case, &table, &row, tally)?;
    }
    Ok(())
}

fn weigh_drawn(rt: &impl Print, case: Case, seed: &mut usize, tally: &mut Tally) -> io::Result<()> {
    let mut table = *case.table;
    let mut row = [FILLED; 512];
    choose_drawn(case.chart, &mut table, &mut row, seed);
    compare_worths(rt, case, &mut table, &row, tally)?;
    compare_rows(rt, case, &table, &row, tally)
}

// Weighs the choices of a row, which the table has too.
fn compare_worths(
    rt: &impl Print,
    case: Case,
    table: &mut Table,
    row: &[u16; 512],
    tally: &mut Tally,
) -> io::Result<()> {
    let mut worths = [FILLED; 512];
    let done = is_done(weigh_chart(case.text, row, &mut worths));
    weigh_choices(case.chart, table);
    add(tally, CONTROLLERS, 1);
    let same = same_row(table, WORTH, positions(case.chart), &worths);
    expect(rt, same & done, b"weighing", case.text, tally)
}

fn is_done(answer: Result<(), Refusal>) -> bool {
    match answer {
        Ok(()) => true,
        Err(_) => false,
    }
}

// Comparing the chart's own plate with choices whose worths are in the table, beside the values.
fn compare_rows(
    rt: &impl Print,
    case: Case,
    table: &Table,
    row: &[u16; 512],
    tally: &mut Tally,
) -> io::Result<()> {
    let n = positions(case.chart);
    let mut page = [b'#'; 65536];
    let size = write_plate(&mut page, case.table, n);
    let answer = compare(case.text, part(&page, size), row);
    let first = first_difference(table, VALUE, WORTH, n);
    let same = same_difference(answer, table, n, first);
    expect(rt, same, b"comparing", case.text, tally)
}

fn same_difference(
    answer: Result<Option<Difference>, Refusal>,
    table: &Table,
    n: usize,
    first: usize,
) -> bool {
    match answer {
        Err(_) => false,
        Ok(None) => first == n,
        Ok(
            Some(
                Difference {
                    position: v,
                    value,
                    worth,
                },
            ),
        ) => {
            let values = wide(value) == get(table, VALUE, first);
            let worths = wide(worth) == get(table, WORTH, first);
            (v == first) & values & worths
        }
    }
}
