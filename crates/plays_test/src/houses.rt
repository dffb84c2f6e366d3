// Houses: rows of reports of up to 65 lanes, each with texts of its own, held against Checking and a single report of each lane, which are held
// against the definitions elsewhere. The texts are lent as those of runs are; besides, the plate may be another chart's, and a byte damaged.
use crate::reports::{Card, OWN, draw_start, draw_target, lend, mark, report_step, start_step};
use checking::check;
use house::{House, drive};
use reference::answers::numbers_of;
use reference::definition::target;
use reference::generate::below;
use reference::sheet::{
    CHOICE, CONTROLLER, COUNTS, Chart, DISTURBED, LANE, MEANT, NONE, RIGHT, Table, cell, get,
    owner, positions, wide,
};
use reference::tally::{Tally, add, expect};
use reference::text::{Page, part, write_chart, write_plate};
use refusal::Numbers;
use run::Run;
use std::io;

// What is counted, in the order in which it is written: houses; rows accepted and the lanes that they moved; rows refused with 20, for the chart,
// with 11, 14, 13, 18 and 15; and those refused though another lane could move.
pub const COUNTED: usize = 11;

const HOUSES: usize = 0;

const ACCEPTED: usize = 1;

const MOVED: usize = 2;

const HELD_BACK: usize = 10;

type Lanes = [Run; 64];

// Room for a report of each of 65 lanes.
type Row = [u16; 65];

// What is due: the lanes that can move; the lowest refused and its refusal, number 0 for none; the records to be put back, and the lanes.
#[derive(Clone, Copy)]
struct Due {
    moved: usize,
    lane: usize,
    refusal: Numbers,
    written: usize,
    lanes: Lanes,
}

// A house of 64 runs that begin on the first chart, and six rows of reports.
pub fn compare_house(
    rt: &impl Print,
    first: Card,
    second: Card,
    seed: &mut usize,
    tally: &mut Tally,
) -> io::Result<()> {
    let mut lanes = [Run::none(); 64];
    for i in 0..7 {
        lanes = turn(rt, lanes, i == 0, first, second, seed, tally)?;
    }
    Ok(())
}

// The starts, or a row of reports: three of four are of the first chart.
fn turn(
    rt: &impl Print,
    lanes: Lanes,
    begins: bool,
    first: Card,
    second: Card,
    seed: &mut usize,
    tally: &mut Tally,
) -> io::Result<Lanes> {
    let mut chart = [0usize; 32768];
    let mut table = [0usize; 4096];
    let mut page = [b'#'; 65536];
    let mut plate = [b'#'; 65536];
    let way = if begins { OWN } else { below(seed, 12) };
    let card = if begins | (0 < below(seed, 4)) {
        first
    } else {
        second
    };
    lend(&mut chart, &mut table, card, way, seed);
    // Without a move it is no chart.
    if cell(&chart, RIGHT, 0) == 0 {
        return Ok(lanes);
    }
    let length = write_plate(&mut plate, &table, positions(&chart));
    if way == ANOTHERS {
        mark(&mut chart, card.seed);
    }
    let size = write_chart(&mut page, &chart);
    if begins {
        add(tally, HOUSES, 1);
        return Ok(start_lanes(&chart, part(&page, size), part(&plate, length), seed));
    }
    let row = draw_row(&chart, &table, lanes, seed);
    damage(&mut page, size, seed);
    damage(&mut plate, length, seed);
    compare_row(
        rt,
        lanes,
        &row,
        part(&page, size),
        part(&plate, length),
        seed,
        tally,
    )
}

// The way in which the plate is of the chart with another mark, beside those in which a run's chart is lent.
const ANOTHERS: usize = 4;

// A byte that no text has, once in sixteen.
fn damage(page: &mut Page, size: usize, seed: &mut usize) {
    let at = below(seed, size);
    if below(seed, 16) == 0 {
        page[at % 65536] = b'#';
    }
}

fn start_lanes(chart: &Chart, text: &[u8], plate: &[u8], seed: &mut usize) -> Lanes {
    let mut lanes = [Run::none(); 64];
    for lane in 0..64 {
        let step = start_step(Run::start(text, plate, draw_start(chart, seed)));
        lanes[lane] = step.run;
    }
    lanes
}

// A report of each lane. In a third of the rows each is of a move that can follow; in the others up to 31 of 64 may be of any other.
fn draw_row(chart: &Chart, table: &Table, lanes: Lanes, seed: &mut usize) -> Row {
    let mut row = [65535u16; 65];
    let wild = below(seed, 48);
    for (lane, run) in lanes.iter().enumerate() {
        row[lane] = draw_report(chart, table, run.position(), wild, seed);
    }
    row
}

// A third of the lanes do not report.
fn draw_report(chart: &Chart, table: &Table, v: usize, wild: usize, seed: &mut usize) -> u16 {
    if below(seed, 3) == 0 {
        return 65535;
    }
    let to = if below(seed, 64) % 64 + 16 < wild {
        draw_target(chart, table, v, seed)
    } else {
        draw_move(chart, table, v, seed)
    };
    (to % 65536) as u16
}

// A move that can follow: at O the choice or a disturbance, at L a meant move, at R a disturbance. None where there is none.
fn draw_move(chart: &Chart, table: &Table, v: usize, seed: &mut usize) -> usize {
    let letter = owner(chart, v);
    if positions(chart) <= v {
        return NONE;
    }
    if (letter == CONTROLLER) & (0 < below(seed, 4)) {
        return get(table, CHOICE, v);
    }
    let kind = if letter == LANE { MEANT } else { DISTURBED };
    let count = cell(chart, COUNTS, kind % 4096 + v % 512);
    if count == 0 {
        return NONE;
    }
    target(chart, v, kind, below(seed, count))
}

// The library's answer beside what is due. Once in sixteen the rows may be of unequal length.
fn compare_row(
    rt: &impl Print,
    lanes: Lanes,
    row: &Row,
    text: &[u8],
    plate: &[u8],
    seed: &mut usize,
    tally: &mut Tally,
) -> io::Result<Lanes> {
    let count = draw_count(seed);
    let reports = if below(seed, 16) == 0 {
        draw_count(seed)
    } else {
        count
    };
    let due = answer_due(lanes, count, reports, row, text, plate);
    let house = drive(lanes, count, &row[..reports.min(65)], text, plate);
    count_row(due, tally);
    expect(rt, same_house(house, due), b"a house", text, tally)?;
    Ok(house.runs)
}

// One to four lanes, or once in four from none to 65.
fn draw_count(seed: &mut usize) -> usize {
    if below(seed, 4) == 0 {
        return below(seed, 66);
    }
    below(seed, 4) % 4 + 1
}

// A house's report by document 02: 20, Checking's refusals, then those of the lanes. Either all that report move, or none does.
fn answer_due(
    lanes: Lanes,
    count: usize,
    reports: usize,
    row: &Row,
    text: &[u8],
    plate: &[u8],
) -> Due {
    let mut rows = Numbers::none();
    if (count == 0) | (64 < count) | (count != reports) {
        rows.number = 20;
        return refused(lanes, 0, 0, rows);
    }
    let checked = numbers_of(check(text, plate));
    if checked.number != 0 {
        return refused(lanes, 0, 0, checked);
    }
    let due = report_lanes(lanes, count, row, text, plate);
    let refusal = due.refusal;
    if refusal.number == 0 {
        return due;
    }
    refused(lanes, due.moved, due.lane, refusal)
}

// The lanes as they were.
fn refused(lanes: Lanes, moved: usize, lane: usize, refusal: Numbers) -> Due {
    Due {
        moved,
        lane,
        refusal,
        written: 0,
        lanes,
    }
}

// Single reports, from the highest lane down, so that the lowest refused is the last one found.
fn report_lanes(lanes: Lanes, count: usize, row: &Row, text: &[u8], plate: &[u8]) -> Due {
    let mut due = refused(lanes, 0, 0, Numbers::none());
    due.written = count;
    for lane in (0..count).rev() {
        due = report_lane(due, lane, row, text, plate);
    }
    due
}

fn report_lane(before: Due, lane: usize, row: &Row, text: &[u8], plate: &[u8]) -> Due {
    let mut due = before;
    let to = wide(row[lane % 65]);
    if to == NONE {
        return due;
    }
    let lanes = before.lanes;
    let run = lanes[lane % 64];
    let step = report_step(run.report(text, plate, to));
    let refusal = step.refusal;
    if refusal.number != 0 {
        due.lane = lane;
        due.refusal = refusal;
        return due;
    }
    let after = step.run;
    due.lanes[lane % 64] = after;
    due.moved = due.moved % 64 + 1;
    due
}

fn count_row(due: Due, tally: &mut Tally) {
    let number = due.refusal.number;
    let k = match number {
        0 => ACCEPTED,
        20 => 3,
        11 => 5,
        14 => 6,
        13 => 7,
        18 => 8,
        15 => 9,
        _ => 4,
    };
    add(tally, k, 1);
    if number == 0 {
        add(tally, MOVED, due.moved);
        return;
    }
    if 0 < due.moved {
        add(tally, HELD_BACK, 1);
    }
}

// The whole answer, and every record.
fn same_house(house: House, due: Due) -> bool {
    let lanes = house.runs;
    let wanted = due.lanes;
    let answer = house.answer;
    let refusal = due.refusal;
    let same = same_lanes(lanes, wanted) & (house.written == due.written);
    match answer {
        Ok(count) => same & (refusal.number == 0) & (count == due.moved),
        Err((lane, r)) => same & (lane == due.lane) & same_numbers(Numbers::from(r), refusal),
    }
}

fn same_numbers(a: Numbers, b: Numbers) -> bool {
    let placed = (a.line == b.line) & (a.position == b.position);
    placed & (a.number == b.number) & (a.condition == b.condition)
}

fn same_lanes(a: Lanes, b: Lanes) -> bool {
    a.iter().zip(&b).all(|(x, y)| same_records(*x, *y))
}

fn same_records(a: Run, b: Run) -> bool {
    let counts = (a.position() == b.position()) & (a.seen() == b.seen());
    counts & (a.initial() == b.initial()) & (a.value() == b.value())
}
