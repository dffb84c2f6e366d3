// Small charts: the chart of an index, with every byte of the lent buffer, and the index of a chart, held against document 02's words. The
// buffer has a byte less than the chart, as many bytes or more; marks may be blank where the index is asked for, and the text damaged.
use crate::forms::{charts_of, index_of, is_small};
use generating::write_small_chart;
use indexing::index_small_chart;
use reference::answers::is_refusal;
use reference::generate::{Blanks, below, blank_marks};
use reference::sheet::{Chart, positions};
use reference::tally::{Tally, add, expect};
use reference::text::{lines_of, part, write_chart, write_damaged};
use refusal::Refusal;
use std::io;

// What is counted, in the order in which it is written: charts written, and their bytes; refused with 21, and with 10; charts that have an
// index, and the sum of these; refused for the chart, and with 21.
pub const COUNTED: usize = 8;

const WRITTEN: usize = 0;

const BYTES: usize = 1;

const NO_INDEX: usize = 2;

const SHORT: usize = 3;

const INDEXED: usize = 4;

const SUM: usize = 5;

const MISDRAWN: usize = 6;

const OTHER: usize = 7;

// A chart: written twice; its index, and the same with marks blank and half of the texts damaged.
pub fn compare_small(
    rt: &impl Print,
    chart: &mut Chart,
    seed: &mut usize,
    tally: &mut Tally,
) -> io::Result<()> {
    compare_written(rt, chart, below(seed, 2), tally)?;
    compare_written(rt, chart, below(seed, 26), tally)?;
    compare_index(rt, chart, 3, 0, tally)?;
    let mut blanks = Blanks {
        seed: below(seed, 1000000),
        count: 0,
    };
    blank_marks(chart, 50, &mut blanks);
    let damage = below(seed, 6);
    let at = below(seed, lines_of(chart));
    compare_index(rt, chart, damage, at, tally)
}

// The chart of this chart's index, of one past the last where it has none, into a buffer that has a byte less than the chart and so many more.
fn compare_written(
    rt: &impl Print,
    chart: &Chart,
    past: usize,
    tally: &mut Tally,
) -> io::Result<()> {
    let mut page = [b'#'; 65536];
    let mut lent = [b'#'; 65536];
    let blank = [b'#'; 65536];
    let n = positions(chart);
    let small = is_small(chart);
    let index = if small { index_of(chart) } else { charts_of(n) };
    let size = write_chart(&mut page, chart) % 65536;
    let room = (size + past % 32 + 65535) % 65536;
    let number = written_due(small, size, room);
    let answer = write_small_chart(n, index, &mut lent[..room]);
    let same = lent == if number == 0 { page } else { blank };
    count_written(number, size, tally);
    let text = part(&page, size);
    expect(
        rt,
        same & is_written(answer, size, number),
        b"a small chart",
        text,
        tally,
    )
}

// The refusals in the order of their tests, 0 for none.
fn written_due(small: bool, size: usize, room: usize) -> usize {
    if !small {
        return 21;
    }
    if room < size { 10 } else { 0 }
}

fn count_written(number: usize, size: usize, tally: &mut Tally) {
    if number == 0 {
        add(tally, WRITTEN, 1);
        add(tally, BYTES, size);
        return;
    }
    add(tally, if number == 21 { NO_INDEX } else { SHORT }, 1);
}

fn is_written(answer: Result<usize, Refusal>, size: usize, number: usize) -> bool {
    match answer {
        Ok(k) => (number == 0) & (k == size),
        Err(refusal) => is_refusal(refusal, number, 0),
    }
}

// The index of a chart's text.
fn compare_index(
    rt: &impl Print,
    chart: &Chart,
    damage: usize,
    at: usize,
    tally: &mut Tally,
) -> io::Result<()> {
    let mut page = [b'#'; 65536];
    let damaged = write_damaged(&mut page, chart, damage, at);
    let text = part(&page, damaged.size);
    let number = index_due(is_small(chart), damaged.number);
    let index = if number == 0 { index_of(chart) } else { 0 };
    let answer = index_small_chart(text);
    count_index(number, index, tally);
    expect(
        rt,
        is_index(answer, index, number, damaged.line),
        b"an index",
        text,
        tally,
    )
}

fn index_due(small: bool, damage: usize) -> usize {
    if damage != 0 {
        return damage;
    }
    if small { 0 } else { 21 }
}

fn count_index(number: usize, index: usize, tally: &mut Tally) {
    if number == 0 {
        add(tally, INDEXED, 1);
        add(tally, SUM, index);
        return;
    }
    add(tally, if number == 21 { OTHER } else { MISDRAWN }, 1);
}

fn is_index(answer: Result<usize, Refusal>, index: usize, number: usize, line: usize) -> bool {
    match answer {
        Ok(x) => (number == 0) & (x == index),
        Err(refusal) => is_refusal(refusal, number, line),
    }
}
