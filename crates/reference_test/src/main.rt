// Holds the library's answers against another implementation of document 01's definitions, on every chart of one and two positions and
// on pseudo-random ones up to the largest size. It writes what was compared, a line for each kind of chart, and each comparison that
// fails with its chart. Some kinds come again with marks left blank, by draws of their own: the numbers must be the same. Then come charts
// with positions of rest, whose count stands in the line, Valuing by the filed way and the plain one, and small charts with their indices.
// Nothing but the jobs that are compared is shared with the library.
#![tactic(auto)]

use crate::compare::{RESTS, compare_chart};
use crate::small::compare_small;
use crate::values::compare_both;
use reference::generate::{Blanks, blank_marks};
use reference::kinds::{ask_each, each_chart};
use reference::tally::{report, report_count};
use std::io;

mod compare;
mod forms;
mod listed;
mod small;
mod values;

// Charts of a kind: its name, its number, how many charts, and how many of a hundred marks 0 are blank.
type Kind = (&'static str, usize, usize, usize);

const MOVING: [Kind; 17] = [
    ("every chart of 1 position", 0, 6, 0),
    ("every chart of 2 positions", 1, 900, 0),
    ("512 positions, disturbances downward", 2, 1, 0),
    ("512 positions, lanes downward", 3, 1, 0),
    ("3 positions", 9, 1000, 0),
    ("3 to 8 positions", 4, 1000, 0),
    ("20 to 59 positions", 5, 60, 0),
    ("20 to 59 positions, targets near", 6, 60, 0),
    ("512 positions, 4,096 moves", 7, 20, 0),
    ("512 positions, targets near", 8, 20, 0),
    ("every chart of 1 position", 0, 6, 100),
    ("every chart of 2 positions", 1, 900, 100),
    ("every chart of 2 positions", 1, 900, 50),
    ("512 positions, lanes downward", 3, 1, 100),
    ("3 to 8 positions", 4, 1000, 50),
    ("20 to 59 positions, targets near", 6, 60, 50),
    ("512 positions, 4,096 moves", 7, 20, 50),
];

// Charts with positions of rest. By the numbers come two of one position and four of two that have no move: they are left out. Of three
// positions there are 862,904, so these are drawn.
const RESTING: [Kind; 11] = [
    ("every chart of 1 position, of rest", 10, 4, 0),
    ("every chart of 2 positions, some of rest", 11, 544, 0),
    (
        "512 positions, disturbances downward, all of rest",
        12,
        1,
        0,
    ),
    ("3 positions, some of rest", 19, 1000, 0),
    ("3 to 8 positions, some of rest", 14, 1000, 0),
    ("20 to 59 positions, some of rest", 15, 60, 0),
    ("20 to 59 positions, targets near, some of rest", 16, 60, 0),
    ("512 positions, 4,096 moves, some of rest", 17, 20, 0),
    ("512 positions, targets near, some of rest", 18, 20, 0),
    ("every chart of 2 positions, some of rest", 11, 544, 50),
    ("3 to 8 positions, some of rest", 14, 1000, 50),
];

fn main(rt: HostRuntime) -> io::Result<()> {
    rt.write_all(
        b"charts, positions, moves, rounds, highest value, checksum; controllers weighed and compared; plates accepted and refused by conditions 1 to 6; lines of sheets, optimal and other controllers held against them; mismatches\n",
    )?;
    for kind in MOVING {
        some(&rt, kind)?;
    }
    some_resting(&rt)?;
    some_valued(&rt)?;
    some_small(&rt)
}

fn some_resting(rt: &impl Print) -> io::Result<()> {
    for kind in RESTING {
        some(rt, kind)?;
    }
    Ok(())
}

// Valuing both ways, of four questions about each chart.
fn some_valued(rt: &impl Print) -> io::Result<()> {
    rt.write_all(
        b"valued the filed way and the plain one: questions, positions, rounds; refused for the chart and with 10\n",
    )?;
    for (name, kind, charts) in [
        ("every chart of 1 position", 0, 6),
        ("every chart of 1 position, of rest", 10, 4),
        ("every chart of 2 positions", 1, 900),
        ("every chart of 2 positions, some of rest", 11, 544),
        ("512 positions, disturbances downward", 2, 1),
        ("512 positions, lanes downward", 3, 1),
        ("3 positions", 9, 500),
        ("3 positions, some of rest", 19, 500),
        ("3 to 8 positions", 4, 500),
        ("3 to 8 positions, some of rest", 14, 500),
        ("20 to 59 positions", 5, 60),
        ("20 to 59 positions, targets near, some of rest", 16, 60),
        ("512 positions, 4,096 moves", 7, 20),
        ("512 positions, 4,096 moves, some of rest", 17, 20),
        ("512 positions, targets near", 8, 20),
    ] {
        ask_each(
            rt,
            name,
            kind,
            charts,
            8,
            values::COUNTED,
            |chart, seed, tally| { compare_both(rt, chart, seed, tally) },
        )?;
    }
    Ok(())
}

// Small charts, written by their index and asked for it; those of another sort.
fn some_small(rt: &impl Print) -> io::Result<()> {
    rt.write_all(
        b"small charts written, their bytes, refused with 21 and with 10; charts with an index, the sum of these, refused for the chart and with 21\n",
    )?;
    for (name, kind, charts) in [
        ("every chart of 1 position", 0, 6),
        ("every chart of 1 position, of rest", 10, 4),
        ("every chart of 2 positions", 1, 900),
        ("every chart of 2 positions, some of rest", 11, 544),
        ("3 positions", 9, 1000),
        ("3 positions, some of rest", 19, 1000),
        ("3 to 8 positions", 4, 300),
        ("3 to 8 positions, some of rest", 14, 300),
        ("20 to 59 positions", 5, 20),
        ("512 positions, 4,096 moves", 7, 2),
    ] {
        ask_each(
            rt,
            name,
            kind,
            charts,
            9,
            small::COUNTED,
            |chart, seed, tally| { compare_small(rt, chart, seed, tally) },
        )?;
    }
    Ok(())
}

// All jobs on the charts of a kind.
fn some(rt: &impl Print, asked: Kind) -> io::Result<()> {
    let (name, kind, charts, share) = asked;
    let mut tally = [0usize; 19];
    let mut seed = 1;
    let mut blanks = Blanks { seed: 1, count: 0 };
    each_chart(kind, charts, &mut seed, &mut tally, |chart, seed, tally| {
        blank_marks(chart, share, &mut blanks);
        compare_chart(rt, chart, seed, tally)
    })?;
    report(rt, &tally, 18)?;
    rt.write_all(name.as_bytes())?;
    report_count(rt, b": ", tally[RESTS])?;
    report_count(rt, b", marks blank: ", blanks.count)?;
    rt.write_all(b"\n")
}
