// Holds runs, ways to ruin and houses of lanes against another implementation of the documents' definitions, on every chart of one and two
// positions and on pseudo-random ones. It writes what was compared, a line for each kind of chart, and each comparison that fails with its
// chart. Nothing but the jobs that are compared is shared with the library.
#![tactic(auto)]

use crate::houses::compare_house;
use crate::reports::{COUNTED, Card, compare_run};
use crate::ways::compare_ways;
use reference::generate::below;
use reference::kinds::ask_each;
use reference::tally::{Tally, report_line};
use std::io;

mod houses;
mod plays;
mod reports;
mod ways;

fn main(rt: HostRuntime) -> io::Result<()> {
    some_swapped(&rt)?;
    some_ruined(&rt)?;
    some_housed(&rt)
}

// Charts of a kind: its name, its number, and how many charts.
type Kind = (&'static str, usize, usize);

// Runs of twelve reports, each lent the texts of one of two charts of the kind.
fn some_swapped(rt: &impl Print) -> io::Result<()> {
    rt.write_all(
        b"runs begun and not begun; reports taken as meant and as disturbances, refused with 13, 14, 18 and 15; taken with other texts than the last\n",
    )?;
    for kind in [
        ("every chart of 1 position", 0, 6),
        ("every chart of 2 positions", 1, 900),
        ("every chart of 2 positions, some of rest", 11, 544),
        ("3 positions", 9, 1000),
        ("3 positions, some of rest", 19, 1000),
        ("3 to 8 positions", 4, 1000),
        ("3 to 8 positions, some of rest", 14, 1000),
        ("20 to 59 positions", 5, 60),
        ("20 to 59 positions, targets near, some of rest", 16, 60),
        ("512 positions, targets near", 8, 2),
    ] {
        ask_pairs(rt, kind, 1, COUNTED, |first, second, seed, tally| {
            compare_run(rt, first, second, seed, tally)
        })?;
    }
    Ok(())
}

// The way to ruin, of 24 questions about each chart.
fn some_ruined(rt: &impl Print) -> io::Result<()> {
    rt.write_all(
        b"ways to ruin of 0, 1 and more disturbances, decided by moves, by positions; refused for the chart, with 10 for the row, 12, 13, 19 and 10 for the buffer; unsafe plays found, lines of the longest way\n",
    )?;
    for (name, kind, charts) in [
        ("every chart of 1 position", 0, 6),
        ("every chart of 1 position, of rest", 10, 4),
        ("every chart of 2 positions", 1, 900),
        ("every chart of 2 positions, some of rest", 11, 544),
        ("512 positions, disturbances downward", 2, 1),
        ("512 positions, lanes downward", 3, 1),
        ("512 positions, disturbances downward, all of rest", 12, 1),
        ("3 positions", 9, 500),
        ("3 positions, some of rest", 19, 500),
        ("3 to 8 positions", 4, 500),
        ("3 to 8 positions, some of rest", 14, 500),
        ("5 to 10 positions, targets near, some of rest", 13, 500),
    ] {
        ask_each(
            rt,
            name,
            kind,
            charts,
            6,
            ways::COUNTED,
            |chart, seed, tally| { compare_ways(rt, chart, seed, tally) },
        )?;
    }
    Ok(())
}

// Houses of up to 64 lanes, and six rows of reports of each, lent texts as runs are; some of the texts are damaged too.
fn some_housed(rt: &impl Print) -> io::Result<()> {
    rt.write_all(
        b"houses; rows accepted, lanes moved; rows refused with 20, for the chart, with 11, 14, 13, 18 and 15; refused though another lane could move\n",
    )?;
    for kind in [
        ("every chart of 1 position", 0, 6),
        ("every chart of 2 positions", 1, 900),
        ("every chart of 2 positions, some of rest", 11, 544),
        ("3 positions", 9, 300),
        ("3 positions, some of rest", 19, 300),
        ("3 to 8 positions", 4, 300),
        ("3 to 8 positions, some of rest", 14, 300),
        ("20 to 59 positions", 5, 60),
        ("20 to 59 positions, targets near, some of rest", 16, 60),
        ("512 positions, targets near", 8, 2),
    ] {
        ask_pairs(rt, kind, 7, houses::COUNTED, |first, second, seed, tally| {
            compare_house(rt, first, second, seed, tally)
        })?;
    }
    Ok(())
}

// Compares on charts of a kind by draws of its own: on the one of each number, and another.
fn ask_pairs<F: FnMut(Card, Card, &mut usize, &mut Tally) -> io::Result<()>>(
    rt: &impl Print,
    asked: Kind,
    mut seed: usize,
    counts: usize,
    mut compare: F,
) -> io::Result<()>
    requires { F.IsAlwaysCallable compare }
{
    let (name, kind, charts) = asked;
    let mut tally = [0usize; 19];
    for number in 0..charts {
        let first = card(kind, number, &mut seed);
        let other = below(&mut seed, charts);
        let second = card(kind, other, &mut seed);
        compare(first, second, &mut seed, &mut tally)?;
    }
    report_line(rt, &tally, counts, name.as_bytes())
}

fn card(kind: usize, number: usize, seed: &mut usize) -> Card {
    let from = below(seed, 1000000);
    Card {
        kind,
        number,
        seed: from,
    }
}
