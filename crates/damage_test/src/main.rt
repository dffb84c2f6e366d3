// Holds the library's refusals 1 to 9 and 17 against a second reading of document 01's table, on small pseudo-random charts with blank
// marks, as they are drawn and damaged, without positions of rest and with some. It writes a line for each kind of damage, with what was
// counted, and each comparison that fails with its text. Nothing but the jobs that are compared is shared with the library.
#![tactic(auto)]

use crate::compare::{RESTING, Tally, compare_drawn, compare_text};
use crate::damage::Kind;
use reference::tally::report_count;
use std::io;

mod compare;
mod damage;
mod draw;
mod table;

fn main(rt: HostRuntime) -> io::Result<()> {
    rt.write_all(
        b"accepted, refused by 1 to 9; with blank marks, accepted of these; mismatches\n",
    )?;
    some_moving(&rt)?;
    long(&rt)?;
    some_resting(&rt)
}

// Charts without positions of rest.
fn some_moving(rt: &impl Print) -> io::Result<()> {
    for (name, kind, charts) in [
        ("as drawn", Kind::Whole, 10000),
        ("a byte changed", Kind::Byte, 20000),
        ("a field changed", Kind::Field, 40000),
        ("a letter changed", Kind::Letter, 10000),
        ("a line dropped", Kind::Dropped, 10000),
        ("a line doubled", Kind::Doubled, 10000),
        ("two lines exchanged", Kind::Exchanged, 10000),
        ("the header changed", Kind::Header, 10000),
        ("cut or lengthened", Kind::Length, 10000),
        ("two of these", Kind::Two, 80000),
    ] {
        some(rt, name, kind, charts, false)?;
    }
    Ok(())
}

// Charts with some.
fn some_resting(rt: &impl Print) -> io::Result<()> {
    for (name, kind, charts) in [
        ("some of rest, as drawn", Kind::Whole, 10000),
        ("some of rest, a byte changed", Kind::Byte, 10000),
        ("some of rest, a field changed", Kind::Field, 20000),
        ("some of rest, a letter changed", Kind::Letter, 20000),
        ("some of rest, a line dropped", Kind::Dropped, 5000),
        ("some of rest, a line doubled", Kind::Doubled, 5000),
        ("some of rest, two lines exchanged", Kind::Exchanged, 5000),
        ("some of rest, a meant move from one", Kind::FromRest, 10000),
        ("some of rest, two of these", Kind::Two, 40000),
    ] {
        some(rt, name, kind, charts, true)?;
    }
    Ok(())
}

// Charts damaged by a kind, with positions of rest or without.
fn some(rt: &impl Print, name: &str, kind: Kind, charts: usize, rests: bool) -> io::Result<()> {
    let mut tally = [0usize; 14];
    let mut seed = 1;
    for _ in 0..charts {
        compare_drawn(rt, kind, rests, &mut seed, &mut tally)?;
    }
    report(rt, &tally, name)
}

// As many bytes as a chart may have, and a line more.
fn long(rt: &impl Print) -> io::Result<()> {
    let longest = [b' '; 55308];
    let longer = [b' '; 55320];
    let mut tally = [0usize; 14];
    compare_text(rt, &longest, &longest, 0, &mut tally)?;
    compare_text(rt, &longer, &longer, 0, &mut tally)?;
    report(rt, &tally, "55,308 and 55,320 spaces")
}

fn report(rt: &impl Print, tally: &Tally, name: &str) -> io::Result<()> {
    for count in &tally[..RESTING] {
        rt.print(*count)?;
        rt.write_all(b" ")?;
    }
    rt.write_all(name.as_bytes())?;
    report_count(rt, b", refused by 17: ", tally[RESTING])?;
    rt.write_all(b"\n")
}
