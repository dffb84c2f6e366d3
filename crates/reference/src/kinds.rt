// So many charts of a kind, one after the other.
use crate::generate::build;
use crate::sheet::{Chart, RIGHT, cell};
use crate::tally::{Tally, report_line};
use std::io;

// Compares each chart of a kind. Without a move it is no chart, and left out.
pub fn each_chart<F: FnMut(&mut Chart, &mut usize, &mut Tally) -> io::Result<()>>(
    kind: usize,
    charts: usize,
    seed: &mut usize,
    tally: &mut Tally,
    mut compare: F,
) -> io::Result<()>
    requires { F.IsAlwaysCallable compare }
{
    for number in 0..charts {
        let mut chart = [0usize; 32768];
        build(&mut chart, kind, number, seed);
        if cell(&chart, RIGHT, 0) != 0 {
            compare(&mut chart, seed, tally)?;
        }
    }
    Ok(())
}

// Compares each chart of a kind by draws of its own, and writes the first counts.
pub fn ask_each<F: FnMut(&mut Chart, &mut usize, &mut Tally) -> io::Result<()>>(
    rt: &impl Print,
    name: &str,
    kind: usize,
    charts: usize,
    mut seed: usize,
    counts: usize,
    compare: F,
) -> io::Result<()>
    requires { F.IsAlwaysCallable compare }
{
    let mut tally = [0usize; 19];
    each_chart(kind, charts, &mut seed, &mut tally, compare)?;
    report_line(rt, &tally, counts, name.as_bytes())
}
