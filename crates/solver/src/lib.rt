// The rounds of document 01, one after the other, the plain way: each round walks all moves.
#![tactic(auto)]

ghost use Rattle.std.specs.Prelude.{◌<◌, ◌≤◌, length};
ghost use Rattle.solver.specs.OnRows.{NextValueOf, SettlingOf, SolvedOf, SolvingOf};

use round::{flag_disturbed, flag_ready, place};
use rows::{Chart, Rows, clear};

// The rounds (k, 1), (k, 2), .. up to the first that places nobody.
fn settle(rows: &Rows, k: u16, flags: &mut [u8], values: &mut [u16], steps: &mut [u16])
    requires { (k < 65535) × (rows.now.positions ≤ length flags.old) × (rows.now.positions ≤ length values.old) × (rows.now.positions ≤ length steps.old) }
    ensures { SettlingOf rows.now k rows.now.positions values.old steps.old values.new steps.new }
{
    let n = rows.positions;
    for s in 0..n as u16 {
        flag_ready(
            n,
            rows.moves,
            rows.owners,
            rows.costs,
            rows.froms,
            rows.tos,
            values,
            flags,
        );
        let count = place(n, flags, k, s + 1, values, steps);
        if count == 0 {
            return;
        }
    }
}

// The rounds of value 0.
fn first_value(rows: &Rows, flags: &mut [u8], values: &mut [u16], steps: &mut [u16])
    requires { (rows.now.positions ≤ length flags.old) × (rows.now.positions ≤ length values.old) × (rows.now.positions ≤ length steps.old) }
    ensures { SolvingOf rows.now 0 values.old steps.old values.new steps.new }
{
    let n = rows.positions;
    clear(n, values);
    clear(n, steps);
    place(n, rows.marks, 0, 0, values, steps);
    settle(rows, 0, flags, values, steps);
}

// The rounds of the value after the last one, up to the first that places nobody. Counts what its first round places.
fn next_value(
    rows: &Rows,
    last: u16,
    flags: &mut [u8],
    values: &mut [u16],
    steps: &mut [u16],
) -> usize
    requires { (last < 512) × (rows.now.positions ≤ length flags.old) × (rows.now.positions ≤ length values.old) × (rows.now.positions ≤ length steps.old) }
    ensures { NextValueOf rows.now last values.old steps.old values.new steps.new result }
{
    let n = rows.positions;
    flag_disturbed(
        n, rows.moves, last, rows.costs, rows.froms, rows.tos, values, flags,
    );
    let k = last + 1;
    let count = place(n, flags, k, 0, values, steps);
    if count == 0 {
        return 0;
    }
    settle(rows, k, flags, values, steps);
    count
}

// Values and steps by rounds: 65,535 for "ever" and its dash. There is room for a number of each position. What lies past stays.
pub fn solve(rows: &Rows, values: &mut [u16], steps: &mut [u16])
    requires { (rows.now.positions ≤ length values.old) × (rows.now.positions ≤ length steps.old) }
    ensures { SolvedOf rows.now values.old steps.old values.new steps.new }
{
    let mut flags = [0u8; Chart::POSITIONS];
    first_value(rows, &mut flags, values, steps);
    for last in 0..rows.positions as u16 {
        let count = next_value(rows, last, &mut flags, values, steps);
        if count == 0 {
            return;
        }
    }
}
