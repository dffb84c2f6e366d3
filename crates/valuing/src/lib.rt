// Valuing: a chart into rows of values, choices and steps.
#![tactic(auto)]

ghost use Rattle.std.specs.Prelude.{◌<◌, ◌≤◌, length};
ghost use Rattle.solver.specs.OnRows.{SolvedOf};
ghost use Rattle.valuing.specs.OnRows.{ValuedOf};
ghost use Rattle.valuing.specs.Valuing.{ValuedIs};

use choice::choose;
use decode::Room;
use filed::solve_filed;
use first_line::count_first_line;
use refusal::Refusal;
use rows::{FirstLine, Rows};
use solver::solve;

// Values a chart into three lent rows, and answers the count of rounds, or a refusal: the chart's, or 10 where a row is shorter than the count
// of positions. What lies past the last position's number stays, and on a refusal everything does.
pub fn value_chart(
    text: &[u8],
    values: &mut [u16],
    choices: &mut [u16],
    steps: &mut [u16],
) -> Result<u16, Refusal>
    ensures { ValuedIs text.now values.old values.new choices.old choices.new steps.old steps.new result }
{
    value_by(false, text, values, choices, steps)
}

// The same by the plain solver, which walks all moves in every round.
pub fn value_plain(
    text: &[u8],
    values: &mut [u16],
    choices: &mut [u16],
    steps: &mut [u16],
) -> Result<u16, Refusal>
    ensures { ValuedIs text.now values.old values.new choices.old choices.new steps.old steps.new result }
{
    value_by(true, text, values, choices, steps)
}

// Both of these: the job, by the solver that is asked for.
fn value_by(
    plain: bool,
    text: &[u8],
    values: &mut [u16],
    choices: &mut [u16],
    steps: &mut [u16],
) -> Result<u16, Refusal>
    ensures { ValuedIs text.now values.old values.new choices.old choices.new steps.old steps.new result }
{
    let mut room = Room::new();
    let rows = room.load(text)?;
    let n = rows.positions;
    if values.len() < n {
        return Err(Refusal::Short);
    }
    if choices.len() < n {
        return Err(Refusal::Short);
    }
    if steps.len() < n {
        return Err(Refusal::Short);
    }
    let s = value_rows(plain, &rows, values, choices, steps);
    Ok(s.rounds)
}

// Values decoded rows, by the plain solver or the filed one, and counts the first line's numbers. There is room for a number of each
// position.
pub fn value_rows(
    plain: bool,
    rows: &Rows,
    values: &mut [u16],
    choices: &mut [u16],
    steps: &mut [u16],
) -> FirstLine
    requires { (rows.now.positions ≤ length values.old) × (rows.now.positions ≤ length choices.old) × (rows.now.positions ≤ length steps.old) }
    ensures { ValuedOf rows.now values.old values.new choices.old choices.new steps.old steps.new result }
{
    let n = rows.positions;
    solve_by(plain, rows, values, steps);
    choose(
        n,
        rows.moves,
        rows.owners,
        rows.costs,
        rows.froms,
        rows.tos,
        values,
        choices,
    );
    count_first_line(n, values, steps)
}

// Values and steps by the solver that is asked for. Both promise the same rows.
fn solve_by(plain: bool, rows: &Rows, values: &mut [u16], steps: &mut [u16])
    requires { (rows.now.positions ≤ length values.old) × (rows.now.positions ≤ length steps.old) }
    ensures { SolvedOf rows.now values.old steps.old values.new steps.new }
{
    if plain {
        solve(rows, values, steps);
    } else {
        solve_filed(rows, values, steps);
    }
}
