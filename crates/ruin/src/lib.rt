// The way to ruin: a chart, a row of choices and a position into the sheet of the shortest unsafe play.
#![tactic(auto)]

ghost use Rattle.std.specs.Prelude.{◌≡◌, ℕ, ◌<◌, ◌≤◌, length, get_or};
ghost use Rattle.game.specs.Value.{Value};
ghost use Rattle.game.specs.Arena.{Arena};
ghost use Rattle.game.specs.Play.{Legal};
ghost use Rattle.rows.specs.Holding.{arena};
ghost use Rattle.rows.specs.Numbers.{row_value};
ghost use Rattle.weighing.specs.OnRows.{WeighedRowsOf};
ghost use Rattle.ruin.specs.OnRows.{RuinedOf, WayFollowedOf, WayFoundOf, WayListedOf};
ghost use Rattle.ruin.specs.Ruin.{RuinedIs};

use decode::Room;
use distances::count_moves;
use refusal::Refusal;
use restriction::{all_legal, flag_chosen};
use rows::{Chart, NONE, Rows};
use sheet_lines::write_lines;
use way_rows::{follow, point_on, straighten};
use weighing::solve_restricted;

// Writes the sheet of the shortest way to ruin from a position, for the controller that makes these choices, into a lent buffer, and answers
// the count of its lines. What lies past its last line stays, and on a refusal everything does: the chart's, 10 where the row of choices is too short, 12, 13, 19 where the
// worth is "ever", and last 10 for a buffer that the lines do not fit.
pub fn list_way_to_ruin(
    text: &[u8],
    choices: &[u16],
    position: usize,
    sheet: &mut [u8],
) -> Result<usize, Refusal>
    ensures { RuinedIs text.now choices.now position sheet.old sheet.new result }
{
    let mut room = Room::new();
    let rows = room.load(text)?;
    if choices.len() < rows.positions {
        return Err(Refusal::Short);
    }
    list_rows(&rows, choices, position, sheet)
}

// Tests the choices and the position over rows that hold a chart, and lists the way. There is a choice of each position.
fn list_rows(
    rows: &Rows,
    choices: &[u16],
    position: usize,
    sheet: &mut [u8],
) -> Result<usize, Refusal>
    requires { rows.now.positions ≤ length choices.now }
    ensures { RuinedOf rows.now choices.now position sheet.old sheet.new result }
{
    let n = rows.positions;
    let mut flags = [0u8; Chart::POSITIONS];
    flag_chosen(
        n, rows.moves, rows.costs, rows.froms, rows.tos, choices, &mut flags,
    );
    if !all_legal(n, rows.owners, choices, &flags) {
        return Err(Refusal::Choice);
    }
    if n <= position {
        return Err(Refusal::Position);
    }
    list_way(rows, choices, position, sheet)
}

// Lists the way where the choices are legal and the position is on the chart.
fn list_way(
    rows: &Rows,
    choices: &[u16],
    position: usize,
    sheet: &mut [u8],
) -> Result<usize, Refusal>
    requires legal { Legal (arena rows.now) (row_value choices.now) }
    requires in_bounds { (rows.now.positions ≤ length choices.now) × (position < rows.now.positions) }
    ensures { WayListedOf rows.now choices.now position sheet.old sheet.new result }
{
    let mut positions = [0u16; Chart::POSITIONS];
    let mut led = [0u16; Chart::POSITIONS];
    let Some(lines) = find_way(rows, choices, position, &mut positions, &mut led) else {
        return Err(Refusal::Ever);
    };
    if sheet.len() < lines * Chart::LINE {
        return Err(Refusal::Short);
    }
    write_lines(b'W', lines, &positions, &led, sheet);
    Ok(lines)
}

// Weighs the choices, and finds the way if the worth at the position is a number. Answers the count of its positions.
fn find_way(
    rows: &Rows,
    choices: &[u16],
    position: usize,
    positions: &mut [u16],
    led: &mut [u16],
) -> Option<usize>
    requires legal { Legal (arena rows.now) (row_value choices.now) }
    requires in_bounds { (rows.now.positions ≤ length choices.now) × (position < rows.now.positions) }
    requires room { (rows.now.positions ≤ length positions.old) × (rows.now.positions ≤ length led.old) }
    ensures { WayFoundOf rows.now choices.now position positions.new led.new result }
{
    let mut worths = [0u16; Chart::POSITIONS];
    let mut costs = [0u8; Chart::MOVES];
    let mut froms = [0u16; Chart::MOVES];
    let mut tos = [0u16; Chart::MOVES];
    let count = solve_restricted(rows, choices, &mut costs, &mut froms, &mut tos, &mut worths);
    if worths[position] == NONE {
        return None;
    }
    let kept = Rows {
        positions: rows.positions,
        moves: count,
        owners: rows.owners,
        marks: rows.marks,
        costs: &costs,
        froms: &froms,
        tos: &tos,
    };
    Some(follow_shortest(&kept, &worths, position, positions, led))
}

// Follows the shortest way from a position whose worth is a number. The rows are those of the moves that stay where the controller makes its
// choices, with the worths. Every way over moves that lower the worth by their cost has fewest disturbances, so over these the moves are
// counted.
fn follow_shortest(
    rows: &Rows,
    worths: &[u16],
    position: usize,
    positions: &mut [u16],
    led: &mut [u16],
) -> usize
    requires weighed { (a : Arena) × ((choice : ℕ → Value) × WeighedRowsOf a choice rows.now worths.now) }
    requires in_bounds { (rows.now.positions ≤ length worths.now) × (position < rows.now.positions) × (get_or worths.now position 0 ≡ 65535 → ⊥) }
    requires room { (rows.now.positions ≤ length positions.old) × (rows.now.positions ≤ length led.old) }
    ensures { WayFollowedOf rows.now worths.now position positions.new led.new result }
{
    let n = rows.positions;
    let m = rows.moves;
    let mut straight = [0u16; Chart::MOVES];
    straighten(
        n,
        m,
        worths,
        rows.costs,
        rows.froms,
        rows.tos,
        &mut straight,
    );
    let mut left = [0u16; Chart::POSITIONS];
    count_moves(n, m, rows.marks, rows.froms, &straight, &mut left);
    let mut next = [0u16; Chart::POSITIONS];
    point_on(n, m, rows.froms, &straight, &left, &mut next);
    follow(n, position, worths, &left, &next, positions, led)
}
