// Weighing: a chart and a row of choices into the worths of the positional controller that makes them.
#![tactic(auto)]

ghost use Rattle.std.specs.Prelude.{◌≤◌, length};
ghost use Rattle.game.specs.Play.{Legal};
ghost use Rattle.rows.specs.Holding.{arena};
ghost use Rattle.rows.specs.Numbers.{row_value};
ghost use Rattle.weighing.specs.OnRows.{CopiedOf, LegalWeighedOf, RestrictedSolvedOf, WeighedOf};
ghost use Rattle.weighing.specs.Weighing.{WeighedIs};

use decode::Room;
use filed::{FEW, solve_filed};
use refusal::Refusal;
use restriction::{all_legal, flag_chosen, restrict};
use rows::{Chart, Rows};

// Weighs the choices into a lent row; or a refusal: the chart's, 10 where a row is shorter than the count of positions, or 12 where a choice
// is not legal. What lies past the last position's number stays, and on a refusal everything does.
pub fn weigh_chart(text: &[u8], choices: &[u16], worths: &mut [u16]) -> Result<(), Refusal>
    ensures { WeighedIs text.now choices.now worths.old worths.new result }
{
    let mut room = Room::new();
    let rows = room.load(text)?;
    let n = rows.positions;
    if choices.len() < n {
        return Err(Refusal::Short);
    }
    if worths.len() < n {
        return Err(Refusal::Short);
    }
    if weigh_rows(&rows, choices, worths) {
        return Ok(());
    }
    Err(Refusal::Choice)
}

// Weighs decoded rows by the solver, over the moves that stay; or answers that a choice is not legal. There is a choice of each position,
// and room for a worth of each.
pub fn weigh_rows(rows: &Rows, choices: &[u16], worths: &mut [u16]) -> bool
    requires { (rows.now.positions ≤ length choices.now) × (rows.now.positions ≤ length worths.old) }
    ensures { WeighedOf rows.now choices.now worths.old worths.new result }
{
    let n = rows.positions;
    let mut flags = [0u8; Chart::POSITIONS];
    flag_chosen(
        n, rows.moves, rows.costs, rows.froms, rows.tos, choices, &mut flags,
    );
    if !all_legal(n, rows.owners, choices, &flags) {
        return false;
    }
    if rows.moves <= FEW {
        weigh_up_to::<FEW>(rows, choices, worths);
    } else {
        weigh_up_to::<{ Chart::MOVES }>(rows, choices, worths);
    }
    true
}

// Weighs legal choices, with rows for the moves that stay that have room for N of them.
fn weigh_up_to<const N: usize>(rows: &Rows, choices: &[u16], worths: &mut [u16])
    requires legal { Legal (arena rows.now) (row_value choices.now) }
    requires positions_fit { (rows.now.positions ≤ length choices.now) × (rows.now.positions ≤ length worths.old) }
    requires moves_fit { (rows.now.moves ≤ N) × (N ≤ 4096) }
    ensures { LegalWeighedOf rows.now choices.now worths.old worths.new }
{
    let mut costskept = [0u8; N];
    let mut fromskept = [0u16; N];
    let mut toskept = [0u16; N];
    solve_restricted(
        rows,
        choices,
        &mut costskept,
        &mut fromskept,
        &mut toskept,
        worths,
    );
}

// Copies the moves that stay when the controller makes these choices, which are legal, and solves them: the worths. Answers how many
// moves stay. There is room for all moves, and for a worth of each position.
pub fn solve_restricted(
    rows: &Rows,
    choices: &[u16],
    costskept: &mut [u8],
    fromskept: &mut [u16],
    toskept: &mut [u16],
    worths: &mut [u16],
) -> usize
    requires legal { Legal (arena rows.now) (row_value choices.now) }
    requires positions_fit { (rows.now.positions ≤ length choices.now) × (rows.now.positions ≤ length worths.old) }
    requires moves_fit { (rows.now.moves ≤ length costskept.old) × (rows.now.moves ≤ length fromskept.old) × (rows.now.moves ≤ length toskept.old) }
    ensures { RestrictedSolvedOf rows.now choices.now worths.old result costskept.new fromskept.new toskept.new worths.new }
{
    let count = restrict(
        rows.positions,
        rows.moves,
        rows.owners,
        rows.costs,
        rows.froms,
        rows.tos,
        choices,
        costskept,
        fromskept,
        toskept,
    );
    solve_kept(rows, choices, count, costskept, fromskept, toskept, worths);
    count
}

// Solves the moves that stay, which with the positions are the restricted arena's rows: the worths.
fn solve_kept(
    rows: &Rows,
    choices: &[u16],
    moves: usize,
    costs: &[u8],
    froms: &[u16],
    tos: &[u16],
    worths: &mut [u16],
)
    requires legal { Legal (arena rows.now) (row_value choices.now) }
    requires copied { CopiedOf rows.now choices.now moves costs.now froms.now tos.now }
    requires positions_fit { rows.now.positions ≤ length worths.old }
    requires moves_fit { (moves ≤ length costs.now) × (moves ≤ length froms.now) × (moves ≤ length tos.now) }
    ensures { RestrictedSolvedOf rows.now choices.now worths.old moves costs.now froms.now tos.now worths.new }
{
    let mut steps = [0u16; Chart::POSITIONS];
    let kept = Rows {
        positions: rows.positions,
        moves,
        owners: rows.owners,
        marks: rows.marks,
        costs,
        froms,
        tos,
    };
    solve_filed(&kept, worths, &mut steps);
}
