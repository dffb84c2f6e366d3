// The rounds of document 01, one after the other, the filed way: each round looks only at the moves into the positions that the round before
// placed.
#![tactic(auto)]

ghost use Rattle.std.specs.Prelude.{ℕ, ◌+◌, ◌*◌, ◌<◌, ◌≤◌, length, get_or, eqb};
ghost use Rattle.rows.specs.Rows.{RowIs};
ghost use Rattle.rows.specs.Numbers.{number_at};
ghost use Rattle.solver.specs.OnRows.{SolvedOf};
ghost use Rattle.visits.specs.Lists.{Listed};
ghost use Rattle.visits.specs.Standing.{Ready, Setting};
ghost use Rattle.filed.specs.Values.{AllRounds, FirstValue, Gathered, NextValue, ValueBegun, ValueSettled};

use filing::file;
use needs::{code_moves, count_needs};
use rows::{Chart, Rows, clear};
use visits::{Lists, put, visit_round};

// So many moves fit into the shorter rows. To clear longer ones is a good part of what a small chart takes.
pub const FEW: usize = 512;

// Values and steps by rounds, as `solver::solve` gives them: 65,535 for "ever" and its dash. There is room for a number of each position.
// What lies past stays.
pub fn solve_filed(rows: &Rows, values: &mut [u16], steps: &mut [u16])
    requires { (rows.now.positions ≤ length values.old) × (rows.now.positions ≤ length steps.old) }
    ensures { SolvedOf rows.now values.old steps.old values.new steps.new }
{
    if rows.moves <= FEW {
        solve_up_to::<FEW>(rows, values, steps);
    } else {
        solve_up_to::<{ Chart::MOVES }>(rows, values, steps);
    }
}

// The same, with rows for codes and file that have room for N moves.
fn solve_up_to<const N: usize>(rows: &Rows, values: &mut [u16], steps: &mut [u16])
    requires positions_fit { (rows.now.positions ≤ length values.old) × (rows.now.positions ≤ length steps.old) }
    requires moves_fit { (rows.now.moves ≤ N) × (N ≤ 4096) }
    ensures { SolvedOf rows.now values.old steps.old values.new steps.new }
{
    let mut codes = [0u16; N];
    let mut entries = [0u16; N];
    solve_in(rows, &mut codes, &mut entries, values, steps);
}

// Codes and files the moves, in the rows that are lent for that, counts the needs, and goes through the rounds.
fn solve_in(
    rows: &Rows,
    codes: &mut [u16],
    entries: &mut [u16],
    values: &mut [u16],
    steps: &mut [u16],
)
    requires positions_fit { (rows.now.positions ≤ length values.old) × (rows.now.positions ≤ length steps.old) }
    requires moves_fit { (rows.now.moves ≤ length codes.old) × (rows.now.moves ≤ length entries.old) }
    ensures { SolvedOf rows.now values.old steps.old values.new steps.new }
{
    let n = rows.positions;
    let m = rows.moves;
    let mut starts = [0u16; Chart::POSITIONS + 1];
    let mut needs = [0u16; 2 * Chart::POSITIONS];
    let mut order = [0u16; Chart::POSITIONS];
    let mut due = [0u16; Chart::POSITIONS];
    let mut later = [0u16; Chart::POSITIONS];
    code_moves(m, rows.costs, rows.froms, codes);
    file(n, m, rows.tos, codes, &mut starts, entries);
    count_needs(n, m, rows.owners, codes, &mut needs);
    solve_rounds(
        n, rows.marks, &starts, entries, &mut needs, values, steps, &mut order, &mut due,
        &mut later,
    );
}

// All rounds, value after value, over a file and the needs of its entries. The last three rows are room to work in.
fn solve_rounds(
    n: usize,
    marks: &[u8],
    starts: &[u16],
    entries: &[u16],
    needs: &mut [u16],
    values: &mut [u16],
    steps: &mut [u16],
    order: &mut [u16],
    due: &mut [u16],
    later: &mut [u16],
)
    requires n_in_bounds { ((g : Setting n starts.now entries.now) × RowIs needs.old (2 * n) (number_at g.first)) × (2 * n ≤ length needs.old) × (n ≤ length marks.now) × (n ≤ length values.old) × (n ≤ length steps.old) }
    requires n_in_bounds_2 { (n ≤ length order.old) × (n ≤ length due.old) × (n ≤ length later.old) }
    ensures { AllRounds n starts.now entries.now marks.now needs.old values.old steps.old values.new steps.new }
{
    let mut lists = first_value(
        n, marks, starts, entries, needs, values, steps, order, due, later,
    );
    for last in 0..n as u16 {
        let head = lists.tail;
        lists = next_value(
            last, lists, starts, entries, needs, values, steps, order, due, later,
        );
        if lists.tail == head {
            return;
        }
    }
}

// The rounds of value 0: nobody is placed or due before them.
fn first_value(
    n: usize,
    marks: &[u8],
    starts: &[u16],
    entries: &[u16],
    needs: &mut [u16],
    values: &mut [u16],
    steps: &mut [u16],
    order: &mut [u16],
    due: &mut [u16],
    later: &mut [u16],
) -> Lists
    requires n_in_bounds { ((g : Setting n starts.now entries.now) × RowIs needs.old (2 * n) (number_at g.first)) × (2 * n ≤ length needs.old) × (n ≤ length marks.now) × (n ≤ length values.old) × (n ≤ length steps.old) }
    requires n_in_bounds_2 { (n ≤ length order.old) × (n ≤ length due.old) × (n ≤ length later.old) }
    ensures { FirstValue n starts.now entries.now marks.now needs.old values.old steps.old result needs.new values.new steps.new order.new due.new later.new }
{
    clear(n, values);
    clear(n, steps);
    clear(n, due);
    let late = gather(n, marks, later);
    let tail = begin_value(0, 0, late, values, steps, order, later);
    settle(
        0,
        0,
        Lists { tail, late: 0 },
        starts,
        entries,
        needs,
        values,
        steps,
        order,
        due,
        later,
    )
}

// The rounds of the value after the last one, up to the first that places nobody.
fn next_value(
    last: u16,
    lists: Lists,
    starts: &[u16],
    entries: &[u16],
    needs: &mut [u16],
    values: &mut [u16],
    steps: &mut [u16],
    order: &mut [u16],
    due: &mut [u16],
    later: &mut [u16],
) -> Lists
    requires { ((n : ℕ) × ((g : Setting n starts.now entries.now) × Ready g last lists.tail lists needs.old values.old steps.old order.old due.old later.old)) × (last < 512) }
    ensures { NextValue last starts.now entries.now lists needs.old values.old steps.old order.old due.old later.old result needs.new values.new steps.new order.new due.new later.new }
{
    let head = lists.tail;
    let k = last + 1;
    let tail = begin_value(k, head, lists.late, values, steps, order, later);
    let begun = Lists { tail, late: 0 };
    if tail == head {
        return begun;
    }
    settle(
        head, k, begun, starts, entries, needs, values, steps, order, due, later,
    )
}

// Round (k, 0): places the positions of the list that are not placed yet. Answers how many the order has then.
fn begin_value(
    k: u16,
    tail: usize,
    late: usize,
    values: &mut [u16],
    steps: &mut [u16],
    order: &mut [u16],
    later: &[u16],
) -> usize
    requires { ((n : ℕ) × Gathered n tail late values.old steps.old order.old later.now) × (k < 65535) }
    ensures { ValueBegun k tail late values.old steps.old order.old later.now result values.new steps.new order.new }
{
    let mut grown = tail;
    for i in 0..late {
        grown = put(later[i] as usize, k, 0, grown, values, steps, order);
    }
    grown
}

// Lists the positions with mark 1, which are those of round (0, 0), and counts them. It stores each, so that it jumps on no mark.
fn gather(n: usize, marks: &[u8], later: &mut [u16]) -> usize
    requires { (n ≤ 512) × (n ≤ length marks.now) × (n ≤ length later.old) }
    ensures { Listed n result later.new (λ v. eqb (get_or marks.now v 0) 1) }
{
    let mut late: usize = 0;
    for v in 0..n {
        later[late] = v as u16;
        late += usize::from(marks[v] == 1);
    }
    late
}

// The rounds (k, 1), (k, 2), .. up to the first that places nobody. The order has the positions of round (k, 0) from `head` on.
fn settle(
    head: usize,
    k: u16,
    lists: Lists,
    starts: &[u16],
    entries: &[u16],
    needs: &mut [u16],
    values: &mut [u16],
    steps: &mut [u16],
    order: &mut [u16],
    due: &mut [u16],
    later: &mut [u16],
) -> Lists
    requires { (n : ℕ) × ((g : Setting n starts.now entries.now) × Ready g k head lists needs.old values.old steps.old order.old due.old later.old) }
    ensures { ValueSettled head k starts.now entries.now lists needs.old values.old steps.old order.old due.old later.old result needs.new values.new steps.new order.new due.new later.new }
{
    let mut s: u16 = 0;
    let mut at = head;
    let mut grown = lists;
    loop {
        let end = grown.tail;
        s += 1;
        grown = visit_round(
            at, k, s, grown, starts, entries, needs, values, steps, order, due, later,
        );
        if grown.tail == end {
            return grown;
        }
        at = end;
    }
}
