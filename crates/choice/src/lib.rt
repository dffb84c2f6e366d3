// The choices of a row of values: at O the meant target of greatest value, the lowest number among equals.
#![tactic(auto)]

ghost use Rattle.std.specs.Prelude.{◌≡◌, ◌&&◌, List, ℕ, ◌<◌, ◌≤◌, length, get_or};
ghost use Rattle.rows.specs.Rows.{AtMove, ChartRows};
ghost use Rattle.rows.specs.Filling.{set_if};
ghost use Rattle.choice.specs.Choose.{Chosen, Fitting, is_better, own_move};

use rows::{NONE, clear};

// The target w is better than the best so far.
fn is_better(values: &[u16], best: u16, w: u16) -> bool
    requires { Fitting values.now best w }
    ensures { result ≡ is_better values.now best w }
{
    if best == NONE {
        return true;
    }
    let old = values[best as usize];
    let new = values[w as usize];
    if old < new {
        return true;
    }
    if old == new {
        return w < best;
    }
    false
}

// Takes the target of the i-th move as the choice of the position that it leaves, if it is the best so far.
fn choose_by(
    i: usize,
    owners: &[u8],
    costs: &[u8],
    froms: &[u16],
    tos: &[u16],
    values: &[u16],
    choices: &mut [u16],
)
    requires { AtMove i costs.now froms.now tos.now values.now choices.old × (get_or froms.now i 0 < length owners.now) × Fitting values.now (get_or choices.old (get_or froms.now i 0) 0) (get_or tos.now i 0) }
    ensures { choices.new ≡ set_if (own_move owners.now costs.now froms.now i && is_better values.now (get_or choices.old (get_or froms.now i 0) 0) (get_or tos.now i 0)) (get_or froms.now i 0) (get_or tos.now i 0) choices.old }
{
    if costs[i] != 0 {
        return;
    }
    let from = froms[i] as usize;
    if owners[from] != 0 {
        return;
    }
    let to = tos[i];
    if is_better(values, choices[from], to) {
        choices[from] = to;
    }
}

// The choice of each position by a row of values: one walk over the moves. The rows hold a chart.
pub fn choose(
    n: usize,
    m: usize,
    owners: &[u8],
    costs: &[u8],
    froms: &[u16],
    tos: &[u16],
    values: &[u16],
    choices: &mut [u16],
)
    requires { ((marks : List ℕ) × ChartRows n m owners.now marks costs.now froms.now tos.now) × (n ≤ length values.now) × (n ≤ length choices.old) }
    ensures { Chosen n m owners.now costs.now froms.now tos.now values.now choices.old choices.new }
{
    clear(n, choices);
    for i in 0..m {
        choose_by(i, owners, costs, froms, tos, values, choices);
    }
}
