// A row of choices over a chart's rows: whether every choice is legal, and the moves that stay where the controller makes these choices.
#![tactic(auto)]

ghost use Rattle.std.specs.Prelude.{◌≡◌, not, ◌<◌, ◌≤◌, length, get_or};
ghost use Rattle.rows.specs.Rows.{Within};
ghost use Rattle.rows.specs.Numbers.{number_at};
ghost use Rattle.rows.specs.Notes.{Noted};
ghost use Rattle.rows.specs.Filling.{set_if};
ghost use Rattle.search.specs.Below.{some_below, bit};
ghost use Rattle.restriction.specs.Restriction.{Copied, CopiedMove, is_chosen, is_legal, move_stays};

use rows::{NONE, clear_flags};

// Flags the position that the i-th move leaves, if that move is meant and its choice.
fn flag_chosen_by(
    i: usize,
    costs: &[u8],
    froms: &[u16],
    tos: &[u16],
    choices: &[u16],
    flags: &mut [u8],
)
    requires { (i < length costs.now) × (i < length froms.now) × (i < length tos.now) × (get_or froms.now i 0 < length choices.now) × (get_or froms.now i 0 < length flags.old) }
    ensures { flags.new ≡ set_if (is_chosen costs.now froms.now tos.now choices.now i) (get_or froms.now i 0) 1 flags.old }
{
    if costs[i] != 0 {
        return;
    }
    let from = froms[i] as usize;
    if choices[from] == tos[i] {
        flags[from] = 1;
    }
}

// Flags the positions whose choice is a meant target. The bounds keep the rows within their length.
pub fn flag_chosen(
    n: usize,
    m: usize,
    costs: &[u8],
    froms: &[u16],
    tos: &[u16],
    choices: &[u16],
    flags: &mut [u8],
)
    requires { Within n m costs.now froms.now tos.now × (n ≤ length choices.now) × (n ≤ length flags.old) }
    ensures { Noted n (number_at froms.now) (is_chosen costs.now froms.now tos.now choices.now) (λ v. bit) m flags.new }
{
    clear_flags(n, flags);
    for i in 0..m {
        flag_chosen_by(i, costs, froms, tos, choices, flags);
    }
}

// The choice at v is a meant target at O, none at L and R.
fn is_legal(v: usize, owners: &[u8], choices: &[u16], flags: &[u8]) -> bool
    requires { (v < length owners.now) × (v < length choices.now) × (v < length flags.now) }
    ensures { result ≡ is_legal owners.now choices.now flags.now v }
{
    if owners[v] == 0 {
        flags[v] == 1
    } else {
        choices[v] == NONE
    }
}

// Every choice is legal. The bounds keep the n positions within the rows.
pub fn all_legal(n: usize, owners: &[u8], choices: &[u16], flags: &[u8]) -> bool
    requires { (n ≤ length owners.now) × (n ≤ length choices.now) × (n ≤ length flags.now) }
    ensures { result ≡ not (some_below (λ v. not (is_legal owners.now choices.now flags.now v)) n) }
{
    for v in 0..n {
        if !is_legal(v, owners, choices, flags) {
            return false;
        }
    }
    true
}

// The i-th move stays when the controller makes these choices: all but its other meant moves.
fn stays(i: usize, owners: &[u8], costs: &[u8], froms: &[u16], tos: &[u16], choices: &[u16]) -> bool
    requires { (i < length costs.now) × (i < length froms.now) × (i < length tos.now) × (get_or froms.now i 0 < length owners.now) × (get_or froms.now i 0 < length choices.now) }
    ensures { result ≡ move_stays owners.now costs.now froms.now tos.now choices.now i }
{
    let from = froms[i] as usize;
    if costs[i] != 0 {
        return true;
    }
    if owners[from] != 0 {
        return true;
    }
    choices[from] == tos[i]
}

// Copies the i-th move to the place `at` of other rows, if it stays, and answers the next place.
fn copy_move(
    i: usize,
    at: usize,
    owners: &[u8],
    costs: &[u8],
    froms: &[u16],
    tos: &[u16],
    choices: &[u16],
    costskept: &mut [u8],
    fromskept: &mut [u16],
    toskept: &mut [u16],
) -> usize
    requires i_in_bounds { (i < length costs.now) × (i < length froms.now) × (i < length tos.now) × (get_or froms.now i 0 < length owners.now) × (get_or froms.now i 0 < length choices.now) }
    requires at_in_bounds { (at < length costskept.old) × (at < length fromskept.old) × (at < length toskept.old) }
    ensures { CopiedMove owners.now costs.now froms.now tos.now choices.now i at costskept.old fromskept.old toskept.old costskept.new fromskept.new toskept.new result }
{
    if stays(i, owners, costs, froms, tos, choices) {
        costskept[at] = costs[i];
        fromskept[at] = froms[i];
        toskept[at] = tos[i];
        return at + 1;
    }
    at
}

// Copies the moves that stay, in their order, and counts them. The bounds keep the moves within their rows and the copies.
pub fn restrict(
    n: usize,
    m: usize,
    owners: &[u8],
    costs: &[u8],
    froms: &[u16],
    tos: &[u16],
    choices: &[u16],
    costskept: &mut [u8],
    fromskept: &mut [u16],
    toskept: &mut [u16],
) -> usize
    requires within { Within n m costs.now froms.now tos.now × (n ≤ length owners.now) × (n ≤ length choices.now) }
    requires m_in_bounds { (m ≤ length costskept.old) × (m ≤ length fromskept.old) × (m ≤ length toskept.old) }
    ensures { Copied owners.now costs.now froms.now tos.now choices.now m result costskept.new fromskept.new toskept.new }
{
    let mut count: usize = 0;
    for i in 0..m {
        count = copy_move(
            i, count, owners, costs, froms, tos, choices, costskept, fromskept, toskept,
        );
    }
    count
}
