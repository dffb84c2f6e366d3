// One round of document 01, the plain way: it walks all moves against the table as it was, and then places.
#![tactic(auto)]

ghost use Rattle.std.specs.Prelude.{◌≡◌, ◌<◌, ◌≤◌, false, cond, not, ◌&&◌, length, get_or, set, eqb};
ghost use Rattle.search.specs.Below.{bit};
ghost use Rattle.game.specs.Table.{of_kind};
ghost use Rattle.rows.specs.Rows.{Filled, RowIs, AtMove, Within};
ghost use Rattle.rows.specs.Numbers.{number_at};
ghost use Rattle.rows.specs.Notes.{Noted, spot_if, found};
ghost use Rattle.round.specs.Round.{Placing, PlacingAt, decides, disturbs, meets, ready_flag};

use rows::{Chart, NONE};

fn pick(take: bool, new: u16, old: u16) -> u16
    ensures { result ≡ cond take new old }
{
    if take { new } else { old }
}

// Places v in round (k, s) if it is flagged and not placed yet, and counts it. It stores either way, so that a round jumps on no test.
fn place_one(v: usize, flags: &[u8], k: u16, s: u16, values: &mut [u16], steps: &mut [u16]) -> usize
    requires { (v < length flags.now) × (v < length values.old) × (v < length steps.old) }
    ensures { PlacingAt v flags.now k s values.old steps.old values.new steps.new result }
{
    let take = (flags[v] == 1) & (values[v] == NONE);
    values[v] = pick(take, k, values[v]);
    steps[v] = pick(take, s, steps[v]);
    usize::from(take)
}

// Round (k, s): places the flagged positions that are not placed yet, and counts them. The bounds keep the n positions within the rows.
pub fn place(n: usize, flags: &[u8], k: u16, s: u16, values: &mut [u16], steps: &mut [u16]) -> usize
    requires { (n ≤ length flags.now) × (n ≤ length values.old) × (n ≤ length steps.old) }
    ensures { Placing n flags.now k s values.old steps.old values.new steps.new result }
{
    let mut count: usize = 0;
    for v in 0..n {
        count += place_one(v, flags, k, s, values, steps);
    }
    count
}

// The flag of each position before any of its moves is seen: 1 at O, 0 at L and at R.
fn flag_owners(n: usize, owners: &[u8], flags: &mut [u8])
    requires { (n ≤ length owners.now) × (n ≤ length flags.old) }
    ensures { Filled flags.old flags.new n (λ v. ready_flag owners.now v false) }
{
    for v in 0..n {
        flags[v] = u8::from(owners[v] == 0);
    }
}

// What each position shows to the moves into it: 1 if its value is k, else 0.
fn show(n: usize, k: u16, values: &[u16], shows: &mut [u8])
    requires { (n ≤ length values.now) × (n ≤ length shows.old) }
    ensures { Filled shows.old shows.new n (λ v. bit (eqb (get_or values.now v 0) k)) }
{
    for v in 0..n {
        shows[v] = u8::from(values[v] == k);
    }
}

// Where a move leaves its note: at the position that it leaves if it is of the kind sought, meant or a disturbance, and meets what
// is sought, else past all positions.
fn spot(cost: u8, meant: bool, seeks: u8, shows: u8, from: usize) -> usize
    ensures { result ≡ spot_if (of_kind meant cost && eqb seeks shows) from }
{
    if ((cost == 0) == meant) & (seeks == shows) {
        from
    } else {
        Chart::POSITIONS
    }
}

// Notes the position that the i-th move leaves, if the move is of the kind sought and its target shows what the position seeks. Any
// other move notes a place that nobody reads, so that no jump is needed: the test goes either way at random. (For disturbances the
// compiler makes one all the same.)
fn note_by(
    i: usize,
    meant: bool,
    seeks: &[u8],
    shows: &[u8],
    costs: &[u8],
    froms: &[u16],
    tos: &[u16],
    found: &mut [u8],
)
    requires { AtMove i costs.now froms.now tos.now shows.now seeks.now × (get_or froms.now i 0 < 512) × (512 < length found.old) }
    ensures { found.new ≡ set found.old (spot_if (meets meant seeks.now shows.now costs.now froms.now tos.now i) (get_or froms.now i 0)) 1 }
{
    let from = froms[i] as usize;
    let to = tos[i] as usize;
    found[spot(costs[i], meant, seeks[from], shows[to], from)] = 1;
}

// Notes every position that such a move leaves. No note is there before.
fn note(
    n: usize,
    m: usize,
    meant: bool,
    seeks: &[u8],
    shows: &[u8],
    costs: &[u8],
    froms: &[u16],
    tos: &[u16],
    found: &mut [u8],
)
    requires { Within n m costs.now froms.now tos.now × (n ≤ 512) × (n ≤ length seeks.now) × (n ≤ length shows.now) × (512 < length found.old) × RowIs found.old n (λ v. 0) }
    ensures { Noted n (number_at froms.now) (meets meant seeks.now shows.now costs.now froms.now tos.now) (λ v. bit) m found.new }
{
    for i in 0..m {
        note_by(i, meant, seeks, shows, costs, froms, tos, found);
    }
}

// The flags: the first ones, turned over where a note was left.
fn turn(n: usize, firsts: &[u8], found: &[u8], flags: &mut [u8])
    requires { (n ≤ length firsts.now) × (n ≤ length found.now) × (n ≤ length flags.old) }
    ensures { Filled flags.old flags.new n (λ v. bit (not (eqb (get_or firsts.now v 0) (get_or found.now v 0)))) }
{
    for v in 0..n {
        flags[v] = u8::from(firsts[v] != found[v]);
    }
}

// Flags the positions that join round (k, s + 1): at O all meant targets are placed, at L one is. So at O a meant target that is not
// placed turns the first flag, and at L one that is: each seeks a target that shows its first flag. At R, which has no meant move, nothing
// turns it: no R joins. The bounds are those of rows that hold a chart.
pub fn flag_ready(
    n: usize,
    m: usize,
    owners: &[u8],
    costs: &[u8],
    froms: &[u16],
    tos: &[u16],
    values: &[u16],
    flags: &mut [u8],
)
    requires { Within n m costs.now froms.now tos.now × (n ≤ 512) × (n ≤ length owners.now) × (n ≤ length values.now) × (n ≤ length flags.old) }
    ensures { Noted n (number_at froms.now) (decides owners.now costs.now froms.now tos.now values.now) (ready_flag owners.now) m flags.new }
{
    let mut firsts = [0u8; Chart::POSITIONS];
    let mut shows = [0u8; Chart::POSITIONS];
    let mut found = [0u8; Chart::POSITIONS + 1];
    flag_owners(n, owners, &mut firsts);
    show(n, NONE, values, &mut shows);
    note(n, m, true, &firsts, &shows, costs, froms, tos, &mut found);
    turn(n, &firsts, &found, flags);
}

// Flags the positions with a disturbance into value k: those that join round (k + 1, 0). The bounds are the same.
pub fn flag_disturbed(
    n: usize,
    m: usize,
    k: u16,
    costs: &[u8],
    froms: &[u16],
    tos: &[u16],
    values: &[u16],
    flags: &mut [u8],
)
    requires { Within n m costs.now froms.now tos.now × (n ≤ 512) × (n ≤ length values.now) × (n ≤ length flags.old) }
    ensures { Noted n (number_at froms.now) (disturbs costs.now tos.now values.now k) (λ v. bit) m flags.new }
{
    let firsts = [0u8; Chart::POSITIONS];
    let ones = [1u8; Chart::POSITIONS];
    let mut shows = [0u8; Chart::POSITIONS];
    let mut found = [0u8; Chart::POSITIONS + 1];
    show(n, k, values, &mut shows);
    note(n, m, false, &ones, &shows, costs, froms, tos, &mut found);
    turn(n, &firsts, &found, flags);
}
