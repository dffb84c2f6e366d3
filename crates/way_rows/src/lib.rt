// The shortest way to ruin over rows: the moves that lower the worth by their cost, the lowest next position of each that shortens the way, and
// the positions that the way comes through.
#![tactic(auto)]

ghost use Rattle.std.specs.Prelude.{◌≡◌, ◌&&◌, ◌+◌, ◌<◌, ◌≤◌, length, get_or, ltb};
ghost use Rattle.rows.specs.Rows.{Filled, Within};
ghost use Rattle.rows.specs.Filling.{set_if};
ghost use Rattle.distances.specs.Distances.{Joins};
ghost use Rattle.way_rows.specs.Steps.{Followed, LeadsOn, Pointed, shortens, straight_to};

use rows::{NONE, clear};

// Where the i-th move leads, if it lowers the worth by its cost; any other is made to stay where it begins.
fn straight_to(i: usize, worths: &[u16], costs: &[u8], froms: &[u16], tos: &[u16]) -> u16
    requires { (i < length costs.now) × (i < length froms.now) × (i < length tos.now) × (get_or froms.now i 0 < length worths.now) × (get_or tos.now i 0 < length worths.now) }
    ensures { result ≡ straight_to worths.now costs.now froms.now tos.now i }
{
    let from = froms[i];
    let to = tos[i];
    let here = worths[from as usize];
    if here == NONE {
        return from;
    }
    if here as usize == worths[to as usize] as usize + costs[i] as usize {
        return to;
    }
    from
}

// The targets of the moves that lower the worth by their cost; the others stay where they begin. The bounds keep the moves within
// their rows.
pub fn straighten(
    n: usize,
    m: usize,
    worths: &[u16],
    costs: &[u8],
    froms: &[u16],
    tos: &[u16],
    straight: &mut [u16],
)
    requires { Within n m costs.now froms.now tos.now × (n ≤ length worths.now) × (m ≤ length straight.old) }
    ensures { Filled straight.old straight.new m (λ i. straight_to worths.now costs.now froms.now tos.now i) }
{
    for i in 0..m {
        straight[i] = straight_to(i, worths, costs, froms, tos);
    }
}

// Takes the target of the i-th move as the next position of the one that it leaves, if it shortens the way by one and is lower than the
// lowest so far.
fn point_by(i: usize, froms: &[u16], tos: &[u16], left: &[u16], next: &mut [u16])
    requires { (i < length froms.now) × (i < length tos.now) × (get_or froms.now i 0 < length left.now) × (get_or tos.now i 0 < length left.now) × (get_or froms.now i 0 < length next.old) }
    ensures { next.new ≡ set_if (shortens froms.now tos.now left.now i && ltb (get_or tos.now i 0) (get_or next.old (get_or froms.now i 0) 0)) (get_or froms.now i 0) (get_or tos.now i 0) next.old }
{
    let from = froms[i] as usize;
    let to = tos[i];
    if left[from] as usize != left[to as usize] as usize + 1 {
        return;
    }
    if to < next[from] {
        next[from] = to;
    }
}

// The next position of each: of the targets from which one move less is left the lowest, NONE where there is none. The bounds keep
// the moves within their rows.
pub fn point_on(n: usize, m: usize, froms: &[u16], tos: &[u16], left: &[u16], next: &mut [u16])
    requires { Joins n m froms.now tos.now × (n ≤ length left.now) × (n ≤ length next.old) }
    ensures { Pointed n froms.now tos.now left.now m next.new }
{
    clear(n, next);
    for i in 0..m {
        point_by(i, froms, tos, left, next);
    }
}

// Follows the next positions from the start until no move is left. Notes each position and by how much the worth fell on the way
// to it, which is the cost of the move, and answers how many they are. The row of next positions leads on, and there is room.
pub fn follow(
    n: usize,
    start: usize,
    worths: &[u16],
    left: &[u16],
    next: &[u16],
    positions: &mut [u16],
    led: &mut [u16],
) -> usize
    requires leads_on { LeadsOn n worths.now left.now next.now × (n ≤ 512) × (start < n) × (get_or left.now start 0 < n) }
    requires n_in_bounds { (n ≤ length worths.now) × (n ≤ length left.now) × (n ≤ length next.now) × (n ≤ length positions.old) × (n ≤ length led.old) }
    ensures { Followed start worths.now left.now next.now positions.new led.new result }
{
    positions[0] = start as u16;
    led[0] = 0;
    let moves = left[start] as usize;
    let mut here = start;
    for i in 0..moves {
        let there = next[here] as usize;
        positions[i + 1] = next[here];
        led[i + 1] = worths[here] - worths[there];
        here = there;
    }
    moves + 1
}
