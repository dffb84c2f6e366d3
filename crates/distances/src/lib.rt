// The least count of moves from each position to a marked one: a breadth-first search from the marked positions, back along moves that are
// chained by target. Each move is looked at once.
#![tactic(auto)]

ghost use Rattle.std.specs.Prelude.{◌≡◌, List, ℕ, ◌<◌, ◌≤◌, length, get_or};
ghost use Rattle.chains.specs.Chains.{Chained};
ghost use Rattle.distances.specs.Distances.{Begun, BegunAt, Distances, Joins, Reached, Searching, Visited};

use chains::chain;
use rows::{Chart, NONE, clear};

// Counts the moves that are left from each position on a shortest way to a marked one, NONE where there is no way. The moves join positions
// below n, and there is room for n counts.
pub fn count_moves(n: usize, m: usize, marks: &[u8], froms: &[u16], tos: &[u16], left: &mut [u16])
    requires { Joins n m froms.now tos.now × (n ≤ 512) × (m ≤ 4096) × (n ≤ length marks.now) × (n ≤ length left.old) }
    ensures { Distances n m marks.now froms.now tos.now left.new }
{
    let mut heads = [NONE; Chart::POSITIONS];
    let mut nexts = [NONE; Chart::MOVES];
    chain(m, tos, &mut heads, &mut nexts);
    let mut order = [0u16; Chart::POSITIONS];
    let mut tail = begin(n, marks, left, &mut order);
    let mut head: usize = 0;
    // No `for`: the order grows on the way.
    while head < tail {
        tail = visit(n, m, head, froms, &heads, &nexts, tail, left, &mut order);
        head += 1;
    }
}

// Puts the marked positions, with count 0, first in the order. Answers how many they are.
fn begin(n: usize, marks: &[u8], left: &mut [u16], order: &mut [u16]) -> usize
    requires { (n ≤ 512) × (n ≤ length marks.now) × (n ≤ length left.old) × (n ≤ length order.old) }
    ensures { Begun n marks.now n left.new order.new result }
{
    clear(n, left);
    let mut tail: usize = 0;
    for v in 0..n {
        tail = begin_at(v, marks, tail, left, order);
    }
    tail
}

// Reaches v, with count 0, if it is marked.
fn begin_at(v: usize, marks: &[u8], tail: usize, left: &mut [u16], order: &mut [u16]) -> usize
    requires { (v < 512) × (v < length marks.now) × (v < length left.old) × (tail ≤ 512) × (get_or left.old v 0 ≡ 65535 → tail < length order.old) }
    ensures { BegunAt v marks.now tail left.old order.old left.new order.new result }
{
    if marks[v] != 1 {
        return tail;
    }
    reach(v, 0, tail, left, order)
}

// Reaches every position from which a move leads to the one at `head` of the order, with one move more. Answers how many the order has then.
fn visit(
    n: usize,
    m: usize,
    head: usize,
    froms: &[u16],
    heads: &[u16],
    nexts: &[u16],
    tail: usize,
    left: &mut [u16],
    order: &mut [u16],
) -> usize
    requires by_index { ((marks : List ℕ) × ((tos : List ℕ) × (Chained tos m 0 heads.now nexts.now × Joins n m froms.now tos × Searching n m marks froms.now tos head tail left.old order.old))) × (head < tail) × (n ≤ 512) × (m ≤ 4096) }
    requires in_bounds { (512 ≤ length heads.now) × (m ≤ length nexts.now) × (n ≤ length left.old) × (n ≤ length order.old) }
    ensures { Visited n m froms.now heads.now nexts.now head tail left.old order.old left.new order.new result }
{
    let to = order[head] as usize;
    let count = left[to] + 1;
    let mut last = tail;
    let mut i = heads[to] as usize;
    // No `for`: along a chain each place names the next.
    while i < m {
        last = reach(froms[i] as usize, count, last, left, order);
        i = nexts[i] as usize;
    }
    last
}

// Gives v this count and the next place in the order, if it has none yet. Answers how many the order has then.
fn reach(v: usize, count: u16, tail: usize, left: &mut [u16], order: &mut [u16]) -> usize
    requires { (v < 512) × (v < length left.old) × (tail ≤ 512) × (get_or left.old v 0 ≡ 65535 → tail < length order.old) }
    ensures { Reached v count tail left.old order.old left.new order.new result }
{
    if left[v] != NONE {
        return tail;
    }
    left[v] = count;
    order[tail] = v as u16;
    tail + 1
}
