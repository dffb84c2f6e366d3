// One round of document 01, the filed way: it looks only at the moves into the positions that the round before placed. The moves are filed by
// target, each as the entry of its code; the last need of a code places its position, or makes it due.
#![tactic(auto)]

ghost use Rattle.std.specs.Prelude.{◌≡◌, true, ℕ, ◌+◌, ◌/◌, ◌<◌, ◌≤◌, length, get_or, ltb};
ghost use Rattle.rows.specs.Numbers.{free};
ghost use Rattle.visits.specs.Steps.{Delayed, Fired, Looked, Put};
ghost use Rattle.visits.specs.Standing.{Ready, RoundVisited, Setting, Visited};

use needs::MET;
use rows::NONE;

// How many positions are in the order, that is placed, and how many are in the list of those due at the next value.
#[derive(Clone, Copy)]
pub struct Lists {
    pub tail: usize,
    pub late: usize,
}

// Looks at the entries of the positions of the order from `head` on, which are those of one round: places the positions of the next, (k, s).
// The rows are what the rounds before have left (specs/Standing.antt), as `filed` keeps them.
pub fn visit_round(
    head: usize,
    k: u16,
    s: u16,
    lists: Lists,
    starts: &[u16],
    entries: &[u16],
    needs: &mut [u16],
    values: &mut [u16],
    steps: &mut [u16],
    order: &mut [u16],
    due: &mut [u16],
    later: &mut [u16],
) -> Lists
    requires { (n : ℕ) × ((g : Setting n starts.now entries.now) × Ready g k head lists needs.old values.old steps.old order.old due.old later.old) }
    ensures { RoundVisited head k s starts.now entries.now lists needs.old values.old steps.old order.old due.old later.old result needs.new values.new steps.new order.new due.new later.new }
{
    let end = lists.tail;
    let mut grown = lists;
    for at in head..end {
        grown = visit(
            at, k, s, grown, starts, entries, needs, values, steps, order, due, later,
        );
    }
    grown
}

// Looks at the entries of the position at `head` of the order, that is at the moves into it.
fn visit(
    head: usize,
    k: u16,
    s: u16,
    lists: Lists,
    starts: &[u16],
    entries: &[u16],
    needs: &mut [u16],
    values: &mut [u16],
    steps: &mut [u16],
    order: &mut [u16],
    due: &mut [u16],
    later: &mut [u16],
) -> Lists
    requires { ((n : ℕ) × ((g : Setting n starts.now entries.now) × Ready g k head lists needs.old values.old steps.old order.old due.old later.old)) × (head < lists.tail) }
    ensures { Visited head k s starts.now entries.now lists needs.old values.old steps.old order.old due.old later.old result needs.new values.new steps.new order.new due.new later.new }
{
    let to = order[head] as usize;
    let end = starts[to + 1] as usize;
    let mut grown = lists;
    for j in starts[to] as usize..end {
        grown = look(
            entries[j] as usize,
            k,
            s,
            grown,
            needs,
            values,
            steps,
            order,
            due,
            later,
        );
    }
    grown
}

// Looks at one entry of a newly placed position: one need less, and where it was the last the entry fires.
fn look(
    e: usize,
    k: u16,
    s: u16,
    lists: Lists,
    needs: &mut [u16],
    values: &mut [u16],
    steps: &mut [u16],
    order: &mut [u16],
    due: &mut [u16],
    later: &mut [u16],
) -> Lists
    requires e_bound { (e < 1024) × (e < length needs.old) × (0 < get_or needs.old e 0) × (k < 65534) × (e / 2 < length values.old) × (e / 2 < length steps.old) × (e / 2 < length due.old) }
    requires tail_bound { (lists.tail ≤ 512) × (lists.late ≤ 512) × (free values.old (e / 2) ≡ true → lists.tail < length order.old) × (ltb (k + 1) (get_or due.old (e / 2) 0) ≡ true → lists.late < length later.old) }
    ensures { Looked e k s lists needs.old values.old steps.old order.old due.old later.old needs.new values.new steps.new order.new due.new later.new result }
{
    let need = needs[e] - 1;
    needs[e] = need;
    if need != MET {
        return lists;
    }
    fire(e, k, s, lists, values, steps, order, due, later)
}

// The last need of an entry is met: a meant one places its position in round (k, s), a disturbance makes it due at k and its cost.
fn fire(
    e: usize,
    k: u16,
    s: u16,
    lists: Lists,
    values: &mut [u16],
    steps: &mut [u16],
    order: &mut [u16],
    due: &mut [u16],
    later: &mut [u16],
) -> Lists
    requires e_bound { (e < 1024) × (k < 65534) × (e / 2 < length values.old) × (e / 2 < length steps.old) × (e / 2 < length due.old) }
    requires tail_bound { (lists.tail ≤ 512) × (lists.late ≤ 512) × (free values.old (e / 2) ≡ true → lists.tail < length order.old) × (ltb (k + 1) (get_or due.old (e / 2) 0) ≡ true → lists.late < length later.old) }
    ensures { Fired e k s lists values.old steps.old order.old due.old later.old values.new steps.new order.new due.new later.new result }
{
    let v = e / 2;
    let cost = (e % 2) as u16;
    if cost == 0 {
        let tail = put(v, k, s, lists.tail, values, steps, order);
        return Lists {
            tail,
            late: lists.late,
        };
    }
    let late = delay(v, k + cost, lists.late, due, later);
    Lists {
        tail: lists.tail,
        late,
    }
}

// Places v in round (k, s), and puts it at the end of the order, if it is not placed yet. Answers how many the order has then. The bounds keep
// v within the rows; who is not placed has room in the order, which has only those that are.
pub fn put(
    v: usize,
    k: u16,
    s: u16,
    tail: usize,
    values: &mut [u16],
    steps: &mut [u16],
    order: &mut [u16],
) -> usize
    requires { (v < 512) × (v < length values.old) × (v < length steps.old) × (tail ≤ 512) × (free values.old v ≡ true → tail < length order.old) }
    ensures { Put v k s tail values.old steps.old order.old values.new steps.new order.new result }
{
    if values[v] != NONE {
        return tail;
    }
    values[v] = k;
    steps[v] = s;
    order[tail] = v as u16;
    tail + 1
}

// Makes v due at k, and puts it at the end of the list of the next value, if it was due later or not at all. Answers how many that has then.
fn delay(v: usize, k: u16, late: usize, due: &mut [u16], later: &mut [u16]) -> usize
    requires { (v < 512) × (v < length due.old) × (late ≤ 512) × (ltb k (get_or due.old v 0) ≡ true → late < length later.old) }
    ensures { Delayed v k late due.old later.old due.new later.new result }
{
    if due[v] <= k {
        return late;
    }
    due[v] = k;
    later[late] = v as u16;
    late + 1
}
