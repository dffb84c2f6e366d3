// Values, choices, steps and worths by their definitions. A rule gives a position's entry in a column from the entries of its
// targets; a column is settled by applying its rule to all positions until nothing changes.
use crate::sheet::{
    CHOICE, CONTROLLER, COUNTS, Chart, DISTURBED, FIRST, HEADER, LANE, MEANT, MEMBER, NONE, PAIR,
    REST, RIGHT, STEP, Table, VALUE, WORTH, cell, get, is_unsafe, more, owner, positions, put,
};

// What is weighed of a move from v to t.
#[derive(Clone, Copy)]
pub enum Weight {
    // t's entry in a column.
    Entry(usize),
    // 1 where t has this value.
    Valued(usize),
    // t's number where it has this value.
    Number(usize),
    // 1 where t has this number.
    Named(usize),
    // t's step where it has v's value, 0 where it has a smaller one.
    Round,
    // 1 where t is earlier than v.
    Earlier,
}

fn weigh(table: &Table, v: usize, t: usize, weight: Weight) -> usize {
    match weight {
        Weight::Entry(column) => get(table, column, t),
        Weight::Valued(x) => usize::from(get(table, VALUE, t) == x),
        Weight::Number(x) => { if get(table, VALUE, t) == x { t } else { NONE } }
        Weight::Named(x) => usize::from(t == x),
        Weight::Round => round(table, v, t),
        Weight::Earlier => usize::from(earlier(table, v, t)),
    }
}

fn round(table: &Table, v: usize, t: usize) -> usize {
    let here = get(table, VALUE, v);
    let there = get(table, VALUE, t);
    if there < here {
        return 0;
    }
    if there == here {
        get(table, STEP, t)
    } else {
        NONE
    }
}

// Smaller value, or equal value and smaller step.
fn earlier(table: &Table, v: usize, t: usize) -> bool {
    let here = get(table, VALUE, v);
    let there = get(table, VALUE, t);
    there < here || (there == here && get(table, STEP, t) < get(table, STEP, v))
}

// Which of two weights is taken.
pub const LEAST: bool = false;

pub const GREATEST: bool = true;

fn further(x: usize, y: usize, end: bool) -> usize {
    if end == GREATEST { x.max(y) } else { x.min(y) }
}

// The least weight over v's moves of a kind, none if there are none; or the greatest, 0 if there are none.
pub fn over(
    chart: &Chart,
    table: &Table,
    v: usize,
    kind: usize,
    weight: Weight,
    end: bool,
) -> usize {
    let count = cell(chart, COUNTS, kind % 4096 + v % 512);
    let mut x = if end == GREATEST { 0 } else { NONE };
    for i in 0..count {
        let t = target(chart, v, kind, i);
        x = further(x, weigh(table, v, t, weight), end);
    }
    x
}

// The i-th target of v's moves of a kind.
pub fn target(chart: &Chart, v: usize, kind: usize, i: usize) -> usize {
    let first = cell(chart, COUNTS, FIRST + v % 512) % 8192 + i % 8192;
    if kind == MEANT {
        return cell(chart, RIGHT, first);
    }
    let meant = cell(chart, COUNTS, MEANT + v % 512) % 8192;
    cell(chart, RIGHT, first + meant)
}

// This value where v is in the set, else what it was.
fn value(table: &Table, v: usize, x: usize) -> usize {
    if get(table, MEMBER, v) == 1 {
        x
    } else {
        get(table, VALUE, v)
    }
}

// 1 where v is in the set that follows the one whose positions have the value k: v is safe; at L every meant target is in the set; at O some
// meant target is; at O and at R every disturbance's target was in the set before, whose positions have the value k by now. At R a play may
// stop, so nothing else is asked.
fn member(chart: &Chart, table: &Table, v: usize, k: usize) -> usize {
    if is_unsafe(chart, v) {
        return 0;
    }
    if owner(chart, v) == LANE {
        return over(chart, table, v, MEANT, Weight::Entry(MEMBER), LEAST);
    }
    let stays = if owner(chart, v) == REST {
        1
    } else {
        over(chart, table, v, MEANT, Weight::Entry(MEMBER), GREATEST)
    };
    further(
        stays,
        over(chart, table, v, DISTURBED, Weight::Valued(k), LEAST),
        LEAST,
    )
}

// The meant target of greatest value, the lowest number among equals; none at L and at R.
fn choice(chart: &Chart, table: &Table, v: usize) -> usize {
    if owner(chart, v) != CONTROLLER {
        return NONE;
    }
    let best = over(chart, table, v, MEANT, Weight::Entry(VALUE), GREATEST);
    over(chart, table, v, MEANT, Weight::Number(best), LEAST)
}

fn step(chart: &Chart, table: &Table, v: usize) -> usize {
    let value = get(table, VALUE, v);
    if value == NONE {
        return NONE;
    }
    if is_unsafe(chart, v) {
        return 0;
    }
    if owner(chart, v) == LANE {
        return more(over(chart, table, v, MEANT, Weight::Round, LEAST));
    }
    if 0 < value {
        let before = Weight::Valued(value - 1);
        if over(chart, table, v, DISTURBED, before, GREATEST) == 1 {
            return 0;
        }
    }
    // No later round takes an R.
    if owner(chart, v) == REST {
        return NONE;
    }
    more(over(chart, table, v, MEANT, Weight::Round, GREATEST))
}

// The worth at v of the controller that makes the choices in the table, from the worths of its targets.
fn worth(chart: &Chart, table: &Table, v: usize) -> usize {
    if is_unsafe(chart, v) {
        return 0;
    }
    if owner(chart, v) == LANE {
        return over(chart, table, v, MEANT, Weight::Entry(WORTH), LEAST);
    }
    let disturbed = more(over(chart, table, v, DISTURBED, Weight::Entry(WORTH), LEAST));
    if owner(chart, v) == REST {
        return disturbed;
    }
    let chosen = get(table, WORTH, get(table, CHOICE, v));
    further(chosen, disturbed, LEAST)
}

// 1 where v's value is finite and no lower position has the same pair of value and step.
fn pair(table: &Table, v: usize) -> usize {
    let value = get(table, VALUE, v);
    let step = get(table, STEP, v);
    if value == NONE {
        return 0;
    }
    let same = |w| get(table, VALUE, w) == value && get(table, STEP, w) == step;
    usize::from(!(0..v).any(same))
}

// Applies a rule at every position, and says whether that changed any entry of the column.
fn apply<F: Fn(&Table, usize) -> usize>(
    chart: &Chart,
    table: &mut Table,
    column: usize,
    rule: F,
) -> bool
    requires { F.IsAlwaysCallable rule }
{
    let mut changed = false;
    for v in 0..positions(chart) {
        let x = rule(table, v);
        if get(table, column, v) != x {
            put(table, column, v, x);
            changed = true;
        }
    }
    changed
}

// Applies a rule until nothing changes. Each round settles one position more, so that n + 1 rounds are enough.
fn settle<F: Fn(&Table, usize) -> usize>(chart: &Chart, table: &mut Table, column: usize, rule: F)
    requires { F.IsAlwaysCallable rule }
{
    let rounds = positions(chart) % 1024 + 1;
    for _ in 0..rounds {
        if !apply(chart, table, column, &rule) {
            return;
        }
    }
}

// Values, choices, steps and the first line's numbers of a chart.
pub fn solve(chart: &Chart, table: &mut Table) {
    apply(chart, table, VALUE, |_, _| 0);
    levels(chart, table);
    apply(chart, table, VALUE, |t, v| value(t, v, NONE));
    apply(chart, table, CHOICE, |t, v| choice(chart, t, v));
    apply(chart, table, STEP, |_, _| NONE);
    settle(chart, table, STEP, |t, v| step(chart, t, v));
    sum_up(chart, table);
}

// The sets of the positions that some controller keeps safe in every play with fewer than 1, 2, .. n disturbances: each is the
// greatest of its kind, found by taking away from all positions. They end with the first that is the one before it, since whoever
// is in that one is in each.
fn levels(chart: &Chart, table: &mut Table) {
    let n = positions(chart);
    for k in 0..n {
        apply(chart, table, MEMBER, |_, _| 1);
        settle(chart, table, MEMBER, |t, v| member(chart, t, v, k));
        apply(chart, table, VALUE, |t, v| value(t, v, k + 1));
        if count(table, VALUE, n, k) == 0 {
            return;
        }
    }
}

// The first line's numbers, from the values and steps in the table.
pub fn sum_up(chart: &Chart, table: &mut Table) {
    let n = positions(chart);
    apply(chart, table, PAIR, pair);
    let rounds = count(table, PAIR, n, 1);
    let best = highest(table, n);
    let evers = count(table, VALUE, n, NONE);
    put(table, HEADER, 0, rounds);
    put(table, HEADER, 1, best);
    put(table, HEADER, 2, evers);
}

// How many of the first n entries of a column are x.
pub fn count(table: &Table, column: usize, n: usize, x: usize) -> usize {
    (0..n).filter(|v| get(table, column, *v) == x).count()
}

// The highest finite value, or none.
fn highest(table: &Table, n: usize) -> usize {
    (0..n)
        .map(|v| get(table, VALUE, v))
        .filter(|x| *x != NONE)
        .max()
        .unwrap_or(NONE)
}

// The worths of the choices in the table.
pub fn weigh_choices(chart: &Chart, table: &mut Table) {
    apply(chart, table, WORTH, |_, _| NONE);
    settle(chart, table, WORTH, |t, v| worth(chart, t, v));
}
