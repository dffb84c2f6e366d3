// Charts: every one of one and two positions by its number, and pseudo-random ones.
use crate::sheet::{
    CONTROLLER, Chart, DISTURBED, LANE, MEANT, NONE, REST, RIGHT, add_move, cell, more, owner,
    place, positions, put_line,
};

// Which charts are drawn: the count of positions; how many moves a position has at most, and whether it has that many exactly; how
// many positions of a hundred are the lane's, and how many unsafe; how far off a target is, 0 for anywhere; and how many positions of
// a hundred are of rest. Where targets are near, disturbances lead downward and position 0 is unsafe, so that values grow high.
#[derive(Clone, Copy)]
struct Shape {
    positions: usize,
    most: usize,
    exact: bool,
    lanes: usize,
    dangers: usize,
    reach: usize,
    rests: usize,
}

// By which marks are left blank: what the draws have come to, apart from those of the charts, and the count of blank marks.
#[derive(Clone, Copy)]
pub struct Blanks {
    pub seed: usize,
    pub count: usize,
}

// The next pseudo-random number, below k.
pub fn below(seed: &mut usize, k: usize) -> usize {
    let x = (*seed % 2147483648 * 1103515245 + 12345) % 2147483648;
    *seed = x;
    if k == 0 { 0 } else { x / 2048 % k }
}

// A chart of a kind: the one with a number, or one that is drawn. Kinds from 10 up have positions of rest.
pub fn build(chart: &mut Chart, kind: usize, number: usize, seed: &mut usize) {
    match kind {
        0 => numbered(chart, 1, number % 6, 0),
        1 => numbered(chart, 2, number % 30, number / 30 % 30),
        2 => straight(chart, 512, CONTROLLER),
        3 => straight(chart, 512, LANE),
        10 => numbered(chart, 1, number % 4 + 6, 0),
        11 => numbered_resting(chart, number),
        12 => straight(chart, 512, REST),
        _ => drawn(chart, kind, seed),
    }
}

// Leaves so many of a hundred marks 0 of a chart blank.
pub fn blank_marks(chart: &mut Chart, share: usize, blanks: &mut Blanks) {
    for v in 0..positions(chart) {
        blank_mark(chart, v, share, blanks);
    }
}

fn blank_mark(chart: &mut Chart, v: usize, share: usize, blanks: &mut Blanks) {
    let drawn = below(&mut blanks.seed, 100);
    if cell(chart, RIGHT, v % 512 + 1) == 0 && drawn < share {
        put_line(chart, v % 512 + 1, owner(chart, v), v, NONE);
        blanks.count = more(blanks.count);
    }
}

// A chart of one or two positions by their numbers.
fn numbered(chart: &mut Chart, n: usize, number: usize, other: usize) {
    put_line(chart, 0, 72, n, 0);
    numbered_position(chart, 0, number, n);
    if n == 2 {
        numbered_position(chart, 1, other, n);
    }
}

// A chart of two positions by its number: the 240 in which only position 1 is of rest, then the 304 in which position 0 is.
fn numbered_resting(chart: &mut Chart, number: usize) {
    if number < 240 {
        numbered(chart, 2, number % 30, number / 30 + 30);
    } else {
        numbered(chart, 2, (number - 240) % 8 + 30, (number - 240) / 8);
    }
}

// A position by its number, the lane's ones after the controller's and those of rest last. One position has one set of targets that is
// not empty, and two positions have three.
fn numbered_position(chart: &mut Chart, v: usize, number: usize, n: usize) {
    let half = number / 2;
    let moving = if n == 1 { 3 } else { 15 };
    if moving <= half {
        place(chart, v, REST, number % 2);
        add_set(chart, v, DISTURBED, half - moving);
        return;
    }
    let meant = if n == 1 { 1 } else { half % 3 + 1 };
    let disturbed = if n == 1 { half } else { half / 3 };
    let sets = if n == 1 { 2 } else { 4 };
    if disturbed < sets {
        place(chart, v, CONTROLLER, number % 2);
        add_set(chart, v, MEANT, meant);
        add_set(chart, v, DISTURBED, disturbed);
    } else {
        place(chart, v, LANE, number % 2);
        add_set(chart, v, MEANT, meant);
    }
}

// Moves into a set of the positions 0 and 1, given by its bits.
fn add_set(chart: &mut Chart, v: usize, kind: usize, set: usize) {
    for t in 0..2 {
        if set >> t & 1 == 1 {
            add_move(chart, v, kind, t);
        }
    }
}

// The chart in which every position leads to the one below it, down to the unsafe 0: at the lane's by its only move, so that steps
// grow to n - 1, and at the controller's and at those of rest by a disturbance, so that values do. Of rest are all positions or none.
fn straight(chart: &mut Chart, n: usize, letter: usize) {
    put_line(chart, 0, 72, n, 0);
    for v in 0..n {
        straight_position(chart, v, letter);
    }
}

fn straight_position(chart: &mut Chart, v: usize, letter: usize) {
    if letter == REST {
        straight_rest(chart, v);
        return;
    }
    if v == 0 {
        place(chart, 0, LANE, 1);
        add_move(chart, 0, MEANT, 0);
        return;
    }
    place(chart, v, letter, 0);
    if letter == LANE {
        add_move(chart, v, MEANT, v - 1);
    } else {
        add_move(chart, v, MEANT, v);
        add_move(chart, v, DISTURBED, v - 1);
    }
}

fn straight_rest(chart: &mut Chart, v: usize) {
    if v == 0 {
        place(chart, 0, REST, 1);
    } else {
        place(chart, v, REST, 0);
        add_move(chart, v, DISTURBED, v - 1);
    }
}

// A chart of a shape that is drawn too.
fn drawn(chart: &mut Chart, kind: usize, seed: &mut usize) {
    let rests = draw_rests(kind, seed);
    let shape = shape_of(
        kind % 10,
        below(seed, 40),
        below(seed, 100),
        below(seed, 40),
        rests,
    );
    let n = shape.positions % 1024;
    put_line(chart, 0, 72, n, 0);
    for v in 0..n {
        draw_position(chart, v, &shape, seed);
    }
}

// How many positions of a hundred are of rest.
fn draw_rests(kind: usize, seed: &mut usize) -> usize {
    if kind < 10 {
        return 0;
    }
    below(seed, 60) % 64 + 1
}

fn shape_of(kind: usize, size: usize, lanes: usize, dangers: usize, rests: usize) -> Shape {
    let few = size % 64;
    let (positions, most, lanes, dangers, reach) = match kind {
        3 => (few % 6 + 5, 4, lanes / 4, 0, few % 3 + 1),
        4 => (few % 6 + 3, 6, lanes, dangers, 0),
        5 => (few + 20, 5, lanes, dangers / 4, 0),
        6 => (few + 20, 6, lanes, dangers / 10, few % 4 + 1),
        7 => (512, 8, lanes, dangers / 10, 0),
        9 => (3, 6, lanes, dangers, 0),
        _ => (512, 8, lanes / 4, 0, few % 8 + 1),
    };
    Shape {
        positions,
        most,
        exact: kind == 7,
        lanes,
        dangers,
        reach,
        rests,
    }
}

fn draw_position(chart: &mut Chart, v: usize, shape: &Shape, seed: &mut usize) {
    let mark = draw_mark(v, shape, below(seed, 100));
    let count = if shape.exact {
        shape.most
    } else {
        below(seed, shape.most) % 64 + 1
    };
    if draws_rest(shape.rests, seed) {
        draw_rest(chart, v, mark, shape, count, seed);
        return;
    }
    if below(seed, 100) < shape.lanes {
        place(chart, v, LANE, mark);
        draw_moves(chart, v, MEANT, shape, count, seed);
    } else {
        let meant = below(seed, count) % 64 + 1;
        place(chart, v, CONTROLLER, mark);
        draw_moves(chart, v, MEANT, shape, meant, seed);
        if meant < count {
            draw_moves(chart, v, DISTURBED, shape, count - meant, seed);
        }
    }
}

// Nothing is drawn where no position is to be of rest.
fn draws_rest(rests: usize, seed: &mut usize) -> bool {
    rests != 0 && below(seed, 100) < rests
}

// A position of rest: up to so many disturbances, or so many exactly. A chart has a move, so the last position has some where no other
// has.
fn draw_rest(
    chart: &mut Chart,
    v: usize,
    mark: usize,
    shape: &Shape,
    count: usize,
    seed: &mut usize,
) {
    let moved = cell(chart, RIGHT, 0);
    let last = (v % 1024 + 1 == shape.positions) & (moved == 0);
    let some = below(seed, count % 64 + 1);
    let disturbed = if last | shape.exact { count } else { some };
    place(chart, v, REST, mark);
    draw_moves(chart, v, DISTURBED, shape, disturbed, seed);
}

fn draw_mark(v: usize, shape: &Shape, x: usize) -> usize {
    usize::from(x < shape.dangers || (v == 0 && 0 < shape.reach))
}

// Moves into so many targets, in rising order.
fn draw_moves(
    chart: &mut Chart,
    v: usize,
    kind: usize,
    shape: &Shape,
    count: usize,
    seed: &mut usize,
) {
    let mut wanted = [false; 512];
    draw_targets(v, kind, shape, count, seed, &mut wanted);
    add_wanted(chart, v, kind, &wanted);
}

// Wants so many targets, or fewer where 64 draws do not find them.
fn draw_targets(
    v: usize,
    kind: usize,
    shape: &Shape,
    count: usize,
    seed: &mut usize,
    wanted: &mut [bool; 512],
) {
    let mut have = 0;
    for _ in 0..64 {
        if have < count {
            let t = draw_target(v, kind, shape, seed) % 512;
            if !wanted[t] {
                wanted[t] = true;
                have += 1;
            }
        }
    }
}

fn draw_target(v: usize, kind: usize, shape: &Shape, seed: &mut usize) -> usize {
    let n = shape.positions;
    let reach = shape.reach % 512;
    if reach == 0 {
        return below(seed, n);
    }
    if kind == MEANT {
        clipped(v % 512 + below(seed, reach * 2 + 1) % 1024, reach, n)
    } else {
        clipped(v, below(seed, reach) % 512 + 1, n)
    }
}

// a less b, kept within the positions.
fn clipped(a: usize, b: usize, n: usize) -> usize {
    a.saturating_sub(b).min(n.saturating_sub(1))
}

fn add_wanted(chart: &mut Chart, v: usize, kind: usize, wanted: &[bool; 512]) {
    for (t, wanted) in wanted.iter().enumerate() {
        if *wanted {
            add_move(chart, v, kind, t);
        }
    }
}
