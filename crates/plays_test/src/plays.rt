// The shortest way to ruin by its definition: every play of a positional controller from a position is gone through, and of the unsafe ones
// the best is kept. A play is not followed further once it is unsafe, since that only adds moves.
use reference::sheet::{
    CHOICE, CONTROLLER, COUNTS, Chart, DISTURBED, FIRST, MEANT, RIGHT, Table, cell, get, is_unsafe,
    more, owner, positions,
};

// A play: its positions, and whether a disturbance led there.
#[derive(Clone, Copy)]
pub struct Play {
    pub places: [usize; 512],
    pub led: [bool; 512],
    pub length: usize,
}

impl Play {
    const EMPTY: Play = Play {
        places: [0; 512],
        led: [false; 512],
        length: 0,
    };

    fn places(&self) -> &[usize] {
        &self.places[..self.length.min(512)]
    }

    pub fn disturbances(&self) -> usize {
        let led = &self.led[..self.length.min(512)];
        led.iter().filter(|led| **led).count()
    }
}

// A search: the play, and how many moves were tried from each of its positions; the best unsafe play, of no length where there is none;
// how many unsafe plays were found; whether another one has as many disturbances as the best, and more moves; whether another has as many
// of both.
#[derive(Clone, Copy)]
pub struct Walk {
    play: Play,
    tried: [usize; 512],
    pub best: Play,
    pub found: usize,
    pub by_moves: bool,
    pub by_position: bool,
}

impl Walk {
    pub fn none() -> Walk {
        Walk {
            play: Play::EMPTY,
            tried: [0; 512],
            best: Play::EMPTY,
            found: 0,
            by_moves: false,
            by_position: false,
        }
    }

    // The play is empty: all were gone through.
    pub fn is_over(&self) -> bool {
        self.play.length == 0
    }
}

// Goes through all plays from a position, of which a chart has fewer than there are steps here: at the end the play is empty.
pub fn search(chart: &Chart, table: &Table, position: usize) -> Walk {
    let mut walk = Walk::none();
    go(chart, &mut walk, position, false);
    for _ in 0..1000000 {
        if walk.is_over() {
            return walk;
        }
        step(chart, table, &mut walk);
    }
    walk
}

// The play goes on to a position, and is set against the best one if it is unsafe.
fn go(chart: &Chart, walk: &mut Walk, to: usize, led: bool) {
    let at = walk.play.length % 512;
    walk.play.places[at] = to;
    walk.play.led[at] = led;
    walk.tried[at] = 0;
    walk.play.length = at + 1;
    if is_unsafe(chart, to) {
        judge(walk);
    }
}

// Tries the next move from the play's last position, or takes that position back if there is none. On up to three positions a play comes
// back as it likes, within five positions. On more it goes to no position twice: without what lies between it would have fewer moves and no
// more disturbances.
fn step(chart: &Chart, table: &Table, walk: &mut Walk) {
    let last = walk.play.length.saturating_sub(1) % 512;
    let v = walk.play.places[last];
    let tried = walk.tried[last] % 8192;
    let meant = cell(chart, COUNTS, MEANT + v % 512) % 8192;
    let moves = meant + cell(chart, COUNTS, DISTURBED + v % 512) % 8192;
    if is_unsafe(chart, v) | (moves <= tried) {
        walk.play.length = last;
        return;
    }
    walk.tried[last] = tried + 1;
    let line = cell(chart, COUNTS, FIRST + v % 512) % 8192 + tried;
    let to = cell(chart, RIGHT, line);
    let led = meant <= tried;
    let chosen = (owner(chart, v) != CONTROLLER) | (get(table, CHOICE, v) == to);
    let goes = if positions(chart) <= 3 {
        walk.play.length < 5
    } else {
        !walk.play.places().contains(&to)
    };
    if goes & (chosen | led) {
        go(chart, walk, to, led);
    }
}

// Sets an unsafe play against the best one: fewer disturbances, then fewer moves, then the lower position at the first difference. Of plays
// through the same positions the one with fewest disturbances is found first, so that there is a difference.
fn judge(walk: &mut Walk) {
    let length = walk.play.length;
    let lines = walk.best.length;
    let disturbed = walk.play.disturbances();
    let least = walk.best.disturbances();
    walk.found = more(walk.found);
    if (lines == 0) | (disturbed < least) {
        keep(walk, false, false);
        return;
    }
    if least < disturbed {
        return;
    }
    if length < lines {
        keep(walk, true, false);
        return;
    }
    if lines < length {
        walk.by_moves = true;
        return;
    }
    walk.by_position = true;
    if walk.play.places() < walk.best.places() {
        let by_moves = walk.by_moves;
        keep(walk, by_moves, true);
    }
}

// Keeps the play as the best one.
fn keep(walk: &mut Walk, by_moves: bool, by_position: bool) {
    let play = walk.play;
    walk.best = play;
    walk.by_moves = by_moves;
    walk.by_position = by_position;
}
