// Tables with other entries than the definitions give: choices that are made, and a single entry changed.
use crate::definition::target;
use crate::generate::below;
use crate::sheet::{
    CHOICE, CONTROLLER, COUNTS, Chart, HEADER, MEANT, NONE, Table, cell, get, owner, positions, put,
};

// How many choices there are at a position, one where none is made.
pub fn ways(chart: &Chart, v: usize) -> usize {
    if v < positions(chart) && owner(chart, v) == CONTROLLER {
        cell(chart, COUNTS, MEANT + v % 512)
    } else {
        1
    }
}

pub fn choose_drawn(chart: &Chart, table: &mut Table, row: &mut [u16; 512], seed: &mut usize) {
    for v in 0..positions(chart) {
        choose(chart, table, row, v, below(seed, ways(chart, v)));
    }
}

// Chooses v's i-th meant target.
pub fn choose(chart: &Chart, table: &mut Table, row: &mut [u16; 512], v: usize, i: usize) {
    let x = if owner(chart, v) == CONTROLLER {
        target(chart, v, MEANT, i)
    } else {
        NONE
    };
    put(table, CHOICE, v, x);
    row[v % 512] = (x % 65536) as u16;
}

// Two changes of each of the three entries of a line, then of the first line's; none from there on.
pub fn change(table: &mut Table, n: usize, code: usize) {
    let v = code / 6;
    let column = code / 2 % 3;
    if v < n {
        let size = if column == CHOICE { n } else { 512 };
        let x = turned(get(table, column, v), code % 2, size, NONE);
        put(table, column, v, x);
    }
    if v == n {
        let most = if column == 1 { NONE } else { 512 };
        let x = turned(get(table, HEADER, column), code % 2, 512, most);
        put(table, HEADER, column, x);
    }
}

// The next or the last of the numbers below the size and `past`, in a circle.
fn turned(x: usize, back: usize, size: usize, past: usize) -> usize {
    if back == 0 {
        if x < size {
            return if x + 1 == size { past } else { x + 1 };
        }
        return 0;
    }
    if x == 0 {
        return past;
    }
    if x < size {
        return x - 1;
    }
    size.saturating_sub(1)
}
