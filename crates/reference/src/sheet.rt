// A chart, and what the definitions give to its positions, as two rows of numbers in columns. Each index is reduced to the size of
// its column, so that no function above has to show a bound.

// No number: "ever" as a value, `-` as a choice or a step, a blank as a mark.
pub const NONE: usize = 65535;

// The chart's lines in their order: the letter and the two fields, each a column of 8,192. A fourth column has, of each position, the
// line of its first move and the counts of its meant moves and of its disturbances, 512 entries each.
pub type Chart = [usize; 32768];

pub const LETTER: usize = 0;

pub const LEFT: usize = 1;

pub const RIGHT: usize = 2;

pub const COUNTS: usize = 3;

// Places in the fourth column. A position's disturbances stand after its meant moves.
pub const FIRST: usize = 0;

pub const MEANT: usize = 512;

pub const DISTURBED: usize = 1024;

// Letters of position lines.
pub const CONTROLLER: usize = 79;

pub const LANE: usize = 76;

pub const REST: usize = 82;

// Eight columns of 512 entries.
pub type Table = [usize; 4096];

pub const VALUE: usize = 0;

pub const CHOICE: usize = 1;

pub const STEP: usize = 2;
// 1 where the position is in the set that is being found.
pub const MEMBER: usize = 3;

pub const WORTH: usize = 4;
// 1 where no lower position has the same pair of value and step.
pub const PAIR: usize = 5;
// The first line's numbers: rounds, highest, count of "ever".
pub const HEADER: usize = 6;

pub fn cell(chart: &Chart, column: usize, i: usize) -> usize {
    chart[column % 4 * 8192 + i % 8192]
}

pub fn positions(chart: &Chart) -> usize {
    cell(chart, LEFT, 0)
}

pub fn owner(chart: &Chart, v: usize) -> usize {
    cell(chart, LETTER, v % 512 + 1)
}

pub fn is_unsafe(chart: &Chart, v: usize) -> bool {
    cell(chart, RIGHT, v % 512 + 1) == 1
}

// How many positions are of rest.
pub fn rests(chart: &Chart) -> usize {
    (0..positions(chart))
        .filter(|v| owner(chart, *v) == REST)
        .count()
}

pub fn put_line(chart: &mut Chart, i: usize, letter: usize, left: usize, right: usize) {
    chart[i % 8192] = letter;
    chart[8192 + i % 8192] = left;
    chart[16384 + i % 8192] = right;
}

// The line of a position, whose moves follow those of the positions before.
pub fn place(chart: &mut Chart, v: usize, letter: usize, mark: usize) {
    let next = chart[8192] % 1024 + chart[16384] % 8192 + 1;
    put_line(chart, v % 512 + 1, letter, v, mark);
    chart[24576 + v % 512] = next;
}

// Adds a move of the kind to the moves of v, the position placed last.
pub fn add_move(chart: &mut Chart, v: usize, kind: usize, to: usize) {
    let letter = if kind == MEANT { 77 } else { 68 };
    let next = chart[8192] % 1024 + chart[16384] % 8192 + 1;
    put_line(chart, next, letter, v, to);
    let at = 24576 + kind % 4096 + v % 512;
    chart[at] = chart[at] % 512 + 1;
    chart[16384] = chart[16384] % 8192 + 1;
}

pub fn get(table: &Table, column: usize, v: usize) -> usize {
    table[column % 8 * 512 + v % 512]
}

pub fn put(table: &mut Table, column: usize, v: usize, x: usize) {
    table[column % 8 * 512 + v % 512] = x;
}

// One more, and none stays none.
pub fn more(x: usize) -> usize {
    if x < NONE { x + 1 } else { NONE }
}

// The first of n entries at which two columns differ, n if they do at none.
pub fn first_difference(table: &Table, a: usize, b: usize, n: usize) -> usize {
    (0..n)
        .find(|v| get(table, a, *v) != get(table, b, *v))
        .unwrap_or(n)
}

pub fn wide(x: u16) -> usize {
    usize::from(x)
}
