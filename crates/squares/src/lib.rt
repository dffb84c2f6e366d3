// Between the index of a small chart and the chart held as squares: its digits, and of each position what its digit says. A chart has at
// most three positions, so that each array has three places; nothing is said of those past the chart's positions.
#![tactic(auto)]

ghost use Rattle.std.specs.Prelude.{◌≡◌, false, ◌^◌, ◌≤◌, length, get_or};
ghost use Rattle.search.specs.Below.{bit};
ghost use Rattle.rows.specs.Rows.{RowIs, Within};
ghost use Rattle.numbering.specs.Numbering.{chart_count, console_digits, digit, digits, set_number};
ghost use Rattle.numbering.specs.Squares.{digit_of, disturbances_in, in_set, lane_in, mark_in, meant_in, rest_in, set_in};
ghost use Rattle.squares.specs.Held.{SomeInEach, SquareIs, TargetsAre, held_index, joined_below};

// How many sets of targets there are among n positions, which are at most 3 for every caller.
pub fn sets(n: usize) -> usize
    requires { n ≤ 3 }
    ensures { result ≡ 2 ^ n }
{
    1 << n
}

// How many charts of n positions there are, of 1 to 3 as callers have tested.
pub fn chart_count(n: usize) -> usize
    requires { (1 ≤ n) × (n ≤ 3) }
    ensures { result ≡ chart_count n }
{
    match n {
        1 => 6,
        2 => 900,
        _ => 2_000_376,
    }
}

// How many digits an O has where there are t sets, and how many there are. The bounds keep the products small.
fn console_digits(t: usize) -> usize
    requires { (1 ≤ t) × (t ≤ 8) }
    ensures { result ≡ console_digits t }
{
    2 * (t - 1) * t
}

fn digit_count(t: usize) -> usize
    requires { (1 ≤ t) × (t ≤ 8) }
    ensures { result ≡ digits t }
{
    console_digits(t) + 2 * (t - 1)
}

// From an index to squares

// The digits of an index among the charts of n positions, of 1 to 3.
pub fn digits_of(n: usize, index: usize) -> [usize; 3]
    requires { (1 ≤ n) × (n ≤ 3) }
    ensures { RowIs result n (digit_of (digits (2 ^ n)) index n) }
{
    let base = digit_count(sets(n));
    let last = index % base;
    let middle = index / base % base;
    match n {
        1 => [last, 0, 0],
        2 => [middle, last, 0],
        _ => [index / base / base % base, middle, last],
    }
}

// Who chooses at each position: 1 where the lane does, else 0. There are from 2 to 8 sets, with 1 to 3 positions.
pub fn owners_of(t: usize, digits: [usize; 3]) -> [u8; 3]
    requires { (2 ≤ t) × (t ≤ 8) }
    ensures { RowIs result 3 (λ v. bit (lane_in t (get_or digits v 0))) }
{
    // Written out: `digits.map(..)` goes through an iterator here, for three places.
    [
        lane_in(t, digits[0]),
        lane_in(t, digits[1]),
        lane_in(t, digits[2]),
    ]
}

// The mark of each position. There are from 2 to 8 sets.
pub fn marks_of(t: usize, digits: [usize; 3]) -> [u8; 3]
    requires { (2 ≤ t) × (t ≤ 8) }
    ensures { RowIs result 3 (λ v. mark_in t (get_or digits v 0)) }
{
    [
        mark_in(t, digits[0]),
        mark_in(t, digits[1]),
        mark_in(t, digits[2]),
    ]
}

// The square of the meant moves, which cost 0, or that of the disturbances, which cost 1. There are from 2 to 8 sets.
pub fn digit_square(cost: u8, t: usize, digits: [usize; 3]) -> [[bool; 3]; 3]
    requires { (2 ≤ t) × (t ≤ 8) }
    ensures { SquareIs result (λ v. in_set (set_in cost t (get_or digits v 0))) }
{
    [
        row_of(set_in(cost, t, digits[0])),
        row_of(set_in(cost, t, digits[1])),
        row_of(set_in(cost, t, digits[2])),
    ]
}

// What a digit says

fn lane_in(t: usize, d: usize) -> u8
    requires { (2 ≤ t) × (t ≤ 8) }
    ensures { result ≡ bit (lane_in t d) }
{
    u8::from(d >= console_digits(t))
}

// Mark and meant set together.
fn rest_in(t: usize, d: usize) -> usize
    requires { (2 ≤ t) × (t ≤ 8) }
    ensures { result ≡ rest_in t d }
{
    let console = console_digits(t);
    if d < console { d / t } else { d - console }
}

fn mark_in(t: usize, d: usize) -> u8
    requires { (2 ≤ t) × (t ≤ 8) }
    ensures { result ≡ mark_in t d }
{
    u8::from(rest_in(t, d) >= t - 1)
}

fn meant_in(t: usize, d: usize) -> usize
    requires { (2 ≤ t) × (t ≤ 8) }
    ensures { result ≡ meant_in t d }
{
    let rest = rest_in(t, d);
    if rest < t - 1 {
        rest + 1
    } else {
        rest - (t - 1) + 1
    }
}

fn disturbances_in(t: usize, d: usize) -> usize
    requires { (2 ≤ t) × (t ≤ 8) }
    ensures { result ≡ disturbances_in t d }
{
    if d < console_digits(t) { d % t } else { 0 }
}

fn set_in(cost: u8, t: usize, d: usize) -> usize
    requires { (2 ≤ t) × (t ≤ 8) }
    ensures { result ≡ set_in cost t d }
{
    if cost == 0 {
        return meant_in(t, d);
    }
    disturbances_in(t, d)
}

// Which of three targets are in a set.
fn row_of(set: usize) -> [bool; 3]
    ensures { TargetsAre result (in_set set) }
{
    [set % 2 == 1, set / 2 % 2 == 1, set / 2 / 2 % 2 == 1]
}

// From squares to an index

// The index of a chart of n positions, at most 3, each with a meant target. The bounds keep the positions within the rows.
pub fn index_of(
    n: usize,
    owners: &[u8],
    marks: &[u8],
    meant: [[bool; 3]; 3],
    disturbances: [[bool; 3]; 3],
) -> usize
    requires { (n ≤ 3) × (n ≤ length owners.now) × (n ≤ length marks.now) × SomeInEach n meant }
    ensures { result ≡ held_index n owners.now marks.now meant disturbances }
{
    let t = sets(n);
    let base = digit_count(t);
    let mut index = 0;
    for v in 0..n {
        let meant_set = set_of(meant[v]);
        let disturbance_set = set_of(disturbances[v]);
        index = index * base + digit_of(t, owners[v] == 1, marks[v], meant_set, disturbance_set);
    }
    index
}

fn digit_of(t: usize, lane: bool, mark: u8, meant: usize, disturbances: usize) -> usize
    requires { (1 ≤ t) × (t ≤ 8) × (1 ≤ meant) × (meant ≤ 7) × (disturbances ≤ 7) }
    ensures { result ≡ digit t lane mark meant disturbances }
{
    let rest = (mark as usize) * (t - 1) + (meant - 1);
    if lane {
        console_digits(t) + rest
    } else {
        rest * t + disturbances
    }
}

// The number of a set of three targets.
fn set_of(row: [bool; 3]) -> usize
    ensures { result ≡ set_number (λ w. get_or row w false) 3 }
{
    usize::from(row[0]) + 2 * usize::from(row[1]) + 4 * usize::from(row[2])
}

// From moves to a square

// The square of the moves of this cost, of m moves that join positions below 3.
pub fn square_of(cost: u8, m: usize, costs: &[u8], froms: &[u16], tos: &[u16]) -> [[bool; 3]; 3]
    requires { Within 3 m costs.now froms.now tos.now }
    ensures { SquareIs result (joined_below cost costs.now froms.now tos.now m) }
{
    let mut square = [[false; 3]; 3];
    for i in 0..m {
        if costs[i] == cost {
            let v = froms[i] as usize;
            let w = tos[i] as usize;
            square[v][w] = true;
        }
    }
    square
}
