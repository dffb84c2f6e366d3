// The plate's text (document 01, "The plate") at the level of rows: whether a text is of the form under 11, and the header and the
// three rows of numbers of one that is. 65,535 stands for `ever` and `-` in the rows.
#![tactic(auto)]

ghost use Rattle.std.specs.Prelude.{◌≡◌, ◌+◌, ◌*◌, ◌≤◌, length};
ghost use Rattle.search.specs.First.{first_from};
ghost use Rattle.line.specs.Text.{entry_at};
ghost use Rattle.plate.specs.Formed.{number_is, number_below, dash_or_below, ever_or_below, header_good, position_good, bad_position, form_of};
ghost use Rattle.plate.specs.Read.{entry_number, RowsRead};

use line::{Entry, framed, read_entry};
use rows::{Chart, FirstLine, NONE};

// The fields of a line, and its bytes.
pub const FIELDS: usize = 4;

pub const LINE: usize = 22;

// Whether a text is a plate of n positions of the form under 11, and if not its lowest bad line. Its length is tested first, as
// line 0.
pub fn examine_plate(n: usize, plate: &[u8]) -> Result<(), usize>
    ensures { result ≡ form_of n plate.now }
{
    let lines = plate.len() / LINE;
    if plate.len() % LINE != 0 {
        return Err(0);
    }
    if lines == 0 {
        return Err(0);
    }
    if lines - 1 != n {
        return Err(0);
    }
    if !header_good(n, plate) {
        return Err(0);
    }
    positions_form(n, plate)
}

// The lowest bad line after the first.
fn positions_form(n: usize, plate: &[u8]) -> Result<(), usize>
    requires { (n + 1) * 22 ≤ length plate.now }
    ensures { result ≡ first_from (position_good n plate.now) bad_position (Ok tt) n 0 }
{
    for v in 0..n {
        if !position_good(n, plate, v) {
            return Err(v + 1);
        }
    }
    Ok(())
}

// The first line: n, rounds, highest, count of "ever". The bound keeps it within the text: the length is tested before.
pub fn header_good(n: usize, plate: &[u8]) -> bool
    requires { 22 ≤ length plate.now }
    ensures { result ≡ header_good n plate.now }
{
    if !framed(plate, 0, FIELDS, b'P') {
        return false;
    }
    if !number_is(plate, 1, n) {
        return false;
    }
    if !number_below(plate, 6, Chart::POSITIONS + 1) {
        return false;
    }
    if !dash_or_below(plate, 11, Chart::POSITIONS) {
        return false;
    }
    number_below(plate, 16, Chart::POSITIONS + 1)
}

// A position's line: position, value, choice, step.
fn position_good(n: usize, plate: &[u8], v: usize) -> bool
    requires { (v + 2) * 22 ≤ length plate.now }
    ensures { result ≡ position_good n plate.now v }
{
    let at = (v + 1) * LINE;
    if !framed(plate, at, FIELDS, b'V') {
        return false;
    }
    if !number_is(plate, at + 1, v) {
        return false;
    }
    if !ever_or_below(plate, at + 6, Chart::POSITIONS) {
        return false;
    }
    if !dash_or_below(plate, at + 11, n) {
        return false;
    }
    dash_or_below(plate, at + 16, Chart::POSITIONS)
}

// What an entry is: one number, a number below a bound, or else a dash, or else "ever".
fn number_is(plate: &[u8], at: usize, n: usize) -> bool
    requires { at + 5 ≤ length plate.now }
    ensures { result ≡ number_is n (entry_at plate.now at) }
{
    match read_entry(plate, at) {
        Entry::Number(x) => x as usize == n,
        Entry::Dash => false,
        Entry::Ever => false,
        Entry::Bad => false,
    }
}

fn number_below(plate: &[u8], at: usize, bound: usize) -> bool
    requires { at + 5 ≤ length plate.now }
    ensures { result ≡ number_below bound (entry_at plate.now at) }
{
    match read_entry(plate, at) {
        Entry::Number(x) => (x as usize) < bound,
        Entry::Dash => false,
        Entry::Ever => false,
        Entry::Bad => false,
    }
}

fn dash_or_below(plate: &[u8], at: usize, bound: usize) -> bool
    requires { at + 5 ≤ length plate.now }
    ensures { result ≡ dash_or_below bound (entry_at plate.now at) }
{
    match read_entry(plate, at) {
        Entry::Number(x) => (x as usize) < bound,
        Entry::Dash => true,
        Entry::Ever => false,
        Entry::Bad => false,
    }
}

fn ever_or_below(plate: &[u8], at: usize, bound: usize) -> bool
    requires { at + 5 ≤ length plate.now }
    ensures { result ≡ ever_or_below bound (entry_at plate.now at) }
{
    match read_entry(plate, at) {
        Entry::Number(x) => (x as usize) < bound,
        Entry::Dash => false,
        Entry::Ever => true,
        Entry::Bad => false,
    }
}

// A plate of the form into the first line's numbers and three rows; what lies past the last position's number stays.
// The bounds are what Reading and Checking have by then: a plate that was found of the form, and rows with room for n numbers.
pub fn read_rows(
    n: usize,
    plate: &[u8],
    values: &mut [u16],
    choices: &mut [u16],
    steps: &mut [u16],
) -> FirstLine
    requires n_bound { (n ≤ 512) × (form_of n plate.now ≡ Ok tt) }
    requires n_in_bounds { (n ≤ length values.old) × (n ≤ length choices.old) × (n ≤ length steps.old) }
    ensures { RowsRead n plate.now result values.old values.new choices.old choices.new steps.old steps.new }
{
    for v in 0..n {
        let at = (v + 1) * LINE;
        values[v] = number_at(plate, at + 6);
        choices[v] = number_at(plate, at + 11);
        steps[v] = number_at(plate, at + 16);
    }
    FirstLine {
        rounds: number_at(plate, 6),
        highest: number_at(plate, 11),
        evers: number_at(plate, 16),
    }
}

// The number of an entry in a row. The bounds keep its bytes within the text, and it within 16 bits.
pub fn number_at(plate: &[u8], at: usize) -> u16
    requires { (at + 5 ≤ length plate.now) × (entry_number (entry_at plate.now at) ≤ 65535) }
    ensures { result ≡ entry_number (entry_at plate.now at) }
{
    match read_entry(plate, at) {
        Entry::Number(x) => x as u16,
        Entry::Dash => NONE,
        Entry::Ever => NONE,
        Entry::Bad => NONE,
    }
}
