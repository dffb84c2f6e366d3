// The chart's text (document 01, "The chart", and refusals 1 to 9 of its table, with 17 of document 02): a text of any bytes is examined
// whole. What a text means is in specs/Meaning.antt, each refusal's condition in specs/Refusals.antt.
#![tactic(auto)]

ghost use Rattle.std.specs.Prelude.{◌≡◌, cond, false, ℕ, ◌+◌, ◌-◌, ◌*◌, ◌≤◌, ◌<◌, length, get_or};
ghost use Rattle.chart.specs.Text.{letter_at, mark_of, field_number};
ghost use Rattle.chart.specs.Columns.{row_at, meant_row};
ghost use Rattle.chart.specs.Meaning.{cost_of};
ghost use Rattle.chart.specs.Examined.{header_letter, position_letter, move_letter, numbered, formed, header_of, limits_of, position_row_finding, judged_position, move_finding, judged_move, judged_owner, ordered, above, line_finding, first_fault, meant_in, unflagged_at, after_header, examined};

use field::{Field, read};
use refusal::Misdrawn;
use rows::Chart;

// The columns of a line: its letter, its two fields and its last byte.
#[derive(Clone, Copy)]
struct Row {
    letter: u8,
    first: Field,
    second: Field,
    end: u8,
}

// The counts of a chart, or the first refusal in document 01's order.
pub fn examine(text: &[u8]) -> Result<Chart, Misdrawn>
    ensures { result ≡ examined text.now }
{
    let size = text.len();
    if size == 0 {
        return Err(Misdrawn::Length);
    }
    if Chart::BYTES < size {
        return Err(Misdrawn::Length);
    }
    if size % Chart::LINE != 0 {
        return Err(Misdrawn::Length);
    }
    let chart = header(text)?;
    after_header(text, chart)
}

// The header: its form, the limits, and that there are as many lines as it says. The bound keeps it within the text.
pub fn header(text: &[u8]) -> Result<Chart, Misdrawn>
    requires { 12 ≤ length text.now }
    ensures { result ≡ header_of text.now }
{
    let row = row_at(text, 0);
    let first = row.first;
    let second = row.second;
    let ok = formed(header_letter(row.letter), first, second, row.end);
    limits(ok, text.len(), number(first), number(second))
}

fn limits(ok: bool, size: usize, n: usize, m: usize) -> Result<Chart, Misdrawn>
    ensures { result ≡ limits_of ok size n m }
{
    if !ok {
        return Err(Misdrawn::Form(0));
    }
    if n < 1 {
        return Err(Misdrawn::Limits);
    }
    if Chart::POSITIONS < n {
        return Err(Misdrawn::Limits);
    }
    if m < 1 {
        return Err(Misdrawn::Limits);
    }
    if Chart::MOVES < m {
        return Err(Misdrawn::Limits);
    }
    if size != (1 + n + m) * Chart::LINE {
        return Err(Misdrawn::Count);
    }
    Ok(Chart {
        positions: n,
        moves: m,
    })
}

// The lines after a header with these counts, and then that each position but those of rest has a meant move: the lines' flags tell.
fn after_header(text: &[u8], chart: Chart) -> Result<Chart, Misdrawn>
    requires moves_in_bounds { (1 + chart.positions + chart.moves) * 12 ≤ length text.now }
    requires positions_bound { (chart.positions ≤ 512) × (chart.moves ≤ 4096) }
    ensures { result ≡ after_header text.now chart }
{
    let n = chart.positions;
    let m = chart.moves;
    let mut flags = [0u8; Chart::POSITIONS];
    first_fault(text, n, n + m, &mut flags)?;
    unflagged(text, &flags, n)?;
    Ok(chart)
}

// The first fault on lines 1 to `last`, of which the first n are positions. Each line's columns serve the next line too.
// Where there is no fault, a 1 for each position that a meant move is from; the other flags stay.
fn first_fault(text: &[u8], n: usize, last: usize, flags: &mut [u8]) -> Result<(), Misdrawn>
    requires { (n ≤ last) × ((last + 1) * 12 ≤ length text.now) }
    ensures { (result ≡ first_fault (line_finding text.now n) last 1) × (result ≡ Ok tt → (v : ℕ) → v < length flags.old → get_or flags.new v 0 ≡ cond (meant_in text.now n (last - n) v) 1 (get_or flags.old v 0)) }
{
    let mut before = row_at(text, 0);
    for line in 1..last + 1 {
        let row = row_at(text, line);
        line_fault(text, n, line, row, before)?;
        flag_row(n < line, row, flags);
        before = row;
    }
    Ok(())
}

// The columns of a line.
fn row_at(text: &[u8], line: usize) -> Row
    requires { (line + 1) * 12 ≤ length text.now }
    ensures { result ≡ row_at text.now line }
{
    let at = line * Chart::LINE;
    let first = read(text, at + 1);
    let second = read(text, at + 6);
    Row {
        letter: text[at],
        first: first,
        second: second,
        end: text[at + 11],
    }
}

// The fault of one line, from its columns and those of the line before.
fn line_fault(text: &[u8], n: usize, line: usize, row: Row, before: Row) -> Result<(), Misdrawn>
    requires le_line { (1 ≤ line) × ((line + 1) * 12 ≤ length text.now) }
    requires row_value { (row ≡ row_at text.now line) × (before ≡ row_at text.now (line - 1)) }
    ensures { result ≡ line_finding text.now n line }
{
    if line <= n {
        position_fault(line, row)
    } else {
        move_fault(text, n, line, row, before)
    }
}

// A position line from its columns, of which the second field is the mark. A blank is taken here and nowhere else.
fn position_fault(line: usize, row: Row) -> Result<(), Misdrawn>
    requires { 1 ≤ line }
    ensures { result ≡ position_row_finding row line }
{
    let first = row.first;
    let second = row.second;
    let mark = mark(second);
    let ok = formed(position_letter(row.letter), first, mark, row.end);
    judge_position(ok, line, number(first), number(mark))
}

// A blank mark is 0.
fn mark(f: Field) -> Field
    ensures { result ≡ mark_of f }
{
    match f {
        Field::Number(x) => Field::Number(x),
        Field::Blank => Field::Number(0),
        Field::Bad => Field::Bad,
    }
}

fn judge_position(ok: bool, line: usize, position: usize, mark: usize) -> Result<(), Misdrawn>
    requires { 1 ≤ line }
    ensures { result ≡ judged_position ok line position mark }
{
    if !ok {
        return Err(Misdrawn::Form(line));
    }
    if position != line - 1 {
        return Err(Misdrawn::Sequence(line));
    }
    if 1 < mark {
        return Err(Misdrawn::Sequence(line));
    }
    Ok(())
}

// A move line after n positions, from its columns and those of the line before.
fn move_fault(text: &[u8], n: usize, line: usize, row: Row, before: Row) -> Result<(), Misdrawn>
    requires le_line { 1 ≤ line }
    requires row_value { (row ≡ row_at text.now line) × (before ≡ row_at text.now (line - 1)) }
    ensures { result ≡ move_finding text.now n line }
{
    let letter = row.letter;
    let first = row.first;
    let second = row.second;
    let ok = formed(move_letter(letter), first, second, row.end);
    let from = number(first);
    let to = number(second);
    let owner = letter_at(text, from + 1);
    let rises = rise(before, from, cost(letter), to);
    judge_move(ok, n, line, letter, from, to, owner, rises)
}

fn judge_move(
    ok: bool,
    n: usize,
    line: usize,
    letter: u8,
    from: usize,
    to: usize,
    owner: u8,
    rises: bool,
) -> Result<(), Misdrawn>
    requires { 1 ≤ line }
    ensures { result ≡ judged_move ok n line letter from to owner rises }
{
    if !ok {
        return Err(Misdrawn::Form(line));
    }
    if n <= from {
        return Err(Misdrawn::Endpoint(line));
    }
    if n <= to {
        return Err(Misdrawn::Endpoint(line));
    }
    judge_owner(n, line, letter, owner, rises)
}

// By the owner of the position moved from: no disturbance leaves an L, no meant move an R.
fn judge_owner(n: usize, line: usize, letter: u8, owner: u8, rises: bool) -> Result<(), Misdrawn>
    requires { 1 ≤ line }
    ensures { result ≡ judged_owner n line letter owner rises }
{
    if letter == b'D' {
        if owner == b'L' {
            return Err(Misdrawn::Disturbed(line));
        }
        return judge_order(n, line, rises);
    }
    if letter == b'M' {
        if owner == b'R' {
            return Err(Misdrawn::Resting(line));
        }
        return judge_order(n, line, rises);
    }
    judge_order(n, line, rises)
}

// The first move line has none before it.
fn judge_order(n: usize, line: usize, rises: bool) -> Result<(), Misdrawn>
    requires { 1 ≤ line }
    ensures { result ≡ ordered n line rises }
{
    if line - 1 <= n {
        return Ok(());
    }
    if rises {
        Ok(())
    } else {
        Err(Misdrawn::Order(line))
    }
}

// Whether a move is above the one on the line before.
fn rise(before: Row, from: usize, cost1: u8, to: usize) -> bool
    ensures { result ≡ above (field_number before.first) (cost_of before.letter) (field_number before.second) from cost1 to }
{
    let first = before.first;
    let second = before.second;
    above(
        number(first),
        cost(before.letter),
        number(second),
        from,
        cost1,
        to,
    )
}

// By from, then M before D, then by to.
fn above(from0: usize, cost0: u8, to0: usize, from: usize, cost: u8, to: usize) -> bool
    ensures { result ≡ above from0 cost0 to0 from cost to }
{
    if from0 < from {
        return true;
    }
    if from < from0 {
        return false;
    }
    if cost0 < cost {
        return true;
    }
    if cost < cost0 {
        return false;
    }
    to0 < to
}

// A meant move costs 0, a disturbance 1.
pub fn cost(letter: u8) -> u8
    ensures { result ≡ cost_of letter }
{
    if letter == b'D' { 1 } else { 0 }
}

// The letters of each kind of line: the header's, those of a position and those of a move.
fn header_letter(letter: u8) -> bool
    ensures { result ≡ header_letter letter }
{
    letter == b'H'
}

fn position_letter(letter: u8) -> bool
    ensures { result ≡ position_letter letter }
{
    if letter == b'O' {
        return true;
    }
    if letter == b'L' {
        return true;
    }
    letter == b'R'
}

fn move_letter(letter: u8) -> bool
    ensures { result ≡ move_letter letter }
{
    if letter == b'M' {
        return true;
    }
    letter == b'D'
}

// A line's letter is allowed, its fields are numbers, and a line feed ends it.
fn formed(allowed: bool, first: Field, second: Field, end: u8) -> bool
    ensures { result ≡ formed allowed first second end }
{
    if allowed {
        return numbered(first, second, end);
    }
    false
}

fn numbered(first: Field, second: Field, end: u8) -> bool
    ensures { result ≡ numbered first second end }
{
    match first {
        Field::Number(_) => match second {
            Field::Number(_) => end == 10,
            Field::Blank => false,
            Field::Bad => false,
        },
        Field::Blank => false,
        Field::Bad => false,
    }
}

// A 1 for the position that a meant move is from. A position's line is no move.
fn flag_row(moves: bool, row: Row, flags: &mut [u8])
    ensures { (v : ℕ) → v < length flags.old → get_or flags.new v 0 ≡ cond (cond moves (meant_row row v) false) 1 (get_or flags.old v 0) }
{
    if moves {
        if row.letter == b'M' {
            let first = row.first;
            let from = number(first);
            if from < flags.len() {
                flags[from] = 1;
            }
        }
    }
}

// The lowest of n positions whose flag is 0; one of rest needs none.
fn unflagged(text: &[u8], flags: &[u8], n: usize) -> Result<(), Misdrawn>
    requires { (n ≤ 512) × (n ≤ length flags.now) }
    ensures { result ≡ first_fault (unflagged_at text.now flags.now) n 0 }
{
    for v in 0..n {
        if flags[v] == 0 {
            if letter_at(text, v + 1) != b'R' {
                return Err(Misdrawn::NoMeant(v + 1));
            }
        }
    }
    Ok(())
}

// A line's letter; 0 past the end, as for a line that a bad move names.
fn letter_at(text: &[u8], line: usize) -> u8
    requires { line ≤ 100000 }
    ensures { result ≡ letter_at text.now line }
{
    let at = line * Chart::LINE;
    if at < text.len() { text[at] } else { 0 }
}

// A field's number; 0 stands for a field that has none.
fn number(f: Field) -> usize
    ensures { result ≡ field_number f }
{
    match f {
        Field::Number(x) => x as usize,
        Field::Blank => 0,
        Field::Bad => 0,
    }
}
