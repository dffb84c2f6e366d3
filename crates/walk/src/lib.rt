// A chart read in one walk: each line is compared with the words that it must have, and the rows are written on the way. A walk that
// passes is an accepted text (specs/Walked.antt); one that stops says nothing, and `chart::examine` answers.
#![tactic(auto)]

ghost use Rattle.std.specs.Prelude.{◌≡◌, true, ℕ, ◌+◌, ◌*◌, ◌≤◌, ◌<◌, length};
ghost use Rattle.rows.specs.Rows.{RowIs, owner_number};
ghost use Rattle.chart.specs.Meaning.{owner_of};
ghost use Rattle.chart.specs.Examined.{header_of};
ghost use Rattle.walk.specs.Walked.{letter_of, mark_word, move_opening, middle_of, LineWords, LinesSpelt, Tables, Numbers, PositionsWalked, MovesWalked, KindsAllowed, WalkIs};

use rows::Chart;
use spelling::{spell, word};

// How many slots there are for the numbers of positions, found by their words.
const SLOTS: usize = 1024;

// With this factor no two positions' words have the same slot: it was found by trial. Nothing rests on it but the time.
const SPREAD: usize = 17307648;

// Walks over the lines after a header with these counts, which `chart::header` has taken. The rows are those of `decode::load`, with room for
// every chart; what lies past the counts stays. Which accepted charts pass is left to the walk: nothing rests on it but the time.
pub fn walk(
    text: &[u8],
    chart: Chart,
    owners: &mut [u8],
    marks: &mut [u8],
    costs: &mut [u8],
    froms: &mut [u16],
    tos: &mut [u16],
) -> bool
    requires text_value { header_of text.now ≡ Ok chart }
    requires in_bounds { (512 ≤ length owners.old) × (512 ≤ length marks.old) }
    requires in_bounds_2 { (4096 ≤ length costs.old) × (4096 ≤ length froms.old) × (4096 ≤ length tos.old) }
    ensures { WalkIs text.now chart result owners.old owners.new marks.old marks.new costs.old costs.new froms.old froms.new tos.old tos.new }
{
    let n = chart.positions;
    let m = chart.moves;
    let mut openings = [0u32; 2 * Chart::POSITIONS];
    let mut middles = [0u32; Chart::POSITIONS];
    let mut closings = [0u32; Chart::POSITIONS];
    spell_lines(n, &mut openings, &mut middles, &mut closings);
    if !walk_positions(text, n, &openings, &middles, owners, marks) {
        return false;
    }
    let mut numbers = [0u16; SLOTS];
    file_numbers(n, &closings, &mut numbers);
    let mut kinds = [0u8; 2 * Chart::POSITIONS];
    if !walk_moves(
        text, n, m, &openings, &middles, &closings, &numbers, &mut kinds, costs, froms, tos,
    ) {
        return false;
    }
    kinds_allowed(owners, n, &kinds)
}

// The words of the lines of n positions: how a move from each opens, meant and as a disturbance, how a line from it goes on, and how a move
// to it closes. An M is 77 (0x4d), a D 68, a space 0x20, a line feed 0x0a; the first byte of a word is the lowest.
fn spell_lines(n: usize, openings: &mut [u32], middles: &mut [u32], closings: &mut [u32])
    requires { (n ≤ 512) × (2 * n ≤ length openings.old) × (n ≤ length middles.old) × (n ≤ length closings.old) }
    ensures { LinesSpelt n openings.old openings.new middles.old middles.new closings.old closings.new }
{
    for v in 0..n {
        let spelling = spell(v);
        let opening = spelling % 256 * 0x0100_0000 + 0x0020_204d;
        openings[2 * v] = opening;
        openings[2 * v + 1] = opening - 9;
        middles[v] = spelling / 256 + 0x2020_0000;
        closings[v] = spelling + 0x0a00_0000;
    }
}

// The position lines: the letter O, L or R in the place of the M, the number in order, the mark 0, 1 or blank. A space's last bit is 0, as a
// blank mark is.
fn walk_positions(
    text: &[u8],
    n: usize,
    openings: &[u32],
    middles: &[u32],
    owners: &mut [u8],
    marks: &mut [u8],
) -> bool
    requires n_bound { (n ≤ 512) × ((n + 1) * 12 ≤ length text.now) }
    requires row_is { RowIs openings.now (2 * n) move_opening × (2 * n ≤ length openings.now) }
    requires row_is_2 { RowIs middles.now n middle_of × (n ≤ length middles.now) }
    requires n_in_bounds { (n ≤ length owners.old) × (n ≤ length marks.old) }
    ensures { PositionsWalked text.now n result owners.old owners.new marks.old marks.new }
{
    for v in 0..n {
        let at = (v + 1) * Chart::LINE;
        let owner = owner(text[at]);
        let last = text[at + 10];
        let opening = openings[2 * v] - 77 + letter_of(owner);
        if !line_is(text, at, opening, middles[v], mark_word(last)) {
            return false;
        }
        owners[v] = owner;
        marks[v] = last % 2;
    }
    true
}

// The letter of an owner: O (79), L (76) or R (82).
fn letter_of(owner: u8) -> u32
    ensures { result ≡ letter_of owner }
{
    if owner == 1 {
        return 76;
    }
    if owner == 2 { 82 } else { 79 }
}

// How a position's line closes, by the last byte of its mark: spaces, or the spelling of 0 or 1, and a line feed.
fn mark_word(last: u8) -> u32
    ensures { result ≡ mark_word last }
{
    if last == b' ' {
        return 0x0a20_2020;
    }
    spell((last % 2) as usize) + 0x0a00_0000
}

// Each position's number in the slot of its word. A slot with none has 0: so what is found is a position, if perhaps not that of the word.
fn file_numbers(n: usize, closings: &[u32], numbers: &mut [u16])
    requires { (n ≤ 512) × (n ≤ length closings.now) × Numbers numbers.old 1 × (1 ≤ n) }
    ensures { Numbers numbers.new n }
{
    for v in 0..n {
        numbers[slot(closings[v])] = v as u16;
    }
}

// The slot of a word, by its first three bytes.
fn slot(word: u32) -> usize
    ensures { result < 1024 }
{
    word as usize * SPREAD / 0x0040_0000 % SLOTS
}

// The move lines. Moves rise where their ranks do, which have from above cost above to. What is found of a line's numbers and letter is tested
// by comparing the line with their words. Which kinds of moves each position has is noted on the way: meant at 2 v, disturbance at 2 v + 1.
fn walk_moves(
    text: &[u8],
    n: usize,
    m: usize,
    openings: &[u32],
    middles: &[u32],
    closings: &[u32],
    numbers: &[u16],
    kinds: &mut [u8],
    costs: &mut [u8],
    froms: &mut [u16],
    tos: &mut [u16],
) -> bool
    requires tables { Tables n openings.now middles.now closings.now numbers.now }
    requires row_is { RowIs kinds.old (2 * n) (λ k. 0) × (2 * n ≤ length kinds.old) }
    requires m_bound { (m ≤ 4096) × ((n + 1 + m) * 12 ≤ length text.now) }
    requires m_in_bounds { (m ≤ length costs.old) × (m ≤ length froms.old) × (m ≤ length tos.old) }
    ensures { MovesWalked text.now n m result kinds.old kinds.new costs.old costs.new froms.old froms.new tos.old tos.new }
{
    let mut lowest: usize = 0;
    for i in 0..m {
        let at = (n + 1 + i) * Chart::LINE;
        let from = number_at(text, at + 3, numbers);
        let to = number_at(text, at + 8, numbers);
        let cost = cost_at(text, at);
        let kind = 2 * from + cost;
        if !line_is(text, at, openings[kind], middles[from], closings[to]) {
            return false;
        }
        let rank = kind * 512 + to;
        if rank < lowest {
            return false;
        }
        costs[i] = cost as u8;
        froms[i] = from as u16;
        tos[i] = to as u16;
        kinds[kind] = 1;
        lowest = rank + 1;
    }
    true
}

// The position whose number is spelt from `at` on, if one is.
fn number_at(text: &[u8], at: usize, numbers: &[u16]) -> usize
    requires { (at + 4 ≤ length text.now) × (1024 ≤ length numbers.now) }
    ensures { (n : ℕ) → Numbers numbers.now n → result < n }
{
    numbers[slot(word(text, at))] as usize
}

// The cost of the move of a letter, if it is M, which is odd, or D.
fn cost_at(text: &[u8], at: usize) -> usize
    requires { at + 4 ≤ length text.now }
    ensures { result ≤ 1 }
{
    (1 - word(text, at) % 2) as usize
}

// Whether the twelve bytes from `at` are these three words.
fn line_is(text: &[u8], at: usize, opening: u32, middle: u32, closing: u32) -> bool
    requires { at + 12 ≤ length text.now }
    ensures { result ≡ true → LineWords text.now at opening middle closing }
{
    if word(text, at) != opening {
        return false;
    }
    if word(text, at + 4) != middle {
        return false;
    }
    word(text, at + 8) == closing
}

// Whether each position has the kinds of moves that its owner needs and no other: a meant move, but for an R (2), which has none, and no
// disturbance at an L (1). No jump depends on the owner but to stop.
fn kinds_allowed(owners: &[u8], n: usize, kinds: &[u8]) -> bool
    requires { (n ≤ 512) × (n ≤ length owners.now) × (2 * n ≤ length kinds.now) }
    ensures { result ≡ true → KindsAllowed owners.now n kinds.now }
{
    for v in 0..n {
        let owner = owners[v] as usize;
        if kinds[2 * v] as usize + owner / 2 != 1 {
            return false;
        }
        if kinds[2 * v + 1] as usize + owner % 2 == 2 {
            return false;
        }
    }
    true
}

// The controller is 0, the environment 1, nobody 2.
pub fn owner(letter: u8) -> u8
    ensures { result ≡ owner_number (owner_of letter) }
{
    if letter == b'L' {
        return 1;
    }
    if letter == b'R' { 2 } else { 0 }
}
