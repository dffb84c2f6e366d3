// A plate into rows in one walk by expected words. The walk knows what the bytes of an entry must be, and passes a plate only if every
// line is of the form; where it stops, the plate is examined exactly (crate plate), so it decides no refusal.
#![tactic(auto)]

ghost use Rattle.std.specs.Prelude.{◌≡◌, ◌+◌, ◌*◌, ◌≤◌, ◌<◌, length};
ghost use Rattle.rows.specs.Rows.{RowIs};
ghost use Rattle.spelling.specs.Words.{spelt};
ghost use Rattle.plate.specs.Formed.{form_of};
ghost use Rattle.plate.specs.Read.{header_in};
ghost use Rattle.plate_walk.specs.Walk.{EntryTaken, LineTaken, PlateLoaded, PlatePassed, LinesWalked, guess};

use line::framed;
use plate::{FIELDS, LINE, examine_plate, header_good, number_at, read_rows};
use rows::{Chart, FirstLine, NONE, clear};
use spelling::{spell_all, word};

// The numbers of a line of the form.
#[derive(Clone, Copy)]
struct Line {
    value: u16,
    choice: u16,
    step: u16,
}

// The last four bytes of ` ever` and of `    -`, as words.
const EVER: u32 = 101 + 118 * 256 + 101 * 65536 + 114 * 16777216;

const DASH: u32 = 32 + 32 * 256 + 32 * 65536 + 45 * 16777216;

// An entry that is neither a number in range nor the word that may stand there.
const WRONG: u32 = 65536;

// A plate of n positions into the first line's numbers and three rows. Of a plate that is not of the form the rows' first n numbers
// become NONE; what lies past them stays in any case.
pub fn load_plate(
    n: usize,
    plate: &[u8],
    values: &mut [u16],
    choices: &mut [u16],
    steps: &mut [u16],
) -> Result<FirstLine, usize>
    requires { (n ≤ 512) × (n ≤ length values.old) × (n ≤ length choices.old) × (n ≤ length steps.old) }
    ensures { PlateLoaded n plate.now result values.old values.new choices.old choices.new steps.old steps.new }
{
    if passes(n, plate, values, choices, steps) {
        return Ok(first_line(n, plate));
    }
    match examine_plate(n, plate) {
        Ok(()) => Ok(read_rows(n, plate, values, choices, steps)),
        Err(line) => {
            clear(n, values);
            clear(n, choices);
            clear(n, steps);
            Err(line)
        }
    }
}

// The first line's numbers of a plate of the form.
fn first_line(n: usize, plate: &[u8]) -> FirstLine
    requires { (n ≤ 512) × (form_of n plate.now ≡ Ok tt) }
    ensures { result ≡ header_in plate.now }
{
    FirstLine {
        rounds: number_at(plate, 6),
        highest: number_at(plate, 11),
        evers: number_at(plate, 16),
    }
}

// Whether the plate's length, its first line and each line by the walk are good; the rows then hold its columns.
fn passes(
    n: usize,
    plate: &[u8],
    values: &mut [u16],
    choices: &mut [u16],
    steps: &mut [u16],
) -> bool
    requires { (n ≤ 512) × (n ≤ length values.old) × (n ≤ length choices.old) × (n ≤ length steps.old) }
    ensures { PlatePassed n plate.now result values.old values.new choices.old choices.new steps.old steps.new }
{
    if plate.len() != (n + 1) * LINE {
        return false;
    }
    if !header_good(n, plate) {
        return false;
    }
    let mut words = [0u32; Chart::POSITIONS];
    spell_all(n, &mut words);
    walk(n, plate, &words, values, choices, steps)
}

fn walk(
    n: usize,
    plate: &[u8],
    words: &[u32],
    values: &mut [u16],
    choices: &mut [u16],
    steps: &mut [u16],
) -> bool
    requires { (n ≤ 512) × (n ≤ length values.old) × (n ≤ length choices.old) × (n ≤ length steps.old) × (n ≤ length words.now) × ((n + 1) * 22 ≤ length plate.now) × RowIs words.now n spelt }
    ensures { LinesWalked n plate.now result values.old values.new choices.old choices.new steps.old steps.new }
{
    for v in 0..n {
        let Some(line) = line_at(n, v, plate, words) else {
            return false;
        };
        values[v] = line.value;
        choices[v] = line.choice;
        steps[v] = line.step;
    }
    true
}

// The line of position v, if it is of the form. All its tests are joined, so that it jumps once.
fn line_at(n: usize, v: usize, plate: &[u8], words: &[u32]) -> Option<Line>
    requires { (n ≤ 512) × (v < n) × (n ≤ length words.now) × ((n + 1) * 22 ≤ length plate.now) × RowIs words.now n spelt }
    ensures { LineTaken n plate.now v result }
{
    let at = (v + 1) * LINE;
    let position = entry(n, plate, at + 1, words, DASH);
    let value = entry(n, plate, at + 6, words, EVER);
    let choice = entry(n, plate, at + 11, words, DASH);
    let step = entry(n, plate, at + 16, words, DASH);
    let numbered = position as usize == v;
    let taken = (value < WRONG) & (choice < WRONG) & (step < WRONG);
    if framed(plate, at, FIELDS, b'V') & numbered & taken {
        Some(Line {
            value: value as u16,
            choice: choice as u16,
            step: step as u16,
        })
    } else {
        None
    }
}

// An entry: its number if that is below n, NONE if its last four bytes are the other word, else WRONG.
fn entry(n: usize, plate: &[u8], at: usize, words: &[u32], other: u32) -> u32
    requires { (n ≤ 512) × (n ≤ length words.now) × (at + 5 ≤ length plate.now) × RowIs words.now n spelt }
    ensures { EntryTaken n plate.now at other result }
{
    let bytes = word(plate, at + 1);
    if plate[at] != b' ' {
        return WRONG;
    }
    if bytes == other {
        return NONE as u32;
    }
    let x = guess(bytes);
    if n <= x {
        return WRONG;
    }
    if bytes == 32 + words[x] * 256 {
        x as u32
    } else {
        WRONG
    }
}

// The number that the last three bytes of a word spell, if they spell one: a digit's last four bits are its worth, and a space's are 0.
fn guess(bytes: u32) -> usize
    ensures { result ≡ guess bytes }
{
    (bytes / 256 % 16 * 100 + bytes / 65536 % 16 * 10 + bytes / 16777216 % 16) as usize
}
