// A chart held as squares, set out as the lines of its text: position lines, and for each position the lines of its meant moves and of its
// disturbances, straight into the lent buffer.
#![tactic(auto)]

ghost use Rattle.std.specs.Prelude.{◌≡◌, ◌*◌, ◌≤◌, ◌<◌, length};
ghost use Rattle.search.specs.Below.{count_below};
ghost use Rattle.line.specs.Joined.{joined};
ghost use Rattle.line.specs.Written.{Written};
ghost use Rattle.square_lines.specs.Lines.{TargetsWritten, move_lines, moves_count, owner_byte, owner_line, yes};

use rows::Chart;
use sheet_lines::write_line;

// The lines of n positions, from rows of owners (1 is the lane) and marks. The bounds keep the rows and the buffer long enough.
pub fn write_positions(n: usize, owners: &[u8], marks: &[u8], lines: &mut [u8])
    requires { (n ≤ 3) × (n ≤ length owners.now) × (n ≤ length marks.now) × (n * 12 ≤ length lines.old) }
    ensures { Written (joined (owner_line owners.now marks.now) n) (n * 12) lines.old lines.new }
{
    for v in 0..n {
        let at = v * Chart::LINE;
        write_line(
            owner_letter(owners[v]),
            v as u32,
            marks[v] as u32,
            &mut lines[at..],
        );
    }
}

fn owner_letter(owner: u8) -> u8
    ensures { result ≡ owner_byte owner }
{
    if owner == 1 { b'L' } else { b'O' }
}

// How many moves there are among n positions, at most 3: the squares have no more.
pub fn count_moves(n: usize, meant: [[bool; 3]; 3], disturbances: [[bool; 3]; 3]) -> usize
    requires { n ≤ 3 }
    ensures { result ≡ moves_count n meant disturbances n }
{
    let mut count = 0;
    for v in 0..n {
        count = count + count_targets(n, meant[v]) + count_targets(n, disturbances[v]);
    }
    count
}

fn count_targets(n: usize, row: [bool; 3]) -> usize
    requires { n ≤ 3 }
    ensures { result ≡ count_below (yes row) n }
{
    let mut count = 0;
    for w in 0..n {
        if row[w] {
            count += 1;
        }
    }
    count
}

// The lines of the moves among n positions, by position, and of each meant ones before disturbances. The bounds keep them within the squares and
// the buffer.
pub fn write_moves(n: usize, meant: [[bool; 3]; 3], disturbances: [[bool; 3]; 3], lines: &mut [u8])
    requires { (n ≤ 3) × (moves_count n meant disturbances n * 12 ≤ length lines.old) }
    ensures { Written (joined (move_lines n meant disturbances) n) (moves_count n meant disturbances n * 12) lines.old lines.new }
{
    let mut at = 0;
    for v in 0..n {
        at += write_targets(b'M', v, n, meant[v], &mut lines[at..]);
        at += write_targets(b'D', v, n, disturbances[v], &mut lines[at..]);
    }
}

// A line for each target below n that the row has; answers how many bytes they take.
fn write_targets(letter: u8, from: usize, n: usize, row: [bool; 3], lines: &mut [u8]) -> usize
    requires { (from < 3) × (n ≤ 3) × (count_below (yes row) n * 12 ≤ length lines.old) }
    ensures { TargetsWritten letter from n row lines.old lines.new result }
{
    let mut at = 0;
    for w in 0..n {
        if row[w] {
            write_line(letter, from as u32, w as u32, &mut lines[at..]);
            at += Chart::LINE;
        }
    }
    at
}
