// Lines of a sheet in the chart's columns: a letter, two numbers, a line feed. One line, and rows of two numbers set out as lines,
// straight into the lent buffer.
#![tactic(auto)]

ghost use Rattle.std.specs.Prelude.{◌≡◌, [], ◌∷◌, ◌++◌, ◌*◌, ◌≤◌, length, drop};
ghost use Rattle.line.specs.Made.{LineMade};
ghost use Rattle.line.specs.declared.Entry.TheVariants.{Number};
ghost use Rattle.sheet_lines.specs.Lines.{pair_lines};

use making::make_number;
use rows::Chart;

// A line for each of the first `count` pairs of numbers, each into its own part of the buffer, 12 bytes after the one before; what
// lies past the last stays. The bounds keep the rows and the buffer long enough.
pub fn write_lines(letter: u8, count: usize, firsts: &[u16], seconds: &[u16], lines: &mut [u8])
    requires { (count ≤ length firsts.now) × (count ≤ length seconds.now) × (count * 12 ≤ length lines.old) }
    ensures { lines.new ≡ pair_lines letter firsts.now seconds.now count ++ drop (count * 12) lines.old }
{
    for i in 0..count {
        let at = i * Chart::LINE;
        write_line(
            letter,
            firsts[i] as u32,
            seconds[i] as u32,
            &mut lines[at..],
        );
    }
}

// A line into the first 12 bytes of a part, which the bound keeps within it; the others stay.
pub fn write_line(letter: u8, first: u32, second: u32, part: &mut [u8])
    requires { 12 ≤ length part.old }
    ensures { LineMade part.old part.new letter (Number first ∷ Number second ∷ []) }
{
    part[0] = letter;
    make_number(first, part, 1);
    make_number(second, part, 6);
    part[11] = b'\n';
}
