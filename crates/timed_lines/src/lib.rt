// The writers of lines as functions on pointers and lengths, each thin over the writer with the writer's own contract: `conformance/timings`
// times them without a job around them. Nothing else uses this.
#![tactic(auto)]

ghost use Rattle.std.specs.Prelude.{◌≡◌, ◌++◌, ◌+◌, ◌*◌, ◌≤◌, length, drop};
ghost use Rattle.rows.specs.Numbers.{row_value};
ghost use Rattle.plate.specs.Text.{plate_text};
ghost use Rattle.sheet_lines.specs.Lines.{pair_lines};

use plate_lines::write_rows;
use rows::FirstLine;
use sheet_lines::write_lines;

// A plate's lines.
#[unsafe(no_mangle)]
pub extern "C" fn timed_plate_lines(
    n: usize,
    header: FirstLine,
    values: &[u16],
    choices: &[u16],
    steps: &[u16],
    out: &mut [u8],
)
    requires n_bound { (n ≤ 512) × (n ≤ length values.now) × (n ≤ length choices.now) × (n ≤ length steps.now) }
    requires n_in_bounds { (n + 1) * 22 ≤ length out.old }
    ensures { out.new ≡ plate_text n header (row_value values.now) (row_value choices.now) (row_value steps.now) ++ drop ((n + 1) * 22) out.old }
{
    write_rows(n, header, values, choices, steps, out);
}

// Lines of two numbers.
#[unsafe(no_mangle)]
pub extern "C" fn timed_pair_lines(
    letter: u8,
    count: usize,
    firsts: &[u16],
    seconds: &[u16],
    lines: &mut [u8],
)
    requires { (count ≤ length firsts.now) × (count ≤ length seconds.now) × (count * 12 ≤ length lines.old) }
    ensures { lines.new ≡ pair_lines letter firsts.now seconds.now count ++ drop (count * 12) lines.old }
{
    write_lines(letter, count, firsts, seconds, lines);
}
