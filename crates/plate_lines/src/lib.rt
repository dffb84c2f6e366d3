// A plate's header and three rows of numbers set out as its lines (document 01, "The plate"), straight into the lent buffer.
#![tactic(auto)]

ghost use Rattle.std.specs.Prelude.{◌≡◌, ◌++◌, ◌+◌, ◌*◌, ◌≤◌, ◌<◌, length, drop};
ghost use Rattle.rows.specs.Numbers.{value_of, row_value};
ghost use Rattle.line.specs.Made.{FieldMade, LineMade};
ghost use Rattle.plate.specs.Text.{value_entry, dash_entry, header_entries, position_entries, position_lines, plate_text};

use making::{make_dash, make_ever, make_number};
use plate::LINE;
use rows::{FirstLine, NONE};

// A plate of n positions into `out`; what lies past its last line stays. The bounds keep the rows and the buffer long enough,
// and the count within its field.
pub fn write_rows(
    n: usize,
    header: FirstLine,
    values: &[u16],
    choices: &[u16],
    steps: &[u16],
    out: &mut [u8],
)
    requires n_bound { (n ≤ 512) × (n ≤ length values.now) × (n ≤ length choices.now) × (n ≤ length steps.now) }
    requires n_in_bounds { (n + 1) * 22 ≤ length out.old }
    ensures { out.new ≡ plate_text n header (row_value values.now) (row_value choices.now) (row_value steps.now) ++ drop ((n + 1) * 22) out.old }
{
    write_header(n, header, out);
    let at = LINE;
    write_positions(n, values, choices, steps, &mut out[at..]);
}

// The lines of n positions into the part of the buffer that begins with them, each into its own part of it.
fn write_positions(n: usize, values: &[u16], choices: &[u16], steps: &[u16], lines: &mut [u8])
    requires n_bound { (n ≤ 512) × (n ≤ length values.now) × (n ≤ length choices.now) × (n ≤ length steps.now) }
    requires n_in_bounds { n * 22 ≤ length lines.old }
    ensures { lines.new ≡ position_lines (row_value values.now) (row_value choices.now) (row_value steps.now) n ++ drop (n * 22) lines.old }
{
    for v in 0..n {
        let at = v * LINE;
        write_position(v, values[v], choices[v], steps[v], &mut lines[at..]);
    }
}

// The first line into the part of the buffer that begins with it. The bounds keep the line within the part, and the count within its
// field.
fn write_header(n: usize, header: FirstLine, part: &mut [u8])
    requires { (n ≤ 512) × (22 ≤ length part.old) }
    ensures { LineMade part.old part.new 80 (header_entries n header) }
{
    part[0] = b'P';
    make_number(n as u32, part, 1);
    make_number(header.rounds as u32, part, 6);
    make_or_dash(header.highest, part, 11);
    make_number(header.evers as u32, part, 16);
    part[21] = b'\n';
}

// A position's line, likewise.
fn write_position(v: usize, value: u16, choice: u16, step: u16, part: &mut [u8])
    requires { (v < 512) × (22 ≤ length part.old) }
    ensures { LineMade part.old part.new 86 (position_entries v (value_of value) (value_of choice) (value_of step)) }
{
    part[0] = b'V';
    make_number(v as u32, part, 1);
    make_value(value, part, 6);
    make_or_dash(choice, part, 11);
    make_or_dash(step, part, 16);
    part[21] = b'\n';
}

// The field of a value in the five places from `at`, which the bound keeps within the part.
fn make_value(x: u16, part: &mut [u8], at: usize)
    requires { at + 5 ≤ length part.old }
    ensures { FieldMade part.old part.new at (value_entry (value_of x)) }
{
    if x == NONE {
        make_ever(part, at);
    } else {
        make_number(x as u32, part, at);
    }
}

// The field of a number in a column of dashes, likewise. Not one function with `make_value`: each promises its own column's text.
fn make_or_dash(x: u16, part: &mut [u8], at: usize)
    requires { at + 5 ≤ length part.old }
    ensures { FieldMade part.old part.new at (dash_entry (value_of x)) }
{
    if x == NONE {
        make_dash(part, at);
    } else {
        make_number(x as u32, part, at);
    }
}
