// Writing: a chart into its plate.
#![tactic(auto)]

ghost use Rattle.std.specs.Prelude.{◌+◌, ◌*◌, ◌<◌, ◌≤◌, length};
ghost use Rattle.writing.specs.OnRows.{WrittenOf};
ghost use Rattle.writing.specs.Writing.{WrittenIs};

use decode::Room;
use plate::LINE;
use plate_lines::write_rows;
use refusal::Refusal;
use rows::{Chart, Rows};
use valuing::value_rows;

// Writes the plate of a chart into a lent buffer, and answers its length, or a refusal: the chart's, or 10 for a buffer that the plate does not
// fit. What lies past its last line stays, and on a refusal everything does.
pub fn write_plate(text: &[u8], out: &mut [u8]) -> Result<usize, Refusal>
    ensures { WrittenIs text.now out.old out.new result }
{
    let mut room = Room::new();
    let rows = room.load(text)?;
    let size = (rows.positions + 1) * LINE;
    if out.len() < size {
        return Err(Refusal::Short);
    }
    write_valued(&rows, out);
    Ok(size)
}

// Values rows, and writes their plate.
fn write_valued(rows: &Rows, out: &mut [u8])
    requires { (rows.now.positions + 1) * 22 ≤ length out.old }
    ensures { WrittenOf rows.now out.old out.new }
{
    let mut values = [0u16; Chart::POSITIONS];
    let mut choices = [0u16; Chart::POSITIONS];
    let mut steps = [0u16; Chart::POSITIONS];
    let s = value_rows(false, rows, &mut values, &mut choices, &mut steps);
    write_rows(rows.positions, s, &values, &choices, &steps, out);
}
