// Reading (document 01, "The jobs"): a chart and a plate of the form under 11 into the first line's numbers and three rows.
#![tactic(auto)]

ghost use Rattle.reading.specs.Reading.{ReadingIs};

use chart::examine;
use plate::{examine_plate, read_rows};
use refusal::Refusal;
use rows::FirstLine;

// Reads a plate into three lent rows, and answers the first line's numbers, or a refusal: the chart's, 10 where a row is shorter than the
// count of positions, or 11. What lies past the last position's number stays, and on a refusal everything does.
pub fn read_plate(
    text: &[u8],
    plate: &[u8],
    values: &mut [u16],
    choices: &mut [u16],
    steps: &mut [u16],
) -> Result<FirstLine, Refusal>
    ensures { ReadingIs text.now plate.now values.old values.new choices.old choices.new steps.old steps.new result }
{
    let chart = examine(text)?;
    let n = chart.positions;
    if values.len() < n {
        return Err(Refusal::Short);
    }
    if choices.len() < n {
        return Err(Refusal::Short);
    }
    if steps.len() < n {
        return Err(Refusal::Short);
    }
    examine_plate(n, plate).map_err(Refusal::Plate)?;
    Ok(read_rows(n, plate, values, choices, steps))
}
