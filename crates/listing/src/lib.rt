// Listing: a chart into the sheet of its good moves.
#![tactic(auto)]

ghost use Rattle.listing.specs.Listing.{ListedIs};
ghost use Rattle.listing.specs.OnRows.{ListedOf};

use decode::Room;
use filed::solve_filed;
use good_moves::pick_good;
use refusal::Refusal;
use rows::{Chart, Rows};
use sheet_lines::write_lines;

// Writes the sheet of a chart's good moves into a lent buffer, and answers the count of lines, or a refusal: the chart's, or 10 for a buffer
// that the lines do not fit. What lies past its last line stays, and on a refusal everything does.
pub fn list_good_moves(text: &[u8], sheet: &mut [u8]) -> Result<usize, Refusal>
    ensures { ListedIs text.now sheet.old sheet.new result }
{
    let mut room = Room::new();
    let rows = room.load(text)?;
    list_rows(&rows, sheet)
}

// Values rows that hold a chart, and writes the lines of their good moves, if these fit.
fn list_rows(rows: &Rows, sheet: &mut [u8]) -> Result<usize, Refusal>
    ensures { ListedOf rows.now sheet.old sheet.new result }
{
    let mut values = [0u16; Chart::POSITIONS];
    let mut steps = [0u16; Chart::POSITIONS];
    solve_filed(rows, &mut values, &mut steps);
    let mut positions = [0u16; Chart::MOVES];
    let mut targets = [0u16; Chart::MOVES];
    let lines = pick_good(
        rows.positions,
        rows.moves,
        rows.owners,
        rows.costs,
        rows.froms,
        rows.tos,
        &values,
        &mut positions,
        &mut targets,
    );
    if sheet.len() < lines * Chart::LINE {
        return Err(Refusal::Short);
    }
    write_lines(b'G', lines, &positions, &targets, sheet);
    Ok(lines)
}
