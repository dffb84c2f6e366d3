// An accepted chart as rows of numbers, on which every job works. What the rows hold is in specs/Loaded.antt.
#![tactic(auto)]

ghost use Rattle.std.specs.Prelude.{◌≡◌, ◌+◌, ◌≤◌, length};
ghost use Rattle.chart.specs.Examined.{examined};
ghost use Rattle.walk.specs.Decoded.{PositionRows, MoveRows};
ghost use Rattle.decode.specs.Loaded.{Cleared, LoadIs, RowsLoaded};

use chart::{cost, examine, header};
use field::decimal;
use refusal::Misdrawn;
use rows::{Chart, Rows, clear, clear_flags};
use walk::{owner, walk};

// Room for the rows of any chart.
#[derive(Drop)]
pub struct Room {
    owners: [u8; Chart::POSITIONS],
    marks: [u8; Chart::POSITIONS],
    costs: [u8; Chart::MOVES],
    froms: [u16; Chart::MOVES],
    tos: [u16; Chart::MOVES],
}

impl Room {
    pub fn new() -> Room {
        Room {
            owners: [0; Chart::POSITIONS],
            marks: [0; Chart::POSITIONS],
            costs: [0; Chart::MOVES],
            froms: [0; Chart::MOVES],
            tos: [0; Chart::MOVES],
        }
    }

    // Loads a chart into the room: its rows, with the moves by the positions that they leave, or its refusal.
    pub fn load(&mut self, text: &[u8]) -> Result<Rows<'_>, Misdrawn>
        ensures { RowsLoaded text.now result }
    {
        let chart = load(
            text,
            &mut self.owners,
            &mut self.marks,
            &mut self.costs,
            &mut self.froms,
            &mut self.tos,
        )?;
        Ok(Rows {
            positions: chart.positions,
            moves: chart.moves,
            owners: &self.owners,
            marks: &self.marks,
            costs: &self.costs,
            froms: &self.froms,
            tos: &self.tos,
        })
    }
}

// Examines a chart and, where it is accepted, decodes it into rows: owner (0 the controller, 1 the environment, 2 nobody) and mark of
// each position, cost (0 meant, 1 a disturbance), from and to of each move. What lies past them stays; on a refusal the rows are
// cleared. The rows have room for every chart, so that a caller's local arrays of the limits' sizes serve. The walk takes the charts
// that it knows; of the others the exact examination tells.
pub fn load(
    text: &[u8],
    owners: &mut [u8],
    marks: &mut [u8],
    costs: &mut [u8],
    froms: &mut [u16],
    tos: &mut [u16],
) -> Result<Chart, Misdrawn>
    requires in_bounds { (512 ≤ length owners.old) × (512 ≤ length marks.old) }
    requires in_bounds_2 { (4096 ≤ length costs.old) × (4096 ≤ length froms.old) × (4096 ≤ length tos.old) }
    ensures { LoadIs text.now result owners.old owners.new marks.old marks.new costs.old costs.new froms.old froms.new tos.old tos.new }
{
    if text.len() < Chart::LINE {
        return load_exactly(text, owners, marks, costs, froms, tos);
    }
    match header(text) {
        Err(_) => load_exactly(text, owners, marks, costs, froms, tos),
        Ok(chart) => {
            if walk(text, chart, owners, marks, costs, froms, tos) {
                return Ok(chart);
            }
            load_exactly(text, owners, marks, costs, froms, tos)
        }
    }
}

// The same by the exact examination, and then line by line.
fn load_exactly(
    text: &[u8],
    owners: &mut [u8],
    marks: &mut [u8],
    costs: &mut [u8],
    froms: &mut [u16],
    tos: &mut [u16],
) -> Result<Chart, Misdrawn>
    requires in_bounds { (512 ≤ length owners.old) × (512 ≤ length marks.old) }
    requires in_bounds_2 { (4096 ≤ length costs.old) × (4096 ≤ length froms.old) × (4096 ≤ length tos.old) }
    ensures { LoadIs text.now result owners.old owners.new marks.old marks.new costs.old costs.new froms.old froms.new tos.old tos.new }
{
    match examine(text) {
        Err(r) => {
            clear_rows(owners, marks, costs, froms, tos);
            Err(r)
        }
        Ok(chart) => {
            decode_positions(text, chart, owners, marks);
            decode_moves(text, chart, costs, froms, tos);
            Ok(chart)
        }
    }
}

// Nothing of a chart: 0 in the rows of bytes, NONE in those of positions.
fn clear_rows(
    owners: &mut [u8],
    marks: &mut [u8],
    costs: &mut [u8],
    froms: &mut [u16],
    tos: &mut [u16],
)
    ensures { Cleared owners.new marks.new costs.new froms.new tos.new }
{
    clear_flags(owners.len(), owners);
    clear_flags(marks.len(), marks);
    clear_flags(costs.len(), costs);
    clear(froms.len(), froms);
    clear(tos.len(), tos);
}

// The rows of an accepted text's positions, on the lines from 1 on.
fn decode_positions(text: &[u8], chart: Chart, owners: &mut [u8], marks: &mut [u8])
    requires text_value { examined text.now ≡ Ok chart }
    requires positions_in_bounds { (chart.positions ≤ length owners.old) × (chart.positions ≤ length marks.old) }
    ensures { PositionRows text.now chart.positions owners.old owners.new marks.old marks.new }
{
    let n = chart.positions;
    for v in 0..n {
        let at = (v + 1) * Chart::LINE;
        owners[v] = owner(text[at]);
        marks[v] = decimal(text, at + 6) as u8;
    }
}

// The rows of an accepted text's moves, on the lines after the positions.
fn decode_moves(text: &[u8], chart: Chart, costs: &mut [u8], froms: &mut [u16], tos: &mut [u16])
    requires text_value { examined text.now ≡ Ok chart }
    requires moves_in_bounds { (chart.moves ≤ length costs.old) × (chart.moves ≤ length froms.old) × (chart.moves ≤ length tos.old) }
    ensures { MoveRows text.now (chart.positions + 1) chart.moves costs.old costs.new froms.old froms.new tos.old tos.new }
{
    let first = chart.positions + 1;
    let m = chart.moves;
    for i in 0..m {
        let at = (first + i) * Chart::LINE;
        costs[i] = cost(text[at]);
        froms[i] = decimal(text, at + 1) as u16;
        tos[i] = decimal(text, at + 6) as u16;
    }
}
