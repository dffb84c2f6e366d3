// Indexing: the index of a small chart.
#![tactic(auto)]

ghost use Rattle.std.specs.Prelude.{◌≡◌, ◌≤◌, length};
ghost use Rattle.indexing.specs.Indexing.{indexed, rests_below};
ghost use Rattle.indexing.specs.OnRows.{IndexedOf};

use decode::Room;
use refusal::Refusal;
use rows::Rows;
use squares::{index_of, square_of};

// The index of a chart of 1 to 3 positions without a position of rest, among the charts of so many positions; or a refusal: the chart's, or
// 21 for a chart of another sort.
pub fn index_small_chart(text: &[u8]) -> Result<usize, Refusal>
    ensures { result ≡ indexed text.now }
{
    let mut room = Room::new();
    let rows = room.load(text)?;
    index_rows(&rows)
}

// The same of rows.
fn index_rows(rows: &Rows) -> Result<usize, Refusal>
    ensures { IndexedOf rows.now result }
{
    let n = rows.positions;
    if 3 < n {
        return Err(Refusal::NotSmall);
    }
    if some_rest(n, rows.owners) {
        return Err(Refusal::NotSmall);
    }
    let meant = square_of(0, rows.moves, rows.costs, rows.froms, rows.tos);
    let disturbances = square_of(1, rows.moves, rows.costs, rows.froms, rows.tos);
    Ok(index_of(n, rows.owners, rows.marks, meant, disturbances))
}

// Whether some position is one of rest. The bound keeps the positions within the row.
fn some_rest(n: usize, owners: &[u8]) -> bool
    requires { n ≤ length owners.now }
    ensures { result ≡ rests_below owners.now n }
{
    for v in 0..n {
        if owners[v] == 2 {
            return true;
        }
    }
    false
}
