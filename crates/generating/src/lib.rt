// Generating: the text of a small chart from its index.
#![tactic(auto)]

ghost use Rattle.std.specs.Prelude.{◌≡◌};
ghost use Rattle.generating.specs.Generating.{GeneratedIs, SquaresFit, SquaresWritten, is_index};

use refusal::Refusal;
use rows::Chart;
use sheet_lines::write_line;
use square_lines::{count_moves, write_moves, write_positions};
use squares::{chart_count, digit_square, digits_of, marks_of, owners_of, sets};

// Writes the chart of this index among those of so many positions into a lent buffer, and answers its length. What lies past its last line
// stays, and on a refusal everything does.
pub fn write_small_chart(positions: usize, index: usize, chart: &mut [u8]) -> Result<usize, Refusal>
    ensures { GeneratedIs positions index chart.old chart.new result }
{
    if !is_index(positions, index) {
        return Err(Refusal::NotSmall);
    }
    let t = sets(positions);
    let digits = digits_of(positions, index);
    let owners = owners_of(t, digits);
    let marks = marks_of(t, digits);
    let meant = digit_square(0, t, digits);
    let disturbances = digit_square(1, t, digits);
    let moves = count_moves(positions, meant, disturbances);
    let length = (1 + positions + moves) * Chart::LINE;
    if chart.len() < length {
        return Err(Refusal::Short);
    }
    write_squares(
        positions,
        moves,
        &owners,
        &marks,
        meant,
        disturbances,
        chart,
    );
    Ok(length)
}

// Whether there is a chart of so many positions that has this index.
fn is_index(positions: usize, index: usize) -> bool
    ensures { result ≡ is_index positions index }
{
    if positions < 1 {
        return false;
    }
    if 3 < positions {
        return false;
    }
    index < chart_count(positions)
}

// The lines of a chart held as squares: the header, the positions, the moves. The bounds keep the rows and the buffer long enough.
fn write_squares(
    n: usize,
    m: usize,
    owners: &[u8],
    marks: &[u8],
    meant: [[bool; 3]; 3],
    disturbances: [[bool; 3]; 3],
    chart: &mut [u8],
)
    requires { SquaresFit n m owners.now marks.now meant disturbances chart.old }
    ensures { SquaresWritten n m owners.now marks.now meant disturbances chart.old chart.new }
{
    write_line(b'H', n as u32, m as u32, chart);
    write_positions(n, owners, marks, &mut chart[Chart::LINE..]);
    let at = (1 + n) * Chart::LINE;
    write_moves(n, meant, disturbances, &mut chart[at..]);
}
