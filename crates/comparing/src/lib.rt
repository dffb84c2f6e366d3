// Comparing: a chart, a plate and a row of choices into whether the plate's values and the worths of the controller that makes the
// choices agree, or the first position where they differ.
#![tactic(auto)]

ghost use Rattle.std.specs.Prelude.{◌≡◌, ◌≤◌, length};
ghost use Rattle.rows.specs.Numbers.{number_at};
ghost use Rattle.rows.specs.Rows.{Ascending};
ghost use Rattle.plate.specs.Formed.{form_of};
ghost use Rattle.comparing.specs.Comparing.{first_difference, value_number};
ghost use Rattle.comparing.specs.OnRows.{ComparedOf};
ghost use Rattle.comparing.specs.Compared.{ComparedIs};

use checking::check_formed;
use decode::Room;
use plate::{examine_plate, read_rows};
use refusal::Refusal;
use rows::{Chart, Rows};
use weighing::weigh_rows;

// A position where the plate's value is not the worth.
#[derive(Clone, Copy, Debug, PartialEq, Eq)]
pub struct Difference {
    pub position: usize,
    pub value: u16,
    pub worth: u16,
}

// The first position where the plate's value and the worth differ, with both; or a refusal: the chart's, 10 where there are fewer choices than
// positions, 11, 12 or 14.
pub fn compare(text: &[u8], plate: &[u8], choices: &[u16]) -> Result<Option<Difference>, Refusal>
    ensures { ComparedIs text.now plate.now choices.now result }
{
    let mut room = Room::new();
    let rows = room.load(text)?;
    let n = rows.positions;
    if choices.len() < n {
        return Err(Refusal::Short);
    }
    examine_plate(n, plate).map_err(Refusal::Plate)?;
    compare_formed(&rows, plate, choices)
}

// Weighs the choices over a chart's rows and checks a plate of the form, then compares its values with the worths.
fn compare_formed(rows: &Rows, plate: &[u8], choices: &[u16]) -> Result<Option<Difference>, Refusal>
    requires { Ascending rows.now.moves rows.now.froms.now × (form_of rows.now.positions plate.now ≡ Ok tt) × (rows.now.positions ≤ length choices.now) }
    ensures { ComparedOf rows.now plate.now choices.now result }
{
    let mut worths = [0u16; Chart::POSITIONS];
    if !weigh_rows(rows, choices, &mut worths) {
        return Err(Refusal::Choice);
    }
    check_formed(rows, plate)?;
    Ok(compare_worths(rows.positions, plate, &worths))
}

// The first position where the values of a plate of the form differ from the worths.
fn compare_worths(n: usize, plate: &[u8], worths: &[u16]) -> Option<Difference>
    requires { (n ≤ 512) × (form_of n plate.now ≡ Ok tt) × (n ≤ length worths.now) }
    ensures { Ok result ≡ first_difference (value_number plate.now) (number_at worths.now) n }
{
    let mut values = [0u16; Chart::POSITIONS];
    let mut choices = [0u16; Chart::POSITIONS];
    let mut steps = [0u16; Chart::POSITIONS];
    read_rows(n, plate, &mut values, &mut choices, &mut steps);
    first_difference(n, &values, worths)
}

// The first position where two rows differ.
fn first_difference(n: usize, values: &[u16], worths: &[u16]) -> Option<Difference>
    requires { (n ≤ length values.now) × (n ≤ length worths.now) }
    ensures { Ok result ≡ first_difference (number_at values.now) (number_at worths.now) n }
{
    for v in 0..n {
        if values[v] != worths[v] {
            return Some(Difference {
                position: v,
                value: values[v],
                worth: worths[v],
            });
        }
    }
    None
}
