// Checking (document 01, "The jobs"): a chart and anybody's plate, accepted or refused with the first fault. It has three doors: `check`
// takes the two texts, `check_plate` a chart's rows and any plate, `check_formed` rows and a plate that is known to be of the form.
#![tactic(auto)]

ghost use Rattle.std.specs.Prelude.{◌≡◌};
ghost use Rattle.rows.specs.Rows.{Ascending};
ghost use Rattle.plate.specs.Formed.{form_of};
ghost use Rattle.checking.specs.Checking.{checked};
ghost use Rattle.checking.specs.OnRows.{FormedOf, PlateOf};

use decode::Room;
use plate::read_rows;
use plate_walk::load_plate;
use refusal::Refusal;
use rows::{Chart, Rows};
use verdict::{FoundFault, check_rows};

// Accepts a plate, or refuses: the chart's refusal, 11 or 14.
pub fn check(text: &[u8], plate: &[u8]) -> Result<(), Refusal>
    ensures { result ≡ checked text.now plate.now }
{
    let mut room = Room::new();
    let rows = room.load(text)?;
    check_plate(&rows, plate)
}

// Checks a plate against a chart's rows, for who has these already: the form first. The moves lie by their positions, as those that are
// loaded do.
pub fn check_plate(rows: &Rows, plate: &[u8]) -> Result<(), Refusal>
    requires { Ascending rows.now.moves rows.now.froms.now }
    ensures { PlateOf rows.now plate.now result }
{
    let n = rows.positions;
    let mut values = [0u16; Chart::POSITIONS];
    let mut choices = [0u16; Chart::POSITIONS];
    let mut steps = [0u16; Chart::POSITIONS];
    let header = load_plate(n, plate, &mut values, &mut choices, &mut steps).map_err(
        Refusal::Plate,
    )?;
    check_rows(rows, &values, &choices, &steps, header)?;
    Ok(())
}

// The first fault of a plate of the form, for who has looked at the form already. The chart's moves lie by their positions, as those that
// are loaded do.
pub fn check_formed(rows: &Rows, plate: &[u8]) -> Result<(), FoundFault>
    requires { Ascending rows.now.moves rows.now.froms.now × (form_of rows.now.positions plate.now ≡ Ok tt) }
    ensures { FormedOf rows.now plate.now result }
{
    let n = rows.positions;
    let mut values = [0u16; Chart::POSITIONS];
    let mut choices = [0u16; Chart::POSITIONS];
    let mut steps = [0u16; Chart::POSITIONS];
    let header = read_rows(n, plate, &mut values, &mut choices, &mut steps);
    check_rows(rows, &values, &choices, &steps, header)
}
