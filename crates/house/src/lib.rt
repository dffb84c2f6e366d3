// A house of lanes (document 02, order 7): one console drives 1 to 64 lanes of the same machine. Either every lane that reports moves, as
// a single report moves it, or none does. The plate is tested once for the whole house.
#![tactic(auto)]

ghost use Rattle.std.specs.Prelude.{◌≡◌, ◌≤◌, length};
ghost use Rattle.rows.specs.Rows.{Ascending};
ghost use Rattle.plate.specs.Formed.{form_of};
ghost use Rattle.house.specs.Housing.{DriveIs, HouseIs, driven_lanes};
ghost use Rattle.house.specs.Driving.{refused_house};
ghost use Rattle.house.specs.OnRows.{CheckedReportOf, LanesDrivenOf, RowsDrivenOf};
ghost use Rattle.house.specs.Copies.{copied, no_runs};

use checking::check_plate;
use decode::Room;
use refusal::Refusal;
use rows::{NONE, Rows};
use run::{Reported, Run};

// A house that is handed back: its records, how many of them are to be put back, 0 where it is refused, and the answer.
#[derive(Clone, Copy)]
pub struct House {
    pub runs: [Run; Run::LANES],
    pub written: usize,
    pub answer: Result<usize, (usize, Refusal)>,
}

// A report of a lent house: a row of records and a row of reports, one for each lane, NONE for none. The records are taken out of the row,
// the house is driven, and only then are they put back.
pub fn report_house(
    runs: &mut [Run],
    reports: &[u16],
    text: &[u8],
    plate: &[u8],
) -> Result<usize, (usize, Refusal)>
    ensures { HouseIs runs.old reports.now text.now plate.now runs.new result }
{
    let lanes = runs.len();
    let count = lanes_of(lanes, reports.len());
    let held = take_out(runs, count);
    let house = drive(held, lanes, reports, text, plate);
    let after = house.runs;
    let written = house.written;
    put_back(runs, after, written);
    house.answer
}

// The first records of a lent row, at the front of a row of 64.
fn take_out(runs: &mut [Run], count: usize) -> [Run; Run::LANES]
    requires { (count ≤ length runs.old) × (count ≤ 64) }
    ensures { (result ≡ copied runs.old no_runs count) × (runs.new ≡ runs.old) }
{
    let mut held = [Run::none(); Run::LANES];
    for lane in 0..count {
        held[lane] = runs[lane];
    }
    held
}

// They are put back; the others stay.
fn put_back(runs: &mut [Run], held: [Run; Run::LANES], count: usize)
    requires { (count ≤ length runs.old) × (count ≤ 64) }
    ensures { runs.new ≡ copied held runs.old count }
{
    for lane in 0..count {
        runs[lane] = held[lane];
    }
}

// A report of a house that is handed in, as `lanes` records at the front of a row, and handed back.
pub fn drive(
    runs: [Run; Run::LANES],
    lanes: usize,
    reports: &[u16],
    text: &[u8],
    plate: &[u8],
) -> House
    ensures { DriveIs runs lanes reports.now text.now plate.now result }
{
    if lanes_of(lanes, reports.len()) == 0 {
        return refused(runs, 0, Refusal::Lanes);
    }
    let mut room = Room::new();
    match room.load(text) {
        Err(r) => refused(runs, 0, Refusal::Chart(r)),
        Ok(rows) => drive_rows(runs, lanes, reports, &rows, plate),
    }
}

// How many lanes are driven: 0 where there are none, more than 64, or not as many reports.
fn lanes_of(lanes: usize, reports: usize) -> usize
    ensures { result ≡ driven_lanes lanes reports }
{
    if lanes != reports {
        return 0;
    }
    if Run::LANES < lanes {
        return 0;
    }
    lanes
}

// The house as it was, with the lane that is refused and why.
fn refused(runs: [Run; Run::LANES], lane: usize, refusal: Refusal) -> House
    ensures { result ≡ refused_house runs lane refusal }
{
    House {
        runs,
        written: 0,
        answer: Err((lane, refusal)),
    }
}

// From a chart's rows: Checking's refusal, or the lanes' reports.
fn drive_rows(
    runs: [Run; Run::LANES],
    lanes: usize,
    reports: &[u16],
    rows: &Rows,
    plate: &[u8],
) -> House
    requires { Ascending rows.now.moves rows.now.froms.now × (lanes ≤ 64) × (lanes ≡ length reports.now) }
    ensures { RowsDrivenOf rows.now runs lanes reports.now plate.now result }
{
    match check_plate(rows, plate) {
        Err(r) => refused(runs, 0, r),
        Ok(()) => drive_lanes(runs, lanes, reports, rows, plate),
    }
}

// On an accepted plate: each lane's single report in turn, up to the first that is refused.
fn drive_lanes(
    runs: [Run; Run::LANES],
    lanes: usize,
    reports: &[u16],
    rows: &Rows,
    plate: &[u8],
) -> House
    requires { Ascending rows.now.moves rows.now.froms.now × (form_of rows.now.positions plate.now ≡ Ok tt) × (lanes ≤ 64) × (lanes ≡ length reports.now) }
    ensures { LanesDrivenOf rows.now runs lanes reports.now plate.now result }
{
    let mut after = runs;
    let mut moved: usize = 0;
    for lane in 0..lanes {
        let to = reports[lane];
        if to != NONE {
            let run = runs[lane];
            let reported = report_lane(run, rows, plate, to as usize);
            let answer = reported.answer;
            match answer {
                Err(r) => return refused(runs, lane, r),
                Ok(_) => {
                    let next = reported.run;
                    after[lane] = next;
                    moved = moved + 1;
                }
            }
        }
    }
    House {
        runs: after,
        written: lanes,
        answer: Ok(moved),
    }
}

// A lane's single report.
fn report_lane(run: Run, rows: &Rows, plate: &[u8], to: usize) -> Reported
    requires { Ascending rows.now.moves rows.now.froms.now × (form_of rows.now.positions plate.now ≡ Ok tt) }
    ensures { CheckedReportOf rows.now run plate.now to result }
{
    run.report_checked(
        rows.positions,
        rows.moves,
        rows.owners,
        rows.costs,
        rows.froms,
        rows.tos,
        plate,
        to,
    )
}
