// The run (document 01, "The run", and document 02, order 5): it begins by the start job, which wants an accepted plate, and each report
// moves it on, on an accepted plate that has the value that the run holds.
#![tactic(auto)]

ghost use Rattle.std.specs.Prelude.{◌≡◌, List, ℕ, ◌≤◌, ◌<◌};
ghost use Rattle.rows.specs.Rows.{Ascending, ChartRows};
ghost use Rattle.plate.specs.Formed.{form_of};
ghost use Rattle.run.specs.Running.{AcceptedReport, CheckedReport, advice_at, begun_at, moved, no_run, off_chart, reported, standing, started, unmoved};
ghost use Rattle.run.specs.OnRows.{ReportOf, StartOf};

use checking::check_plate;
use decode::Room;
use moves::{Kind, move_kind};
use plate::{LINE, examine_plate, number_at};
use refusal::Refusal;
use rows::Rows;

// The position that the machine stands at, the disturbances seen, the value at the start, and the value at the position, 65,535 for
// "ever".
#[repr(C)]
#[derive(Clone, Copy)]
pub struct Run {
    position: usize,
    seen: u32,
    initial: u16,
    value: u16,
}

// The plate's choice and value at the position now held, as numbers in rows.
#[repr(C)]
#[derive(Clone, Copy)]
pub struct Advice {
    pub choice: u16,
    pub value: u16,
}

// The run that a report hands back, and its answer: advice, or a refusal: the chart's, 11, 13, 14, 18, 15 or 16.
#[derive(Clone, Copy)]
pub struct Reported {
    pub run: Run,
    pub answer: Result<Advice, Refusal>,
}

impl Run {
    // The most disturbances that are counted.
    pub const COUNTED: u32 = 99999;

    // The most lanes of a house.
    pub const LANES: usize = 64;

    // A run at a position, on an accepted plate, with its advice; or a refusal: the chart's, 11, 13 or 14.
    pub fn start(text: &[u8], plate: &[u8], position: usize) -> Result<(Run, Advice), Refusal>
        ensures { result ≡ started text.now plate.now position }
    {
        let mut room = Room::new();
        let rows = room.load(text)?;
        start_rows(&rows, plate, position)
    }

    // The run after the machine went to a position, or the refusal with the run as it was.
    pub fn report(self, text: &[u8], plate: &[u8], to: usize) -> Reported
        ensures { result ≡ reported self text.now plate.now to }
    {
        let mut room = Room::new();
        match room.load(text) {
            Err(r) => self.unmoved(Refusal::Chart(r)),
            Ok(rows) => report_rows(self, &rows, plate, to),
        }
    }

    // The same from a chart's rows and a plate that is not tested again: 13, then what a report does after the plate's test. It is for plates
    // that Checking accepts.
    pub fn report_checked(
        self,
        n: usize,
        m: usize,
        owners: &[u8],
        costs: &[u8],
        froms: &[u16],
        tos: &[u16],
        plate: &[u8],
        to: usize,
    ) -> Reported
        requires { ((marks : List ℕ) × ChartRows n m owners.now marks costs.now froms.now tos.now) × Ascending m froms.now × (form_of n plate.now ≡ Ok tt) }
        ensures { CheckedReport n m owners.now costs.now froms.now tos.now self plate.now to result }
    {
        if n <= self.position {
            return self.unmoved(Refusal::Position);
        }
        if n <= to {
            return self.unmoved(Refusal::Position);
        }
        report_accepted(self, n, m, owners, costs, froms, tos, plate, to)
    }

    // No run: what a caller holds where no start began one. It stands on no chart, so every report of it is refused.
    pub fn none() -> Self
        ensures { result ≡ no_run }
    {
        Run {
            position: 18446744073709551615,
            seen: 0,
            initial: 0,
            value: 0,
        }
    }

    // Its four numbers.
    pub fn position(self) -> usize
        ensures { result ≡ self.position }
    {
        self.position
    }

    pub fn seen(self) -> u32
        ensures { result ≡ self.seen }
    {
        self.seen
    }

    pub fn initial(self) -> u16
        ensures { result ≡ self.initial }
    {
        self.initial
    }

    pub fn value(self) -> u16
        ensures { result ≡ self.value }
    {
        self.value
    }

    // The run as it was, with a refusal.
    fn unmoved(self, refusal: Refusal) -> Reported
        ensures { result ≡ unmoved self refusal }
    {
        Reported {
            run: self,
            answer: Err(refusal),
        }
    }

    // The run at another position, with so many disturbances seen and the value there.
    fn moved(self, to: usize, seen: u32, value: u16) -> Self
        ensures { result ≡ moved self to seen value }
    {
        Run {
            position: to,
            seen,
            initial: self.initial,
            value,
        }
    }
}

// The answer to a start, from a chart's rows. 13 stands between 11 and 14: where the position is on the chart, the answer is Checking's.
fn start_rows(rows: &Rows, plate: &[u8], position: usize) -> Result<(Run, Advice), Refusal>
    requires { Ascending rows.now.moves rows.now.froms.now }
    ensures { StartOf rows.now plate.now position result }
{
    let n = rows.positions;
    if n <= position {
        return Err(off_chart(n, plate));
    }
    check_plate(rows, plate)?;
    Ok(begin(n, plate, position))
}

// The refusal where a position is not on the chart: 11 comes before 13.
fn off_chart(n: usize, plate: &[u8]) -> Refusal
    ensures { result ≡ off_chart (form_of n plate.now) }
{
    match examine_plate(n, plate) {
        Err(line) => Refusal::Plate(line),
        Ok(()) => Refusal::Position,
    }
}

// A run that begins at a position of an accepted plate.
fn begin(n: usize, plate: &[u8], position: usize) -> (Run, Advice)
    requires { (n ≤ 512) × (form_of n plate.now ≡ Ok tt) × (position < n) }
    ensures { Ok result ≡ begun_at plate.now position }
{
    let advice = advice_at(n, plate, position);
    let initial = advice.value;
    let run = Run {
        position,
        seen: 0u32,
        initial,
        value: initial,
    };
    (run, advice)
}

// The answer to a report, from a chart's rows: where both positions are on the chart, Checking's, and on an accepted plate the move's.
fn report_rows(run: Run, rows: &Rows, plate: &[u8], to: usize) -> Reported
    requires { Ascending rows.now.moves rows.now.froms.now }
    ensures { ReportOf rows.now run plate.now to result }
{
    let n = rows.positions;
    if n <= run.position {
        return run.unmoved(off_chart(n, plate));
    }
    if n <= to {
        return run.unmoved(off_chart(n, plate));
    }
    match check_plate(rows, plate) {
        Err(r) => run.unmoved(r),
        Ok(()) => report_accepted(
            run,
            n,
            rows.moves,
            rows.owners,
            rows.costs,
            rows.froms,
            rows.tos,
            plate,
            to,
        ),
    }
}

// From an accepted plate, where both positions are on the chart: the value that the run holds, then what the move is.
fn report_accepted(
    run: Run,
    n: usize,
    m: usize,
    owners: &[u8],
    costs: &[u8],
    froms: &[u16],
    tos: &[u16],
    plate: &[u8],
    to: usize,
) -> Reported
    requires { ((marks : List ℕ) × ChartRows n m owners.now marks costs.now froms.now tos.now) × Ascending m froms.now × (form_of n plate.now ≡ Ok tt) × (run.position < n) × (to < n) }
    ensures { AcceptedReport n m owners.now costs.now froms.now tos.now run plate.now to result }
{
    let v = run.position;
    let here = advice_at(n, plate, v);
    if here.value != run.value {
        return run.unmoved(Refusal::Held);
    }
    let seen = run.seen;
    match move_kind(v, to, here.choice, n, m, owners, costs, froms, tos) {
        Kind::Neither => run.unmoved(Refusal::Move),
        Kind::Meant => stand(run, to, seen, n, plate),
        Kind::Disturbance => {
            if Run::COUNTED <= seen {
                return run.unmoved(Refusal::Seen);
            }
            stand(run, to, seen + 1, n, plate)
        }
    }
}

// The run at another position, with so many disturbances seen; it holds the value of the advice there.
fn stand(run: Run, to: usize, seen: u32, n: usize, plate: &[u8]) -> Reported
    requires { (n ≤ 512) × (form_of n plate.now ≡ Ok tt) × (to < n) }
    ensures { result ≡ standing run plate.now to seen }
{
    let advice = advice_at(n, plate, to);
    let value = advice.value;
    Reported {
        run: run.moved(to, seen, value),
        answer: Ok(advice),
    }
}

// Choice and value of a position, on its line of a plate of the form.
fn advice_at(n: usize, plate: &[u8], v: usize) -> Advice
    requires { (n ≤ 512) × (form_of n plate.now ≡ Ok tt) × (v < n) }
    ensures { result ≡ advice_at plate.now v }
{
    let at = (v + 1) * LINE;
    let choice = number_at(plate, at + 11);
    let value = number_at(plate, at + 6);
    Advice { choice, value }
}
