// What every job on rows of numbers shares: the limits, the number that stands for "ever" and the dash, the first line's numbers, and
// the clearing of rows.
#![tactic(auto)]

ghost use Rattle.std.specs.Prelude.{◌≤◌, length};
ghost use Rattle.rows.specs.Rows.{ChartRows, Filled, Within};

// In rows of 16-bit numbers "ever" and the dash; also the value and the step of a position that is not placed yet.
pub const NONE: u16 = 65535;

// The counts of an accepted chart, with the limits of every chart.
#[derive(Clone, Copy)]
pub struct Chart {
    pub positions: usize,
    pub moves: usize,
}

impl Chart {
    // The most positions, and the most moves.
    pub const POSITIONS: usize = 512;

    pub const MOVES: usize = 4096;
    // The bytes of a line, and of the longest chart: a header, 512 positions and 4,096 moves.
    pub const LINE: usize = 12;

    pub const BYTES: usize = 55308;
}

// A chart as rows of numbers: owner (0 the controller, 1 the environment, 2 nobody) and mark of each position, cost (0 meant, 1 a
// disturbance), from and to of each move. They hold a chart; what else is said of them follows from that.
#[derive(Clone, Copy)]
pub struct Rows<'a> {
    pub positions: usize,
    pub moves: usize,
    pub owners: &'a [u8],
    pub marks: &'a [u8],
    pub costs: &'a [u8],
    pub froms: &'a [u16],
    pub tos: &'a [u16],
    pub ghost chart: { ∥ ChartRows positions moves owners.now marks.now costs.now froms.now tos.now ∥₁ },
    pub ghost few: { (positions ≤ 512) × (moves ≤ 4096) },
    pub ghost within: { Within positions moves costs.now froms.now tos.now },
    pub ghost room: { (positions ≤ length owners.now) × (positions ≤ length marks.now) },
}

// The first line's numbers: how many different pairs of value and step there are, the highest finite value (NONE if none), and how
// many "ever".
#[repr(C)]
#[derive(Clone, Copy)]
pub struct FirstLine {
    pub rounds: u16,
    pub highest: u16,
    pub evers: u16,
}

// The first n numbers become NONE. The bound keeps them within the row.
pub fn clear(n: usize, row: &mut [u16])
    requires { n ≤ length row.old }
    ensures { Filled row.old row.new n (λ v. 65535) }
{
    fill(n, NONE, row);
}

// The first n numbers become x. The bound keeps them within the row.
pub fn fill(n: usize, x: u16, row: &mut [u16])
    requires { n ≤ length row.old }
    ensures { Filled row.old row.new n (λ v. x) }
{
    row[..n].fill(x);
}

// The first n flags become 0. The bound keeps them within the row.
pub fn clear_flags(n: usize, flags: &mut [u8])
    requires { n ≤ length flags.old }
    ensures { Filled flags.old flags.new n (λ v. 0) }
{
    flags[..n].fill(0);
}
