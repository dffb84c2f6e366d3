// The refusal table (document 01, "Refusal table"): every refusal of every job, and the numbers that each gives.
#![tactic(auto)]

ghost use Rattle.std.specs.Prelude.{◌≡◌};
ghost use Rattle.refusal.specs.declared.Refusal.TheVariants.{Chart as OfChart};
ghost use Rattle.refusal.specs.Numbers.{misdrawn_line, misdrawn_number, no_numbers, numbers_of, refusal_condition, refusal_line, refusal_number, refusal_position};

// Refusals 1 to 9 and 17 in the order of their tests, which a chart alone can give, each with its line where that is not always line 0. 17 is
// tested beside 7 (document 02, order 4).
#[derive(Clone, Copy, Debug, PartialEq, Eq)]
pub enum Misdrawn {
    Length,
    Form(usize),
    Limits,
    Count,
    Sequence(usize),
    Endpoint(usize),
    Disturbed(usize),
    Resting(usize),
    Order(usize),
    NoMeant(usize),
}

// The table in the order of its tests: 20, a chart's refusal, 21, then 10 to 16, 18 and 19. 11 has the plate's line, 14 the fault's position
// and condition. 18 is tested between 14 and 15 (document 02, order 5), 19 after 13, by the way to ruin only (order 6), 20 before the
// chart, by a house of lanes only (order 7), 21 after 9 and before 10, by the jobs of small charts only (order 9).
#[derive(Clone, Copy, Debug, PartialEq, Eq)]
pub enum Refusal {
    Lanes,
    Chart(Misdrawn),
    NotSmall,
    Short,
    Plate(usize),
    Choice,
    Position,
    Ever,
    Fault(usize, u8),
    Held,
    Move,
    Seen,
}

// A refusal in the table's numbers, 0 where it has none; all are 0 where nothing is refused.
#[repr(C)]
#[derive(Clone, Copy, Debug, PartialEq, Eq)]
pub struct Numbers {
    pub number: u32,
    pub line: usize,
    pub position: usize,
    pub condition: u8,
}

impl Misdrawn {
    // The number in the table.
    fn number(self) -> u32
        ensures { result ≡ misdrawn_number self }
    {
        match self {
            Misdrawn::Length => 1,
            Misdrawn::Form(_) => 2,
            Misdrawn::Limits => 3,
            Misdrawn::Count => 4,
            Misdrawn::Sequence(_) => 5,
            Misdrawn::Endpoint(_) => 6,
            Misdrawn::Disturbed(_) => 7,
            Misdrawn::Resting(_) => 17,
            Misdrawn::Order(_) => 8,
            Misdrawn::NoMeant(_) => 9,
        }
    }

    // The line, counted from 0.
    fn line(self) -> usize
        ensures { result ≡ misdrawn_line self }
    {
        match self {
            Misdrawn::Form(line) => line,
            Misdrawn::Sequence(line) => line,
            Misdrawn::Endpoint(line) => line,
            Misdrawn::Disturbed(line) => line,
            Misdrawn::Resting(line) => line,
            Misdrawn::Order(line) => line,
            Misdrawn::NoMeant(line) => line,
            _ => 0,
        }
    }
}

// A chart's refusal is a refusal of each job that reads a chart.
impl From<Misdrawn> for Refusal {
    ghost from_gives = { λ m r. r ≡ OfChart m };

    fn from(misdrawn: Misdrawn) -> Refusal {
        Refusal::Chart(misdrawn)
    }
}

impl From<Refusal> for Numbers {
    ghost from_gives = { λ r n. n ≡ numbers_of r };

    fn from(refusal: Refusal) -> Numbers {
        Numbers {
            number: refusal.number(),
            line: refusal.line(),
            position: refusal.position(),
            condition: refusal.condition(),
        }
    }
}

impl Refusal {
    // The number in the table.
    fn number(self) -> u32
        ensures { result ≡ refusal_number self }
    {
        match self {
            Refusal::Lanes => 20,
            Refusal::Chart(m) => m.number(),
            Refusal::NotSmall => 21,
            Refusal::Short => 10,
            Refusal::Plate(_) => 11,
            Refusal::Choice => 12,
            Refusal::Position => 13,
            Refusal::Ever => 19,
            Refusal::Fault(_, _) => 14,
            Refusal::Held => 18,
            Refusal::Move => 15,
            Refusal::Seen => 16,
        }
    }

    fn line(self) -> usize
        ensures { result ≡ refusal_line self }
    {
        match self {
            Refusal::Chart(m) => m.line(),
            Refusal::Plate(line) => line,
            _ => 0,
        }
    }

    fn position(self) -> usize
        ensures { result ≡ refusal_position self }
    {
        match self {
            Refusal::Fault(position, _) => position,
            _ => 0,
        }
    }

    fn condition(self) -> u8
        ensures { result ≡ refusal_condition self }
    {
        match self {
            Refusal::Fault(_, condition) => condition,
            _ => 0,
        }
    }
}

impl Numbers {
    // Nothing is refused.
    pub fn none() -> Self
        ensures { result ≡ no_numbers }
    {
        Numbers {
            number: 0,
            line: 0,
            position: 0,
            condition: 0,
        }
    }
}
