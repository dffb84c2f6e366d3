// Conditions 1 to 5 of Checking at one position: those that its own line settles, and those that its moves settle.
#![tactic(auto)]

ghost use Rattle.std.specs.Prelude.{◌≡◌};
ghost use Rattle.conditions.specs.Position.{Rank, after_moves, before_moves, earlier_target, failing, joined, nothing, shown};

use rows::NONE;

// A position: its owner and mark in the chart, and its line of the plate.
#[derive(Clone, Copy)]
pub struct Line {
    pub owner: u8,
    pub mark: u8,
    pub value: u16,
    pub choice: u16,
    pub step: u16,
}

// A move of the position: its cost and target, and the target's value and step.
#[derive(Clone, Copy)]
pub struct Target {
    pub cost: u8,
    pub to: u16,
    pub value: u16,
    pub step: u16,
}

// What moves show: a meant one into the choice, one below what holding asks, one that ruin can go by, a meant one that is
// not earlier.
#[derive(Clone, Copy)]
pub struct Seen {
    pub chosen: bool,
    pub low: bool,
    pub ruin: bool,
    pub late: bool,
}

impl Seen {
    // No move shows anything yet.
    pub fn none() -> Self
        ensures { result ≡ nothing }
    {
        Seen {
            chosen: false,
            low: false,
            ruin: false,
            late: false,
        }
    }
}

// The first of conditions 1, 2 and, at L and R, 3 that fails, if one does.
pub fn before_moves(line: Line) -> Option<u8>
    ensures { result ≡ failing (before_moves line) }
{
    if (line.mark == 1) & (line.value != 0) {
        return Some(1);
    }
    if (line.value == NONE) != (line.step == NONE) {
        return Some(2);
    }
    if (line.owner != 0) & (line.choice != NONE) {
        return Some(3);
    }
    None
}

// The first of conditions 3 at O, 4 and 5 that fails by what all its moves show, if one does.
pub fn after_moves(line: Line, seen: Seen) -> Option<u8>
    ensures { result ≡ failing (after_moves line seen) }
{
    if (line.owner == 0) & !seen.chosen {
        return Some(3);
    }
    if seen.low {
        return Some(4);
    }
    let exempt = (line.mark == 1) | (line.value == NONE);
    let ruined = seen.ruin | ((line.owner == 0) & !seen.late);
    if exempt | ruined { None } else { Some(5) }
}

// Smaller value, or equal value and smaller step; 65,535 is above each. One comparison, without jumps.
fn earlier(line: Line, target: Target) -> bool
    ensures { result ≡ earlier_target line target }
{
    rank(target.value, target.step) < rank(line.value, line.step)
}

// A value and a step as one number: the value first.
fn rank(value: u16, step: u16) -> u32
    ensures { Rank value step result }
{
    value as u32 * 65536 + step as u32
}

// What one move shows. A disturbance's target counts with its cost more, in a width that no sum leaves: beside a finite value 65,535
// stays above, with a cost or without.
fn show(line: Line, target: Target) -> Seen
    ensures { result ≡ shown line target }
{
    if target.cost != 0 {
        let value = line.value as u32;
        let reached = target.value as u32 + target.cost as u32;
        return Seen {
            chosen: false,
            low: reached < value,
            ruin: reached <= value,
            late: false,
        };
    }
    let chosen = line.choice == target.to;
    let environment = line.owner != 0;
    let sooner = earlier(line, target);
    Seen {
        chosen,
        low: (environment | chosen) & (target.value < line.value),
        ruin: environment & sooner,
        late: !sooner,
    }
}

// What moves and one move more show.
pub fn see(seen: Seen, line: Line, target: Target) -> Seen
    ensures { result ≡ joined seen (shown line target) }
{
    let one = show(line, target);
    Seen {
        chosen: seen.chosen | one.chosen,
        low: seen.low | one.low,
        ruin: seen.ruin | one.ruin,
        late: seen.late | one.late,
    }
}
