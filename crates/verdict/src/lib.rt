// Checking over rows: the first fault of a plate's rows, positions from 0 up and in each the conditions in order.
#![tactic(auto)]

ghost use Rattle.std.specs.Prelude.{◌≡◌, ◌≤◌, ◌<◌, length};
ghost use Rattle.refusal.specs.declared.Refusal.TheVariants.{Fault};
ghost use Rattle.rows.specs.Rows.{Ascending};
ghost use Rattle.rows.specs.Numbers.{row_value};
ghost use Rattle.first_line.specs.Counting.{PairsFit};
ghost use Rattle.verdict.specs.Sheet.{Formed, Sized, row_fault};
ghost use Rattle.verdict.specs.Ranks.{Ranked, RowsRanked};
ghost use Rattle.verdict.specs.Verdict.{first_fault, header_verdict};
ghost use Rattle.verdict.specs.OnRows.{CheckedOf, line_on, sheet_on, target_on};

use conditions::{Line, Seen, Target, after_moves, before_moves, see};
use first_line::count_first_line;
use refusal::Refusal;
use rows::{Chart, FirstLine, Rows};

// The position of a fault, past all positions for the first line's numbers, and the condition that fails there.
#[derive(Clone, Copy, Debug, PartialEq, Eq)]
pub struct FoundFault {
    pub position: usize,
    pub condition: u8,
}

// A fault is refused under 14.
impl From<FoundFault> for Refusal {
    ghost from_gives = { λ f r. r ≡ Fault f.position f.condition };

    fn from(fault: FoundFault) -> Refusal {
        Refusal::Fault(fault.position, fault.condition)
    }
}

// The first fault of a plate's rows and its first line's numbers. The chart's moves lie by their positions, as those that are loaded
// do; the plate's rows have a number of each position and are of its form, values and steps 65,535 or below 512.
pub fn check_rows(
    rows: &Rows,
    values: &[u16],
    choices: &[u16],
    steps: &[u16],
    header: FirstLine,
) -> Result<(), FoundFault>
    requires { Ascending rows.now.moves rows.now.froms.now × Formed rows.now.positions values.now steps.now × (rows.now.positions ≤ length values.now) × (rows.now.positions ≤ length choices.now) × (rows.now.positions ≤ length steps.now) }
    ensures { CheckedOf rows.now values.now choices.now steps.now header result }
{
    let n = rows.positions;
    let mut ranks = [0u32; Chart::POSITIONS];
    rank_rows(n, values, steps, &mut ranks);
    first_fault(rows, values, choices, steps, &ranks)?;
    header_fault(n, values, steps, header)
}

// Condition 6.
fn header_fault(
    n: usize,
    values: &[u16],
    steps: &[u16],
    header: FirstLine,
) -> Result<(), FoundFault>
    requires { (n ≤ 512) × (n ≤ length values.now) × (n ≤ length steps.now) × PairsFit n values.now steps.now }
    ensures { result ≡ header_verdict n (row_value values.now) (row_value steps.now) header }
{
    let counted = count_first_line(n, values, steps);
    let rounds = header.rounds == counted.rounds;
    let highest = header.highest == counted.highest;
    let evers = header.evers == counted.evers;
    if rounds & highest & evers {
        Ok(())
    } else {
        Err(FoundFault {
            position: n,
            condition: 6,
        })
    }
}

// The position v.
fn line_at(v: usize, rows: &Rows, values: &[u16], choices: &[u16], steps: &[u16]) -> Line
    requires { (v < rows.now.positions) × (v < length values.now) × (v < length choices.now) × (v < length steps.now) }
    ensures { result ≡ line_on rows.now values.now choices.now steps.now v }
{
    Line {
        owner: rows.owners[v],
        mark: rows.marks[v],
        value: values[v],
        choice: choices[v],
        step: steps[v],
    }
}

// Value and step of each position as one number, so that a move's target is looked up once.
fn rank_rows(n: usize, values: &[u16], steps: &[u16], ranks: &mut [u32])
    requires { (n ≤ length values.now) × (n ≤ length steps.now) × (n ≤ length ranks.old) }
    ensures { RowsRanked n values.now steps.now ranks.old ranks.new }
{
    for v in 0..n {
        ranks[v] = values[v] as u32 * 65536 + steps[v] as u32;
    }
}

// The i-th move.
fn target_at(i: usize, rows: &Rows, ranks: &[u32]) -> Target
    requires { (i < rows.now.moves) × (rows.now.positions ≤ length ranks.now) }
    ensures { result ≡ target_on rows.now ranks.now i }
{
    let to = rows.tos[i];
    let rank = ranks[to as usize];
    Target {
        cost: rows.costs[i],
        to,
        value: (rank / 65536) as u16,
        step: (rank % 65536) as u16,
    }
}

// The first of conditions 1 to 5 that fails. A position's moves lie together, so one walk over the moves serves all. At L
// condition 3 is settled before the moves, so a breach of 4 is the answer at once; at O all moves are seen before 4.
fn first_fault(
    rows: &Rows,
    values: &[u16],
    choices: &[u16],
    steps: &[u16],
    ranks: &[u32],
) -> Result<(), FoundFault>
    requires { Ascending rows.now.moves rows.now.froms.now × Sized rows.now.positions rows.now.owners.now rows.now.marks.now values.now choices.now steps.now × Ranked rows.now.positions values.now steps.now ranks.now }
    ensures { result ≡ first_fault (row_fault rows.now.moves (sheet_on rows.now values.now choices.now steps.now)) (Ok tt) rows.now.positions }
{
    let n = rows.positions;
    let m = rows.moves;
    let mut v: usize = 0;
    let mut i: usize = 0;
    'positions: loop {
        if n <= v {
            break 'positions Ok(());
        }
        let line = line_at(v, rows, values, choices, steps);
        if let Some(condition) = before_moves(line) {
            break 'positions Err(FoundFault {
                position: v,
                condition,
            });
        }
        let mut seen = Seen::none();
        while i < m {
            if rows.froms[i] as usize != v {
                break;
            }
            seen = see(seen, line, target_at(i, rows, ranks));
            if (line.owner != 0) & seen.low {
                break 'positions Err(FoundFault {
                    position: v,
                    condition: 4,
                });
            }
            i += 1;
        }
        if let Some(condition) = after_moves(line, seen) {
            break 'positions Err(FoundFault {
                position: v,
                condition,
            });
        }
        v += 1;
    }
}
