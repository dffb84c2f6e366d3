// The good moves of a chart's rows: the console's meant moves into positions of at least the value of the position that they leave.
#![tactic(auto)]

ghost use Rattle.std.specs.Prelude.{◌≡◌, ◌<◌, ◌≤◌, length, get_or};
ghost use Rattle.rows.specs.Rows.{Within};
ghost use Rattle.good_moves.specs.Picking.{Picked, PickedMove, is_good};

// The i-th move is meant, of the console's, and falls to no smaller value; 65,535, which is "ever", is above each number.
fn is_good(
    i: usize,
    owners: &[u8],
    costs: &[u8],
    froms: &[u16],
    tos: &[u16],
    values: &[u16],
) -> bool
    requires { (i < length costs.now) × (i < length froms.now) × (i < length tos.now) × (get_or froms.now i 0 < length owners.now) × (get_or froms.now i 0 < length values.now) × (get_or tos.now i 0 < length values.now) }
    ensures { result ≡ is_good owners.now costs.now froms.now tos.now values.now i }
{
    let from = froms[i] as usize;
    let to = tos[i] as usize;
    if costs[i] != 0 {
        return false;
    }
    if owners[from] != 0 {
        return false;
    }
    values[from] <= values[to]
}

// Copies the i-th move's positions to the place `at` of other rows, if the move is good, and answers the next place.
fn pick_move(
    i: usize,
    at: usize,
    owners: &[u8],
    costs: &[u8],
    froms: &[u16],
    tos: &[u16],
    values: &[u16],
    positions: &mut [u16],
    targets: &mut [u16],
) -> usize
    requires i_in_bounds { (i < length costs.now) × (i < length froms.now) × (i < length tos.now) × (get_or froms.now i 0 < length owners.now) × (get_or froms.now i 0 < length values.now) × (get_or tos.now i 0 < length values.now) }
    requires at_in_bounds { (at < length positions.old) × (at < length targets.old) }
    ensures { PickedMove owners.now costs.now froms.now tos.now values.now i at positions.old targets.old positions.new targets.new result }
{
    if is_good(i, owners, costs, froms, tos, values) {
        positions[at] = froms[i];
        targets[at] = tos[i];
        return at + 1;
    }
    at
}

// Copies the positions and targets of the good moves, in their order, and counts them. The bounds keep the moves within their rows
// and the copies.
pub fn pick_good(
    n: usize,
    m: usize,
    owners: &[u8],
    costs: &[u8],
    froms: &[u16],
    tos: &[u16],
    values: &[u16],
    positions: &mut [u16],
    targets: &mut [u16],
) -> usize
    requires { Within n m costs.now froms.now tos.now × (n ≤ length owners.now) × (n ≤ length values.now) × (m ≤ length positions.old) × (m ≤ length targets.old) }
    ensures { Picked owners.now costs.now froms.now tos.now values.now m result positions.new targets.new }
{
    let mut count: usize = 0;
    for i in 0..m {
        count = pick_move(
            i, count, owners, costs, froms, tos, values, positions, targets,
        );
    }
    count
}
