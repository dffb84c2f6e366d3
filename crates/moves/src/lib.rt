// What a move from one position to another is, over a chart's rows.
#![tactic(auto)]

ghost use Rattle.std.specs.Prelude.{◌≡◌, List, ℕ, ◌≤◌, ◌<◌, length};
ghost use Rattle.rows.specs.Rows.{Ascending, ChartRows, Within};
ghost use Rattle.rows.specs.Numbers.{number_at};
ghost use Rattle.rows.specs.Notes.{found};
ghost use Rattle.moves.specs.Moves.{FirstFrom, KindIs, leads_to};

// A meant move that may follow, a disturbance, or a move that can't follow.
#[derive(Clone, Copy)]
pub enum Kind {
    Meant,
    Disturbance,
    Neither,
}

// What a move from v to w is where this choice stands at v: at R a disturbance or nothing. The rows hold a chart, whose moves lie in the
// order of the positions that they leave; w is below 65,535, which is no position but the dash.
pub fn move_kind(
    v: usize,
    w: usize,
    choice: u16,
    n: usize,
    m: usize,
    owners: &[u8],
    costs: &[u8],
    froms: &[u16],
    tos: &[u16],
) -> Kind
    requires { ((marks : List ℕ) × ChartRows n m owners.now marks costs.now froms.now tos.now) × Ascending m froms.now × (v < n) × (w < 65535) }
    ensures { KindIs n m owners.now costs.now froms.now tos.now choice v w result }
{
    let first = first_from(v, m, froms);
    let meant = has_move(true, first, v, w, n, m, costs, froms, tos);
    let owner = owners[v];
    if owner == 1 {
        if meant {
            return Kind::Meant;
        }
        return Kind::Neither;
    }
    if (owner == 0) & (choice as usize == w) & meant {
        return Kind::Meant;
    }
    if has_move(false, first, v, w, n, m, costs, froms, tos) {
        return Kind::Disturbance;
    }
    Kind::Neither
}

// The first move that leaves v or a later position, by halves.
fn first_from(v: usize, m: usize, froms: &[u16]) -> usize
    requires { (m ≤ 4096) × (m ≤ length froms.now) × Ascending m froms.now }
    ensures { FirstFrom m froms.now v result }
{
    froms[..m].partition_point(|from| (*from as usize) < v)
}

// Some meant move, or else some disturbance, leads from v to w: of v's moves, which begin at the first.
fn has_move(
    meant: bool,
    first: usize,
    v: usize,
    w: usize,
    n: usize,
    m: usize,
    costs: &[u8],
    froms: &[u16],
    tos: &[u16],
) -> bool
    requires { Within n m costs.now froms.now tos.now × Ascending m froms.now × FirstFrom m froms.now v first }
    ensures { result ≡ found (number_at froms.now) (leads_to meant w costs.now tos.now) m v }
{
    for i in first..m {
        if froms[i] as usize != v {
            return false;
        }
        if leads(i, meant, w, costs, tos) {
            return true;
        }
    }
    false
}

// The i-th move is of the kind sought, meant or a disturbance, and leads to w.
fn leads(i: usize, meant: bool, w: usize, costs: &[u8], tos: &[u16]) -> bool
    requires { (i < length costs.now) × (i < length tos.now) }
    ensures { result ≡ leads_to meant w costs.now tos.now i }
{
    ((costs[i] == 0) == meant) & (tos[i] as usize == w)
}
