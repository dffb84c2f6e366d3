// What the filed rounds count down: the code of each move, and how many moves of a code are needed.
#![tactic(auto)]

ghost use Rattle.std.specs.Prelude.{◌≡◌, ℕ, ◌+◌, ◌*◌, ◌<◌, ◌≤◌, length, get_or, eqb, cond};
ghost use Rattle.rows.specs.Rows.{Filled, Stays};
ghost use Rattle.needs.specs.Needs.{Needs, code_of};
ghost use Rattle.needs.specs.NeedLaws.{SetBefore};

use filing::tally;
use rows::fill;

// What the count of a code is where it needs no more.
pub const MET: u16 = 4096;

// The code of each of m moves. The bounds keep the moves within their rows, and their codes within 16 bits.
pub fn code_moves(m: usize, costs: &[u8], froms: &[u16], codes: &mut [u16])
    requires { (m ≤ length costs.now) × (m ≤ length froms.now) × (m ≤ length codes.old) × ((i : ℕ) → i < m → get_or froms.now i 0 < 512) }
    ensures { Filled codes.old codes.new m (code_of costs.now froms.now) }
{
    for i in 0..m {
        codes[i] = 2 * froms[i] + costs[i] as u16;
    }
}

// The needs of each code of n positions. The m codes are below 2 n, and there is room for the needs.
pub fn count_needs(n: usize, m: usize, owners: &[u8], codes: &[u16], needs: &mut [u16])
    requires { (n ≤ 512) × (m ≤ 4096) × (n ≤ length owners.now) × (m ≤ length codes.now) × (2 * n ≤ length needs.old) × ((i : ℕ) → i < m → get_or codes.now i 0 < 2 * n) }
    ensures { Needs n m owners.now codes.now needs.new × Stays (2 * n) needs.old needs.new }
{
    fill(2 * n, MET, needs);
    tally(m, codes, needs);
    set_needs(n, owners, needs);
}

// From the counts of all codes to the needs: at O the count stays, elsewhere and for a disturbance it is one.
fn set_needs(n: usize, owners: &[u8], needs: &mut [u16])
    requires { (n ≤ 512) × (n ≤ length owners.now) × (2 * n ≤ length needs.old) }
    ensures { SetBefore n owners.now needs.old needs.new }
{
    for v in 0..n {
        let e = 2 * v;
        needs[e] = need_of(owners[v], needs[e]);
        needs[e + 1] = MET + 1;
    }
}

// The needs of a meant code from its count.
fn need_of(owner: u8, count: u16) -> u16
    ensures { result ≡ cond (eqb owner 0) count 4097 }
{
    if owner == 0 { count } else { MET + 1 }
}
