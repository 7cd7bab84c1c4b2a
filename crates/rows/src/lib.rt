// The numbers of a row, at the front of an array that has room for the longest row.

#![tactic(auto, using(laws::proofs::Turns::turns, laws::proofs::Turns::fills), unfolding(paper::specs::Vocabulary::every, crate::specs::Places::fresh_at))]

ghost use Rattle.std.specs.Prelude.{◌≡◌, ◌++◌, suc, ◌+◌, ◌≤◌, ◌<◌, length, take, drop, get_or};
ghost use Rattle.paper.specs.Numbers.{most_tasks, per_task};
ghost use Rattle.paper.specs.Rows.{row_size, place_of, row_holds};
ghost use Rattle.rows.specs.Places.{fresh_at, fits_at};
ghost use Rattle.rows.specs.Columns.{Unpacked};

use columns::Numbers;
use paper::MOST_TASKS;

// The most numbers that a row may have.
pub const MOST_NUMBERS: usize = 2 * MOST_TASKS;

// An array with a row at its front.
pub type Digits = [u8; MOST_NUMBERS];

// Where v stands first among the first n numbers, counted from 1; n where it does not.
#[tactic(auto, using(crate::proofs::Places::places))]
fn place_of(n: usize, d: &Digits, v: u64) -> u64
    requires { n ≤ most_tasks }
    ensures { result ≡ place_of (take n d.now) v }
{
    for i in 0..n {
        if u64::from(d[i]) == v {
            return i as u64 + 1;
        }
    }
    n as u64
}

// The n numbers from place `from` on: the record numbers from highest priority to lowest, or the thresholds of records 1 to n.
pub fn numbers_from(n: usize, d: &Digits, from: usize) -> Numbers
    requires { (n ≤ most_tasks) × (from ≤ n) }
    ensures { result ≡ per_task n (λ k. get_or d.now (from + k) 0) 0 }
{
    let mut xs = [0u64; MOST_TASKS];
    for k in 0..n {
        xs[k] = u64::from(d[from + k]);
    }
    xs
}

// The priorities of records 1 to n.
pub fn priorities_of(n: usize, d: &Digits) -> Numbers
    requires { n ≤ most_tasks }
    ensures { result ≡ per_task n (λ k. place_of (take n d.now) (suc k)) 0 }
{
    let mut xs = [0u64; MOST_TASKS];
    for k in 0..n {
        xs[k] = place_of(n, d, k as u64 + 1);
    }
    xs
}

// Whether the numbers at the front are a well-formed row. Its priorities and thresholds are lent: who tests a row goes on with them.
pub fn front_holds(n: usize, d: &Digits, p: &Numbers, h: &Numbers) -> bool
    requires { (n ≤ most_tasks) × Unpacked n d.now p.now h.now }
    ensures { result ≡ row_holds n (take (row_size n) d.now) }
{
    let order = numbers_from(n, d, 0);
    checks::each_once(&order, n) & checks::thresholds_hold(p, h, n)
}

// Whether a row is well formed.
#[tactic(auto, unfolding(paper::specs::Rows::row_holds))]
pub fn row_holds(n: usize, row: &[u8]) -> bool
    requires { n ≤ most_tasks }
    ensures { result ≡ row_holds n row.now }
{
    if row.len() != 2 * n {
        return false;
    }
    let d = load(row);
    let p = priorities_of(n, &d);
    let h = numbers_from(n, &d, n);
    front_holds(n, &d, &p, &h)
}

// Whether the number at place k is none of those before it.
fn fresh(d: &Digits, k: usize) -> bool
    requires { k < row_size most_tasks }
    ensures { result ≡ fresh_at d.now k }
{
    let x = d[k];
    let mut ok = true;
    for i in 0..k {
        ok &= d[i] != x;
    }
    ok
}

// Whether the number at place k may stand there after those before it.
#[tactic(auto, unfolding(crate::specs::Places::fits_at))]
pub fn fits(n: usize, d: &Digits, k: usize) -> bool
    requires { (n ≤ most_tasks) × (k < row_size n) }
    ensures { result ≡ fits_at n d.now k }
{
    if k < n {
        fresh(d, k)
    } else {
        u64::from(d[k]) <= place_of(n, d, (k - n + 1) as u64)
    }
}

// The numbers of a row, and zeros after them.
pub fn load(row: &[u8]) -> Digits
    requires { length row.now ≤ row_size most_tasks }
    ensures { (length result ≡ row_size most_tasks) × (take (length row.now) result ≡ row.now) }
{
    let mut d = [0u8; MOST_NUMBERS];
    d[..row.len()].copy_from_slice(row);
    d
}

// Writes the first k numbers of d over the first k of out.
pub fn store(out: &mut [u8], d: &Digits, k: usize)
    requires { (k ≤ length out.old) × (k ≤ row_size most_tasks) }
    ensures { out.new ≡ take k d.now ++ drop k out.old }
{
    out[..k].copy_from_slice(&d[..k]);
}
