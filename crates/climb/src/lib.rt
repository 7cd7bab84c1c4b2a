// The least solution of the one equation that all of the analysis solves, over columns of numbers.

#![tactic(auto)]

ghost use Rattle.std.specs.Prelude.{◌≡◌, cond, ◌+◌, ◌*◌, ◌≤◌, ◌<◌, ltb};
ghost use Rattle.paper.specs.Vocabulary.{ceil_div};
ghost use Rattle.paper.specs.Numbers.{most_ticks, horizon};
ghost use Rattle.columns.specs.Columns.{ranked_by};
ghost use Rattle.columns.specs.Tasks.{tasks_in};
ghost use Rattle.climb.specs.Work.{work, side, solution, Rises};

use columns::{Numbers, Tasks};
use paper::HORIZON;

// x = base + work(limit, x + edge) - off. L, S and F are the least x of such an equation.
#[derive(Clone, Copy, Debug, PartialEq, Eq)]
pub struct Equation {
    pub limit: u64,
    pub base: u64,
    pub off: u64,
    pub edge: u64,
}

// Jobs of a task that may have been asked for before x. All numbers here fit 32 bits, in which many
// machines divide far quicker.
pub fn arrived(x: u64, period: u64, jitter: u64) -> u64
    requires { (x ≤ horizon + 1) × (period ≤ most_ticks) × (jitter < period) }
    ensures { result ≡ ceil_div (x + jitter) period }
{
    let t = period as u32;
    let up = x as u32 + (t - 1) + jitter as u32;
    (up / t) as u64
}

// What one task adds.
fn part(x: u64, limit: u64, cost: u64, period: u64, jitter: u64, p: u64) -> u64
    requires { (x ≤ horizon + 1) × (period ≤ most_ticks) × (jitter < period) × (cost ≤ most_ticks) }
    ensures { result ≡ cond (ltb p limit) (ceil_div (x + jitter) period * cost) 0 }
{
    if p < limit {
        arrived(x, period, jitter) * cost
    } else {
        0
    }
}

#[tactic(auto, using(laws::proofs::Turns::sums), unfolding(paper::specs::Vocabulary::sum_to, crate::specs::Work::work, paper::specs::Analysis::load, paper::specs::Analysis::before))]
pub fn work(y: &Tasks, p: &Numbers, limit: u64, x: u64) -> u64
    requires { x ≤ horizon + 1 }
    ensures { result ≡ work (tasks_in y.now) (ranked_by p.now) limit x }
{
    let mut total = 0;
    for j in 0..y.n {
        let cost = y.cost(j);
        let period = y.period(j);
        let jitter = y.jitter(j);
        total += part(x, limit, cost, period, jitter, p[j]);
    }
    total
}

// The right side of an equation, at x.
fn side(y: &Tasks, p: &Numbers, e: Equation, x: u64) -> u64
    requires near { x ≤ horizon }
    requires rises { Rises (tasks_in y.now) (ranked_by p.now) e x }
    ensures { result ≡ side (tasks_in y.now) (ranked_by p.now) e x }
{
    e.base + work(y, p, e.limit, x + e.edge) - e.off
}

// The least x from `from` to the horizon that solves the equation.
pub fn solve(y: &Tasks, p: &Numbers, e: Equation, from: u64) -> Option<u64>
    requires { Rises (tasks_in y.now) (ranked_by p.now) e from }
    ensures { result ≡ solution (tasks_in y.now) (ranked_by p.now) e from }
{
    if from > HORIZON {
        return None;
    }
    let mut x = from;
    // No `for`: where a turn begins is where the sum of the one before it landed.
    loop {
        let next = side(y, p, e, x);
        if next == x {
            return Some(x);
        }
        if next > HORIZON {
            return None;
        }
        x = next;
    }
}
