// The test of fixed preemption points for one task, over columns of numbers.

#![tactic(auto)]

ghost use Rattle.std.specs.Prelude.{◌≡◌, cond, [], ◌∷◌, ◌+◌, ◌-◌, ◌<◌, ◌≤◌, ltb, get_or};
ghost use Rattle.paper.specs.Vocabulary.{max_to};
ghost use Rattle.paper.specs.Numbers.{most_ticks};
ghost use Rattle.paper.specs.Lengths.{lowest_below_zero};
ghost use Rattle.paper.specs.Points.{has_time, points_pass};
ghost use Rattle.paper.specs.Refusals.{first_of, below_zero_at};
ghost use Rattle.columns.specs.Columns.{ranked_by};
ghost use Rattle.columns.specs.Tasks.{tasks_in};
ghost use Rattle.point_test.specs.Chunks.{Short, chunks_by};

use climb::Equation;
use columns::{Numbers, Tasks};
use paper::Refusal;

// What a task of priority `p` adds to the alpha of one of priority `own`.
fn lower_part(own: u64, p: u64, region: u64) -> u64
    ensures { result ≡ cond (ltb own p) region 0 }
{
    if own < p { region } else { 0 }
}

// The longest region of any task below i.
#[tactic(auto, using(laws::proofs::Turns::largest, laws::proofs::Sums::max_none))]
fn alpha(y: &Tasks, p: &Numbers, regions: &Numbers, i: usize) -> u64
    requires { i < y.now.n }
    ensures { result ≡ max_to y.now.n (λ k. cond (ltb (get_or p.now i 0) (get_or p.now k 0)) (get_or regions.now k 0) 0) }
{
    let own = p[i];
    let mut most: u64 = 0;
    for k in 0..y.n {
        most = most.max(lower_part(own, p[k], regions[k]));
    }
    most
}

// Whether there is a t: the least at which all is done before the last region, of q ticks, with the longest region of a lower task
// in front. It is climbed to, so that the deadline doesn't say how long this takes.
fn has_time(y: &Tasks, p: &Numbers, i: usize, q: u64, longest: u64) -> bool
    requires { (i < y.now.n) × (1 ≤ (tasks_in y.now).c i - q + longest) × (longest ≤ most_ticks) }
    ensures { result ≡ has_time (tasks_in y.now) (ranked_by p.now) i q longest }
{
    let ahead = y.cost(i).saturating_sub(q);
    let due = y.deadline(i).saturating_sub(y.jitter(i));
    let latest = due.saturating_sub(q);
    let e = Equation {
        limit: p[i],
        base: ahead + longest,
        off: 0,
        edge: 0,
    };
    climb::solve(y, p, e, 1).is_some_and(|t| t <= latest)
}

// Refusal 16 names the lowest record with no t or a tolerance below zero. A task has a t and no such tolerance exactly where it
// would end in time with nothing below it: so this is climbed to as well, and no tolerance is worked out. A loop of its own, as the
// edit record-before-named turns what it names.
pub fn none_below_zero(y: &Tasks, p: &Numbers) -> Result<(), Refusal>
    ensures { result ≡ first_of (below_zero_at (lowest_below_zero (tasks_in y.now) (ranked_by p.now)) ∷ []) }
{
    for k in 0..y.n {
        if !has_time(y, p, k, 0, 0) {
            return Err(Refusal::ToleranceBelowZero(k + 1));
        }
    }
    Ok(())
}

// Task i, whose last region is of q ticks.
pub fn task_passes(y: &Tasks, p: &Numbers, regions: &Numbers, i: usize, q: u64) -> bool
    requires { (i < y.now.n) × Short y.now.n regions.now }
    ensures { result ≡ points_pass (tasks_in y.now) (ranked_by p.now) (chunks_by regions.now (λ _. q)) i }
{
    let longest = alpha(y, p, regions, i);
    if longest == 0 {
        return true;
    }
    has_time(y, p, i, q, longest)
}
