// Tolerances, lengths and the region check.

#![tactic(auto)]

ghost use Rattle.std.specs.Prelude.{◌≡◌, ℕ, Bool, cond, [], ◌∷◌, ◌<◌, pos, ◌+ℤ◌};
ghost use Rattle.paper.specs.Vocabulary.{lowest};
ghost use Rattle.paper.specs.Numbers.{most_tasks, per_task, assigned};
ghost use Rattle.paper.specs.Analysis.{tasks_of};
ghost use Rattle.paper.specs.Lengths.{no_instant, smaller, length_of, all_fit};
ghost use Rattle.paper.specs.Refusals.{first_of, below_zero_at, tolerance_below_zero};
ghost use Rattle.paper.specs.Answers.{answered, tolerances_answer, lengths_answer, fit_answer};
ghost use Rattle.columns.specs.Columns.{ranked_by, Ranged};
ghost use Rattle.columns.specs.Tasks.{tasks_in};
ghost use Rattle.lengths.specs.Stages.{tolerances_of, tolerances_left, lengths_left, falls, early_asks};

use columns::{Column, Numbers, Tasks};
use paper::{MOST_TASKS, Refusal, Table};
use tolerance::Ticks;

// There is no t from 1 to D − J.
#[tactic(auto, unfolding(paper::specs::Lengths::no_instant))]
fn no_instant(y: &Tasks, k: usize) -> bool
    requires { k < most_tasks }
    ensures { result ≡ no_instant (tasks_in y.now) k }
{
    y.deadline(k) <= y.jitter(k)
}

// Refusal 16 names the lowest of the n records that falls under it; p is what `falls` computes.
fn none_falls<F: Fn(usize) -> bool>(n: usize, falls: F) -> Result<(), Refusal>
    ghost p: { ℕ → Bool }
    requires callable { (k : ℕ) → k < n → F.pre falls k }
    requires computes { (k : ℕ) (b : Bool) → k < n → F.post falls k b → b ≡ p k }
    ensures { result ≡ first_of (below_zero_at (lowest n p) ∷ []) }
{
    for k in 0..n {
        if falls(k) {
            return Err(Refusal::ToleranceBelowZero(k + 1));
        }
    }
    Ok(())
}

// The smaller of q and what a task above allows, its tolerance plus 1. Below q there is room for the 1.
fn narrowed(q: i64, above: bool, tolerance: i64) -> i64
    ensures { result ≡ cond above (smaller q (tolerance +ℤ pos 1)) q }
{
    if above & (tolerance < q) {
        tolerance + 1
    } else {
        q
    }
}

// C(k), or the least tolerance of the tasks above k plus 1 where that is smaller.
fn length_of(y: &Tasks, p: &Numbers, ticks: &Ticks, k: usize) -> i64
    requires ticks_value { ticks.now ≡ tolerances_of (tasks_in y.now) (ranked_by p.now) }
    requires k_lt_n { k < y.now.n }
    ensures { result ≡ length_of (tasks_in y.now) (ranked_by p.now) k }
{
    let rank = p[k];
    let mut q = y.cost(k) as i64;
    for j in 0..y.n {
        q = narrowed(q, p[j] < rank, ticks[j]);
    }
    q
}

fn all_lengths(y: &Tasks, p: &Numbers, ticks: &Ticks) -> Ticks
    requires { ticks.now ≡ tolerances_of (tasks_in y.now) (ranked_by p.now) }
    ensures { result ≡ per_task y.now.n (length_of (tasks_in y.now) (ranked_by p.now)) (pos 0) }
{
    let mut lengths = [0i64; MOST_TASKS];
    for k in 0..y.n {
        lengths[k] = length_of(y, p, ticks, k);
    }
    lengths
}

// What is left of a call of tolerances once the deadlines hold: refusal 16 where there is no t, or the tolerances; one below zero is
// a number. The table is unpacked once.
fn tolerances_in_range(t: &Table) -> Result<Ticks, Refusal>
    requires { Ranged (tasks_of t.now.records t.now.n) }
    ensures { result ≡ tolerances_left (tasks_of t.now.records t.now.n) (assigned t.now.records) }
{
    let y = Tasks::new(t);
    let p = columns::column_of(&t.records, Column::Priority);
    let ticks = tolerance::all_tolerances(&y, &p);
    none_falls(y.n, |k| no_instant(&y, k))?;
    Ok(ticks)
}

pub fn tolerances(t: Table) -> Result<Ticks, Refusal>
    ensures { result ≡ tolerances_answer t }
{
    outcomes::deadlines_outcome(&t)?;
    tolerances_in_range(&t)
}

// And of a call of lengths: refusal 16 where there is no t or a tolerance is below zero, or the lengths.
fn lengths_in_range(t: &Table) -> Result<Ticks, Refusal>
    requires { Ranged (tasks_of t.now.records t.now.n) }
    ensures { result ≡ lengths_left (tasks_of t.now.records t.now.n) (assigned t.now.records) }
{
    let y = Tasks::new(t);
    let p = columns::column_of(&t.records, Column::Priority);
    let ticks = tolerance::all_tolerances(&y, &p);
    none_falls(y.n, |k| no_instant(&y, k) | (ticks[k] < 0))?;
    let lengths = all_lengths(&y, &p, &ticks);
    Ok(lengths)
}

pub fn lengths(t: Table) -> Result<Ticks, Refusal>
    ensures { result ≡ lengths_answer t }
{
    outcomes::deadlines_outcome(&t)?;
    lengths_in_range(&t)
}

// All that the region check asks before the tolerances, in the paper's order; the test of fixed preemption points asks it too. The
// checks behind the first look at n records and m words.
pub fn early_outcome(t: &Table, own: &[u32], catalogue: &[u32]) -> Result<(), Refusal>
    ensures { result ≡ first_of (early_asks t.now own.now catalogue.now) }
{
    if !checks::counts_in_range(t.n, own.len()) {
        return Err(Refusal::WrongCounts);
    }
    if !checks::records_in_range(t) {
        return Err(Refusal::OutOfRange);
    }
    if !checks::assignment_holds(t) {
        return Err(Refusal::BadAssignment);
    }
    if !regions::all_regions_hold(t, own, catalogue) {
        return Err(Refusal::BadRegions);
    }
    if checks::unassigned(t) {
        return Err(Refusal::Unassigned);
    }
    if !checks::deadlines_hold(t) {
        return Err(Refusal::DeadlineAbovePeriod);
    }
    Ok(())
}

// What is left of a region check once none of those applies: refusal 16, or the answer.
fn fit_in_range(t: &Table, own: &[u32], catalogue: &[u32]) -> Result<bool, Refusal>
    requires { Ranged (tasks_of t.now.records t.now.n) }
    ensures { result ≡ answered (first_of (tolerance_below_zero t.now ∷ [])) (all_fit t.now.records (tasks_of t.now.records t.now.n) (assigned t.now.records) own.now catalogue.now) }
{
    let lengths = lengths_in_range(t)?;
    Ok(fits::all_fit(t, &lengths, own, catalogue))
}

pub fn region_check(t: Table, own: &[u32], catalogue: &[u32]) -> Result<bool, Refusal>
    ensures { result ≡ fit_answer t own.now catalogue.now }
{
    early_outcome(&t, own, catalogue)?;
    fit_in_range(&t, own, catalogue)
}
