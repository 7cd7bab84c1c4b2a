// How many jobs a table has, and the first of them of which something doesn't hold: it is late, has a region above its length,
// is not shown by the test of fixed preemption points, has a jitter, or finds the catalogue ending before its regions.
// specs/Firsts.antt says which job that is. Its number counts from 1.
#![tactic(auto)]

ghost use Rattle.std.specs.Prelude.{ℕ, Bool, ◌<◌, ◌≤◌, min, ◌≡◌, not};
ghost use Rattle.paper.specs.Vocabulary.{lowest};
ghost use Rattle.paper.specs.Numbers.{most_tasks};
ghost use Rattle.paper.specs.Analysis.{within};
ghost use Rattle.first_jobs.specs.Firsts.{numbered, keeps_at, first_jitter, first_late, first_unfit, first_not_shown, inside, first_outside};

use paper::{MOST_TASKS, Record, Response, Shown, Source, Table};
use show_facts::Facts;

// How many jobs a table has, at most as many as it holds.
pub fn jobs_of(t: &Table) -> usize
    ensures upper_bound { result ≤ most_tasks }
    ensures value { result ≡ min t.now.n most_tasks }
{
    t.n.min(MOST_TASKS)
}

// The first of n jobs that fails a test, which p computes.
#[tactic(auto, using(crate::proofs::Firsts::firsts))]
fn first_failing<F: Fn(usize) -> bool>(n: usize, test: F) -> Option<usize>
    ghost p: { ℕ → Bool }
    requires callable { (k : ℕ) → k < n → F.pre test k }
    requires computes { (k : ℕ) (b : Bool) → F.post test k b → b ≡ p k }
    ensures { result ≡ numbered (lowest n (λ k. not (p k))) }
{
    for k in 0..n {
        if !test(k) {
            return Some(k + 1);
        }
    }
    None
}

#[tactic(auto, unfolding(paper::specs::Analysis::within))]
fn keeps(time: Option<u64>, deadline: u32) -> bool
    ensures { result ≡ within time deadline }
{
    match time {
        Some(time) => time <= deadline as u64,
        None => false,
    }
}

fn keeps_at(f: &Facts, times: &[Response; MOST_TASKS], k: usize) -> bool
    requires { k < most_tasks }
    ensures { result ≡ keeps_at f.now times.now k }
{
    keeps(times[k].time, f.table.records[k].deadline)
}

// The first job that doesn't keep its deadline.
pub fn first_late(f: &Facts) -> Option<usize>
    ensures { result ≡ numbered (first_late f.now) }
{
    let times = f.times.ok()?;
    first_failing(jobs_of(&f.table), |k| keeps_at(f, &times, k))
}

// The first job with a region above its length.
pub fn first_unfit(f: &Facts) -> Option<usize>
    ensures { result ≡ numbered (first_unfit f.now) }
{
    let fits = f.fits.ok()?;
    first_failing(jobs_of(&f.table), |k| fits[k])
}

// The first job that the test of fixed preemption points doesn't show.
pub fn first_not_shown(f: &Facts) -> Option<usize>
    ensures { result ≡ numbered (first_not_shown f.now) }
{
    let points = f.points.ok()?;
    first_failing(jobs_of(&f.table), |k| points[k] == Shown::Passes)
}

// The first job with a jitter.
pub fn first_jitter(f: &Facts) -> Option<usize>
    ensures { result ≡ numbered (first_jitter f.now) }
{
    first_failing(jobs_of(&f.table), |k| f.table.records[k].jitter == 0)
}

fn inside(r: &Record, size: usize) -> bool
    ensures { result ≡ inside r.now size }
{
    match r.source {
        Source::Own => true,
        Source::Catalogue => r.first as usize + r.count as usize <= size,
    }
}

// The first job that takes its regions from the catalogue and finds it ending before them.
pub fn first_outside(t: &Table, size: usize) -> Option<usize>
    ensures { result ≡ numbered (first_outside t.now.records (min t.now.n most_tasks) size) }
{
    first_failing(jobs_of(t), |k| inside(&t.records[k], size))
}
