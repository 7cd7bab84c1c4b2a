// When the jobs of a task run: its active period, and the start and finish of each job in it.

#![tactic(auto)]

ghost use Rattle.std.specs.Prelude.{◌≡◌, cond, ◌&&◌, ◌<◌, ◌≤◌, leb, ltb};
ghost use Rattle.paper.specs.Numbers.{most_tasks};
ghost use Rattle.paper.specs.Analysis.{blocking};
ghost use Rattle.columns.specs.Columns.{assigned_by, ranked_by};
ghost use Rattle.columns.specs.Tasks.{tasks_on, tasks_in};
ghost use Rattle.jobs.specs.Stands.{stand_of, Stands};

use climb::Equation;
use columns::{Columns, Numbers, Tasks};

// Where a task stands: its number i, for how long, b, it is blocked, its priority and its threshold.
#[derive(Clone, Copy, Debug, PartialEq, Eq)]
pub struct Stand {
    pub i: usize,
    pub b: u64,
    pub p: u64,
    pub h: u64,
}

// When a job runs: its start S and its finish F.
#[derive(Clone, Copy, Debug, PartialEq, Eq)]
pub struct Ran {
    pub start: u64,
    pub end: u64,
}

// What one task adds to the blocking of a task of priority `own`.
fn block_part(own: u64, c: u64, p: u64, h: u64) -> u64
    ensures { result ≡ cond (leb h own && ltb own p) c 0 }
{
    if (h <= own) & (own < p) { c } else { 0 }
}

#[tactic(auto, using(laws::proofs::Turns::largest), unfolding(paper::specs::Vocabulary::max_to, paper::specs::Analysis::blocking, paper::specs::Analysis::blocks))]
fn blocking(n: usize, y: &Columns, p: &Numbers, h: &Numbers, i: usize) -> u64
    requires { (i < n) × (n ≤ most_tasks) }
    ensures { result ≡ blocking (tasks_on n y.now) (assigned_by p.now h.now) i }
{
    let own = p[i];
    let mut most: u64 = 0;
    for j in 0..n {
        most = most.max(block_part(own, y.cost(j), p[j], h[j]));
    }
    most
}

// Where task i of n stands, whatever the numbers in the columns are.
pub fn stand_of(n: usize, y: &Columns, p: &Numbers, h: &Numbers, i: usize) -> Stand
    requires { (i < n) × (n ≤ most_tasks) }
    ensures { result ≡ stand_of (tasks_on n y.now) (assigned_by p.now h.now) i }
{
    // A blocker has run for a tick when the task arrives.
    let b = blocking(n, y, p, h, i).saturating_sub(1);
    Stand {
        i,
        b,
        p: p[i],
        h: h[i],
    }
}

// A task among the others: the numbers and the priorities of all, and where this one stands.
#[derive(Clone, Copy)]
pub struct Task<'a> {
    pub all: &'a Tasks,
    priorities: &'a Numbers,
    pub stand: Stand,
    ghost stands: { Stands (tasks_in all.now) (ranked_by priorities.now) stand },
}

impl<'a> Task<'a> {
    ghost use Rattle.std.specs.Prelude.{◌≡◌, ◌≤◌, ◌<◌};
    ghost use Rattle.paper.specs.Numbers.{horizon};
    ghost use Rattle.paper.specs.Analysis.{level_of, start_sum, start_of, finish_of};
    ghost use Rattle.columns.specs.Columns.{ranked_by, assigned_by, Placed};
    ghost use Rattle.columns.specs.Tasks.{tasks_in};
    ghost use Rattle.jobs.specs.Stands.{stand_of, Stands, Climbs, ran_of, job_count};
    ghost use Rattle.jobs.specs.Task.{tasks_at, standing_at};

    // The task that stands so.
    pub fn standing(y: &'a Tasks, p: &'a Numbers, stand: Stand) -> Task<'a>
        requires { Stands (tasks_in y.now) (ranked_by p.now) stand }
        ensures all { result.all.now ≡ y.now }
        ensures priorities { result.priorities.now ≡ p.now }
        ensures stand { result.stand ≡ stand }
    {
        Task {
            all: y,
            priorities: p,
            stand,
        }
    }

    // Task i.
    pub fn new(y: &'a Tasks, p: &'a Numbers, h: &Numbers, i: usize) -> Task<'a>
        requires placed { Placed y.now.n (assigned_by p.now h.now) }
        requires among { i < y.now.n }
        ensures all { result.all.now ≡ y.now }
        ensures priorities { result.priorities.now ≡ p.now }
        ensures stand { result.stand ≡ stand_of (tasks_in y.now) (assigned_by p.now h.now) i }
    {
        Task::standing(y, p, stand_of(y.n, &y.columns, p, h, i))
    }

    // L. The task counts itself, so that L is above 0.
    fn level(&self) -> Option<u64>
        ensures { result ≡ level_of (tasks_at self.now) (standing_at self.now) }
    {
        let e = Equation {
            limit: self.stand.p + 1,
            base: self.stand.b,
            off: 0,
            edge: 0,
        };
        climb::solve(self.all, self.priorities, e, 1)
    }

    // How many jobs the active period has: those that may have been asked for before L.
    pub fn job_count(&self) -> Option<u64>
        ensures { result ≡ job_count (tasks_at self.now) (standing_at self.now) self.now.stand.i }
    {
        let l = self.level()?;
        let period = self.all.period(self.stand.i);
        let jitter = self.all.jitter(self.stand.i);
        let many = climb::arrived(l, period, jitter);
        Some(many)
    }

    // S of job k, which is known to be at least `from`. Jobs that are asked for at S itself go first: the edge.
    fn start(&self, k: u64, from: u64) -> Option<u64>
        requires near { k ≤ horizon }
        requires climbs { Climbs (start_sum (tasks_at self.now) (standing_at self.now) self.now.stand.i k) from }
        ensures { result ≡ start_of (tasks_at self.now) (standing_at self.now) self.now.stand.i k }
    {
        let own = self.all.cost(self.stand.i);
        let e = Equation {
            limit: self.stand.p,
            base: self.stand.b + k * own,
            off: 0,
            edge: 1,
        };
        climb::solve(self.all, self.priorities, e, from)
    }

    // F of a job that starts at `begun`. What was asked for by then, at `begun` too, had started: it is taken off.
    fn finish(&self, begun: u64) -> Option<u64>
        requires { begun ≤ horizon }
        ensures { result ≡ finish_of (tasks_at self.now) (standing_at self.now) self.now.stand.i begun }
    {
        let off = climb::work(self.all, self.priorities, self.stand.h, begun + 1);
        let own = self.all.cost(self.stand.i);
        let e = Equation {
            limit: self.stand.h,
            base: begun + own,
            off,
            edge: 0,
        };
        climb::solve(self.all, self.priorities, e, begun + 1)
    }

    pub fn job(&self, k: u64, from: u64) -> Option<Ran>
        requires near { k ≤ horizon }
        requires climbs { Climbs (start_sum (tasks_at self.now) (standing_at self.now) self.now.stand.i k) from }
        ensures { result ≡ ran_of (tasks_at self.now) (standing_at self.now) self.now.stand.i k }
    {
        let begun = self.start(k, from)?;
        let end = self.finish(begun)?;
        Some(Ran { start: begun, end })
    }
}
