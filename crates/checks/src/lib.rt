// The conditions that the refusals 5, 9, 10, 14, 15, 18 and 19 ask, shared by the calls.

#![tactic(auto, using(laws::proofs::Turns::turns), unfolding(paper::specs::Vocabulary::every, paper::specs::Numbers::each_once, paper::specs::Numbers::thresholds_hold))]

ghost use Rattle.std.specs.Prelude.{◌≡◌, not, ◌≤◌, leb, eqb, get_or};
ghost use Rattle.paper.specs.Vocabulary.{every};
ghost use Rattle.paper.specs.Numbers.{most_tasks, rec, tasks_in_range, counts_in_range, ticks_in_range, record_in_range, records_in_range, each_once, thresholds_hold, unassigned, assignment_holds};
ghost use Rattle.paper.specs.Refusals.{blank};
ghost use Rattle.columns.specs.Columns.{assigned_by};

use columns::{Column, Numbers};
use paper::{Plate, Record, Table};

// 5: the counts.
pub fn tasks_in_range(n: usize) -> bool
    ensures { result ≡ tasks_in_range n }
{
    (1 <= n) & (n <= paper::MOST_TASKS)
}

pub fn counts_in_range(n: usize, m: usize) -> bool
    ensures { result ≡ counts_in_range n m }
{
    tasks_in_range(n) & (m <= paper::MOST_WORDS)
}

// 18: cabinet 0 or line 0, of a file or of a plate. It takes any two numbers: docs/changes/01-blank-plates.md names it so.
pub fn is_blank(cabinet: u64, line: u64) -> bool
    ensures { result ≡ blank cabinet line }
{
    (cabinet == 0) | (line == 0)
}

pub fn plate_is_blank(plate: Plate) -> bool
    ensures { result ≡ blank plate.cabinet.0 plate.line.0 }
{
    is_blank(plate.cabinet.0.into(), plate.line.0.into())
}

// 9: the ranges.
pub fn ticks_in_range(x: u32) -> bool
    ensures { result ≡ ticks_in_range x }
{
    (1 <= x) & (x <= paper::MOST_TICKS)
}

fn record_in_range(r: &Record) -> bool
    ensures { result ≡ record_in_range r.now }
{
    let named = r.name <= paper::MOST_NAME;
    let in_time = r.jitter < r.period;
    ticks_in_range(r.cost)
        & (ticks_in_range(r.period) & (ticks_in_range(r.deadline) & (named & in_time)))
}

pub fn records_in_range(t: &Table) -> bool
    requires { t.now.n ≤ most_tasks }
    ensures { result ≡ records_in_range t.now.records t.now.n }
{
    let mut ok = true;
    for k in 0..t.n {
        ok &= record_in_range(&t.records[k]);
    }
    ok
}

// 14: no task has a priority or a threshold.
pub fn unassigned(t: &Table) -> bool
    requires { t.now.n ≤ most_tasks }
    ensures { result ≡ unassigned t.now.records t.now.n }
{
    let mut ok = true;
    for r in &t.records[..t.n] {
        ok &= (r.priority == 0) & (r.threshold == 0);
    }
    ok
}

// 15: no deadline above its period.
pub fn deadlines_hold(t: &Table) -> bool
    requires { t.now.n ≤ most_tasks }
    ensures { result ≡ every t.now.n (λ k. leb (rec t.now.records k).deadline (rec t.now.records k).period) }
{
    let mut ok = true;
    for r in &t.records[..t.n] {
        ok &= r.deadline <= r.period;
    }
    ok
}

// 19: no task has a jitter, for which a file of edition 1 has no place.
pub fn unjittered(t: &Table) -> bool
    requires { t.now.n ≤ most_tasks }
    ensures { result ≡ every t.now.n (λ k. eqb (rec t.now.records k).jitter 0) }
{
    let mut ok = true;
    for r in &t.records[..t.n] {
        ok &= r.jitter == 0;
    }
    ok
}

// 10: the assignment. Whether x is none of the first k numbers.
fn none_of(xs: &Numbers, k: usize, x: u64) -> bool
    requires { k ≤ most_tasks }
    ensures { result ≡ every k (λ j. not (eqb (get_or xs.now j 0) x)) }
{
    let mut ok = true;
    for j in 0..k {
        ok &= (xs[j] != x);
    }
    ok
}

// The first n numbers are 1 to n, each once.
pub fn each_once(xs: &Numbers, n: usize) -> bool
    requires { n ≤ most_tasks }
    ensures { result ≡ each_once n (λ k. get_or xs.now k 0) }
{
    let most = n as u64;
    let mut inside = true;
    let mut apart = true;
    for k in 0..n {
        let x = xs[k];
        inside &= (1 <= x) & (x <= most);
        apart &= none_of(xs, k, x);
    }
    inside & apart
}

// Each of the first n thresholds lies from 1 to its own priority.
pub fn thresholds_hold(ps: &Numbers, hs: &Numbers, n: usize) -> bool
    requires { n ≤ most_tasks }
    ensures { result ≡ thresholds_hold n (assigned_by ps.now hs.now) }
{
    let mut ok = true;
    for k in 0..n {
        let h = hs[k];
        ok &= (1 <= h) & (h <= ps[k]);
    }
    ok
}

pub fn assignment_holds(t: &Table) -> bool
    requires { t.now.n ≤ most_tasks }
    ensures { result ≡ assignment_holds t.now.records t.now.n }
{
    let ps = columns::column_of(&t.records, Column::Priority);
    let hs = columns::column_of(&t.records, Column::Threshold);
    unassigned(t) | (each_once(&ps, t.n) & thresholds_hold(&ps, &hs, t.n))
}
