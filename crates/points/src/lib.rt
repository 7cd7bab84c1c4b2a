// The test of fixed preemption points, for firmware that yields only where a region ends. It is sufficient only: a task that does
// not pass is not shown to be in time, and may be all the same.

#![tactic(auto, using(laws::proofs::Turns::fills))]

ghost use Rattle.std.specs.Prelude.{◌≡◌, ◌≤◌};
ghost use Rattle.paper.specs.Numbers.{most_tasks, rec, per_task};
ghost use Rattle.paper.specs.Analysis.{tasks_of};
ghost use Rattle.paper.specs.Points.{longest_region, last_region};
ghost use Rattle.paper.specs.Answers.{verdict_for, points_answer};
ghost use Rattle.columns.specs.Columns.{ranked_by, Ranged};
ghost use Rattle.columns.specs.Tasks.{tasks_in};
ghost use Rattle.point_test.specs.Chunks.{Short, chunks_by};
ghost use Rattle.points.specs.Stages.{Brief, verdicts_of, points_left};

use columns::{Column, Numbers, Tasks};
use paper::{MOST_TASKS, Refusal, Shown, Table};

// The longest region of each of the n tasks.
fn all_longest(t: &Table, own: &[u32], catalogue: &[u32]) -> Numbers
    requires { t.now.n ≤ most_tasks }
    ensures { result ≡ per_task t.now.n (λ k. longest_region own.now catalogue.now (rec t.now.records k)) 0 }
{
    let mut xs = [0u64; MOST_TASKS];
    for k in 0..t.n {
        xs[k] = chunks::longest_region(t.records[k], own, catalogue);
    }
    xs
}

fn verdict(passes: bool) -> Shown
    ensures { result ≡ verdict_for passes }
{
    if passes {
        Shown::Passes
    } else {
        Shown::NotShown
    }
}

// The n tasks, in front.
fn all_points(
    t: &Table,
    y: &Tasks,
    p: &Numbers,
    regions: &Numbers,
    own: &[u32],
    catalogue: &[u32],
) -> [Shown; MOST_TASKS]
    requires { Short y.now.n regions.now }
    ensures { result ≡ verdicts_of (tasks_in y.now) (ranked_by p.now) (chunks_by regions.now (λ k. last_region own.now catalogue.now (rec t.now.records k))) }
{
    let mut tasks = [Shown::NotShown; MOST_TASKS];
    for i in 0..y.n {
        let q = chunks::last_region(t.records[i], own, catalogue);
        tasks[i] = verdict(point_test::task_passes(y, p, regions, i, q));
    }
    tasks
}

// What is left of the call once nothing that is asked before the tolerances applies: refusal 16, or the verdicts. The table is
// unpacked once.
fn points_in_range(
    t: &Table,
    own: &[u32],
    catalogue: &[u32],
) -> Result<[Shown; MOST_TASKS], Refusal>
    requires { Ranged (tasks_of t.now.records t.now.n) × Brief t.now own.now catalogue.now }
    ensures { result ≡ points_left t.now own.now catalogue.now }
{
    let y = Tasks::new(t);
    let p = columns::column_of(&t.records, Column::Priority);
    point_test::none_below_zero(&y, &p)?;
    let regions = all_longest(t, own, catalogue);
    let tasks = all_points(t, &y, &p, &regions, own, catalogue);
    Ok(tasks)
}

pub fn point_check(t: Table, own: &[u32], catalogue: &[u32]) -> Result<[Shown; MOST_TASKS], Refusal>
    ensures { result ≡ points_answer t own.now catalogue.now }
{
    lengths::early_outcome(&t, own, catalogue)?;
    points_in_range(&t, own, catalogue)
}
