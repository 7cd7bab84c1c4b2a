// The tolerances of the tasks whose numbers stand in columns.

#![tactic(auto)]

ghost use Rattle.std.specs.Prelude.{◌≡◌, ◌+◌, ◌≤◌, ◌<◌, pos};
ghost use Rattle.paper.specs.Numbers.{most_ticks, per_task};
ghost use Rattle.paper.specs.Lengths.{tolerance};
ghost use Rattle.columns.specs.Columns.{ranked_by};
ghost use Rattle.columns.specs.Tasks.{tasks_in};
ghost use Rattle.tolerance.specs.Walk.{value_of, last_instant, Stretch};

mod slack;

use crate::slack::Slack;
use columns::{Numbers, Tasks};
use paper::MOST_TASKS;

// One signed number for each task.
pub type Ticks = [i64; MOST_TASKS];

// From `from` on to the next arrival of a task above i, or to `last`: no ceiling steps on the way.
fn stretch(y: &Tasks, p: &Numbers, i: usize, last: u64, from: u64) -> Slack
    requires i_lt_n { i < y.now.n }
    requires from_lt_last { (from < last) × (last ≤ most_ticks) }
    ensures { Stretch (tasks_in y.now) (ranked_by p.now) i last from result }
{
    let rank = p[i];
    let mut s = Slack::new(last, y.cost(i));
    for j in 0..y.n {
        let above = p[j] < rank;
        if above {
            s = s.with_task(y.cost(j), y.period(j), y.jitter(j), from);
        }
    }
    s
}

// A tolerance is taken over t from 1 to D − J. Where there is no t it means nothing, and the difference at 1 stands for it.
fn last_instant(deadline: u64, jitter: u64) -> u64
    ensures { result ≡ last_instant deadline jitter }
{
    deadline.saturating_sub(jitter).max(1)
}

// Between two ends of stretches the difference only rises, so the walk looks at the ends alone. Each end says where the next
// stretch begins: no range can be walked instead.
fn tolerance_of(y: &Tasks, p: &Numbers, i: usize) -> Slack
    requires { i < y.now.n }
    ensures { value_of result ≡ tolerance (tasks_in y.now) (ranked_by p.now) i }
{
    let deadline = y.deadline(i);
    let jitter = y.jitter(i);
    let last = last_instant(deadline, jitter);
    let mut best = stretch(y, p, i, last, 0);
    let mut here = best.at;
    while here < last {
        let s = stretch(y, p, i, last, here);
        best = best.larger(s);
        here = s.at;
    }
    best
}

// The tolerances of records 1 to n, each worked out once.
pub fn all_tolerances(y: &Tasks, p: &Numbers) -> Ticks
    ensures { result ≡ per_task y.now.n (tolerance (tasks_in y.now) (ranked_by p.now)) (pos 0) }
{
    let mut ticks = [0i64; MOST_TASKS];
    for i in 0..y.n {
        ticks[i] = tolerance_of(y, p, i).signed();
    }
    ticks
}
