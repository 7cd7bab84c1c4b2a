// Response times and the pass test, over columns of numbers.

#![tactic(auto)]

ghost use Rattle.std.specs.Prelude.{◌≡◌, cond, ◌+◌, ◌<◌, ◌≤◌, ltb};
ghost use Rattle.paper.specs.Numbers.{horizon, per_task};
ghost use Rattle.paper.specs.Answers.{no_time, times_answer};
ghost use Rattle.paper.specs.Analysis.{task_passes, passes};
ghost use Rattle.columns.specs.Columns.{assigned_by, Placed};
ghost use Rattle.columns.specs.Tasks.{tasks_in};
ghost use Rattle.jobs.specs.Task.{tasks_at, standing_at};
ghost use Rattle.response.specs.Bounds.{bounded, worst_with, response_of};

use columns::{Column, Numbers, Tasks};
use jobs::Task;
use paper::{HORIZON, MOST_TASKS, MOST_TICKS, Refusal, Response, Table};

// No response time lies above it: no F lies above the horizon, and no J above the most ticks.
const LATEST: u64 = HORIZON + MOST_TICKS as u64;

// What stands past the last task.
const NO_TIME: Response = Response {
    time: Some(0),
    job: 0,
};

// Where there is no response time: the job beside it is 0 and means nothing.
const BEYOND: Response = Response { time: None, job: 0 };

// The job that reached the larger of two values: `first` reached `largest`, and k, which comes after it, reaches r.
fn first_reaching(largest: u64, first: u64, r: u64, k: u64) -> u64
    ensures { result ≡ cond (ltb largest r) k first }
{
    if largest < r { k } else { first }
}

// The largest F + J - k T of the jobs below `count` with the first job that reaches it, or none where it is above `most`. Stops
// at the first job that is.
fn worst(task: &Task<'_>, count: u64, most: u64) -> Option<Response>
    requires { count ≤ horizon + 1 }
    ensures { result ≡ bounded most (worst_with (tasks_at task.now) (standing_at task.now) task.now.stand.i count) }
{
    let cost = task.all.cost(task.stand.i);
    let period = task.all.period(task.stand.i);
    let jitter = task.all.jitter(task.stand.i);
    let mut from = 0;
    let mut largest = 0;
    let mut first = 0;
    for k in 0..count {
        let ran = task.job(k, from)?;
        let r = (ran.end + jitter).saturating_sub(k * period);
        if most < r {
            return None;
        }
        first = first_reaching(largest, first, r, k);
        largest = u64::max(largest, r);
        from = ran.start + cost;
    }
    Some(Response {
        time: Some(largest),
        job: first,
    })
}

// R of task i with its job, or none where it is above `most`.
fn response(y: &Tasks, p: &Numbers, h: &Numbers, i: usize, most: u64) -> Option<Response>
    requires placed { Placed y.now.n (assigned_by p.now h.now) }
    requires among { i < y.now.n }
    ensures { result ≡ bounded most (response_of (tasks_in y.now) (assigned_by p.now h.now) i) }
{
    let task = Task::new(y, p, h, i);
    let count = task.job_count()?;
    worst(&task, count, most)
}

// R of task i is at most its deadline.
fn task_passes(y: &Tasks, p: &Numbers, h: &Numbers, i: usize) -> bool
    requires placed { Placed y.now.n (assigned_by p.now h.now) }
    requires among { i < y.now.n }
    ensures { result ≡ task_passes (tasks_in y.now) (assigned_by p.now h.now) i }
{
    response(y, p, h, i, y.deadline(i)).is_some()
}

// Every response time exists and is at most its deadline. Stops at the first task that fails.
pub fn passes(y: &Tasks, p: &Numbers, h: &Numbers) -> bool
    requires { Placed y.now.n (assigned_by p.now h.now) }
    ensures { result ≡ passes (tasks_in y.now) (assigned_by p.now h.now) }
{
    for i in 0..y.n {
        if !task_passes(y, p, h, i) {
            return false;
        }
    }
    true
}

// R of each of the n tasks with its job, in front.
fn all_responses(y: &Tasks, p: &Numbers, h: &Numbers) -> [Response; MOST_TASKS]
    requires { Placed y.now.n (assigned_by p.now h.now) }
    ensures { result ≡ per_task y.now.n (response_of (tasks_in y.now) (assigned_by p.now h.now)) no_time }
{
    let mut times = [NO_TIME; MOST_TASKS];
    for i in 0..y.n {
        times[i] = response(y, p, h, i, LATEST).unwrap_or(BEYOND);
    }
    times
}

// Response times of a table.
pub fn response_times(t: Table) -> Result<[Response; MOST_TASKS], Refusal>
    ensures { result ≡ times_answer t }
{
    outcomes::times_outcome(&t)?;
    let y = Tasks::new(&t);
    let p = columns::column_of(&t.records, Column::Priority);
    let h = columns::column_of(&t.records, Column::Threshold);
    Ok(all_responses(&y, &p, &h))
}
