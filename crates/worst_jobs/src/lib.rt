// What is said of the worst job of a task's active period. specs/WorstJobs.antt says what it is by the calls' answers.
#![tactic(auto)]

ghost use Rattle.std.specs.Prelude.{◌<◌, ◌≡◌};
ghost use Rattle.paper.specs.Numbers.{most_tasks};
ghost use Rattle.worst_jobs.specs.WorstJobs.{worst_by, worst_at};

use paper::Response;
use show_facts::Facts;

// What is said of the worst job of a task's active period. The jobs in it count from 0. Nothing is said where job 0 is the worst,
// and in time, or where the response times were refused.
#[derive(Clone, Copy, Debug, PartialEq, Eq)]
pub enum Worst {
    // Job k, a later one, is the worst, and in time.
    Later(u64),
    // Job k is the worst, and misses the deadline by so many ticks. No job misses it by more, and none before it by as much.
    Late(u64, u64),
    // The response time is beyond: the task doesn't pass, and no job is named.
    Unknown,
}

fn worst_by(response: Response, deadline: u64) -> Option<Worst>
    ensures { result ≡ worst_by response.time response.job deadline }
{
    match response.time {
        None => Some(Worst::Unknown),
        Some(time) if deadline < time => Some(Worst::Late(response.job, time - deadline)),
        Some(_) if response.job == 0 => None,
        Some(_) => Some(Worst::Later(response.job)),
    }
}

pub fn worst_at(f: &Facts, k: usize) -> Option<Worst>
    requires { k < most_tasks }
    ensures { result ≡ worst_at f.now k }
{
    let times = f.times.ok()?;
    worst_by(times[k], f.table.records[k].deadline as u64)
}
