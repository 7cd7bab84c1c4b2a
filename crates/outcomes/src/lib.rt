// What calls ask that are lent a table alone.

#![tactic(auto)]

ghost use Rattle.std.specs.Prelude.{◌≡◌};
ghost use Rattle.paper.specs.Refusals.{first_of, times_asks, first_asks};
ghost use Rattle.outcomes.specs.Shared.{deadlines_asks};

use paper::{Refusal, Table};

// What response times ask, in the order asked. n comes first: the other checks look at n records.
pub fn times_outcome(t: &Table) -> Result<(), Refusal>
    ensures { result ≡ first_of (times_asks t.now) }
{
    if !checks::tasks_in_range(t.n) {
        return Err(Refusal::WrongCounts);
    }
    if !checks::records_in_range(t) {
        return Err(Refusal::OutOfRange);
    }
    if !checks::assignment_holds(t) {
        return Err(Refusal::BadAssignment);
    }
    if checks::unassigned(t) {
        return Err(Refusal::Unassigned);
    }
    Ok(())
}

// What tolerances and lengths ask alike: the same, and then the deadlines.
pub fn deadlines_outcome(t: &Table) -> Result<(), Refusal>
    ensures { result ≡ first_of (deadlines_asks t.now) }
{
    times_outcome(t)?;
    if !checks::deadlines_hold(t) {
        return Err(Refusal::DeadlineAbovePeriod);
    }
    Ok(())
}

// What the first row of a listing asks.
pub fn first_outcome(t: &Table, room: usize) -> Result<(), Refusal>
    ensures { result ≡ first_of (first_asks t.now room) }
{
    if !checks::tasks_in_range(t.n) {
        return Err(Refusal::WrongCounts);
    }
    if !checks::records_in_range(t) {
        return Err(Refusal::OutOfRange);
    }
    if room < 2 * t.n {
        return Err(Refusal::NoRoom);
    }
    Ok(())
}
