// The listing of passing assignments: the first row, and the first after a given row.

#![tactic(auto)]

ghost use Rattle.std.specs.Prelude.{suc, length, take};
ghost use Rattle.paper.specs.Analysis.{tasks_of};
ghost use Rattle.paper.specs.Answers.{FirstSays, NextSays};
ghost use Rattle.search.specs.Search.{Begun};
ghost use Rattle.listing.specs.Lists.{Accepted, ListsFrom};

use columns::Tasks;
use paper::{Refusal, Step, Table};
use rows::{Digits, MOST_NUMBERS};

// Searches from a candidate on, and writes the row that is found.
fn answer(t: &Table, start: Digits, at: usize, out: &mut [u8]) -> Step
    requires { Accepted t.now (length out.old) × Begun t.now.n start at }
    ensures { ListsFrom (tasks_of t.now.records t.now.n) (take (suc at) start) out.old out.new result }
{
    match search::search(&Tasks::new(t), start, at) {
        Some(digits) => {
            rows::store(out, &digits, 2 * t.n);
            Step::Row
        }
        None => Step::End,
    }
}

pub fn first_row(t: Table, out: &mut [u8]) -> Result<Step, Refusal>
    ensures { FirstSays t out.old out.new result }
{
    outcomes::first_outcome(&t, out.len())?;
    Ok(answer(&t, [1u8; MOST_NUMBERS], 0, out))
}

// The search goes on at the given row with its last number one up.
pub fn next_row(t: Table, given: &[u8], out: &mut [u8]) -> Result<Step, Refusal>
    ensures { NextSays t given.now out.old out.new result }
{
    outcomes::first_outcome(&t, out.len())?;
    if !rows::row_holds(t.n, given) {
        return Err(Refusal::BadRow);
    }
    let mut digits = rows::load(given);
    let last = 2 * t.n - 1;
    digits[last] += 1;
    Ok(answer(&t, digits, last, out))
}
