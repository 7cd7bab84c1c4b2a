// The last region of a task, handed back: one word of the list that the task's regions are a part of, never a copy. As beside the
// other parts stand its outcome alone, and the bare part, empty where the call is turned away.
#![tactic(auto)]

ghost use Rattle.std.specs.Prelude.{◌≡◌, IfOk};
ghost use Rattle.paper.specs.Answers.{regions_outcome, outcome_of};
ghost use Rattle.last_part.specs.Last.{IsLast};

use paper::{Refusal, Table};

// It asks what the regions ask. All behind the place before their end is one word, four bytes wide.
#[tactic(auto, using(crate::proofs::Lasts::some))]
pub fn last_region<'a>(
    t: Table,
    own: &'a [u32],
    catalogue: &'a [u32],
    number: usize,
) -> Result<&'a [u32], Refusal>
    ensures outcome { outcome_of result ≡ regions_outcome t own.now catalogue.now number }
    ensures part { IfOk result (IsLast t own.entry catalogue.entry number) }
{
    let words = parts::regions(t, own, catalogue, number)?;
    Ok(&words[words.len() - 1..])
}

pub fn last_outcome(t: Table, own: &[u32], catalogue: &[u32], number: usize) -> Result<(), Refusal>
    ensures { result ≡ regions_outcome t own.now catalogue.now number }
{
    last_region(t, own, catalogue, number).map(|_| ())
}

pub fn last_word<'a>(t: Table, own: &'a [u32], catalogue: &'a [u32], number: usize) -> &'a [u32]
    ensures { IsLast t own.entry catalogue.entry number result }
{
    last_region(t, own, catalogue, number).unwrap_or(&own[..0])
}
