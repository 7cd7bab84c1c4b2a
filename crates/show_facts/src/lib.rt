// What the public calls say of a table: their answers side by side, and what they say of each job. specs/Facts.antt says what
// each is by the calls' answers. What a sheet makes of it is for the crates above.
#![tactic(auto)]

ghost use Rattle.std.specs.Prelude.{◌≡◌};
ghost use Rattle.paper.specs.Vocabulary.{list_to};
ghost use Rattle.paper.specs.Numbers.{most_tasks};
ghost use Rattle.show_facts.specs.Facts.{fits_at, fits_of, facts_of};

use paper::{MOST_TASKS, Record, Refusal, Response, Shown, Table};

#[derive(Clone, Copy)]
pub struct Facts {
    pub table: Table,
    pub times: Result<[Response; MOST_TASKS], Refusal>,
    pub tolerances: Result<[i64; MOST_TASKS], Refusal>,
    pub lengths: Result<[i64; MOST_TASKS], Refusal>,
    // Whether every region of the job is at most its length; as the lengths, turned away where they are.
    pub fits: Result<[bool; MOST_TASKS], Refusal>,
    pub check: Result<bool, Refusal>,
    pub points: Result<[Shown; MOST_TASKS], Refusal>,
}

#[tactic(auto, using(laws::proofs::Turns::fills))]
fn all_fits(
    rs: &[Record; MOST_TASKS],
    lengths: &[i64; MOST_TASKS],
    own: &[u32],
    catalogue: &[u32],
) -> [bool; MOST_TASKS]
    ensures { result ≡ list_to most_tasks (fits_at rs.now lengths.now own.now catalogue.now) }
{
    let mut fits = [false; MOST_TASKS];
    for k in 0..MOST_TASKS {
        fits[k] = fits::record_fits(rs[k], own, catalogue, lengths[k]);
    }
    fits
}

fn fits_of(
    rs: &[Record; MOST_TASKS],
    lengths: Result<[i64; MOST_TASKS], Refusal>,
    own: &[u32],
    catalogue: &[u32],
) -> Result<[bool; MOST_TASKS], Refusal>
    ensures { result ≡ fits_of rs.now lengths own.now catalogue.now }
{
    Ok(all_fits(rs, &lengths?, own, catalogue))
}

pub fn facts_of(t: Table, own: &[u32], catalogue: &[u32]) -> Facts
    ensures { result ≡ facts_of t own.now catalogue.now }
{
    let lengths = lengths::lengths(t);
    Facts {
        table: t,
        times: response::response_times(t),
        tolerances: lengths::tolerances(t),
        lengths,
        fits: fits_of(&t.records, lengths, own, catalogue),
        check: lengths::region_check(t, own, catalogue),
        points: points::point_check(t, own, catalogue),
    }
}
