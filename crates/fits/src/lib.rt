// Whether regions fit lengths.

#![tactic(auto, using(laws::proofs::Turns::turns), unfolding(paper::specs::Vocabulary::every))]

ghost use Rattle.std.specs.Prelude.{◌≡◌, ◌+◌, ◌≤◌, ◌<◌, ◌^◌, pos, get_or};
ghost use Rattle.std.specs.Int.Signed.{le_z};
ghost use Rattle.paper.specs.Vocabulary.{every};
ghost use Rattle.paper.specs.Numbers.{most_tasks, rec};
ghost use Rattle.paper.specs.Regions.{list_of};
ghost use Rattle.paper.specs.Lengths.{regions_fit};

use paper::{Record, Source, Table};
use tolerance::Ticks;

// A region of `word` ticks is at most the length q.
fn region_fits(word: u32, q: i64) -> bool
    ensures { result ≡ le_z (pos word) q }
{
    i64::from(word) <= q
}

// Of `count` words from `first`. A word past the list's end counts as 0, so that no slice of the list will do.
fn regions_fit(list: &[u32], first: usize, count: usize, q: i64) -> bool
    requires { first + count < 2 ^ 33 }
    ensures { result ≡ every count (λ i. le_z (pos (get_or list.now (first + i) 0)) q) }
{
    let mut ok = true;
    for i in 0..count {
        ok &= region_fits(regions::word(list, first + i), q);
    }
    ok
}

// The list that a record's regions stand in.
pub fn list_of<'a>(source: Source, own: &'a [u32], catalogue: &'a [u32]) -> &'a [u32]
    ensures { result.now ≡ list_of source own.now catalogue.now }
{
    match source {
        Source::Own => own,
        Source::Catalogue => catalogue,
    }
}

#[tactic(auto, unfolding(paper::specs::Lengths::regions_fit))]
pub fn record_fits(r: Record, own: &[u32], catalogue: &[u32], q: i64) -> bool
    ensures { result ≡ regions_fit (list_of r.source own.now catalogue.now) r q }
{
    let list = list_of(r.source, own, catalogue);
    regions_fit(list, r.first as usize, r.count as usize, q)
}

pub fn all_fit(t: &Table, lengths: &Ticks, own: &[u32], catalogue: &[u32]) -> bool
    requires { t.now.n ≤ most_tasks }
    ensures { result ≡ every t.now.n (λ k. regions_fit (list_of (rec t.now.records k).source own.now catalogue.now) (rec t.now.records k) (get_or lengths.now k (pos 0))) }
{
    let mut ok = true;
    for k in 0..t.n {
        ok &= record_fits(t.records[k], own, catalogue, lengths[k]);
    }
    ok
}
