// The condition that refusal 11 asks, shared by all calls: the regions of a table.

#![tactic(auto)]

ghost use Rattle.std.specs.Prelude.{◌≡◌, ◌<◌, ◌≤◌, ◌^◌, length, get_or, sum};
ghost use Rattle.std.specs.List.{list_all};
ghost use Rattle.paper.specs.Numbers.{most_tasks, most_words, ticks_in_range};
ghost use Rattle.paper.specs.Regions.{regions_hold, record_regions_hold, all_regions_hold};

use paper::{Record, Source, Table};

// The word at i, or 0 past the end.
pub fn word(list: &[u32], i: usize) -> u32
    ensures { result ≡ get_or list.now i 0 }
{
    list.get(i).copied().unwrap_or(0)
}

fn words_in_range(words: &[u32]) -> bool
    ensures { result ≡ list_all ticks_in_range words.now }
{
    words.iter().all(|word| checks::ticks_in_range(*word))
}

fn words_sum(words: &[u32]) -> u64
    requires { length words.now < 2 ^ 31 }
    ensures { result ≡ sum words.now }
{
    words.iter().map(|word| u64::from(*word)).sum()
}

// The most that `first` or `count` of a record may be: 7 bits each in the file.
const MOST_PLACE: usize = 127;

// The bounds come first, so that no count makes the loops long.
#[tactic(auto, using(crate::proofs::Regions::bounds))]
fn regions_hold(list: &[u32], first: u32, count: u32, c: u32) -> bool
    ensures { result ≡ regions_hold list.now first count c }
{
    let from = first as usize;
    let many = count as usize;
    if MOST_PLACE < from {
        return false;
    }
    if MOST_PLACE < many {
        return false;
    }
    if list.len() < from + many {
        return false;
    }
    let words = &list[from..from + many];
    let sum = words_sum(words);
    (1 <= many) & (words_in_range(words) & (sum == u64::from(c)))
}

pub fn record_regions_hold(own: &[u32], catalogue: &[u32], r: Record) -> bool
    ensures { result ≡ record_regions_hold own.now catalogue.now r }
{
    let list = match r.source {
        Source::Own => own,
        Source::Catalogue => catalogue,
    };
    regions_hold(list, r.first, r.count, r.cost)
}

#[tactic(auto, using(crate::proofs::Regions::whole), unfolding(paper::specs::Vocabulary::every, paper::specs::Regions::all_regions_hold))]
pub fn all_regions_hold(t: &Table, own: &[u32], catalogue: &[u32]) -> bool
    requires { (t.now.n ≤ most_tasks) × (length own.now ≤ most_words) }
    ensures { result ≡ all_regions_hold t.now.records t.now.n own.now catalogue.now }
{
    let mut ok = true;
    for k in 0..t.n {
        ok &= record_regions_hold(own, catalogue, t.records[k]);
    }
    words_in_range(own) & ok
}
