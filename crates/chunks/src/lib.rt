// What the test of fixed preemption points looks at of a task's regions: the longest and the last.

#![tactic(auto, using(laws::proofs::Turns::largest, laws::proofs::Sums::max_none))]

ghost use Rattle.std.specs.Prelude.{◌≡◌, ◌+◌, ◌<◌, ◌^◌, get_or};
ghost use Rattle.paper.specs.Vocabulary.{max_to};
ghost use Rattle.paper.specs.Points.{longest_region, last_region};

use paper::Record;

// The longest of `count` words from `first`. A word past the list's end counts as 0, so that no slice of the list will do.
fn longest(list: &[u32], first: usize, count: usize) -> u64
    requires { first + count < 2 ^ 33 }
    ensures { result ≡ max_to count (λ i. get_or list.now (first + i) 0) }
{
    let mut most: u64 = 0;
    for i in 0..count {
        most = most.max(u64::from(regions::word(list, first + i)));
    }
    most
}

pub fn longest_region(r: Record, own: &[u32], catalogue: &[u32]) -> u64
    ensures { result ≡ longest_region own.now catalogue.now r }
{
    let list = fits::list_of(r.source, own, catalogue);
    longest(list, r.first as usize, r.count as usize)
}

pub fn last_region(r: Record, own: &[u32], catalogue: &[u32]) -> u64
    ensures { result ≡ last_region own.now catalogue.now r }
{
    let list = fits::list_of(r.source, own, catalogue);
    let count = r.count as usize;
    let end = r.first as usize + count;
    u64::from(regions::word(list, end.saturating_sub(1)))
}
