// The notes under the table, and the verdict. specs/Verdicts.antt says what each is by the calls' answers.
#![tactic(auto)]

ghost use Rattle.std.specs.Prelude.{◌≡◌};
ghost use Rattle.first_jobs.specs.Firsts.{numbered, first_unfit};
ghost use Rattle.verdicts.specs.Verdicts.{first_note, not_shown, verdict_of};

use paper::Refusal;
use show_facts::Facts;

// Why there are dashes in the table: the first call that turned it away.
#[derive(Clone, Copy, Debug, PartialEq, Eq)]
pub enum Note {
    Times(Refusal),
    Tolerances(Refusal),
    Lengths(Refusal),
}

// What is said of a table whose response times are answered.
#[derive(Clone, Copy, Debug, PartialEq, Eq)]
pub struct Verdict {
    // The first job that misses its deadline: none where the deadlines are kept.
    pub late: Option<usize>,
    // The first job with a region above its length: none where the regions fit. Turned away where they aren't checked.
    pub unfit: Result<Option<usize>, Refusal>,
}

pub fn note_of(f: &Facts) -> Option<Note>
    ensures { result ≡ first_note f.now.times f.now.tolerances f.now.lengths }
{
    if let Err(r) = f.times {
        return Some(Note::Times(r));
    }
    if let Err(r) = f.tolerances {
        return Some(Note::Tolerances(r));
    }
    if let Err(r) = f.lengths {
        return Some(Note::Lengths(r));
    }
    None
}

// The first job that the test of fixed preemption points doesn't show.
pub fn not_shown(f: &Facts) -> Option<usize>
    ensures { result ≡ numbered (not_shown f.now) }
{
    first_jobs::first_not_shown(f)
}

// The number of the first job with a region above its length. Where the check says no there is one (none_unfit_fits); were there none
// the regions would still not be said to fit, and the number would be 0.
#[tactic(auto, using(crate::proofs::Numbered::read_back))]
fn too_long(f: &Facts) -> usize
    ensures { result ≡ first_unfit f.now }
{
    first_jobs::first_unfit(f).unwrap_or(0)
}

// Turned away where the response times are.
pub fn verdict_of(f: &Facts) -> Result<Verdict, Refusal>
    ensures { result ≡ verdict_of f.now }
{
    f.times?;
    let unfit = match f.check {
        Ok(true) => Ok(None),
        Ok(false) => Ok(Some(too_long(f))),
        Err(r) => Err(r),
    };
    Ok(Verdict {
        late: first_jobs::first_late(f),
        unfit,
    })
}
