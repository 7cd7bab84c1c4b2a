// A refusal by the paper's number, for a program that prints it or a caller in another language.
#![tactic(auto)]

ghost use Rattle.std.specs.Prelude.{◌≡◌};
ghost use Rattle.paper.specs.Refusals.{number_of};

use paper::Refusal;

// The paper's number. A `From` would be a second place for it: docs/SIGNATURE.md names this call, and its edits turn these arms.
pub fn number_of(r: Refusal) -> u64
    ensures { result ≡ number_of r }
{
    match r {
        Refusal::Short => 1,
        Refusal::WrongEdition => 2,
        Refusal::WrongCabinet => 3,
        Refusal::WrongLine => 4,
        Refusal::WrongCounts => 5,
        Refusal::WrongLength => 6,
        Refusal::WrongSeal => 7,
        Refusal::SpareBitSet => 8,
        Refusal::OutOfRange => 9,
        Refusal::BadAssignment => 10,
        Refusal::BadRegions => 11,
        Refusal::NoRoom => 12,
        Refusal::NoSuchPart => 13,
        Refusal::Unassigned => 14,
        Refusal::DeadlineAbovePeriod => 15,
        Refusal::ToleranceBelowZero(_) => 16,
        Refusal::BadRow => 17,
        Refusal::BlankPlate => 18,
        Refusal::JitterInEditionOne => 19,
    }
}
