ghost use Rattle.std.specs.Prelude.{◌≡◌, ◌+◌, ◌*◌, ◌<◌, ◌≤◌, ◌^◌};
ghost use Rattle.paper.specs.File.{record_size, record_at};
ghost use Rattle.layout.specs.Editions.{edition_number, edition_for};

use crate::places;
use paper::Refusal;

/// The two editions of the file. Only edition 2 has a place for a jitter.
#[derive(Clone, Copy, Debug, PartialEq, Eq)]
pub enum Edition {
    One = 1,
    Two = 2,
}

impl TryFrom<u8> for Edition {
    type Error = Refusal;

    ghost try_from_gives = { λ n r. r ≡ edition_for n };

    fn try_from(n: u8) -> Result<Edition, Refusal> {
        match n {
            1 => Ok(Edition::One),
            2 => Ok(Edition::Two),
            _ => Err(Refusal::WrongEdition),
        }
    }
}

impl From<Edition> for u8 {
    ghost from_gives = { λ e n. n ≡ edition_number e };

    fn from(edition: Edition) -> u8 {
        edition as u8
    }
}

impl Edition {
    // How many bytes each record has in this edition,
    pub fn record_size(self) -> usize
        ensures value { result ≡ record_size (edition_number self) }
        ensures lower_bound { (12 ≤ result) × (result ≤ 15) }
    {
        places::record_size(u8::from(self))
    }

    // and the byte that record k + 1 begins at, and the bit.
    pub fn record_from(self, k: usize) -> usize
        requires { k < 256 }
        ensures value { result ≡ 8 + record_size (edition_number self) * k }
        ensures upper_bound { result < 2 ^ 13 }
    {
        places::record_from(u8::from(self), k)
    }

    pub fn record_at(self, k: usize) -> usize
        requires { k < 256 }
        ensures value { result ≡ record_at (edition_number self) k }
        ensures upper_bound { result < 2 ^ 16 }
    {
        places::record_at(u8::from(self), k)
    }
}
