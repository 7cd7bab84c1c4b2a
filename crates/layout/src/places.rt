// The places by the number of an edition. They take any number, and what isn't 2 is laid out as 1: docs/changes/09-edition-2.md names
// them so. `Edition` and `Shape` have them as methods.
ghost use Rattle.std.specs.Prelude.{◌≡◌, ◌+◌, ◌*◌, ◌<◌, ◌≤◌, ◌^◌};
ghost use Rattle.paper.specs.File.{record_size, record_at, word_at, file_length};

use crate::{SEAL_BYTES, WORD_BITS};

// The head and each record, in bytes; the head in bits.
const HEAD_BYTES: usize = 8;

const HEAD_BITS: usize = 64;

const RECORD_BYTES_ONE: usize = 12;

const RECORD_BYTES_TWO: usize = 15;

// How many bytes each record has in this edition,
pub fn record_size(edition: u8) -> usize
    ensures value { result ≡ record_size edition }
    ensures lower_bound { (12 ≤ result) × (result ≤ 15) }
{
    if edition == 2 {
        RECORD_BYTES_TWO
    } else {
        RECORD_BYTES_ONE
    }
}

// and k records together.
fn records_size(edition: u8, k: usize) -> usize
    requires { k < 256 }
    ensures value { result ≡ record_size edition * k }
    ensures upper_bound { result < 2 ^ 12 }
{
    record_size(edition) * k
}

// The byte that record k + 1 begins at, and the bit.
pub fn record_from(edition: u8, k: usize) -> usize
    requires { k < 256 }
    ensures value { result ≡ 8 + record_size edition * k }
    ensures upper_bound { result < 2 ^ 13 }
{
    HEAD_BYTES + records_size(edition, k)
}

pub fn record_at(edition: u8, k: usize) -> usize
    requires { k < 256 }
    ensures value { result ≡ record_at edition k }
    ensures upper_bound { result < 2 ^ 16 }
{
    HEAD_BITS + 8 * records_size(edition, k)
}

// The bit that region word k, counted from 0, begins at behind n records.
pub fn word_at(edition: u8, n: usize, k: usize) -> usize
    requires { (n < 256) × (k < 256) }
    ensures value { result ≡ word_at edition n k }
    ensures upper_bound { result < 2 ^ 17 }
{
    record_at(edition, n) + WORD_BITS * k
}

// The length that the edition, n and m give.
pub fn file_length(edition: u8, n: usize, m: usize) -> usize
    requires { (n < 256) × (m < 256) }
    ensures { result ≡ file_length edition n m }
{
    record_from(edition, n) + (WORD_BITS * m).div_ceil(8) + SEAL_BYTES
}
