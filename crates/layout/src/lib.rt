// Where things stand in a file, and what its head says.
#![tactic(auto)]

mod edition;
mod places;
mod shape;

ghost use Rattle.std.specs.Prelude.{◌≡◌, ◌<◌, ◌≤◌, length};
ghost use Rattle.layout.specs.Editions.{edition_for};
ghost use Rattle.paper.specs.File.{is_edition, edition_in, cabinet_in, line_in, tasks_in, words_in};

pub use edition::Edition;
use paper::{Cabinet, Line, Plate, Refusal};
pub use places::{file_length, record_at, record_from, record_size, word_at};
pub use shape::Shape;

// The shortest file.
pub const SHORTEST: usize = 22;

// Each region word and the seal, in bits, and the seal in bytes.
pub const WORD_BITS: usize = 20;

pub const SEAL_BITS: usize = 16;

pub const SEAL_BYTES: usize = 2;

// What a record uses of its bits in both editions. Behind them stand in edition 1 six spare bits, in edition 2 the jitter and ten.
pub const RECORD_USED: usize = 90;

pub const SPARE_ONE: usize = 6;

pub const JITTER_BITS: usize = 20;

pub const SPARE_TWO: usize = 10;

pub fn is_edition(edition: u8) -> bool
    ensures { result ≡ is_edition edition }
{
    Edition::try_from(edition).is_ok()
}

// The number that the file gives for its edition,
pub fn edition_of(f: &[u8]) -> u8
    requires { 8 ≤ length f.now }
    ensures { result ≡ edition_in f.now }
{
    bits::get(f, 0, 4) as u8
}

// and the edition, or 2 where the number is none's.
pub fn known_edition(f: &[u8]) -> Result<Edition, Refusal>
    requires { 8 ≤ length f.now }
    ensures { result ≡ edition_for (edition_in f.now) }
{
    Edition::try_from(edition_of(f))
}

// The plate that the file was made for.
pub fn plate_of(f: &[u8]) -> Plate
    requires { 8 ≤ length f.now }
    ensures cabinet { result.cabinet.0 ≡ cabinet_in f.now }
    ensures line { result.line.0 ≡ line_in f.now }
{
    Plate {
        cabinet: Cabinet(bits::get(f, 8, 24) as u32),
        line: Line(bits::get(f, 32, 16) as u16),
    }
}

// n
pub fn task_count(f: &[u8]) -> usize
    requires { 8 ≤ length f.now }
    ensures value { result ≡ tasks_in f.now }
    ensures upper_bound { result < 256 }
{
    bits::get(f, 48, 8) as usize
}

// m
pub fn word_count(f: &[u8]) -> usize
    requires { 8 ≤ length f.now }
    ensures value { result ≡ words_in f.now }
    ensures upper_bound { result < 256 }
{
    bits::get(f, 56, 8) as usize
}
