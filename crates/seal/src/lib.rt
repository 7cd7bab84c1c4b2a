// The seal of a file: made, asked and put. Callers know it by seal_of alone.
#![tactic(auto)]

mod table;

ghost use Rattle.std.specs.Prelude.{◌≡◌, ◌+◌, ◌<◌, ◌≤◌, length};
ghost use Rattle.paper.specs.Seal.{seal_byte, seal_of};
ghost use Rattle.paper.specs.File.{sealed, put_seal};
ghost use Rattle.seal.specs.Tabled.{moved};

use layout::SEAL_BITS;
use table::TABLE;

#[tactic(auto, using(crate::proofs::Tabled::entry_of))]
fn entry_at(k: u8) -> u16
    ensures { result ≡ moved k }
{
    TABLE[k as usize]
}

// The lower byte moves up, and the upper one with b says which entry is added. In this order a byte takes half an instruction
// less than the other way round (docs/SPEED.md).
#[tactic(auto, using(crate::proofs::Tabled::byte_adds))]
fn seal_byte(c: u16, b: u8) -> u16
    ensures { result ≡ seal_byte c b }
{
    let up = (c % 256) * 256;
    up ^ entry_at(((c / 256) as u8) ^ b)
}

// The seal of the bytes s.
#[tactic(auto, using(crate::proofs::Steps::steps))]
pub fn seal_of(s: &[u8]) -> u16
    ensures { result ≡ seal_of s.now }
{
    let mut c = 0xffff;
    for b in s {
        c = seal_byte(c, *b);
    }
    c
}

// Do the two bytes from `end` on hold the seal of the bytes before them?
#[tactic(auto, unfolding(paper::specs::File::sealed))]
pub fn is_sealed(f: &[u8], end: usize) -> bool
    requires { (end + 2 ≤ length f.now) × (end < 65536) }
    ensures { result ≡ sealed f.now end }
{
    bits::get(f, end * 8, SEAL_BITS) == u64::from(seal_of(&f[..end]))
}

// Puts the seal of the bytes before `end` into the two bytes from `end` on.
#[tactic(auto, unfolding(paper::specs::File::put_seal))]
pub fn put_seal(f: &mut [u8], end: usize)
    requires { (end + 2 ≤ length f.old) × (end < 65536) }
    ensures { f.new ≡ put_seal f.old end }
{
    let c = seal_of(&f[..end]);
    bits::put(f, end * 8, SEAL_BITS, u64::from(c));
}
