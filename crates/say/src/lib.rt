// The pieces of an answer's line, each a value that prints itself.
#![tactic(auto)]

ghost use Rattle.std.specs.Prelude.{◌≡◌, nat_abs};

use paper::Refusal;
use std::fmt;

// `refused N`, and for 16 the record.
#[derive(Clone, Copy)]
pub struct Refused(pub Refusal);

impl fmt::Display for Refused {
    fn fmt<W: fmt::Write>(&self, f: &mut fmt::Formatter<W>) -> fmt::Result {
        write!(f, "refused {}", numbers::number_of(self.0))?;
        match self.0 {
            Refusal::ToleranceBelowZero(record) => write!(f, " record {record}"),
            _ => Ok(()),
        }
    }
}

// Each behind a space.
#[derive(Clone, Copy)]
pub struct Spaced<'a, T>(pub &'a [T]);

impl<'a, T: fmt::Display> fmt::Display for Spaced<'a, T> {
    fn fmt<W: fmt::Write>(&self, f: &mut fmt::Formatter<W>) -> fmt::Result {
        for x in self.0 {
            write!(f, " {x}")?;
        }
        Ok(())
    }
}

// How many bytes are turned into digits at once. A call for each byte takes five times as long.
const PIECE: usize = 64;

// Bytes in one hexadecimal run behind a space, nothing where there are none.
#[derive(Clone, Copy)]
pub struct Hexadecimal<'a>(pub &'a [u8]);

impl<'a> fmt::Display for Hexadecimal<'a> {
    fn fmt<W: fmt::Write>(&self, f: &mut fmt::Formatter<W>) -> fmt::Result {
        if !self.0.is_empty() {
            f.write_str(" ")?;
        }
        for piece in self.0.chunks(PIECE) {
            put_piece(f, piece)?;
        }
        Ok(())
    }
}

// A piece, at most as long as one may be.
fn put_piece<W: fmt::Write>(f: &mut fmt::Formatter<W>, piece: &[u8]) -> fmt::Result {
    let mut room = [0; 2 * PIECE];
    let digits = &mut room[..2 * piece.len().min(PIECE)];
    hex::encode_to_slice(piece, digits).map_err(|_| fmt::Error)?;
    f.write_str(str::from_utf8(digits).map_err(|_| fmt::Error)?)
}

// Bytes as they can be shown, since a list of names may hold anything.
#[derive(Clone, Copy)]
pub struct Readable<'a>(pub &'a [u8]);

impl<'a> fmt::Display for Readable<'a> {
    fn fmt<W: fmt::Write>(&self, f: &mut fmt::Formatter<W>) -> fmt::Result {
        for b in self.0 {
            f.write_char(shown(*b))?;
        }
        Ok(())
    }
}

fn shown(b: u8) -> char {
    match b {
        b' '..=b'~' => b as char,
        _ => '?',
    }
}

// The absolute value.
pub fn size_of(x: i64) -> u64
    ensures { result ≡ nat_abs x }
{
    x.unsigned_abs()
}
