// A catalogue as a person writes it: region lengths in decimal, one to a line or with blanks between them.
#![tactic(auto)]

ghost use Rattle.std.specs.Prelude.{◌≤◌};

use std::fmt;

// The most words that the records of a file can name: first and count are at most 127.
pub const MOST_NAMED: usize = 254;

#[derive(Clone, Copy)]
pub struct Catalogue {
    list: [u32; MOST_NAMED],
    words: usize,
    // There are more numbers than a file can name.
    pub more: bool,
    ghost inside: { words ≤ 254 },
}

// The line, counted from 1, with the first thing that is no number below 1,000,000,000.
#[derive(Clone, Copy, Debug, PartialEq, Eq)]
pub struct WrongLine(pub usize);

impl fmt::Display for WrongLine {
    fn fmt<W: fmt::Write>(&self, f: &mut fmt::Formatter<W>) -> fmt::Result {
        write!(
            f,
            "line {} holds something that is no number below 1,000,000,000",
            self.0
        )
    }
}

impl Catalogue {
    ghost use Rattle.std.specs.Prelude.{◌≤◌, length};

    pub fn new() -> Self {
        Catalogue {
            list: [0; MOST_NAMED],
            words: 0,
            more: false,
        }
    }

    // The numbers of a text.
    pub fn parse(text: &[u8]) -> Result<Self, WrongLine> {
        let mut catalogue = Catalogue::new();
        for (k, line) in text.split(|b| *b == b'\n').enumerate() {
            for word in line.split(|b| is_blank(*b)) {
                if !word.is_empty() {
                    catalogue.push(number_of(word).ok_or(WrongLine(k.saturating_add(1)))?);
                }
            }
        }
        Ok(catalogue)
    }

    // Where there is room.
    fn push(&mut self, word: u32) {
        if self.words < MOST_NAMED {
            self.list[self.words] = word;
            self.words += 1;
        } else {
            self.more = true;
        }
    }

    pub fn as_slice(&self) -> &[u32]
        ensures { length result.now ≤ 254 }
    {
        &self.list[..self.words]
    }
}

fn is_blank(b: u8) -> bool {
    matches!(b, b' ' | b'\t' | b'\r')
}

fn number_of(word: &[u8]) -> Option<u32> {
    let mut value: u32 = 0;
    for b in word {
        if !b.is_ascii_digit() || 100_000_000 <= value {
            return None;
        }
        value = value * 10 + u32::from(*b - b'0');
    }
    Some(value)
}
