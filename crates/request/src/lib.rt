// The pieces of a request's body, one after the other, and a plate, big-endian. Past the end every byte reads as 0: a request is
// whole exactly when its last piece ends where the body does, since no piece that lies past the end can.
#![tactic(auto)]

ghost use Rattle.std.specs.Prelude.{◌≤◌, ◌<◌, IsTrue, length};

use paper::{Cabinet, Line, MOST_TASKS, Plate, Record, Source, Table};

// A plate: cabinet 24, line 16. A program that reads a plate and a file reads no more than the room for them: the longest
// file is shorter, so that bytes past it change nothing.
pub const PLATE_BYTES: usize = 5;

pub const PLATE_AND_FILE: usize = 512;

// The longest body of a request, and the most words that stand in one.
pub const LONGEST_BODY: usize = 4096;

pub const MOST_BODY_WORDS: usize = LONGEST_BODY / 4;

// The longest body of a request of a kind: one number for all of them; a kind that is to have another gets it here. `ask` has
// room for LONGEST_BODY bytes and would cut a longer body off, so no kind's limit lies above that. The promise says the number itself.
pub fn longest_body(_kind: u8) -> usize
    ensures { result ≤ 4096 }
{
    LONGEST_BODY
}

// What every byte of an output holds before it is lent.
pub const FILL: u8 = 0xA5;

pub const FILL_WORD: u32 = 0xA5A5_A5A5;

// The plate and the file behind it, or none where there are fewer bytes than a plate has.
pub fn plate_and_file(input: &[u8]) -> Option<(Plate, &[u8])> {
    if let [a, b, c, d, e, file @ ..] = input {
        let cabinet = Cabinet(u32::from_be_bytes([0, *a, *b, *c]));
        let line = Line(u16::from_be_bytes([*d, *e]));
        return Some((Plate { cabinet, line }, file));
    }
    None
}

// How long a record is in a body, and a table: n, then always as many records as a table may hold.
pub const RECORD_BYTES: usize = 10 * 4;

pub const TABLE_BYTES: usize = 1 + RECORD_BYTES * MOST_TASKS;

// The words of a piece.
#[derive(Clone, Copy)]
pub struct Words {
    list: [u32; MOST_BODY_WORDS],
    count: usize,
    ghost inside: { count ≤ 1024 },
}

impl Words {
    ghost use Rattle.std.specs.Prelude.{◌≤◌, length};

    pub fn as_slice(&self) -> &[u32]
        ensures { length result.now ≤ 1024 }
    {
        &self.list[..self.count]
    }
}

// A body, and the place up to which it was read.
#[derive(Clone, Copy)]
pub struct Body<'a> {
    bytes: &'a [u8],
    at: usize,
}

impl<'a> Body<'a> {
    pub fn new(bytes: &'a [u8]) -> Self {
        Body { bytes, at: 0 }
    }

    fn skip(&mut self, count: usize)
        ensures { self.old.at ≤ self.new.at }
    {
        self.at = self.at.saturating_add(count);
    }

    pub fn byte(&mut self) -> u8 {
        let byte = self.bytes.get(self.at).copied().unwrap_or(0);
        self.skip(1);
        byte
    }

    pub fn two(&mut self) -> u16 {
        u16::from_be_bytes([self.byte(), self.byte()])
    }

    // At once where there are as many, which is quicker.
    fn four(&mut self) -> u32 {
        if let Some([a, b, c, d, ..]) = self.bytes.get(self.at..) {
            self.skip(4);
            return u32::from_be_bytes([*a, *b, *c, *d]);
        }
        u32::from_be_bytes([self.byte(), self.byte(), self.byte(), self.byte()])
    }

    // A cabinet in four bytes and a line.
    pub fn plate(&mut self) -> Plate {
        Plate {
            cabinet: Cabinet(self.four()),
            line: Line(self.two()),
        }
    }

    // A piece of bytes: two say how many. None where the body ends before the piece does.
    pub fn piece(&mut self) -> &'a [u8] {
        let count = self.two() as usize;
        let start = self.at;
        self.skip(count);
        let end = self.at;
        if end <= self.bytes.len() {
            return &self.bytes[start..end];
        }
        &[]
    }

    // A piece of words: two bytes say how many, four bytes each. More than a body has room for are left out. Compiled in place it
    // would take room on the stack of whoever takes words or none.
    #[inline(never)]
    pub fn words(&mut self) -> Words {
        let count = self.two() as usize;
        let kept = count.min(MOST_BODY_WORDS);
        let mut words = Words {
            list: [0; MOST_BODY_WORDS],
            count: kept,
        };
        for k in 0..kept {
            words.list[k] = self.four();
        }
        self.skip((count - kept) * 4);
        words
    }

    // The source word: 0 own, else catalogue.
    fn source(&mut self) -> Source {
        match self.four() {
            0 => Source::Own,
            _ => Source::Catalogue,
        }
    }

    fn record(&mut self) -> Record {
        Record {
            cost: self.four(),
            period: self.four(),
            deadline: self.four(),
            priority: self.four(),
            threshold: self.four(),
            source: self.source(),
            first: self.four(),
            count: self.four(),
            name: self.four(),
            jitter: self.four(),
        }
    }

    pub fn table(&mut self) -> Table {
        let n = self.byte() as usize;
        let first = self.record();
        let mut records = [first; MOST_TASKS];
        for k in 1..MOST_TASKS {
            records[k] = self.record();
        }
        Table { n, records }
    }

    fn skip_piece(&mut self) {
        let count = self.two() as usize;
        self.skip(count);
    }

    fn skip_words(&mut self) {
        let count = self.two() as usize;
        self.skip(count * 4);
    }

    fn skip_words_twice(&mut self) {
        self.skip_words();
        self.skip_words();
    }
}

// No body is as long: two bytes give its length.
const TOO_LONG: usize = 65536;

// A request of a known kind, with a body that is just as long as its pieces. A kind is a byte of the protocol (docs/ASK.md) and no
// enum: any may come in.
pub fn is_whole(kind: u8, bytes: &[u8]) -> bool
    ensures { IsTrue result → length bytes.now < 65536 }
{
    let mut body = Body::new(bytes);
    match kind {
        1 | 9 => {
            body.skip(8);
            body.skip_words();
            body.skip_piece();
        }
        2 => {
            body.skip(8 + TABLE_BYTES);
            body.skip_words_twice();
        }
        3 | 4 | 5 => body.skip(TABLE_BYTES),
        6 | 13 => {
            body.skip(TABLE_BYTES);
            body.skip_words_twice();
        }
        7 => body.skip(2 + TABLE_BYTES),
        8 => {
            body.skip(2 + TABLE_BYTES);
            body.skip_piece();
        }
        10 | 12 => {
            body.skip(2 + TABLE_BYTES);
            body.skip_words_twice();
        }
        11 => {
            body.skip(2);
            body.skip_piece();
            body.skip_piece();
        }
        14 => {
            body.skip(1 + 8 + TABLE_BYTES);
            body.skip_words_twice();
        }
        _ => return false,
    }
    body.at == bytes.len() && bytes.len() < TOO_LONG
}
