// Text for standard output, which is written out in large pieces: twenty to seventy times quicker than a call for each line.
#![tactic(auto)]

ghost use Rattle.std.specs.Prelude.{◌+◌, ◌≡◌, ◌≤◌, ◌<◌, ◌↔◌, IsOk, IsTrue, OnErr, OnOk, eqb, length};
ghost use Rattle.text.specs.Places.{Put, Written};
ghost use Rattle.text.specs.declared.TheConstants.{SIZE};

use std::fmt;
use std::io::{Error, Write};

// How many places the buffer has.
const SIZE: usize = 65536;

// No error has more words.
const MOST_TOLD: usize = 256;

// Where text goes, by `write!`. The last place of the buffer stays free, so that the buffer's end, as a place, can say that a
// write failed. From there nothing is put and nothing is written any more: no text ever follows a piece that was lost.
#[derive(Drop)]
pub struct Out<'a, R> {
    rt: &'a R,
    buf: [u8; SIZE],
    // The place after what was put.
    pub at: usize,
    pub ghost inside: { at ≤ SIZE },
}

impl<'a, R: Print + Eprint> Out<'a, R> {
    pub fn new(rt: &'a R) -> Self
        ensures { result.at ≡ 0 }
    {
        Out {
            rt,
            buf: [0; SIZE],
            at: 0,
        }
    }

    fn is_lost(&self) -> bool
        ensures { result ≡ eqb self.now.at SIZE }
    {
        self.at == SIZE
    }

    // Writes out what was put. Where that fails it says so on standard error, and the text is lost, now and from then on.
    pub fn flush(&mut self) -> fmt::Result
        ensures written { Written SIZE self.old.at self.new.at }
        ensures ok { OnOk result (self.new.at ≡ 0) }
        ensures err { OnErr result (self.new.at ≡ SIZE) }
    {
        if self.is_lost() {
            return Err(fmt::Error);
        }
        match self.rt.write_all(&self.buf[..self.at]) {
            Ok(()) => {
                self.at = 0;
                Ok(())
            }
            Err(error) => {
                self.at = SIZE;
                fail(self.rt, "standard output", error);
                Err(fmt::Error)
            }
        }
    }

    fn has_room(&self, n: usize) -> bool
        ensures { IsTrue result ↔ (self.now.at + n < SIZE) }
    {
        n < SIZE - self.at
    }

    // Puts text where there is room for it.
    fn put(&mut self, text: &[u8])
        requires { self.old.at + length text.now < SIZE }
        ensures place { Put SIZE self.old.at self.new.at }
        ensures count { self.new.at ≡ self.old.at + length text.now }
    {
        let end = self.at + text.len();
        self.buf[self.at..end].copy_from_slice(text);
        self.at = end;
    }

    // What has no room is put where the text before it was written out.
    #[cold]
    #[inline(never)]
    fn write_pieces(&mut self, text: &[u8]) -> fmt::Result
        ensures ok { OnOk result ((self.old.at < SIZE) × (self.new.at < SIZE)) }
        ensures err { OnErr result (self.new.at ≡ SIZE) }
    {
        if self.is_lost() {
            return Err(fmt::Error);
        }
        for piece in text.chunks(SIZE - 1) {
            if !self.has_room(piece.len()) {
                self.flush()?;
            }
            self.put(piece);
        }
        Ok(())
    }
}

impl<'a, R: Print + Eprint> fmt::Write for Out<'a, R> {
    // Nothing was lost before, and nothing is.
    ghost write_str_gives = { λ old _ new. (old.at < SIZE) × (new.at < SIZE) };

    fn write_str(&mut self, s: &str) -> fmt::Result
        ensures ok { IsOk result → (self.old.at < SIZE) × (self.new.at < SIZE) }
        ensures err { OnErr result (self.new.at ≡ SIZE) }
    {
        let text = s.as_bytes();
        if self.has_room(text.len()) {
            self.put(text);
            return Ok(());
        }
        self.write_pieces(text)
    }
}

// Says on a line of standard error what failed and why, in the system's words.
pub fn fail<R: Eprint>(rt: &R, what: &str, error: Error) {
    let mut told = [0u8; MOST_TOLD];
    let reason = words_of(error, &mut told);
    // Where this can't be written either, there is nobody left to tell.
    let _ = eprintln!(rt; "{what}: {reason}");
}

// The words of an error, without the system's number that is printed behind them.
fn words_of(error: Error, told: &mut [u8]) -> &str {
    let size = told.len();
    let mut rest = &mut *told;
    let _ = write!(rest, "{error}");
    let end = size.saturating_sub(rest.len());
    match str::from_utf8(&told[..end]) {
        Ok(all) => without_number(all),
        Err(_) => "",
    }
}

fn without_number(all: &str) -> &str {
    match all.split_once(" (os error ") {
        Some((words, _)) => words,
        None => all,
    }
}
