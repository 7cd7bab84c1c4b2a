// Reading as much of an input as there is room for, and whether it was whole: a short count alone doesn't tell an input that ends
// from a read that fails.
#![tactic(auto)]

ghost use Rattle.std.specs.Prelude.{IfErr, IfOk};
ghost use Rattle.io.specs.Counts.{IsPrefixLen};

use std::io;
use std::io::Read;

// A read failed, and the error says why. What was read until then is there: so many bytes stand at the front of the buffer.
#[derive(Clone, Copy)]
pub struct Unread {
    pub bytes: usize,
    pub error: io::Error,
}

// Reads until the buffer is full, the input ends or a read fails, and answers how many bytes stand at the front of the buffer. A
// read that a signal cuts short before a byte came counts as failed.
pub fn read_whole<I: Read>(input: &mut I, buf: &mut [u8]) -> Result<usize, Unread>
    ensures whole { IfOk result (λ bytes. IsPrefixLen bytes buf.new) }
    ensures unread { IfErr result (λ unread. IsPrefixLen unread.bytes buf.new) }
{
    let mut bytes: usize = 0;
    // No `for`: a read may bring any part of what is left.
    while bytes < buf.len() {
        match input.read(&mut buf[bytes..]) {
            Err(error) => return Err(Unread { bytes, error }),
            Ok(0) => break,
            Ok(more) => bytes += more,
        }
    }
    Ok(bytes)
}
