// Answers a stream of requests from standard input (docs/ASK.md): the calls of the core, and on one line each answer with
// the whole of the memory that was lent. Where standard input can't be read or standard output can't be written, it says so on
// standard error and stops.
#![tactic(auto)]

use intake::Unread;
use request::{Body, LONGEST_BODY};
use std::fmt::Write;
use std::io::Read;
use std::{fmt, io};
use text::Out;

// How much is lent to a call at most.
const MOST_LENT: usize = 65536;

// Why the program ends before its input does.
#[derive(Drop)]
enum Stop {
    // Standard input can't be read.
    Unread(io::Error),
    BadRequest,
    // Standard output can't be written, which has been said.
    Lost,
}

impl From<Unread> for Stop {
    fn from(unread: Unread) -> Self {
        Stop::Unread(unread.error)
    }
}

impl From<fmt::Error> for Stop {
    fn from(_error: fmt::Error) -> Self {
        Stop::Lost
    }
}

// Where requests come from and where answers go. What is lent to a call is a front of `words` or of `bytes`, as long as the request
// says.
#[derive(Drop)]
struct Session<'a, R, I> {
    input: I,
    out: Out<'a, R>,
    words: [u32; MOST_LENT],
    bytes: [u8; MOST_LENT],
}

impl<'a, R: Print + Eprint, I: Read> Session<'a, R, I> {
    fn respond_all(&mut self) -> Result<(), Stop> {
        // A number of requests that no run uses up.
        for _ in 0..u64::MAX {
            if !self.respond_next()? {
                break;
            }
        }
        Ok(())
    }

    // Says whether there was a request.
    fn respond_next(&mut self) -> Result<bool, Stop> {
        let mut head = [0u8; 3];
        let got = intake::read_whole(&mut self.input, &mut head)?;
        if got == 0 {
            return Ok(false);
        }
        let [kind, high, low] = head;
        let length = u16::from_be_bytes([high, low]) as usize;
        if got < head.len() || request::longest_body(kind) < length {
            return Err(Stop::BadRequest);
        }
        let mut body = [0u8; LONGEST_BODY];
        self.respond(kind, &mut body[..length])?;
        Ok(true)
    }

    // Reads a body of the length that is lent, and answers the request.
    fn respond(&mut self, kind: u8, body: &mut [u8]) -> Result<(), Stop> {
        let got = intake::read_whole(&mut self.input, body)?;
        if got < body.len() || !request::is_whole(kind, body) {
            return Err(Stop::BadRequest);
        }
        self.answer(kind, Body::new(body))?;
        writeln!(self.out)?;
        self.out.flush()?;
        Ok(())
    }

    // The answer to a request that is whole, by its kind as the protocol numbers it.
    fn answer(&mut self, kind: u8, body: Body<'_>) -> fmt::Result {
        let out = &mut self.out;
        match kind {
            1 => ask_files::read(out, body, &mut self.words),
            2 => ask_files::write(out, body, &mut self.bytes),
            3 => ask_times::response_times(out, body),
            4 => ask_times::tolerances(out, body),
            5 => ask_times::lengths(out, body),
            6 => ask_times::region_check(out, body),
            7 => ask_rows::first(out, body, &mut self.bytes),
            8 => ask_rows::next(out, body, &mut self.bytes),
            9 => ask_parts::record(out, body),
            10 => ask_parts::regions(out, body),
            11 => ask_parts::name(out, body),
            12 => ask_parts::last(out, body),
            13 => ask_points::points(out, body),
            _ => ask_files::write_edition(out, body, &mut self.bytes),
        }
    }
}

fn main(rt: HostRuntime) {
    let mut session = Session {
        input: rt.stdin(),
        out: Out::new(&rt),
        words: [0; MOST_LENT],
        bytes: [0; MOST_LENT],
    };
    match session.respond_all() {
        Err(Stop::Unread(error)) => text::fail(&rt, "standard input", error),
        Err(Stop::BadRequest) => {
            let _ = writeln!(session.out, "bad request");
            let _ = session.out.flush();
        }
        Err(Stop::Lost) | Ok(()) => {}
    }
}
