// Kinds 7 and 8: the list of assignments.
#![tactic(auto)]

use paper::{Refusal, Step};
use request::{Body, FILL};
use say::{Refused, Spaced};
use std::fmt;
use std::fmt::Write;
use text::Out;

// The answer, and all of the row that was lent.
fn put_answer<R: Print + Eprint>(
    out: &mut Out<R>,
    answer: Result<Step, Refusal>,
    row: &[u8],
) -> fmt::Result {
    match answer {
        Ok(Step::Row) => write!(out, "row")?,
        Ok(Step::End) => write!(out, "end")?,
        Err(r) => write!(out, "{}", Refused(r))?,
    }
    write!(out, " out{}", Spaced(row))
}

pub fn first<R: Print + Eprint>(
    out: &mut Out<R>,
    mut body: Body<'_>,
    bytes: &mut [u8],
) -> fmt::Result {
    let room = fronts::fill(bytes, body.two() as usize, FILL);
    let row = &mut bytes[..room];
    let answer = listing::first_row(body.table(), row);
    put_answer(out, answer, row)
}

pub fn next<R: Print + Eprint>(
    out: &mut Out<R>,
    mut body: Body<'_>,
    bytes: &mut [u8],
) -> fmt::Result {
    let room = fronts::fill(bytes, body.two() as usize, FILL);
    let row = &mut bytes[..room];
    let t = body.table();
    let answer = listing::next_row(t, body.piece(), row);
    put_answer(out, answer, row)
}
