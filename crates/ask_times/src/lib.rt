// Kinds 3 to 6: response times, tolerances, lengths and the region check.
#![tactic(auto)]

use paper::{MOST_TASKS, Refusal, Response};
use request::Body;
use say::{Refused, Spaced};
use std::fmt;

fn put_responses<W: fmt::Write>(out: &mut W, responses: &[Response]) -> fmt::Result {
    write!(out, "times")?;
    for response in responses {
        match response.time {
            Some(time) => write!(out, " {time}")?,
            None => write!(out, " beyond")?,
        }
    }
    write!(out, " jobs")?;
    for response in responses {
        match response.time {
            Some(_) => write!(out, " {}", response.job)?,
            None => write!(out, " -")?,
        }
    }
    Ok(())
}

pub fn response_times<W: fmt::Write>(out: &mut W, mut body: Body<'_>) -> fmt::Result {
    let t = body.table();
    match response::response_times(t) {
        Ok(responses) => put_responses(out, &responses[..t.n.min(MOST_TASKS)]),
        Err(r) => write!(out, "{}", Refused(r)),
    }
}

// A number for each of n tasks.
fn put_ticks<W: fmt::Write>(
    out: &mut W,
    name: &str,
    answer: Result<[i64; MOST_TASKS], Refusal>,
    n: usize,
) -> fmt::Result {
    match answer {
        Ok(ticks) => write!(out, "{name}{}", Spaced(&ticks[..n.min(MOST_TASKS)])),
        Err(r) => write!(out, "{}", Refused(r)),
    }
}

pub fn tolerances<W: fmt::Write>(out: &mut W, mut body: Body<'_>) -> fmt::Result {
    let t = body.table();
    put_ticks(out, "tolerances", lengths::tolerances(t), t.n)
}

pub fn lengths<W: fmt::Write>(out: &mut W, mut body: Body<'_>) -> fmt::Result {
    let t = body.table();
    put_ticks(out, "lengths", lengths::lengths(t), t.n)
}

pub fn region_check<W: fmt::Write>(out: &mut W, mut body: Body<'_>) -> fmt::Result {
    let t = body.table();
    let own = body.words();
    let catalogue = body.words();
    match lengths::region_check(t, own.as_slice(), catalogue.as_slice()) {
        Ok(true) => write!(out, "fits"),
        Ok(false) => write!(out, "unfit"),
        Err(r) => write!(out, "{}", Refused(r)),
    }
}
