// Kind 13: fixed preemption points.
#![tactic(auto)]

use paper::{MOST_TASKS, Shown};
use request::Body;
use say::Refused;
use std::fmt;

fn put_points<W: fmt::Write>(out: &mut W, verdicts: &[Shown]) -> fmt::Result {
    write!(out, "points")?;
    for verdict in verdicts {
        match verdict {
            Shown::Passes => write!(out, " passes")?,
            Shown::NotShown => write!(out, " unshown")?,
        }
    }
    Ok(())
}

pub fn points<W: fmt::Write>(out: &mut W, mut body: Body<'_>) -> fmt::Result {
    let t = body.table();
    let own = body.words();
    let catalogue = body.words();
    match points::point_check(t, own.as_slice(), catalogue.as_slice()) {
        Ok(verdicts) => put_points(out, &verdicts[..t.n.min(MOST_TASKS)]),
        Err(r) => write!(out, "{}", Refused(r)),
    }
}
