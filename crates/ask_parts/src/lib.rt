// Kinds 9 to 12: the parts handed back.
#![tactic(auto)]

use paper::Refusal;
use request::Body;
use say::{Hexadecimal, Refused, Spaced};
use std::fmt;
use std::fmt::Write;
use text::Out;

// A part, or a refusal.
fn put<R: Print + Eprint, D: fmt::Display + Drop>(
    out: &mut Out<R>,
    name: &str,
    part: Result<D, Refusal>,
) -> fmt::Result {
    match part {
        Ok(part) => write!(out, "{name}{part}"),
        Err(r) => write!(out, "{}", Refused(r)),
    }
}

pub fn record<R: Print + Eprint>(out: &mut Out<R>, mut body: Body<'_>) -> fmt::Result {
    let plate = body.plate();
    let number = body.two() as usize;
    let catalogue = body.words();
    let part = parts::record(body.piece(), plate, catalogue.as_slice(), number);
    put(out, "record", part.map(Hexadecimal))
}

pub fn regions<R: Print + Eprint>(out: &mut Out<R>, mut body: Body<'_>) -> fmt::Result {
    let number = body.two() as usize;
    let t = body.table();
    let own = body.words();
    let catalogue = body.words();
    let part = parts::regions(t, own.as_slice(), catalogue.as_slice(), number);
    put(out, "regions", part.map(Spaced))
}

pub fn last<R: Print + Eprint>(out: &mut Out<R>, mut body: Body<'_>) -> fmt::Result {
    let number = body.two() as usize;
    let t = body.table();
    let own = body.words();
    let catalogue = body.words();
    let part = last_part::last_region(t, own.as_slice(), catalogue.as_slice(), number);
    put(out, "last", part.map(Spaced))
}

pub fn name<R: Print + Eprint>(out: &mut Out<R>, mut body: Body<'_>) -> fmt::Result {
    let number = body.two() as u32;
    let cabinet = body.piece();
    let house = body.piece();
    let part = parts::name(number, cabinet, house);
    put(out, "name", part.map(Hexadecimal))
}
