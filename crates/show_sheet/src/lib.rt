// A sheet for a person: the table of jobs, the worst jobs of their active periods, what could not be told, and the verdict, in
// words. What they say is what `show_cells`, `worst_jobs` and `verdicts` promise.
#![tactic(auto)]

mod names;
mod notes;
mod table;

pub use names::Names;
use paper::Table;
use std::fmt;

// The lists that the jobs take their regions from.
#[derive(Clone, Copy)]
pub struct Regions<'a> {
    pub own: &'a [u32],
    pub catalogue: &'a [u32],
}

pub fn put_sheet<'a, W: fmt::Write>(
    out: &mut W,
    t: Table,
    regions: Regions<'a>,
    names: Names<'a>,
) -> fmt::Result {
    let f = show_facts::facts_of(t, regions.own, regions.catalogue);
    table::put_table(out, &f, regions, names)?;
    writeln!(out)?;
    notes::put_notes(out, &f)
}
