// Kinds 1, 2 and 14: reading and writing a file.
#![tactic(auto)]

use paper::{MOST_TASKS, Record, Source, Table};
use request::{Body, FILL, FILL_WORD};
use say::{Hexadecimal, Refused, Spaced};
use std::fmt;

fn source_bit(source: Source) -> u32 {
    match source {
        Source::Own => 0,
        Source::Catalogue => 1,
    }
}

fn numbers_of(r: &Record) -> [u32; 10] {
    [
        r.cost,
        r.period,
        r.deadline,
        r.priority,
        r.threshold,
        source_bit(r.source),
        r.first,
        r.count,
        r.name,
        r.jitter,
    ]
}

fn put_table<W: fmt::Write>(out: &mut W, t: &Table) -> fmt::Result {
    write!(out, "table {}", t.n)?;
    for r in &t.records[..t.n.min(MOST_TASKS)] {
        write!(out, "{}", Spaced(&numbers_of(r)))?;
    }
    Ok(())
}

pub fn read<W: fmt::Write>(out: &mut W, mut body: Body<'_>, words: &mut [u32]) -> fmt::Result {
    let plate = body.plate();
    let room = fronts::fill(words, body.two() as usize, FILL_WORD);
    let lent = &mut words[..room];
    let catalogue = body.words();
    match reader::read(body.piece(), plate, catalogue.as_slice(), lent) {
        Ok(reading) => {
            put_table(out, &reading.table)?;
            write!(out, " edition {}", reading.edition)?;
        }
        Err(r) => write!(out, "{}", Refused(r))?,
    }
    write!(out, " out{}", Spaced(lent))
}

fn write_as<W: fmt::Write>(
    out: &mut W,
    edition: u8,
    mut body: Body<'_>,
    bytes: &mut [u8],
) -> fmt::Result {
    let plate = body.plate();
    let room = fronts::fill(bytes, body.two() as usize, FILL);
    let lent = &mut bytes[..room];
    let t = body.table();
    let own = body.words();
    let catalogue = body.words();
    match writer::write(
        edition,
        t,
        plate,
        own.as_slice(),
        catalogue.as_slice(),
        lent,
    ) {
        Ok(length) => write!(out, "file {length}")?,
        Err(r) => write!(out, "{}", Refused(r))?,
    }
    write!(out, " out{}", Hexadecimal(lent))
}

// Kind 2 writes edition 1.
pub fn write<W: fmt::Write>(out: &mut W, body: Body<'_>, bytes: &mut [u8]) -> fmt::Result {
    write_as(out, 1, body, bytes)
}

// Kind 14 is told the edition.
pub fn write_edition<W: fmt::Write>(
    out: &mut W,
    mut body: Body<'_>,
    bytes: &mut [u8],
) -> fmt::Result {
    let edition = body.byte();
    write_as(out, edition, body, bytes)
}
