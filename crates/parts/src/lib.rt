// The parts handed back: a record, a task's regions, a name. Each is a part of what the caller lent, never a copy.
// Beside each call stand two that want less of it: its outcome alone, and the bare part, empty where the call is turned away.
#![tactic(auto)]

ghost use Rattle.std.specs.Prelude.{◌≡◌, cond, ◌&&◌, ◌+◌, ◌*◌, ◌≤◌, leb, length, IfOk};
ghost use Rattle.paper.specs.Regions.{list_of, in_cabinet_list, name_width, name_list, name_start, trimmed};
ghost use Rattle.paper.specs.Answers.{record_outcome, regions_outcome, name_outcome, outcome_of};
ghost use Rattle.parts.specs.Parts.{IsName, slice_of, AreRegions, IsRecord};

use paper::{Plate, Refusal, Source, Table};

// A name's entry, and the first name number that stands in the house list.
const NAME_BYTES: usize = 16;

const FIRST_OF_HOUSE: u32 = 64;

// The name. The list that a number stands in, and where its entry begins there.
fn name_list<'a>(number: u32, cabinet: &'a [u8], house: &'a [u8]) -> &'a [u8]
    ensures value { result ≡ cond (in_cabinet_list number) cabinet.entry house.entry }
    ensures result_value { result.now ≡ name_list number cabinet.now house.now }
{
    if number < FIRST_OF_HOUSE {
        cabinet
    } else {
        house
    }
}

fn name_start(number: u32) -> usize
    ensures value { result ≡ name_start number }
    ensures upper_bound { result ≤ 16 * number }
{
    if number < FIRST_OF_HOUSE {
        NAME_BYTES * number as usize
    } else {
        NAME_BYTES * (number - FIRST_OF_HOUSE) as usize
    }
}

// How many bytes of the entry at `at` stay without the trailing spaces. Looked for from the end, as few names have many there.
#[tactic(auto, using(crate::proofs::NameParts::name_ends))]
fn kept(s: &[u8], at: usize) -> usize
    requires { at + name_width ≤ length s.now }
    ensures value { result ≡ trimmed s.now at name_width }
    ensures upper_bound { result ≤ name_width }
{
    for gone in 0..NAME_BYTES {
        let last = NAME_BYTES - 1 - gone;
        if s[at + last] != b' ' {
            return last + 1;
        }
    }
    0
}

// Where the entry of a name that is there begins in its list.
fn name_entry(number: u32, cabinet: &[u8], house: &[u8]) -> Result<usize, Refusal>
    ensures outcome { outcome_of result ≡ name_outcome number cabinet.now house.now }
    ensures begins { IfOk result (λ at. at ≡ name_start number) }
    ensures inside { IfOk result (λ at. at + name_width ≤ length (name_list number cabinet.now house.now)) }
{
    if paper::MOST_NAME < number {
        return Err(Refusal::OutOfRange);
    }
    let at = name_start(number);
    if name_list(number, cabinet, house).len() < at + NAME_BYTES {
        return Err(Refusal::NoSuchPart);
    }
    Ok(at)
}

pub fn name<'a>(number: u32, cabinet: &'a [u8], house: &'a [u8]) -> Result<&'a [u8], Refusal>
    ensures outcome { outcome_of result ≡ name_outcome number cabinet.now house.now }
    ensures part { IfOk result (IsName number cabinet.entry house.entry) }
{
    let at = name_entry(number, cabinet, house)?;
    let list = name_list(number, cabinet, house);
    Ok(&list[at..at + kept(list, at)])
}

pub fn name_outcome(number: u32, cabinet: &[u8], house: &[u8]) -> Result<(), Refusal>
    ensures { result ≡ name_outcome number cabinet.now house.now }
{
    name_entry(number, cabinet, house).map(|_| ())
}

pub fn name_bytes<'a>(number: u32, cabinet: &'a [u8], house: &'a [u8]) -> &'a [u8]
    ensures { IsName number cabinet.entry house.entry result }
{
    name(number, cabinet, house).unwrap_or(&name_list(number, cabinet, house)[..0])
}

// The regions. The list that a record's source names.
fn source_list<'a>(source: Source, own: &'a [u32], catalogue: &'a [u32]) -> &'a [u32]
    ensures value { result ≡ slice_of source own.entry catalogue.entry }
    ensures result_value { result.now ≡ list_of source own.now catalogue.now }
{
    match source {
        Source::Own => own,
        Source::Catalogue => catalogue,
    }
}

// Records are numbered from 1.
fn is_record(number: usize, n: usize) -> bool
    ensures { result ≡ (leb 1 number && leb number n) }
{
    (1..=n).contains(&number)
}

#[tactic(auto, using(crate::proofs::RegionParts::in_list))]
pub fn regions<'a>(
    t: Table,
    own: &'a [u32],
    catalogue: &'a [u32],
    number: usize,
) -> Result<&'a [u32], Refusal>
    ensures outcome { outcome_of result ≡ regions_outcome t own.now catalogue.now number }
    ensures part { IfOk result (AreRegions t own.entry catalogue.entry number) }
{
    if !checks::counts_in_range(t.n, own.len()) {
        return Err(Refusal::WrongCounts);
    }
    if !is_record(number, t.n) {
        return Err(Refusal::NoSuchPart);
    }
    let r = t.records[number - 1];
    if !regions::record_regions_hold(own, catalogue, r) {
        return Err(Refusal::BadRegions);
    }
    let list = source_list(r.source, own, catalogue);
    let from = r.first as usize;
    Ok(&list[from..from + r.count as usize])
}

pub fn regions_outcome(
    t: Table,
    own: &[u32],
    catalogue: &[u32],
    number: usize,
) -> Result<(), Refusal>
    ensures { result ≡ regions_outcome t own.now catalogue.now number }
{
    regions(t, own, catalogue, number).map(|_| ())
}

pub fn regions_words<'a>(t: Table, own: &'a [u32], catalogue: &'a [u32], number: usize) -> &'a [u32]
    ensures { AreRegions t own.entry catalogue.entry number result }
{
    regions(t, own, catalogue, number).unwrap_or(&own[..0])
}

// The record. The file is read first, and only then is the number asked.
pub fn record<'a>(
    file: &'a [u8],
    plate: Plate,
    catalogue: &[u32],
    number: usize,
) -> Result<&'a [u8], Refusal>
    ensures outcome { outcome_of result ≡ record_outcome file.now plate.cabinet.0 plate.line.0 catalogue.now number }
    ensures part { IfOk result (IsRecord file.entry plate.cabinet.0 plate.line.0 catalogue.now number) }
{
    let shape = reader::file_shape(file, plate, catalogue)?;
    if !is_record(number, shape.tasks) {
        return Err(Refusal::NoSuchPart);
    }
    let from = shape.edition.record_from(number - 1);
    let count = shape.edition.record_size();
    Ok(&file[from..from + count])
}

pub fn record_outcome(
    file: &[u8],
    plate: Plate,
    catalogue: &[u32],
    number: usize,
) -> Result<(), Refusal>
    ensures { result ≡ record_outcome file.now plate.cabinet.0 plate.line.0 catalogue.now number }
{
    record(file, plate, catalogue, number).map(|_| ())
}

pub fn record_bytes<'a>(file: &'a [u8], plate: Plate, catalogue: &[u32], number: usize) -> &'a [u8]
    ensures { IsRecord file.entry plate.cabinet.0 plate.line.0 catalogue.now number result }
{
    record(file, plate, catalogue, number).unwrap_or(&file[..0])
}
