// Writing a cabinet file.
#![tactic(auto)]

ghost use Rattle.std.specs.Prelude.{◌≡◌, length, IfOk, IfErr, Ok, Err};
ghost use Rattle.paper.specs.File.{file_of};
ghost use Rattle.paper.specs.Answers.{write_outcome, write_answer, write_out};
ghost use Rattle.layout.specs.Editions.{edition_number};
ghost use Rattle.layout.specs.Shapes.{length_of};
ghost use Rattle.writer.specs.Fitting.{IsFitting};

use layout::{Edition, SEAL_BYTES, Shape};
use paper::{MOST_CABINET, Plate, Refusal, Table};

// Makes s, which has the file's length, the file.
#[tactic(auto, unfolding(paper::specs::File::file_of))]
fn put_file(s: &mut [u8], shape: Shape, t: &Table, plate: Plate, own: &[u32])
    requires shape { (shape.tasks ≡ t.now.n) × (shape.words ≡ length own.now) }
    requires size { length s.old ≡ length_of shape }
    ensures { s.new ≡ file_of (edition_number shape.edition) t.now plate.cabinet.0 plate.line.0 own.now }
{
    let end = s.len() - SEAL_BYTES;
    pack::put_head(s, shape, plate);
    pack::put_records(s, shape.edition, t);
    pack::put_words(s, shape, own);
    seal::put_seal(s, end);
}

// What writing asks, in the paper's order, and the shape of the file to be written. 5 comes before the checks that look at n records
// and m words.
fn shape_for(
    edition: u8,
    t: &Table,
    plate: Plate,
    own: &[u32],
    catalogue: &[u32],
    room: usize,
) -> Result<Shape, Refusal>
    ensures done { IfOk result (λ s. write_outcome edition t.now plate.cabinet.0 plate.line.0 own.now catalogue.now room ≡ Ok tt) }
    ensures shape { IfOk result (IsFitting edition t.now own.now room) }
    ensures refused { IfErr result (λ r. write_outcome edition t.now plate.cabinet.0 plate.line.0 own.now catalogue.now room ≡ Err r) }
{
    let edition = Edition::try_from(edition)?;
    if !checks::counts_in_range(t.n, own.len()) {
        return Err(Refusal::WrongCounts);
    }
    let blank = checks::plate_is_blank(plate);
    if blank {
        return Err(Refusal::BlankPlate);
    }
    let in_range = plate.cabinet.0 <= MOST_CABINET && checks::records_in_range(t);
    if !in_range {
        return Err(Refusal::OutOfRange);
    }
    if !checks::assignment_holds(t) {
        return Err(Refusal::BadAssignment);
    }
    if !regions::all_regions_hold(t, own, catalogue) {
        return Err(Refusal::BadRegions);
    }
    let lost = edition == Edition::One && !checks::unjittered(t);
    if lost {
        return Err(Refusal::JitterInEditionOne);
    }
    let shape = Shape {
        edition,
        tasks: t.n,
        words: own.len(),
    };
    if room < shape.file_length() {
        return Err(Refusal::NoRoom);
    }
    Ok(shape)
}

// Writes the file of that edition to the front of `out`: exactly its bytes, or nothing on a refusal.
pub fn write(
    edition: u8,
    t: Table,
    plate: Plate,
    own: &[u32],
    catalogue: &[u32],
    out: &mut [u8],
) -> Result<usize, Refusal>
    ensures value { result ≡ write_answer edition t plate.cabinet.0 plate.line.0 own.now catalogue.now out.old }
    ensures out_after { out.new ≡ write_out edition t plate.cabinet.0 plate.line.0 own.now catalogue.now out.old }
{
    let shape = shape_for(edition, &t, plate, own, catalogue, out.len())?;
    let size = shape.file_length();
    put_file(&mut out[..size], shape, &t, plate, own);
    Ok(size)
}
