// Reading a cabinet file: the refusals in the paper's order, the table, and the region words.
#![tactic(auto)]

ghost use Rattle.std.specs.Prelude.{◌≡◌, length, IfOk};
ghost use Rattle.paper.specs.Refusals.{first_of, file_asks};
ghost use Rattle.paper.specs.Answers.{read_answer, read_out, outcome_of};
ghost use Rattle.file_head.specs.Asks.{head_asks, IsShape};
ghost use Rattle.reader.specs.Stages.{body_asks, IsContents};

use layout::Shape;
use paper::{MOST_WORDS, Plate, Reading, Refusal, Table};

// A file whose head passed, unpacked: its table, and its region words at the front of an array.
#[derive(Clone, Copy)]
struct Contents {
    shape: Shape,
    table: Table,
    words: [u32; MOST_WORDS],
}

impl Contents {
    ghost use Rattle.std.specs.Prelude.{◌≡◌, take};

    fn own(&self) -> &[u32]
        ensures { result.now ≡ take self.now.shape.words self.now.words }
    {
        &self.words[..self.shape.words]
    }
}

// Asks 1, 2, 18, 3 to 6, and unpacks what passes.
fn unpacked(file: &[u8], plate: Plate) -> Result<Contents, Refusal>
    ensures outcome { outcome_of result ≡ first_of (head_asks file.now plate.cabinet.0 plate.line.0) }
    ensures contents { IfOk result (IsContents file.now) }
{
    let shape = file_head::head(file, plate)?;
    Ok(Contents {
        shape,
        table: unpack::table_in(file, shape.edition, shape.tasks),
        words: unpack::words_in(file, shape),
    })
}

// Asks 7 to 12, of what was unpacked.
fn body(file: &[u8], contents: &Contents, catalogue: &[u32], room: usize) -> Result<(), Refusal>
    requires { IsContents file.now contents.now }
    ensures { result ≡ first_of (body_asks file.now catalogue.now room) }
{
    let shape = contents.shape;
    let table = &contents.table;
    if !seal::is_sealed(file, file.len() - layout::SEAL_BYTES) {
        return Err(Refusal::WrongSeal);
    }
    if !unpack::spare_clear(file, shape) {
        return Err(Refusal::SpareBitSet);
    }
    if !checks::records_in_range(table) {
        return Err(Refusal::OutOfRange);
    }
    if !checks::assignment_holds(table) {
        return Err(Refusal::BadAssignment);
    }
    if !regions::all_regions_hold(table, contents.own(), catalogue) {
        return Err(Refusal::BadRegions);
    }
    if room < shape.words {
        return Err(Refusal::NoRoom);
    }
    Ok(())
}

// The file, read for the plate: its edition, its table, and its region words in the output. All is unpacked once and asked, and only
// then is the output written.
pub fn read(
    file: &[u8],
    plate: Plate,
    catalogue: &[u32],
    out: &mut [u32],
) -> Result<Reading, Refusal>
    ensures value { result ≡ read_answer file.now plate.cabinet.0 plate.line.0 catalogue.now out.old }
    ensures out_after { out.new ≡ read_out file.now plate.cabinet.0 plate.line.0 catalogue.now out.old }
{
    let contents = unpacked(file, plate)?;
    body(file, &contents, catalogue, out.len())?;
    let words = contents.shape.words;
    out[..words].copy_from_slice(contents.own());
    let reading = Reading {
        edition: u8::from(contents.shape.edition),
        table: contents.table,
        words,
    };
    Ok(reading)
}

// Asks 1, 2, 18, 3 to 11, and hands back the shape of a file that passes them. There is room for the words of any file here, so that
// 12 is never the answer.
pub fn file_shape(file: &[u8], plate: Plate, catalogue: &[u32]) -> Result<Shape, Refusal>
    ensures outcome { outcome_of result ≡ first_of (file_asks file.now plate.cabinet.0 plate.line.0 catalogue.now) }
    ensures shape { IfOk result (IsShape file.now) }
{
    let contents = unpacked(file, plate)?;
    body(file, &contents, catalogue, MOST_WORDS)?;
    Ok(contents.shape)
}
