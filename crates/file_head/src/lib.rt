// The first stage of reading: what is asked of the head, the plate and the length. Only what passes is unpacked (reader).
#![tactic(auto)]

ghost use Rattle.std.specs.Prelude.{◌≡◌, IfOk};
ghost use Rattle.paper.specs.Refusals.{first_of};
ghost use Rattle.paper.specs.Answers.{outcome_of};
ghost use Rattle.file_head.specs.Asks.{head_asks, IsShape};

use layout::Shape;
use paper::{Plate, Refusal};

// Asks 1, 2, 18, 3 to 6. What passes has the shape that its head says, and that shape's length.
pub fn head(file: &[u8], plate: Plate) -> Result<Shape, Refusal>
    ensures outcome { outcome_of result ≡ first_of (head_asks file.now plate.cabinet.0 plate.line.0) }
    ensures shape { IfOk result (IsShape file.now) }
{
    if file.len() < layout::SHORTEST {
        return Err(Refusal::Short);
    }
    let edition = layout::known_edition(file)?;
    let its = layout::plate_of(file);
    let blank = checks::plate_is_blank(its) || checks::plate_is_blank(plate);
    if blank {
        return Err(Refusal::BlankPlate);
    }
    if its.cabinet != plate.cabinet {
        return Err(Refusal::WrongCabinet);
    }
    if its.line != plate.line {
        return Err(Refusal::WrongLine);
    }
    let tasks = layout::task_count(file);
    let words = layout::word_count(file);
    if !checks::counts_in_range(tasks, words) {
        return Err(Refusal::WrongCounts);
    }
    let shape = Shape {
        edition,
        tasks,
        words,
    };
    if file.len() != shape.file_length() {
        return Err(Refusal::WrongLength);
    }
    Ok(shape)
}
