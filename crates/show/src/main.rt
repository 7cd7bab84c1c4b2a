// Shows a cabinet file to a person. From standard input: five plate bytes (cabinet 24, line 16), then the file, as for
// `list`. Three arguments may name files: the cabinet's name list, the house's, and the catalogue of region lengths, a number
// to a line; an empty argument names none. A name list that can't be had whole is said on standard error, and a job whose name
// it lacks is shown by its number. A catalogue that can't be had ends the program without a sheet: one that was made with
// another catalogue would look whole.
//
// The table's headings: due is the deadline, jit the jitter (a column that is left out where every jitter is 0), pr the priority,
// th the threshold, resp the response time, slack what is left from it to the deadline, tol the tolerance, fit whether every
// region of the job is at most its length, and points whether the test of fixed preemption points passes, which is sufficient only.
// Lines under it name the worst job of an active period, where that isn't job 0 or the deadline is missed, and the first job that
// the test doesn't show.
#![tactic(auto)]

mod arguments;
mod unnamed;

use arguments::LIST_AND_ONE;
use cells::Reason;
use paper::{MOST_WORDS, Plate, Reading, Refusal};
use request::PLATE_AND_FILE;
use show_sheet::{Names, Regions};
use std::env::{Env, FillError};
use std::fmt;
use std::rt::Files;
use text::Out;

// The first job of a file that takes its regions from the catalogue and finds it ending before them.
fn first_outside(file: &[u8], plate: Plate, catalogue: &[u32]) -> Option<usize> {
    let shape = file_head::head(file, plate).ok()?;
    let t = unpack::table_in(file, shape.edition, shape.tasks);
    first_jobs::first_outside(&t, catalogue.len())
}

fn put_outside<W: fmt::Write>(out: &mut W, job: usize, words: usize) -> fmt::Result {
    write!(
        out,
        "refused {}: job {job} takes its regions from the catalogue, which",
        numbers::number_of(Refusal::BadRegions)
    )?;
    match words {
        0 => writeln!(out, " is empty; the third argument names one"),
        _ => writeln!(out, " has only {words} numbers"),
    }
}

// Where a job's regions break the rules because the catalogue ends before them, this is said.
fn put_refused<W: fmt::Write>(
    out: &mut W,
    r: Refusal,
    file: &[u8],
    plate: Plate,
    catalogue: &[u32],
) -> fmt::Result {
    writeln!(out)?;
    if r == Refusal::BadRegions {
        if let Some(job) = first_outside(file, plate, catalogue) {
            return put_outside(out, job, catalogue.len());
        }
    }
    writeln!(out, "{}", Reason(r))
}

// What stands in the first line behind the plate. Edition 1 isn't said: its sheets stay as they were.
fn put_head<W: fmt::Write>(out: &mut W, reading: &Reading) -> fmt::Result {
    if reading.edition != 1 {
        write!(out, ", edition {}", reading.edition)?;
    }
    write!(out, ", jobs {}\n\n", reading.table.n)
}

// The sheet, or why there is none. There is room for the words of any file, so that 12 is never the answer.
fn put_file<'a, R: Eprint, W: fmt::Write>(
    rt: &R,
    out: &mut W,
    input: &[u8],
    catalogue: &[u32],
    names: Names<'a>,
) -> fmt::Result {
    let Some((plate, file)) = request::plate_and_file(input) else {
        return writeln!(out, "{}", Reason(Refusal::Short));
    };
    write!(out, "cabinet {}, line {}", plate.cabinet.0, plate.line.0)?;
    let mut words = [0u32; MOST_WORDS];
    match reader::read(file, plate, catalogue, &mut words) {
        Err(r) => put_refused(out, r, file, plate, catalogue),
        Ok(reading) => {
            unnamed::tell(rt, &reading.table, names);
            put_head(out, &reading)?;
            let own = &words[..fronts::front_len(&words, reading.words)];
            show_sheet::put_sheet(out, reading.table, Regions { own, catalogue }, names)
        }
    }
}

// What the arguments name is read, and the sheet is written out.
fn show<R: Files + Env + Print + Eprint>(rt: &R, input: &[u8]) {
    let Ok(catalogue) = arguments::read_catalogue(rt, 3, "the catalogue") else {
        return;
    };
    let mut cabinet = [0u8; LIST_AND_ONE];
    let mut house = [0u8; LIST_AND_ONE];
    let names = Names {
        cabinet: arguments::read_names(rt, 1, "the cabinet's name list", &mut cabinet),
        house: arguments::read_names(rt, 2, "the house's name list", &mut house),
    };
    let mut out = Out::new(rt);
    // Where either fails, the reason has been told.
    let _ = put_file(rt, &mut out, input, catalogue.as_slice(), names);
    let _ = out.flush();
}

// Whether there is an argument behind the third.
fn has_fourth<R: Env>(rt: &R) -> bool {
    let mut none = [0u8; 1];
    !matches!(rt.arg(4, &mut none), Err(FillError::NotPresent))
}

// Standard input comes first: where it is closed, a file that is opened would get its number.
fn main(rt: HostRuntime) {
    let mut input = [0u8; PLATE_AND_FILE];
    match intake::read_whole(&mut rt.stdin(), &mut input) {
        Ok(n) => {
            if has_fourth(&rt) {
                let _ = eprintln!(rt; "arguments past the third are not looked at");
            }
            show(&rt, &input[..n]);
        }
        Err(unread) => text::fail(&rt, "standard input", unread.error),
    }
}
