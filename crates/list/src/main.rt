// Lists the passing assignments of a cabinet file, at most a million. From standard input: five plate bytes (cabinet 24, line
// 16), then the file. Document 01 gives this program an empty catalogue, so a file with regions of a catalogue is refused with 11.
//
// The list ends in `end` and the number of its rows, or in `more` where rows follow that aren't printed. Where standard input
// can't be read or standard output can't be written, it says so on standard error and stops: a list that lost rows has neither.
#![tactic(auto)]

use paper::{MOST_TASKS, MOST_WORDS, Refusal, Step, Table};
use request::PLATE_AND_FILE;
use say::{Refused, Spaced};
use std::fmt;
use text::Out;

// As many numbers as the longest row has.
const ROW: usize = 2 * MOST_TASKS;

// The most rows that are printed (document 02, item 6).
const MOST_ROWS: u64 = 1_000_000;

// The passing row after the one in `row`, put in its place. Says whether there is one.
fn step_on(t: Table, row: &mut [u8]) -> bool {
    let mut given = [0u8; ROW];
    let n = fronts::copy(row, &mut given);
    matches!(listing::next_row(t, &given[..n], row), Ok(Step::Row))
}

fn put_row<W: fmt::Write>(out: &mut W, row: &[u8]) -> fmt::Result {
    match row {
        [first, rest @ ..] => writeln!(out, "{first}{}", Spaced(rest)),
        [] => Ok(()),
    }
}

// Every row, up to the most that are printed, and the last line. `row` has room for the numbers of one, and no more. A `while`, as
// its measure says that no list has more rows.
fn put_rows<W: fmt::Write>(out: &mut W, t: Table, row: &mut [u8]) -> fmt::Result {
    let mut rows: u64 = 0;
    let mut found = matches!(listing::first_row(t, row), Ok(Step::Row));
    // No `for`: the rows end where the listing does, and their count is the last line's.
    while rows < MOST_ROWS && found {
        // Nothing is searched for once a write has failed.
        put_row(out, row)?;
        rows += 1;
        found = step_on(t, row);
    }
    // After the last row that may be printed, too, one more was searched for: a list that ends just there is whole.
    if found {
        writeln!(out, "more")
    } else {
        writeln!(out, "end {rows}")
    }
}

fn put_table<W: fmt::Write>(out: &mut W, t: Table) -> fmt::Result {
    let n = t.n;
    writeln!(out, "tasks {n}")?;
    let mut row = [0u8; ROW];
    let used = fronts::front_len(&row, 2 * n.min(MOST_TASKS));
    put_rows(out, t, &mut row[..used])
}

// The table of a plate and a file. There is room for the words of any file, so that 12 is never the answer.
fn table_of(input: &[u8]) -> Result<Table, Refusal> {
    let (plate, file) = request::plate_and_file(input).ok_or(Refusal::Short)?;
    let mut words = [0u32; MOST_WORDS];
    let reading = reader::read(file, plate, &[], &mut words)?;
    Ok(reading.table)
}

fn put_list<W: fmt::Write>(out: &mut W, input: &[u8]) -> fmt::Result {
    match table_of(input) {
        Ok(t) => put_table(out, t),
        Err(r) => writeln!(out, "{}", Refused(r)),
    }
}

fn main(rt: HostRuntime) {
    let mut input = [0u8; PLATE_AND_FILE];
    match intake::read_whole(&mut rt.stdin(), &mut input) {
        Ok(n) => {
            let mut out = Out::new(&rt);
            // Where either fails, the reason has been told.
            let _ = put_list(&mut out, &input[..n]);
            let _ = out.flush();
        }
        Err(unread) => text::fail(&rt, "standard input", unread.error),
    }
}
