// What a table for a person is made of: cells that line up, and a refusal in words.
#![tactic(auto)]

use paper::Refusal;
use std::fmt;
use std::fmt::Write;

// It prints itself in as many places as a hole asks for, as in `{cell:>6}`.
#[derive(Clone, Copy, Debug, PartialEq, Eq)]
pub enum Cell {
    // Nothing to say: the call that would give the number turned the table away.
    Dash,
    Number(u64),
    // A number below zero, by its absolute value.
    Minus(u64),
    Beyond,
    Yes,
    No,
    Passes,
    NotShown,
}

impl fmt::Display for Cell {
    fn fmt<W: fmt::Write>(&self, f: &mut fmt::Formatter<W>) -> fmt::Result {
        match *self {
            Cell::Dash => f.pad("-"),
            Cell::Number(x) => fmt::Display::fmt(&x, f),
            Cell::Minus(x) => fmt::Display::fmt(&-i128::from(x), f),
            Cell::Beyond => f.pad("beyond"),
            Cell::Yes => f.pad("yes"),
            Cell::No => f.pad("no"),
            Cell::Passes => f.pad("passes"),
            Cell::NotShown => f.pad("not shown"),
        }
    }
}

// A writer that only counts bytes.
#[derive(Clone, Copy)]
struct Width(usize);

impl fmt::Write for Width {
    fn write_str(&mut self, s: &str) -> fmt::Result {
        self.0 = self.0.saturating_add(s.len());
        Ok(())
    }
}

// How many characters a value takes, all of whose characters are ASCII.
pub fn width_of<D: fmt::Display + Drop>(value: D) -> usize {
    let mut width = Width(0);
    let _ = write!(width, "{value}");
    width.0
}

// A refusal by its number, and then in words.
#[derive(Clone, Copy)]
pub struct Reason(pub Refusal);

impl fmt::Display for Reason {
    fn fmt<W: fmt::Write>(&self, f: &mut fmt::Formatter<W>) -> fmt::Result {
        write!(f, "refused {}: ", numbers::number_of(self.0))?;
        match self.0 {
            Refusal::Short => f.write_str("the file is shorter than 22 bytes"),
            Refusal::WrongEdition => f.write_str("the file's edition is neither 1 nor 2"),
            Refusal::WrongCabinet => f.write_str("the file is for another cabinet"),
            Refusal::WrongLine => f.write_str("the file is for another line"),
            Refusal::WrongCounts => f.write_str("the number of jobs or of regions is out of range"),
            Refusal::WrongLength => f.write_str("the file's length is not the one its head gives"),
            Refusal::WrongSeal => f.write_str("the seal is wrong: the file is damaged"),
            Refusal::SpareBitSet => f.write_str("a spare bit is set"),
            Refusal::OutOfRange => f.write_str(
                "a cost, a period, a deadline or a jitter is out of range",
            ),
            Refusal::BadAssignment => f.write_str(
                "the priorities or thresholds are not well formed",
            ),
            Refusal::BadRegions => f.write_str("a job's regions break the rules"),
            Refusal::NoRoom => f.write_str("the output is too short"),
            Refusal::NoSuchPart => f.write_str("there is no such part"),
            Refusal::Unassigned => f.write_str("the jobs have no priorities yet"),
            Refusal::DeadlineAbovePeriod => f.write_str("a deadline is above its period"),
            Refusal::ToleranceBelowZero(k) => write!(f, "the tolerance of job {k} is below zero"),
            Refusal::BadRow => f.write_str("the row is not well formed"),
            Refusal::BlankPlate => f.write_str("the file or the plate has cabinet 0 or line 0"),
            Refusal::JitterInEditionOne => f.write_str(
                "a job has a jitter, for which a file of edition 1 has no place",
            ),
        }
    }
}
