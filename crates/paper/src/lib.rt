// The types of document 01, with what document 02 adds. What each call answers with them is defined in specs/.

#![tactic(auto)]

// Cabinet number, 24 bits, and line number, 16 bits: two types, so that one can't stand for the other.
// A cabinet above 24 bits is refused when writing (9) and matches no file when reading (3). No file is read or written
// for cabinet 0 or line 0, and none is read that says either (18, asked before 3 and 9).
#[derive(Clone, Copy, Debug, PartialEq, Eq)]
pub struct Cabinet(pub u32);

#[derive(Clone, Copy, Debug, PartialEq, Eq)]
pub struct Line(pub u16);

// What a cabinet's plate says: its number and its line's. No file is read or written for a blank plate, whose cabinet or line is 0 (18).
#[derive(Clone, Copy, Debug, PartialEq, Eq)]
pub struct Plate {
    pub cabinet: Cabinet,
    pub line: Line,
}

// Where a task's regions stand: the file's own region words, or a lent catalogue.
#[derive(Clone, Copy, Debug, PartialEq, Eq)]
pub enum Source {
    Own,
    Catalogue,
}

// One task. Outside a file a field may hold any number: the calls ask whether it is in range.
#[derive(Clone, Copy, Debug, PartialEq, Eq)]
pub struct Record {
    pub cost: u32,
    pub period: u32,
    pub deadline: u32,
    pub priority: u32,
    pub threshold: u32,
    pub source: Source,
    pub first: u32,
    pub count: u32,
    pub name: u32,
    // By up to how many ticks its releases come late, J, from 0 to the period less 1 (document 02, item 8).
    pub jitter: u32,
}

// The most tasks and region words that a table may have.
pub const MOST_TASKS: usize = 15;

pub const MOST_WORDS: usize = 100;

// The largest cost, period, deadline or region word; the largest name number, and the largest cabinet.
pub const MOST_TICKS: u32 = 1_000_000;

pub const MOST_NAME: u32 = 127;

pub const MOST_CABINET: u32 = 0xff_ffff;

// No time above it is looked for.
pub const HORIZON: u64 = 1_000_000;

// Records past n are not looked at.
#[derive(Clone, Copy, Debug, PartialEq, Eq)]
pub struct Table {
    pub n: usize,
    pub records: [Record; MOST_TASKS],
}

// Why a call was turned away. number_of (specs/Refusals.antt) gives the paper's number.
#[derive(Clone, Copy, Debug, PartialEq, Eq)]
pub enum Refusal {
    Short,
    WrongEdition,
    WrongCabinet,
    WrongLine,
    WrongCounts,
    WrongLength,
    WrongSeal,
    SpareBitSet,
    OutOfRange,
    BadAssignment,
    BadRegions,
    NoRoom,
    NoSuchPart,
    Unassigned,
    DeadlineAbovePeriod,
    // Holds the number of the lowest record that is turned away: by the call of tolerances one whose jitter leaves no t to take a
    // tolerance over; by lengths, the region check and the test of fixed preemption points that, or one whose tolerance is below
    // zero.
    ToleranceBelowZero(usize),
    BadRow,
    BlankPlate,
    // A table with a jitter was to be written as edition 1, which has no place for one.
    JitterInEditionOne,
}

// Reading: the file's edition, which its writer has to be told to write the same bytes again, the table, and how many region
// words stand at the front of the output.
#[derive(Clone, Copy, Debug, PartialEq, Eq)]
pub struct Reading {
    pub edition: u8,
    pub table: Table,
    pub words: usize,
}

// A response time, or none where L, a start or a finish has no solution at or below the horizon; and the number k of the job of the
// active period that reached it. The jobs count from 0; where several reached it, k is the first of them. Where there is no time,
// k is 0 and means nothing (the must-fail edit job-beside-beyond holds that, so the two stand beside each other).
#[derive(Clone, Copy, Debug, PartialEq, Eq)]
pub struct Response {
    pub time: Option<u64>,
    pub job: u64,
}

// The test of fixed preemption points for one task (document 02, item 2): for firmware that yields at region ends alone and knows
// no thresholds. Where every task passes, source document 000's Theorem 3 calls the set schedulable; it has no jitter, which item 8
// adds. The test is sufficient only: a task that is not shown may be in time all the same.
#[derive(Clone, Copy, Debug, PartialEq, Eq)]
pub enum Shown {
    NotShown,
    Passes,
}

// The listing: the row is in the lent buffer, or no row follows.
#[derive(Clone, Copy, Debug, PartialEq, Eq)]
pub enum Step {
    Row,
    End,
}
