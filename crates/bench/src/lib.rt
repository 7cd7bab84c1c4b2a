// The calls by numbers and slices alone, for the programs that measure their time and their stack. A table comes as a request has
// it. Where a call is turned away, the answer is the refusal's number. `bench_c` exports them to those programs, which are in other
// languages.
#![tactic(auto)]

mod bit_by_bit;

ghost use Rattle.columns.specs.Columns.{assigned_by, Ranged, Placed};
ghost use Rattle.bench.specs.Columns.{tasks_in_columns};

pub use bit_by_bit::bench_seal_bits;
use columns::{Numbers, Tasks};
use paper::{Cabinet, Line, Plate, Refusal, Shown, Table};
use request::Body;

// 0 where there is an answer, which is not copied for it.
fn number<T>(answer: &Result<T, Refusal>) -> u64 {
    match answer {
        Ok(_) => 0,
        Err(r) => numbers::number_of(*r),
    }
}

fn table_in(bytes: &[u8]) -> Table {
    Body::new(bytes).table()
}

fn plate(cabinet: u32, line: u16) -> Plate {
    Plate {
        cabinet: Cabinet(cabinet),
        line: Line(line),
    }
}

pub fn bench_read(file: &[u8], cabinet: u32, line: u16, out: &mut [u32]) -> u64 {
    number(&reader::read(file, plate(cabinet, line), &[], out))
}

// Edition 1.
pub fn bench_write(table: &[u8], own: &[u32], out: &mut [u8]) -> u64 {
    number(&writer::write(1, table_in(table), plate(70001, 12), own, &[], out))
}

// The seal of the bytes s, as reading and writing use it.
pub fn bench_seal(s: &[u8]) -> u16 {
    seal::seal_of(s)
}

// The sum of all response times and of their jobs, so that none can be left out: no table's comes near the largest number. 0
// where the call is turned away.
pub fn bench_times(table: &[u8]) -> u64 {
    let Ok(responses) = response::response_times(table_in(table)) else {
        return 0;
    };
    let mut sum: u64 = 0;
    for response in &responses {
        if let Some(time) = response.time {
            sum = sum.saturating_add(time).saturating_add(response.job);
        }
    }
    sum
}

// The last task's; 0 where the call is turned away.
pub fn bench_tolerances(table: &[u8]) -> i64 {
    let t = table_in(table);
    match lengths::tolerances(t) {
        Ok(ticks) => t
            .n
            .checked_sub(1)
            .and_then(|last| ticks.get(last))
            .copied()
            .unwrap_or(0),
        Err(_) => 0,
    }
}

pub fn bench_lengths(table: &[u8]) -> u64 {
    number(&lengths::lengths(table_in(table)))
}

pub fn bench_fit(table: &[u8], own: &[u32]) -> u64 {
    number(&lengths::region_check(table_in(table), own, &[]))
}

// How many tasks pass the test of fixed preemption points; none where the call is turned away.
pub fn bench_points(table: &[u8], own: &[u32]) -> u64 {
    match points::point_check(table_in(table), own, &[]) {
        Ok(verdicts) => verdicts
            .iter()
            .filter(|&&verdict| verdict == Shown::Passes)
            .count() as u64,
        Err(_) => 0,
    }
}

pub fn bench_first(table: &[u8], out: &mut [u8]) -> u64 {
    number(&listing::first_row(table_in(table), out))
}

pub fn bench_next(table: &[u8], given: &[u8], out: &mut [u8]) -> u64 {
    number(&listing::next_row(table_in(table), given, out))
}

// The parts: how many bytes or words there are, none where the call is turned away.
pub fn bench_record(file: &[u8], cabinet: u32, line: u16, record: usize) -> usize {
    parts::record_bytes(file, plate(cabinet, line), &[], record).len()
}

pub fn bench_regions(table: &[u8], own: &[u32], record: usize) -> usize {
    parts::regions_words(table_in(table), own, &[], record).len()
}

pub fn bench_last(table: &[u8], own: &[u32], record: usize) -> usize {
    last_part::last_word(table_in(table), own, &[], record).len()
}

pub fn bench_name(name: u32, list: &[u8]) -> usize {
    parts::name_bytes(name, list, list).len()
}

// The tasks come as four columns, one after the other.
pub fn bench_passes(n: usize, y: &[Numbers; 4], p: &Numbers, h: &Numbers) -> bool
    requires { Ranged (tasks_in_columns n y.now) × Placed n (assigned_by p.now h.now) }
{
    let [costs, periods, deadlines, jitters] = y;
    response::passes(&Tasks::by(n, costs, periods, deadlines, jitters), p, h)
}
