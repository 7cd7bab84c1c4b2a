// The calls of `bench` as a static library, for the programs in other languages that measure their time and their stack: a slice is
// two parameters there, its start and its length. Only those programs link it: `bench_passes` has a `requires`, which nothing
// checks on the other side.
#![tactic(auto)]

ghost use Rattle.columns.specs.Columns.{assigned_by, Ranged, Placed};
ghost use Rattle.bench.specs.Columns.{tasks_in_columns};

use columns::Numbers;

#[unsafe(no_mangle)]
pub extern "C" fn bench_read(file: &[u8], cabinet: u32, line: u16, out: &mut [u32]) -> u64 {
    bench::bench_read(file, cabinet, line, out)
}

#[unsafe(no_mangle)]
pub extern "C" fn bench_write(table: &[u8], own: &[u32], out: &mut [u8]) -> u64 {
    bench::bench_write(table, own, out)
}

#[unsafe(no_mangle)]
pub extern "C" fn bench_seal(s: &[u8]) -> u16 {
    bench::bench_seal(s)
}

#[unsafe(no_mangle)]
pub extern "C" fn bench_seal_bits(s: &[u8]) -> u16 {
    bench::bench_seal_bits(s)
}

#[unsafe(no_mangle)]
pub extern "C" fn bench_times(table: &[u8]) -> u64 {
    bench::bench_times(table)
}

#[unsafe(no_mangle)]
pub extern "C" fn bench_tolerances(table: &[u8]) -> i64 {
    bench::bench_tolerances(table)
}

#[unsafe(no_mangle)]
pub extern "C" fn bench_lengths(table: &[u8]) -> u64 {
    bench::bench_lengths(table)
}

#[unsafe(no_mangle)]
pub extern "C" fn bench_fit(table: &[u8], own: &[u32]) -> u64 {
    bench::bench_fit(table, own)
}

#[unsafe(no_mangle)]
pub extern "C" fn bench_points(table: &[u8], own: &[u32]) -> u64 {
    bench::bench_points(table, own)
}

#[unsafe(no_mangle)]
pub extern "C" fn bench_first(table: &[u8], out: &mut [u8]) -> u64 {
    bench::bench_first(table, out)
}

#[unsafe(no_mangle)]
pub extern "C" fn bench_next(table: &[u8], given: &[u8], out: &mut [u8]) -> u64 {
    bench::bench_next(table, given, out)
}

#[unsafe(no_mangle)]
pub extern "C" fn bench_record(file: &[u8], cabinet: u32, line: u16, record: usize) -> usize {
    bench::bench_record(file, cabinet, line, record)
}

#[unsafe(no_mangle)]
pub extern "C" fn bench_regions(table: &[u8], own: &[u32], record: usize) -> usize {
    bench::bench_regions(table, own, record)
}

#[unsafe(no_mangle)]
pub extern "C" fn bench_last(table: &[u8], own: &[u32], record: usize) -> usize {
    bench::bench_last(table, own, record)
}

#[unsafe(no_mangle)]
pub extern "C" fn bench_name(name: u32, list: &[u8]) -> usize {
    bench::bench_name(name, list)
}

#[unsafe(no_mangle)]
pub extern "C" fn bench_passes(n: usize, y: &[Numbers; 4], p: &Numbers, h: &Numbers) -> bool
    requires { Ranged (tasks_in_columns n y.now) × Placed n (assigned_by p.now h.now) }
{
    bench::bench_passes(n, y, p, h)
}
