// The columns of a sheet's table: the cells of each job, and which column is left out. specs/Cells.antt says what each is by the
// calls' answers.
#![tactic(auto)]

ghost use Rattle.std.specs.Prelude.{◌<◌, ◌≡◌, get_or};
ghost use Rattle.std.specs.Result.{result_unwrap_or};
ghost use Rattle.paper.specs.Numbers.{most_tasks};
ghost use Rattle.show_cells.specs.Cells.{place_cell, time_cell, slack_cell, ticks_cell, fit_cell, verdict_cell, cell_of, place_of, cells_of, column_stands, stands_at};

use cells::Cell;
use paper::{Refusal, Shown};
use show_facts::Facts;

// The columns of numbers and words, behind the one of names and before the one of regions.
#[derive(Clone, Copy, Debug, PartialEq, Eq)]
pub enum Column {
    Cost,
    Period,
    Deadline,
    Jitter,
    Priority,
    Threshold,
    Time,
    Slack,
    Tolerance,
    Length,
    Fit,
    Points,
}

// From left to right.
pub const COLUMNS: [Column; 12] = [
    Column::Cost,
    Column::Period,
    Column::Deadline,
    Column::Jitter,
    Column::Priority,
    Column::Threshold,
    Column::Time,
    Column::Slack,
    Column::Tolerance,
    Column::Length,
    Column::Fit,
    Column::Points,
];

fn place_cell(x: u32) -> Cell
    ensures { result ≡ place_cell x }
{
    match x {
        0 => Cell::Dash,
        _ => Cell::Number(u64::from(x)),
    }
}

fn time_cell(time: Option<u64>) -> Cell
    ensures { result ≡ time_cell time }
{
    time.map_or(Cell::Beyond, |x| Cell::Number(x))
}

fn slack_cell(time: Option<u64>, deadline: u64) -> Cell
    ensures { result ≡ slack_cell time deadline }
{
    match time {
        Some(x) if x <= deadline => Cell::Number(deadline - x),
        Some(x) => Cell::Minus(x - deadline),
        None => Cell::Dash,
    }
}

fn ticks_cell(x: i64) -> Cell
    ensures { result ≡ ticks_cell x }
{
    if x < 0 {
        Cell::Minus(say::size_of(x))
    } else {
        Cell::Number(say::size_of(x))
    }
}

fn fit_cell(fits: bool) -> Cell
    ensures { result ≡ fit_cell fits }
{
    if fits { Cell::Yes } else { Cell::No }
}

fn verdict_cell(verdict: Shown) -> Cell
    ensures { result ≡ verdict_cell verdict }
{
    match verdict {
        Shown::Passes => Cell::Passes,
        Shown::NotShown => Cell::NotShown,
    }
}

// The cell of job k + 1, or the refusal of the call that would give it.
fn answer(f: &Facts, k: usize, column: Column) -> Result<Cell, Refusal>
    requires { k < most_tasks }
    ensures { result_unwrap_or result Cell.Dash ≡ cell_of f.now k column }
{
    let r = &f.table.records[k];
    let cell = match column {
        Column::Cost => Cell::Number(u64::from(r.cost)),
        Column::Period => Cell::Number(u64::from(r.period)),
        Column::Deadline => Cell::Number(u64::from(r.deadline)),
        Column::Jitter => Cell::Number(u64::from(r.jitter)),
        Column::Priority => place_cell(r.priority),
        Column::Threshold => place_cell(r.threshold),
        Column::Time => time_cell(f.times?[k].time),
        Column::Slack => slack_cell(f.times?[k].time, u64::from(r.deadline)),
        Column::Tolerance => ticks_cell(f.tolerances?[k]),
        Column::Length => ticks_cell(f.lengths?[k]),
        Column::Fit => fit_cell(f.fits?[k]),
        Column::Points => verdict_cell(f.points?[k]),
    };
    Ok(cell)
}

// The cell of job k + 1: a dash where the call that would give it turned the table away.
#[tactic(auto, using(crate::proofs::Jitters::in_row))]
pub fn cell(f: &Facts, k: usize, column: Column) -> Cell
    requires { k < most_tasks }
    ensures value { result ≡ cell_of f.now k column }
    ensures in_row { result ≡ get_or (cells_of f.now k) (place_of column) Cell.Dash }
{
    answer(f, k, column).unwrap_or(Cell::Dash)
}

// The column of the jitters is left out where every jitter is 0.
#[tactic(auto, using(crate::proofs::Jitters::stands_in_row))]
pub fn column_stands(f: &Facts, column: Column) -> bool
    ensures value { result ≡ column_stands f.now column }
    ensures in_row { result ≡ stands_at f.now (place_of column) }
{
    match column {
        Column::Jitter => first_jobs::first_jitter(f).is_some(),
        _ => true,
    }
}
