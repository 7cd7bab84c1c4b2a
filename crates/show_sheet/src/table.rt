// The table: a row of headings, and a row for each job. A column of numbers is as wide as its heading and the widest of its cells,
// with a space before it, and the names' likewise.

ghost use Rattle.std.specs.Prelude.{◌<◌};
ghost use Rattle.paper.specs.Numbers.{most_tasks};

use crate::Regions;
use crate::names::Names;
use show_cells::{COLUMNS, Column};
use show_facts::Facts;
use std::fmt;

#[derive(Clone, Copy)]
struct Widths {
    name: usize,
    columns: [usize; COLUMNS.len()],
}

fn heading(column: Column) -> &'static str {
    match column {
        Column::Cost => "cost",
        Column::Period => "period",
        Column::Deadline => "due",
        Column::Jitter => "jit",
        Column::Priority => "pr",
        Column::Threshold => "th",
        Column::Time => "resp",
        Column::Slack => "slack",
        Column::Tolerance => "tol",
        Column::Length => "length",
        Column::Fit => "fit",
        Column::Points => "points",
    }
}

fn column_width(f: &Facts, column: Column) -> usize {
    let mut widest = heading(column).len();
    for k in 0..first_jobs::jobs_of(&f.table) {
        widest = widest.max(cells::width_of(show_cells::cell(f, k, column)));
    }
    widest
}

fn name_width<'a>(f: &Facts, names: Names<'a>) -> usize {
    let mut widest = "name".len();
    for k in 0..first_jobs::jobs_of(&f.table) {
        widest = widest.max(cells::width_of(names.name(f.table.records[k].name)));
    }
    widest
}

fn widths_of<'a>(f: &Facts, names: Names<'a>) -> Widths {
    Widths {
        name: name_width(f, names),
        columns: COLUMNS.map(|column| column_width(f, column)),
    }
}

// A text for each column that stands.
fn put_columns<W: fmt::Write, D: fmt::Display + Drop, F: Fn(Column) -> D>(
    out: &mut W,
    f: &Facts,
    widths: &Widths,
    text: F,
) -> fmt::Result
    requires { F.IsAlwaysCallable text }
{
    for (column, width) in COLUMNS.iter().zip(&widths.columns) {
        if show_cells::column_stands(f, *column) {
            let text = text(*column);
            let width = *width;
            write!(out, " {text:>width$}")?;
        }
    }
    Ok(())
}

// At the left end of its column.
fn put_name<'a, W: fmt::Write>(
    out: &mut W,
    f: &Facts,
    k: usize,
    widths: &Widths,
    names: Names<'a>,
) -> fmt::Result
    requires { k < most_tasks }
{
    let name = names.name(f.table.records[k].name);
    let rest = widths.name.saturating_sub(cells::width_of(name));
    write!(out, "{:>2} {name}{:rest$}", k + 1, "")
}

// The lengths of a job's regions, as a sum.
fn put_regions<'a, W: fmt::Write>(
    out: &mut W,
    f: &Facts,
    k: usize,
    regions: Regions<'a>,
) -> fmt::Result
    requires { k < most_tasks }
{
    match parts::regions_words(f.table, regions.own, regions.catalogue, k + 1) {
        [first, rest @ ..] => {
            write!(out, " {first}")?;
            for word in rest {
                write!(out, "+{word}")?;
            }
            Ok(())
        }
        [] => Ok(()),
    }
}

pub fn put_table<'a, W: fmt::Write>(
    out: &mut W,
    f: &Facts,
    regions: Regions<'a>,
    names: Names<'a>,
) -> fmt::Result {
    let widths = widths_of(f, names);
    let name_width = widths.name;
    write!(out, "no {:name_width$}", "name")?;
    put_columns(out, f, &widths, heading)?;
    writeln!(out, " regions")?;
    for k in 0..first_jobs::jobs_of(&f.table) {
        put_name(out, f, k, &widths, names)?;
        put_columns(out, f, &widths, |column| show_cells::cell(f, k, column))?;
        put_regions(out, f, k, regions)?;
        writeln!(out)?;
    }
    Ok(())
}
