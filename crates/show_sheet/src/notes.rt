// What stands under the table.

use cells::Reason;
use paper::Refusal;
use show_facts::Facts;
use std::fmt;
use verdicts::{Note, Verdict};
use worst_jobs::Worst;

// A line on a job's active period.
fn put_worst<W: fmt::Write>(out: &mut W, job: usize, worst: Worst) -> fmt::Result {
    match worst {
        Worst::Later(k) => writeln!(
            out,
            "job {job}: worst is job {k} of its active period, counted from 0"
        ),
        Worst::Late(k, ticks) => writeln!(
            out,
            "job {job}: worst is job {k} of its active period, counted from 0; it misses the deadline by {ticks}"
        ),
        Worst::Unknown => writeln!(
            out,
            "job {job}: beyond; no job of its active period is named"
        ),
    }
}

fn put_worsts<W: fmt::Write>(out: &mut W, f: &Facts) -> fmt::Result {
    for k in 0..first_jobs::jobs_of(&f.table) {
        if let Some(worst) = worst_jobs::worst_at(f, k) {
            put_worst(out, k + 1, worst)?;
        }
    }
    Ok(())
}

// What the test of fixed preemption points doesn't show of a job is said to be no more than that.
fn put_not_shown<W: fmt::Write>(out: &mut W, job: usize) -> fmt::Result {
    writeln!(
        out,
        "points: not shown for job {job}; the test is sufficient only, and such a job may be in time all the same"
    )
}

// Where the tolerances themselves are refused with 16, no time is left for a job between its jitter and its deadline. Where only
// the lengths are, a tolerance is below zero, as the words of 16 say.
fn put_tolerances_note<W: fmt::Write>(out: &mut W, r: Refusal) -> fmt::Result {
    write!(out, "tolerances, lengths: ")?;
    match r {
        Refusal::ToleranceBelowZero(job) => writeln!(
            out,
            "refused {}: the jitter of job {job} reaches its deadline",
            numbers::number_of(r)
        ),
        _ => writeln!(out, "{}", Reason(r)),
    }
}

fn put_note<W: fmt::Write>(out: &mut W, note: Note) -> fmt::Result {
    match note {
        Note::Times(r) => writeln!(out, "times, tolerances, lengths: {}", Reason(r)),
        Note::Tolerances(r) => put_tolerances_note(out, r),
        Note::Lengths(r) => writeln!(out, "lengths: {}", Reason(r)),
    }
}

fn put_verdict<W: fmt::Write>(out: &mut W, verdict: Verdict) -> fmt::Result {
    match verdict.late {
        None => write!(out, "verdict: deadlines kept")?,
        Some(job) => write!(out, "verdict: deadlines MISSED (job {job})")?,
    }
    match verdict.unfit {
        Ok(None) => writeln!(out, ", regions fit"),
        Ok(Some(job)) => writeln!(out, ", regions TOO LONG (job {job})"),
        Err(_) => writeln!(out, ", regions not checked"),
    }
}

pub fn put_notes<W: fmt::Write>(out: &mut W, f: &Facts) -> fmt::Result {
    put_worsts(out, f)?;
    if let Some(job) = verdicts::not_shown(f) {
        put_not_shown(out, job)?;
    }
    if let Some(note) = verdicts::note_of(f) {
        put_note(out, note)?;
    }
    match verdicts::verdict_of(f) {
        Ok(verdict) => put_verdict(out, verdict),
        Err(_) => writeln!(out, "verdict: nothing is checked"),
    }
}
