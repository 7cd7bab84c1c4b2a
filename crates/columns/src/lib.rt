// A table's numbers as columns, which is what the analysis runs on.

#![tactic(auto)]

ghost use Rattle.std.specs.Prelude.{◌≡◌, ◌<◌, length};
ghost use Rattle.paper.specs.Numbers.{most_tasks};
ghost use Rattle.columns.specs.Columns.{value_in, column_of, tasks_by, Ranged};

use paper::{MOST_TASKS, Record, Table};

#[derive(Clone, Copy, Debug, PartialEq, Eq)]
pub enum Column {
    Cost,
    Period,
    Deadline,
    Priority,
    Threshold,
    Jitter,
}

impl Column {
    fn value_in(self, r: &Record) -> u64
        ensures { result ≡ value_in self r.now }
    {
        match self {
            Column::Cost => r.cost.into(),
            Column::Period => r.period.into(),
            Column::Deadline => r.deadline.into(),
            Column::Priority => r.priority.into(),
            Column::Threshold => r.threshold.into(),
            Column::Jitter => r.jitter.into(),
        }
    }
}

// One number for each task.
pub type Numbers = [u64; MOST_TASKS];

// Of all records, those past n too. The second promise lets a caller go from columns to records at every index.
#[tactic(auto, using(laws::proofs::Turns::fills))]
pub fn column_of(rs: &[Record; MOST_TASKS], which: Column) -> Numbers
    ensures value { result ≡ column_of rs.now which }
    ensures rs_len { length rs.now ≡ most_tasks }
{
    let mut xs = [0u64; MOST_TASKS];
    for k in 0..MOST_TASKS {
        xs[k] = which.value_in(&rs[k]);
    }
    xs
}

// The numbers of tasks, whatever they are: a column for each kind. Priorities and thresholds stand beside it, because the listing
// makes them anew for each row.
#[derive(Clone, Copy)]
pub struct Columns {
    pub costs: Numbers,
    pub periods: Numbers,
    pub deadlines: Numbers,
    pub jitters: Numbers,
}

impl Columns {
    ghost use Rattle.std.specs.Prelude.{◌≡◌, ◌<◌, get_or, length};
    ghost use Rattle.paper.specs.Numbers.{most_tasks};
    ghost use Rattle.columns.specs.Columns.{column_of};
    ghost use Rattle.columns.specs.declared.Column.TheVariants.{Cost, Period, Deadline, Jitter};

    // Of all records, those past n too.
    pub fn new(rs: &[Record; MOST_TASKS]) -> Columns
        ensures costs { result.costs ≡ column_of rs.now Cost }
        ensures periods { result.periods ≡ column_of rs.now Period }
        ensures deadlines { result.deadlines ≡ column_of rs.now Deadline }
        ensures jitters { result.jitters ≡ column_of rs.now Jitter }
        ensures rs_len { length rs.now ≡ most_tasks }
    {
        Columns {
            costs: column_of(rs, Column::Cost),
            periods: column_of(rs, Column::Period),
            deadlines: column_of(rs, Column::Deadline),
            jitters: column_of(rs, Column::Jitter),
        }
    }

    // C(k), T(k), D(k) and J(k).
    pub fn cost(&self, k: usize) -> u64
        requires { k < most_tasks }
        ensures { result ≡ get_or self.now.costs k 0 }
    {
        self.costs[k]
    }

    pub fn period(&self, k: usize) -> u64
        requires { k < most_tasks }
        ensures { result ≡ get_or self.now.periods k 0 }
    {
        self.periods[k]
    }

    pub fn deadline(&self, k: usize) -> u64
        requires { k < most_tasks }
        ensures { result ≡ get_or self.now.deadlines k 0 }
    {
        self.deadlines[k]
    }

    pub fn jitter(&self, k: usize) -> u64
        requires { k < most_tasks }
        ensures { result ≡ get_or self.now.jitters k 0 }
    {
        self.jitters[k]
    }
}

// Tasks on which the analysis may run: their number and their columns.
#[derive(Clone, Copy)]
pub struct Tasks {
    pub n: usize,
    pub columns: Columns,
    ghost ranged: { Ranged (tasks_by n columns.costs columns.periods columns.deadlines columns.jitters) },
}

impl Tasks {
    ghost use Rattle.std.specs.Prelude.{◌≡◌, ◌<◌};
    ghost use Rattle.paper.specs.Numbers.{most_tasks};
    ghost use Rattle.paper.specs.Analysis.{tasks_of};
    ghost use Rattle.columns.specs.Columns.{tasks_by, Ranged};
    ghost use Rattle.columns.specs.Tasks.{tasks_in};

    // Those of a table.
    pub fn new(t: &Table) -> Tasks
        requires { Ranged (tasks_of t.now.records t.now.n) }
        ensures { tasks_in result ≡ tasks_of t.now.records t.now.n }
    {
        Tasks {
            n: t.n,
            columns: Columns::new(&t.records),
        }
    }

    // Those whose numbers stand in four columns.
    pub fn by(
        n: usize,
        costs: &Numbers,
        periods: &Numbers,
        deadlines: &Numbers,
        jitters: &Numbers,
    ) -> Tasks
        requires { Ranged (tasks_by n costs.now periods.now deadlines.now jitters.now) }
        ensures { tasks_in result ≡ tasks_by n costs.now periods.now deadlines.now jitters.now }
    {
        Tasks {
            n,
            columns: Columns {
                costs: *costs,
                periods: *periods,
                deadlines: *deadlines,
                jitters: *jitters,
            },
        }
    }

    // C(k), T(k), D(k) and J(k).
    pub fn cost(&self, k: usize) -> u64
        requires { k < most_tasks }
        ensures { result ≡ (tasks_in self.now).c k }
    {
        self.columns.cost(k)
    }

    pub fn period(&self, k: usize) -> u64
        requires { k < most_tasks }
        ensures { result ≡ (tasks_in self.now).t k }
    {
        self.columns.period(k)
    }

    pub fn deadline(&self, k: usize) -> u64
        requires { k < most_tasks }
        ensures { result ≡ (tasks_in self.now).d k }
    {
        self.columns.deadline(k)
    }

    pub fn jitter(&self, k: usize) -> u64
        requires { k < most_tasks }
        ensures { result ≡ (tasks_in self.now).j k }
    {
        self.columns.jitter(k)
    }
}
