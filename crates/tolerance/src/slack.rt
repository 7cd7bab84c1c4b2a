// A difference of two numbers that is compared without a sign.

ghost use Rattle.std.specs.Prelude.{◌≤◌};
ghost use Rattle.paper.specs.Numbers.{most_ticks};
ghost use Rattle.tolerance.specs.Bounds.{most_need};

// One of the differences that a tolerance is the largest of: `at` less `need`, which may be below zero.
#[derive(Clone, Copy)]
pub struct Slack {
    pub at: u64,
    pub need: u64,
    ghost small: { (at ≤ most_ticks) × (need ≤ most_need) },
}

impl Slack {
    ghost use Rattle.std.specs.Prelude.{◌≡◌, ◌+◌, ◌-◌, ◌*◌, ◌/◌, ◌≤◌, ◌<◌, min};
    ghost use Rattle.paper.specs.Numbers.{most_ticks};
    ghost use Rattle.tolerance.specs.Bounds.{most_need, most_part};
    ghost use Rattle.tolerance.specs.Walk.{jobs_by, value_of, larger_of};

    pub fn new(at: u64, need: u64) -> Slack
        requires { (at ≤ most_ticks) × (need ≤ most_need) }
        ensures at { result.at ≡ at }
        ensures need { result.need ≡ need }
    {
        Slack { at, need }
    }

    // Compared by two sums: no number is below zero on the way.
    #[tactic(auto, using(std::proofs::lemmas::Bool::Decides::nat_tests), unfolding(crate::specs::Walk::larger_of))]
    pub fn larger(self, other: Slack) -> Slack
        ensures { result ≡ larger_of self other }
    {
        if self.at + other.need <= other.at + self.need {
            other
        } else {
            self
        }
    }

    // Both numbers are far below 2 ^ 63, so the machine's difference is exact.
    pub fn signed(self) -> i64
        ensures { result ≡ value_of self }
    {
        self.at as i64 - self.need as i64
    }

    // One more task above. One division serves both the end of the stretch and the need in it. It fits 32 bits, in which many
    // machines divide far quicker.
    pub fn with_task(self, cost: u64, period: u64, jitter: u64, from: u64) -> Slack
        requires { (cost ≤ most_ticks) × (jitter < period) × (period ≤ most_ticks) × (from ≤ most_ticks) × (self.need + most_part ≤ most_need) }
        ensures at { result.at ≡ min self.at (jobs_by period jitter from * period - jitter) }
        ensures need { result.need ≡ self.need + jobs_by period jitter from * cost }
    {
        let jobs = 1 + u64::from((from + jitter) as u32 / period as u32);
        Slack {
            at: self.at.min(jobs * period - jitter),
            need: self.need + jobs * cost,
        }
    }
}
