//! Sets of days, by their numbers.

ghost use Rattle.std.specs.Prelude.{◌≡◌, ◌<◌, ◌==◌, ◌||◌, ℕ, false};
ghost use Rattle.std.specs.Int.{bit_at};
ghost use Rattle.plan_base.specs.DaySets.{contains_day};

/// A set of day numbers below 128: day `k` is in it where bit `k` is set.
#[derive(Clone, Copy, Debug, PartialEq, Eq)]
pub struct DaySet(pub u128);

impl DaySet {
    /// The set that has no day.
    pub fn new() -> DaySet
        ensures value { result.0 ≡ 0 }
        ensures empty { (day : ℕ) → contains_day result day ≡ false }
    {
        DaySet(0)
    }

    /// Whether the day is in the set; a day of 128 or more never is.
    pub fn contains(self, day: u32) -> bool
        ensures { result ≡ contains_day self day }
    {
        has_bit(self.0, day)
    }

    /// The set with this day too.
    pub fn with_day(self, day: u32) -> DaySet
        requires { day < 128 }
        ensures { (other : ℕ) → contains_day result other ≡ (other == day || contains_day self other) }
    {
        DaySet(self.0 | 1 << day)
    }
}

/// Whether bit `at` is set; no bit from 128 on is.
fn has_bit(bits: u128, at: u32) -> bool
    ensures { result ≡ (bit_at bits at == 1) }
{
    if at < 128 {
        (bits >> at) & 1 == 1
    } else {
        false
    }
}
