//! Which first dates and counts of days there may be.

ghost use Rattle.std.specs.Prelude.{◌≡◌, ℕ, List, true, IfErr, OnOk};
ghost use Rattle.service_days.specs.Days.{IsDaysRefusal, is_first_date, is_day_count, new_days};
ghost use Rattle.service_days.specs.Zones.{zone_days};

use crate::civil::is_date;
use std::alloc::AllocError;

/// Why there are no days of this first date and count.
#[derive(Clone, Copy, Debug, PartialEq, Eq)]
pub enum RangeFault {
    /// The first date is no civil date of the years 1900 to 2199.
    BadDate,
    /// There are not 1 to 60 days.
    BadCount,
    /// The zone rule is not one, or makes a day of less than 22 or more than 26 hours.
    BadZone,
    OutOfMemory,
}

impl From<AllocError> for RangeFault {
    ghost use Rattle.std.specs.Prelude.{◌≡◌};
    ghost use Rattle.service_days.specs.declared.range.RangeFault.TheVariants.{OutOfMemory};

    ghost from_gives = { λ _ fault. fault ≡ OutOfMemory };

    fn from(_: AllocError) -> RangeFault {
        RangeFault::OutOfMemory
    }
}

/// Whether days may begin at this date, and be so many.
pub(crate) fn check_range(first: u32, count: u32) -> Result<(), RangeFault>
    ensures date { OnOk result (is_first_date first ≡ true) }
    ensures count { OnOk result (is_day_count count ≡ true) }
    ensures err { IfErr result (IsDaysRefusal (new_days first count)) }
    ensures zone { IfErr result (λ fault. (rule : List ℕ) → IsDaysRefusal
        (zone_days first count rule) fault) }
{
    let year = first / 10_000;
    if !is_date(first) || year < 1900 || year > 2199 {
        return Err(RangeFault::BadDate);
    }
    if count < 1 || count > 60 {
        return Err(RangeFault::BadCount);
    }
    Ok(())
}
