//! What was left out of a region.

ghost use Rattle.std.specs.Prelude.{◌≡◌, ◌+◌, if◌then◌else◌, IfSome};
ghost use Rattle.region_build.specs.Left as spec;
ghost use Rattle.region_build.specs.Sources.{lists_of};

use crate::headways::{are_exact, runs};
use crate::sources::Source;

/// How many trips of a feed, and copies of them, do not run in a region, and why.
#[derive(Clone, Copy, Debug, PartialEq, Eq)]
pub struct LeftOut {
    /// Trips with fewer than two calls.
    pub short: u64,
    /// Trips with two calls or more whose service runs on no day of the region.
    pub idle: u64,
    /// Trips that would run, but have a headway without exact times.
    pub inexact: u64,
    /// Copies with a time past 167:59:59.
    pub late: u64,
}

/// A count with one more, if there is one; `None` past 64 bits.
fn with_one(count: u64, is: bool) -> Option<u64>
    ensures { IfSome result (λ more. more ≡ count + (if is then 1 else 0)) }
{
    if is {
        count.checked_add(1)
    } else {
        Some(count)
    }
}

/// Whether a trip has fewer than two calls.
fn is_short(source: &Source<'_>) -> bool
    ensures { result ≡ spec.is_short (lists_of source.now) }
{
    source.calls.len() < 2
}

/// Whether a trip has two calls or more, and no day.
fn is_idle(source: &Source<'_>) -> bool
    ensures { result ≡ spec.is_idle (lists_of source.now) }
{
    source.calls.len() >= 2 && source.days.0 == 0
}

/// Whether a trip would run, but for a headway without exact times.
fn is_inexact(source: &Source<'_>) -> bool
    ensures { result ≡ spec.is_inexact (lists_of source.now) }
{
    runs(source) && !are_exact(source.frequencies)
}

impl LeftOut {
    ghost use Rattle.std.specs.Prelude.{List, [], ◌∷◌, ◌++◌, IfSome};
    ghost use Rattle.region_build.specs.Sources.{SourceLists};

    /// Nothing is left out.
    pub(crate) const NOTHING: LeftOut = LeftOut {
        short: 0,
        idle: 0,
        inexact: 0,
        late: 0,
    };

    /// The counts with a trip more, of which so many copies are late; `None` where one is past 64 bits.
    pub(crate) fn with(self, source: &Source<'_>, late: u64) -> Option<LeftOut>
        requires { late ≡ spec.late_copies (lists_of source.now) }
        ensures { IfSome result (λ more. (sources : List SourceLists) → spec.AreLeft sources self
            → spec.AreLeft (sources ++ lists_of source.now ∷ []) more) }
    {
        Some(LeftOut {
            short: with_one(self.short, is_short(source))?,
            idle: with_one(self.idle, is_idle(source))?,
            inexact: with_one(self.inexact, is_inexact(source))?,
            late: self.late.checked_add(late)?,
        })
    }
}
