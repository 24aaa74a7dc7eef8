//! How much a region has of all that has a limit, found before any copy of a trip is made.

ghost use Rattle.std.specs.Prelude.{◌≡◌, ◌≤◌, IfOk, IfSome, map};
ghost use Rattle.std.specs.List.{AllByRecursion};
ghost use Rattle.region_build.specs.Copies as spec;
ghost use Rattle.region_build.specs.Compiled.{kind_over};
ghost use Rattle.region_build.specs.Sources.{lists_of};
ghost use Rattle.region_build.specs.Tallies.{IsTally};

use crate::headways::{CopyCounts, count_copies};
use crate::left::LeftOut;
use crate::sources::Source;
use gtfs_tables::CallRow;
use plan_base::{Caps, Kind};
use std::alloc::AllocError;

/// How much there is of all that has a limit.
#[derive(Clone, Copy)]
pub(crate) struct Counts {
    pub(crate) nodes: u128,
    pub(crate) stops: u64,
    pub(crate) arcs: u64,
    pub(crate) links: u64,
    pub(crate) trips: u64,
    pub(crate) calls: u128,
}

/// What there is too much of, if anything.
pub(crate) fn kind_over(caps: &Caps, counts: &Counts) -> Option<Kind>
    ensures { result ≡ kind_over caps.now counts.now }
{
    if counts.nodes > u128::from(caps.nodes) {
        Some(Kind::Nodes)
    } else if counts.stops > caps.stops {
        Some(Kind::Stops)
    } else if counts.arcs > caps.arcs {
        Some(Kind::Arcs)
    } else if counts.links > caps.links {
        Some(Kind::Links)
    } else if counts.trips > caps.trips {
        Some(Kind::Trips)
    } else if counts.calls > u128::from(caps.calls) {
        Some(Kind::Calls)
    } else {
        None
    }
}

/// How many trips a region has and how many calls they have together, the row in trips.txt of the first of them whose
/// times go back, and what is left out.
#[derive(Clone, Copy)]
pub(crate) struct Tally {
    pub(crate) trips: u64,
    pub(crate) calls: u128,
    pub(crate) back: Option<u64>,
    pub(crate) left_out: LeftOut,
}

/// Whether a trip's times never go back.
fn goes_on(calls: &[CallRow]) -> bool
    ensures { result ≡ spec.rows_go_on 0 calls.now }
{
    let mut time = 0;
    let mut rest = calls;
    while let [call, after @ ..] = rest {
        if call.arr < time || call.dep < call.arr {
            return false;
        }
        time = call.dep;
        rest = after;
    }
    true
}

/// The row of a trip that has copies and whose times go back.
fn back_of(copies: u64, source: &Source<'_>) -> Option<u64>
    ensures { result ≡ spec.back_of copies (lists_of source.now) }
{
    if copies > 0 && !goes_on(source.calls) {
        Some(source.row)
    } else {
        None
    }
}

impl Tally {
    ghost use Rattle.std.specs.Prelude.{[], ◌∷◌, ◌++◌, List, IfSome};
    ghost use Rattle.region_build.specs.inside.Leaving.{AreCopyCounts};
    ghost use Rattle.region_build.specs.Sources.{SourceLists, lists_of};
    ghost use Rattle.region_build.specs.Tallies.{IsTally};

    /// Of no trips.
    const NONE: Tally = Tally {
        trips: 0,
        calls: 0,
        back: None,
        left_out: LeftOut::NOTHING,
    };

    /// With one trip more; `None` where a count is past its bits.
    fn with(self, source: &Source<'_>, counted: CopyCounts) -> Option<Tally>
        requires { AreCopyCounts (lists_of source.now) counted }
        ensures { IfSome result (λ more. (sources : List SourceLists) → IsTally sources self
            → IsTally (sources ++ lists_of source.now ∷ []) more) }
    {
        let (kept, late) = (counted.kept, counted.late());
        let calls = u128::from(kept).checked_mul(source.calls.len() as u128)?;
        Some(Tally {
            trips: self.trips.checked_add(kept)?,
            calls: self.calls.checked_add(calls)?,
            back: self.back.or(back_of(kept, source)),
            left_out: self.left_out.with(source, late)?,
        })
    }
}

/// What the trips of these sources come to; `None` where a count is past its bits.
fn tallied(sources: &[Source<'_>]) -> Option<Tally>
    requires { AllByRecursion (λ source. AllByRecursion (λ row. 1 ≤ row.headway) source.frequencies.now)
        sources.now }
    ensures { IfSome result (IsTally (map lists_of sources.now)) }
{
    let mut tally = Tally::NONE;
    let mut rest = sources;
    while let [source, after @ ..] = rest {
        let counted = count_copies(source)?;
        tally = tally.with(source, counted)?;
        rest = after;
    }
    Some(tally)
}

/// What the trips of these sources come to. A count that is past its bits is one of more rows than memory holds.
pub(crate) fn tally_of(sources: &[Source<'_>]) -> Result<Tally, AllocError>
    requires { AllByRecursion (λ source. AllByRecursion (λ row. 1 ≤ row.headway) source.frequencies.now)
        sources.now }
    ensures { IfOk result (IsTally (map lists_of sources.now)) }
{
    match tallied(sources) {
        Some(tally) => Ok(tally),
        None => Err(AllocError),
    }
}
