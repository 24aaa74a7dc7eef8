//! When the trips of a feed leave, and how often.

ghost use Rattle.std.specs.Prelude.{◌≡◌, ◌<◌, ◌≤◌, ◌-◌, ◌++◌, length, IfSome, OnOk};
ghost use Rattle.std.specs.Int.{div_ceil};
ghost use Rattle.std.specs.List.{AllByRecursion, flat_map, list_all};
ghost use Rattle.region_build.specs.Copies as spec;
ghost use Rattle.region_build.specs.inside.Leaving.{AreCopyCounts, AreRowCounts, kept_before};
ghost use Rattle.region_build.specs.inside.Leaving.{latest_of, leaves_by};
ghost use Rattle.region_build.specs.Sources.{lists_of};

use crate::sources::Source;
use gtfs_tables::{CallRow, FrequencyRow};
use std::alloc::AllocError;

/// When a trip leaves its first stop.
pub(crate) fn first_departure(calls: &[CallRow]) -> u32
    ensures { result ≡ spec.first_departure calls.now }
{
    match calls {
        [] => 0,
        [call, ..] => call.dep,
    }
}

/// The latest time of some calls.
fn latest(calls: &[CallRow]) -> u32
    ensures { result ≡ latest_of 0 calls.now }
{
    let mut latest = 0u32;
    let mut rest = calls;
    while let [call, after @ ..] = rest {
        latest = latest.max(call.arr.max(call.dep));
        rest = after;
    }
    latest
}

/// A copy of a trip that leaves at this time or later has a time past 167:59:59.
fn kept_before(calls: &[CallRow]) -> u64
    ensures { result ≡ kept_before calls.now }
{
    let end = 604_800 + u64::from(first_departure(calls));
    end.saturating_sub(u64::from(latest(calls)))
}

/// Whether all headways of a trip are exact.
pub(crate) fn are_exact(rows: &[FrequencyRow]) -> bool
    ensures { result ≡ list_all (λ row. row.exact) rows.now }
{
    rows.iter().all(|row| row.exact)
}

/// Whether a trip has two calls or more, and some day.
pub(crate) fn runs(source: &Source<'_>) -> bool
    ensures { result ≡ spec.runs (lists_of source.now) }
{
    source.calls.len() >= 2 && source.days.0 > 0
}

/// Whether a trip leaves at all: it runs, and has no headway without exact times.
fn is_leaving(source: &Source<'_>) -> bool
    ensures { result ≡ spec.is_leaving (lists_of source.now) }
{
    runs(source) && are_exact(source.frequencies)
}

/// Puts the times of a row at which a trip leaves, before a time, to the others.
#[tactic(auto, unfolding(crate::specs::inside::Leaving::leaves_by))]
fn push_leaves(times: &mut Vec<u64>, before: u64, row: &FrequencyRow) -> Result<(), AllocError>
    ensures { OnOk result (times.new.items ≡ times.old.items ++ leaves_by before row.now) }
{
    let headway = u64::from(row.headway);
    let end = u64::from(row.end).min(before);
    let mut leave = u64::from(row.start);
    let mut most = row.end.saturating_sub(row.start);
    while most > 0 && leave < end {
        times.push(leave)?;
        leave += headway;
        most -= 1;
    }
    Ok(())
}

/// The same of several rows.
fn push_all_leaves(
    times: &mut Vec<u64>,
    before: u64,
    rows: &[FrequencyRow],
) -> Result<(), AllocError>
    ensures { OnOk result (times.new.items ≡ times.old.items ++ flat_map (leaves_by before) rows.now) }
{
    for row in rows {
        push_leaves(times, before, row)?;
    }
    Ok(())
}

/// Puts the times at which a trip leaves its first stop, on copies that are kept, in the place of others.
pub(crate) fn leaves_into(times: &mut Vec<u64>, source: &Source<'_>) -> Result<(), AllocError>
    ensures { OnOk result (times.new.items ≡ spec.leaves_of (lists_of source.now)) }
{
    times.clear();
    if !is_leaving(source) {
        return Ok(());
    }
    let before = kept_before(source.calls);
    let first = u64::from(first_departure(source.calls));
    if !source.frequencies.is_empty() {
        push_all_leaves(times, before, source.frequencies)?;
    } else if first < before {
        times.push(first)?;
    }
    Ok(())
}

/// How many copies of a trip are kept, and how many there are with those that are late.
#[derive(Clone, Copy)]
pub(crate) struct CopyCounts {
    pub(crate) kept: u64,
    all: u64,
}

/// How often one leaves at a steady headway, from a start on and before an end.
fn starts(start: u64, end: u64, headway: u64) -> u64
    requires { 0 < headway }
    ensures { result ≡ div_ceil (end - start) headway }
{
    end.saturating_sub(start).div_ceil(headway)
}

/// How often a trip leaves by a row, and how often before a time.
fn count_row(before: u64, row: &FrequencyRow) -> CopyCounts
    requires { 1 ≤ row.now.headway }
    ensures kept { result.kept ≡ length (leaves_by before row.now) }
    ensures all { result.all ≡ length (spec.departures_by row.now) }
{
    let (start, end) = (u64::from(row.start), u64::from(row.end));
    let headway = u64::from(row.headway);
    CopyCounts {
        kept: starts(start, end.min(before), headway),
        all: starts(start, end, headway),
    }
}

impl CopyCounts {
    ghost use Rattle.std.specs.Prelude.{◌≡◌, ◌+◌, ◌-◌, IfSome};

    /// Of a trip that never leaves.
    const NONE: CopyCounts = CopyCounts { kept: 0, all: 0 };

    /// How many copies are late.
    pub(crate) fn late(self) -> u64
        ensures { result ≡ self.all - self.kept }
    {
        self.all.saturating_sub(self.kept)
    }

    /// Both together; `None` where a count is past 64 bits.
    fn and(self, other: CopyCounts) -> Option<CopyCounts>
        ensures { IfSome result (λ sum. (sum.kept ≡ self.kept + other.kept)
            × (sum.all ≡ self.all + other.all)) }
    {
        Some(CopyCounts {
            kept: self.kept.checked_add(other.kept)?,
            all: self.all.checked_add(other.all)?,
        })
    }
}

/// The same of several rows; `None` where a count is past 64 bits.
fn count_rows(before: u64, rows: &[FrequencyRow]) -> Option<CopyCounts>
    requires { AllByRecursion (λ row. 1 ≤ row.headway) rows.now }
    ensures { IfSome result (AreRowCounts before rows.now) }
{
    let mut counts = CopyCounts::NONE;
    let mut rest = rows;
    while let [row, after @ ..] = rest {
        counts = counts.and(count_row(before, row))?;
        rest = after;
    }
    Some(counts)
}

/// How many copies of a trip there are and how many are kept, counted without making one; `None` where a count is past 64
/// bits.
pub(crate) fn count_copies(source: &Source<'_>) -> Option<CopyCounts>
    requires { AllByRecursion (λ row. 1 ≤ row.headway) source.now.frequencies.now }
    ensures { IfSome result (AreCopyCounts (lists_of source.now)) }
{
    if !is_leaving(source) {
        return Some(CopyCounts::NONE);
    }
    let before = kept_before(source.calls);
    let first = u64::from(first_departure(source.calls));
    if !source.frequencies.is_empty() {
        count_rows(before, source.frequencies)
    } else if first < before {
        Some(CopyCounts { kept: 1, all: 1 })
    } else {
        Some(CopyCounts { kept: 0, all: 1 })
    }
}
