//! Delays after a departure, in rows.

ghost use Rattle.std.specs.Prelude.{◌≡◌, ◌+◌, ◌-◌, ◌^◌, ◌<◌, ◌≤◌, ℕ, IfOk, IfSome, length, true, false};
ghost use Rattle.sweeps.specs.Sweeps.{time_at};
ghost use Rattle.rounds.specs.inside.Rows.{HaveShape, AreLowered, IsRowLowered, row_of, cell, never};

use search_laws::Time;
use std::alloc::{AllocError, Global};

/// Stands for never.
pub(crate) const NEVER: u32 = u32::MAX;

/// How long a time is after a departure, if it is, and less than never.
pub(crate) fn delay_of(at: Time, dep: Time) -> Option<u32>
    ensures { IfSome result (λ delay. (at ≡ dep + delay) × (delay < never)) }
{
    if at < dep {
        return None;
    }
    match u32::try_from(at - dep) {
        Ok(delay) if delay < NEVER => Some(delay),
        _ => None,
    }
}

/// Rows of so many delays each, all of which are never.
pub(crate) fn rows_of(alloc: Global, count: u32, width: usize) -> Result<Vec<Vec<u32>>, AllocError>
    ensures shape { IfOk result (λ rows. HaveShape count width rows.items) }
    ensures none { IfOk result (λ rows. (k i : ℕ) → k < count → i < width → cell rows.items k i ≡ never) }
{
    let mut rows = Vec::with_capacity(alloc, count as usize)?;
    for _ in 0..count {
        rows.push(vec![in alloc; NEVER; width]?)?;
    }
    Ok(rows)
}

/// Makes the delay at a place of a row no longer than this. Whether it was longer.
#[inline(always)]
pub(crate) fn lower(rows: &mut Vec<Vec<u32>>, row: u32, place: u32, delay: u32) -> bool
    requires row { row < length rows.old.items }
    requires place { place < length (row_of rows.old.items row) }
    ensures lowered { AreLowered (λ k i t. (k ≡ row) × (i ≡ place) × (t ≡ delay)) rows.old.items rows.new.items }
    ensures here { cell rows.new.items row place ≤ delay }
    ensures same { result ≡ false → rows.new.items ≡ rows.old.items }
{
    let delays = &mut rows[row as usize];
    let at = place as usize;
    if delay < delays[at] {
        delays[at] = delay;
        true
    } else {
        false
    }
}

/// Makes the delay at a place no longer than this. Whether it was longer.
#[inline(always)]
pub(crate) fn lower_in(delays: &mut [u32], place: usize, delay: u32) -> bool
    requires place { place < length delays.old }
    ensures lowered { IsRowLowered (λ i t. (i ≡ place) × (t ≡ delay)) delays.old delays.new }
    ensures here { time_at delays.new place ≤ delay }
    ensures same { result ≡ false → delays.new ≡ delays.old }
{
    if delay < delays[place] {
        delays[place] = delay;
        true
    } else {
        false
    }
}
