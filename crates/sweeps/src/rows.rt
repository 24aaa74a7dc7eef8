//! Legs in rows, one row behind the other.

ghost use Rattle.std.specs.Prelude.{length};
ghost use Rattle.sweeps.specs.inside.Bounds.{AreBounded};

use search_laws::Leg;
use std::alloc::{AllocError, Global};

/// Legs in rows: each row ends where the next one begins.
#[derive(Drop)]
pub struct Rows {
    /// Where each row begins, and where the last one ends.
    pub(crate) bounds: Vec<u32>,
    pub(crate) legs: Vec<Leg>,
    ghost bounded: { AreBounded bounds.items (length legs.items) },
}

impl Rows {
    ghost use Rattle.std.specs.Prelude.{◌≡◌, ◌<◌, ◌≤◌, ℕ, All, IfOk};
    ghost use Rattle.sweeps.specs.Rows.{row_at, count_of};
    ghost use Rattle.sweeps.specs.inside.Building.{IsOneMoreRow};

    /// No rows.
    pub(crate) fn new(alloc: Global) -> Result<Rows, AllocError>
        ensures { IfOk result (λ rows. count_of rows ≡ 0) }
    {
        let mut bounds = Vec::new(alloc);
        bounds.push(0)?;
        Ok(Rows {
            bounds,
            legs: Vec::new(alloc),
        })
    }

    /// The legs of a row.
    #[inline(always)]
    pub(crate) fn row(&self, i: usize) -> &[Leg]
        requires { i < count_of self.now }
        ensures { result.now ≡ row_at self.now i }
    {
        &self.legs[self.bounds[i] as usize..self.bounds[i + 1] as usize]
    }

    /// How long the longest leg takes.
    pub(crate) fn longest(&self) -> u32
        ensures { (i : ℕ) → All (λ leg. leg.ms ≤ result) (row_at self.now i) }
    {
        let mut longest = 0;
        for leg in &self.legs {
            longest = longest.max(leg.ms);
        }
        longest
    }

    /// These rows, and one more behind them. That they have 2^32 legs or more together counts as want of memory.
    pub(crate) fn with_row(self, row: &[Leg]) -> Result<Rows, AllocError>
        ensures { IfOk result (λ rows. IsOneMoreRow self row.now rows) }
    {
        let Rows {
            mut bounds,
            mut legs,
        } = self;
        legs.extend_from_slice(row)?;
        let Ok(end) = u32::try_from(legs.len()) else {
            return Err(AllocError);
        };
        bounds.push(end)?;
        Ok(Rows { bounds, legs })
    }
}
