//! Where nodes stand in a list of them, such as a sheet's, and the rows of a place.

ghost use Rattle.std.specs.Prelude.{◌<◌, ◌^◌, ℕ, All, IfOk, IfSome, IfNone, IsTrue, length};
ghost use Rattle.std.proofs.Props.{props};
ghost use Rattle.sweeps.specs.Layers.{StandsBehind, IsNoNewNode, LeadsElsewhere, ComesFromElsewhere};
ghost use Rattle.sweeps.specs.inside.Building.{AreUps, AreDowns, AreUpsAt, AreDownsAt, AreRowsOf, IsPlaceBehind};
ghost use Rattle.sweeps.specs.inside.Tables.{ArePlacesOf};

use crate::rows::Rows;
use hierarchy::{Fall, Hierarchy};
use search_laws::Leg;
use std::alloc::{AllocError, Global};

/// What a table has for a number that is of no node.
const NOWHERE: u32 = u32::MAX;
/// Nodes have lower numbers.
const PAST_NODES: u32 = 1 << 24;

/// Nodes, such as those of a sheet, and for each number of a node its place among them, if it has one.
#[derive(Clone, Copy)]
pub struct Places<'a> {
    pub nodes: &'a [u32],
    pub of: &'a [u32],
    ghost are: { ArePlacesOf nodes.now (length nodes.now) of.now } by { Prim.hlevel props },
}

/// For each number of a node its place among these, if it has one. None where one of them stands twice or is no number of a node.
/// That there are 2^32 - 1 or more counts as want of memory.
pub fn place_table(alloc: Global, nodes: &[u32]) -> Result<Option<Vec<u32>>, AllocError>
    ensures some { IfOk result (λ made. IfSome made (λ table. ArePlacesOf nodes.now (length nodes.now)
        table.items)) }
    ensures none { IfOk result (λ made. IfNone made ((i : ℕ) × IsNoNewNode nodes.now i)) }
{
    let mut places = vec![in alloc; NOWHERE; past(nodes) as usize]?;
    for i in 0..nodes.len() {
        let at = nodes[i] as usize;
        if i >= NOWHERE as usize {
            return Err(AllocError);
        }
        if at >= places.len() || places[at] != NOWHERE {
            return Ok(None);
        }
        places[at] = i as u32;
    }
    Ok(Some(places))
}

/// A number that is above all of these that are numbers of nodes.
fn past(nodes: &[u32]) -> u32
    ensures { All (λ v. v < 2 ^ 24 → v < result) nodes.now }
{
    let mut past = 0;
    for node in nodes {
        if *node < PAST_NODES {
            past = past.max(*node + 1);
        }
    }
    past
}

impl Places<'_> {
    ghost use Rattle.std.specs.Prelude.{◌≡◌, ℕ, ◌<◌, false, Contains, IfOk, IfSome, IfNone, IsTrue, length, slice_index};
    ghost use Rattle.hierarchy.specs.Rises.{legs_from};
    ghost use Rattle.hierarchy.specs.Lookups.{falls_into};

    /// The place of a node, if it is one of these.
    #[inline(always)]
    pub fn place_of(&self, node: u32) -> Option<u32>
        ensures some { IfSome result (λ place. (place < length self.now.nodes.now)
            × (slice_index self.now.nodes.now place ≡ node)) }
        ensures none { IfNone result (Contains self.now.nodes.now node → ⊥) }
    {
        let place = *self.of.get(node as usize)?;
        let at = place as usize;
        if at < self.nodes.len() && self.nodes[at] == node {
            Some(place)
        } else {
            None
        }
    }

    /// The place of a node, if it is behind place `i`.
    #[inline(always)]
    fn behind(&self, i: usize, node: u32) -> Option<u32>
        ensures some { IfSome result (IsPlaceBehind self.now.nodes.now i node) }
        ensures none { IfNone result (StandsBehind self.now.nodes.now i node → ⊥) }
    {
        let place = self.place_of(node)?;
        if i < place as usize {
            Some(place)
        } else {
            None
        }
    }

    /// Makes a row of these legs up from place `i`, which say `2v` for a node v, by the places that they lead to. Whether all of these
    /// are behind it.
    fn ups(&self, i: usize, legs: &[Leg], row: &mut Vec<Leg>) -> Result<bool, AllocError>
        ensures some { IfOk result (λ found. IsTrue found → AreUps self.now.nodes.now i legs.now row.new.items) }
        ensures none { IfOk result (λ found. found ≡ false → LeadsElsewhere self.now.nodes.now i legs.now) }
    {
        row.clear();
        for leg in legs {
            let node = leg.to / 2;
            let Some(to) = self.behind(i, node) else {
                return Ok(false);
            };
            if leg.to != 2 * node {
                return Ok(false);
            }
            row.push(Leg { to, ms: leg.ms })?;
        }
        Ok(true)
    }

    /// Makes a row of these entries that lead down to place `i`, by the places that they come from. Whether all of these are behind
    /// it, and each entry takes less than 2^32 ms.
    fn downs(&self, i: usize, falls: &[Fall], row: &mut Vec<Leg>) -> Result<bool, AllocError>
        ensures some { IfOk result (λ found. IsTrue found → AreDowns self.now.nodes.now i falls.now row.new.items) }
        ensures none { IfOk result (λ found. found ≡ false → ComesFromElsewhere self.now.nodes.now i falls.now) }
    {
        row.clear();
        for fall in falls {
            let Some(to) = self.behind(i, fall.from) else {
                return Ok(false);
            };
            let Ok(ms) = u32::try_from(fall.weight) else {
                return Ok(false);
            };
            row.push(Leg { to, ms })?;
        }
        Ok(true)
    }

    /// For each place the legs from there up. None where one leads to no place behind it.
    pub(crate) fn all_ups(&self, alloc: Global, h: &Hierarchy) -> Result<Option<Rows>, AllocError>
        ensures none { IfOk result (λ made. IfNone made ((i : ℕ) × (i < length self.now.nodes.now)
            × LeadsElsewhere self.now.nodes.now i (legs_from h.now (slice_index self.now.nodes.now i)))) }
        ensures some { IfOk result (λ made. IfSome made
            (AreRowsOf (AreUpsAt h.now self.now.nodes.now) (length self.now.nodes.now))) }
    {
        let mut rows = Rows::new(alloc)?;
        let mut row = Vec::new(alloc);
        for (i, node) in self.nodes.iter().enumerate() {
            if !self.ups(i, h.legs_from(*node), &mut row)? {
                return Ok(None);
            }
            rows = rows.with_row(&row)?;
        }
        Ok(Some(rows))
    }

    /// For each place the legs down to there. None where one comes from no place behind it, or takes 2^32 ms or longer.
    pub(crate) fn all_downs(&self, alloc: Global, h: &Hierarchy) -> Result<Option<Rows>, AllocError>
        ensures none { IfOk result (λ made. IfNone made ((i : ℕ) × (i < length self.now.nodes.now)
            × ComesFromElsewhere self.now.nodes.now i (falls_into h.now (slice_index self.now.nodes.now i)))) }
        ensures some { IfOk result (λ made. IfSome made
            (AreRowsOf (AreDownsAt h.now self.now.nodes.now) (length self.now.nodes.now))) }
    {
        let mut rows = Rows::new(alloc)?;
        let mut row = Vec::new(alloc);
        for (i, node) in self.nodes.iter().enumerate() {
            if !self.downs(i, h.falls_into(*node), &mut row)? {
                return Ok(None);
            }
            rows = rows.with_row(&row)?;
        }
        Ok(Some(rows))
    }
}
