//! Clause 4: whatever two entries lead by way of a contracted node, another way is no heavier.

ghost use Rattle.std.specs.Prelude.{◌<◌, ◌^◌, ◌↔◌, All, IsTrue, MatchOption, length};
ghost use Rattle.std.specs.List.{HoldsAt};
ghost use Rattle.search_laws.specs.Firsts.{HoldsBelow};
ghost use Rattle.hierarchy.specs.Soundness.{IsBridged, ArePairAt, PairIsBridged, PairsAreBridged, NodeIsBridged};
ghost use Rattle.hierarchy.specs.FirstBroken.{FailsFirst};
ghost use Rattle.hierarchy_check.specs.inside.Light.{IsLight, FirstUnbridgedAt, FirstUnbridged, RiseIsBridged};

use crate::entries::has_lighter;
use crate::look::Look;
use crate::witnesses::has_witness;
use hierarchy::{Entry, Hierarchy};

/// The place in the order of the first node with two entries that are not bridged, and the places of these.
pub(crate) fn first_unbridged(nodes: u32, h: &Hierarchy) -> Option<(u64, u64, u64)>
    requires light { IsLight h.now.entries }
    requires below { All (λ x. x < nodes) h.now.order }
    ensures { MatchOption result
        (All (NodeIsBridged h.now) h.now.order)
        (λ found. FirstUnbridged h.now found.0 found.1 found.2) }
{
    let place = lowest_unbridged(nodes, h);
    let x = h.order().get(place as usize)?;
    let (at, by) = unbridged_at(h, *x, &mut Look::before_all())?;
    Some((place, at, by))
}

/// The first place in the order whose node has two entries that are not bridged, or the length of the order. Nodes are looked
/// at by their numbers: those that are near by number are near on the map, and witnesses are listed by number.
fn lowest_unbridged(nodes: u32, h: &Hierarchy) -> u64
    requires light { IsLight h.now.entries }
    requires below { All (λ x. x < nodes) h.now.order }
    ensures before { HoldsBelow result (HoldsAt (NodeIsBridged h.now) h.now.order) }
    ensures fails { result < length h.now.order → HoldsAt (NodeIsBridged h.now) h.now.order result → ⊥ }
{
    let mut look = Look::before_all();
    let mut lowest = h.order().len() as u64;
    for x in 0..nodes {
        let place = h.height(x);
        if place < lowest && unbridged_at(h, x, &mut look).is_some() {
            lowest = place;
        }
    }
    lowest
}

/// The first entry down to a node that is not bridged with one from it, and the first of these.
fn unbridged_at(h: &Hierarchy, x: u32, look: &mut Look) -> Option<(u64, u64)>
    requires { IsLight h.now.entries }
    ensures { MatchOption result
        (NodeIsBridged h.now x)
        (λ found. FirstUnbridgedAt h.now x found.0 found.1) }
{
    let entries = h.entries();
    for fall in h.falls_into(x) {
        if let Some(by) = unbridged_after(h, x, entries[fall.place as usize], look) {
            return Some((fall.place as u64, by));
        }
    }
    None
}

/// The first entry from a node that is not bridged with this one to it.
fn unbridged_after(h: &Hierarchy, x: u32, entry: Entry, look: &mut Look) -> Option<u64>
    requires light { IsLight h.now.entries }
    requires weight { entry.weight < 2 ^ 56 }
    ensures { MatchOption result
        (PairsAreBridged h.now x entry)
        (FailsFirst (PairIsBridged h.now x entry) h.now.entries) }
{
    if rises_are_bridged(h, x, entry, look) {
        None
    } else {
        unbridged_from(h, x, entry)
    }
}

/// Whether an entry to a node is found to be bridged with each entry that leads up from there. Others need no bridge, so that
/// a node with many entries down costs no more than its entries up.
fn rises_are_bridged(h: &Hierarchy, x: u32, entry: Entry, look: &mut Look) -> bool
    requires light { IsLight h.now.entries }
    requires weight { entry.weight < 2 ^ 56 }
    ensures { IsTrue result → PairsAreBridged h.now x entry }
{
    look.begin(h, entry.from);
    for place in h.rise_places_from(x) {
        if !rise_is_bridged(h, x, entry, h.entries()[*place as usize], look) {
            return false;
        }
    }
    true
}

/// Whether an entry to a node is found to be bridged with one up from there.
fn rise_is_bridged(h: &Hierarchy, x: u32, entry: Entry, rise: Entry, look: &mut Look) -> bool
    requires first { entry.weight < 2 ^ 56 }
    requires second { rise.weight < 2 ^ 56 }
    ensures { IsTrue result → RiseIsBridged h.now x entry rise }
{
    rise.to == entry.from || look.is_bridged(h, x, entry.from, rise.to, entry.weight + rise.weight)
}

/// The first entry from a node that is not bridged with this one to it.
fn unbridged_from(h: &Hierarchy, x: u32, entry: Entry) -> Option<u64>
    requires light { IsLight h.now.entries }
    requires weight { entry.weight < 2 ^ 56 }
    ensures { MatchOption result
        (PairsAreBridged h.now x entry)
        (FailsFirst (PairIsBridged h.now x entry) h.now.entries) }
{
    let entries = h.entries();
    let (first, end) = h.entries_from(x);
    for by in first..end {
        if !pair_is_bridged(h, x, entry, entries[by as usize]) {
            return Some(by);
        }
    }
    None
}

/// Whether two entries are bridged, if they lead by way of a node from one that is above it to another.
fn pair_is_bridged(h: &Hierarchy, x: u32, a: Entry, b: Entry) -> bool
    requires first { a.weight < 2 ^ 56 }
    requires second { b.weight < 2 ^ 56 }
    ensures { IsTrue result ↔ PairIsBridged h.now x a b }
{
    !are_pair_at(h, x, a, b) || is_bridged(h, x, a.from, b.to, a.weight + b.weight)
}

fn are_pair_at(h: &Hierarchy, x: u32, a: Entry, b: Entry) -> bool
    ensures { IsTrue result ↔ ArePairAt h.now x a b }
{
    a.to == x && b.from == x && a.from != b.to && h.above(a.from, x) && h.above(b.to, x)
}

/// Whether an entry or a witness for `x` leads from `u` to `v` and weighs at most the limit.
fn is_bridged(h: &Hierarchy, x: u32, u: u32, v: u32, limit: u64) -> bool
    ensures { IsTrue result ↔ IsBridged h.now x u v limit }
{
    has_lighter(h, u, v, limit) || has_witness(h, x, u, v, limit)
}
