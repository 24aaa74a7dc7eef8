//! Clauses 5, 2 and 3: what each entry joins, what each road arc has, and what each entry is made of.

ghost use Rattle.std.specs.Prelude.{◌↔◌, All, IsTrue, MatchOption};
ghost use Rattle.hierarchy.specs.Soundness.{HasLighter, FitsLayer, IsCovered, IsMade, HasMiddle};
ghost use Rattle.hierarchy.specs.FirstBroken.{FailsFirst};
ghost use Rattle.hierarchy_check.specs.inside.Light.{IsLight, IsSumOver, IsModeOfBoth};

use crate::arcs::is_arc_past;
use hierarchy::{Entry, Hierarchy};
use mode_network::{Arc, Network};
use plan_base::Mode;

/// What entries that can be added weigh less than.
const HEAVY: u64 = 1 << 56;

/// The first entry whose ends are no different road nodes of one layer, or that is too heavy.
pub(crate) fn first_across_layers(network: &Network, entries: &[Entry]) -> Option<u64>
    ensures { MatchOption result
        (All (FitsLayer network.now) entries.now)
        (FailsFirst (FitsLayer network.now) entries.now) }
{
    for at in 0..entries.len() {
        if !fits_layer(network, entries[at]) {
            return Some(at as u64);
        }
    }
    None
}

/// Whether an entry joins different road nodes of one layer, and is light enough.
fn fits_layer(network: &Network, entry: Entry) -> bool
    ensures { IsTrue result ↔ FitsLayer network.now entry }
{
    entry.from != entry.to
        && entry.weight < HEAVY
        && is_mode_of_both(network.mode(entry.from), network.mode(entry.to))
}

/// Whether both are there, and equal.
fn is_mode_of_both(a: Option<Mode>, b: Option<Mode>) -> bool
    ensures { IsTrue result ↔ IsModeOfBoth a b }
{
    match (a, b) {
        (Some(a), Some(b)) => a == b,
        _ => false,
    }
}

/// The first road arc without an entry that is no heavier.
pub(crate) fn first_uncovered(network: &Network, h: &Hierarchy) -> Option<u64>
    ensures { MatchOption result
        (All (IsCovered h.now) network.now.arcs)
        (FailsFirst (IsCovered h.now) network.now.arcs) }
{
    let arcs = network.arcs();
    for at in 0..arcs.len() {
        if !is_covered(h, arcs[at]) {
            return Some(at as u64);
        }
    }
    None
}

fn is_covered(h: &Hierarchy, arc: Arc) -> bool
    ensures { IsTrue result ↔ IsCovered h.now arc }
{
    has_lighter(h, arc.from, arc.to, arc.ms as u64)
}

/// Whether an entry from `u` to `v` weighs at most the limit.
pub(crate) fn has_lighter(h: &Hierarchy, u: u32, v: u32, limit: u64) -> bool
    ensures { IsTrue result ↔ HasLighter h.now.entries u v limit }
{
    h.known();
    match h.entry(u, v) {
        Some(entry) => entry.weight <= limit,
        None => false,
    }
}

/// The first entry that is no road arc with its weight and no sum of two entries by way of a lower node.
pub(crate) fn first_unmade(network: &Network, h: &Hierarchy) -> Option<u64>
    requires { IsLight h.now.entries }
    ensures { MatchOption result
        (All (IsMade network.now h.now) h.now.entries)
        (FailsFirst (IsMade network.now h.now) h.now.entries) }
{
    let entries = h.entries();
    let mut arc = 0;
    for at in 0..entries.len() {
        if !is_made(network, h, entries[at], &mut arc) {
            return Some(at as u64);
        }
    }
    None
}

/// Whether an entry is a road arc, which is looked for from a place on, or a sum of two entries.
fn is_made(network: &Network, h: &Hierarchy, entry: Entry, arc: &mut usize) -> bool
    requires { IsLight h.now.entries }
    ensures { IsTrue result ↔ IsMade network.now h.now entry }
{
    match entry.via {
        Some(middle) => has_middle(h, entry, middle),
        None => is_arc_past(network, arc, entry.from, entry.to, entry.weight),
    }
}

/// Whether a node is below both ends of an entry, which is the sum of the entries to it and from it.
fn has_middle(h: &Hierarchy, entry: Entry, middle: u32) -> bool
    requires { IsLight h.now.entries }
    ensures { IsTrue result ↔ HasMiddle h.now entry middle }
{
    h.above(entry.from, middle)
        && h.above(entry.to, middle)
        && is_sum_over(h, entry.from, middle, entry.to, entry.weight)
}

/// Whether the entries from `u` to `m` and from `m` to `v` weigh together so much.
fn is_sum_over(h: &Hierarchy, u: u32, m: u32, v: u32, weight: u64) -> bool
    requires { IsLight h.now.entries }
    ensures { IsTrue result ↔ IsSumOver h.now.entries u m v weight }
{
    h.known();
    match h.entry(u, m) {
        Some(first) => match h.entry(m, v) {
            Some(second) => first.weight + second.weight == weight,
            None => false,
        },
        None => false,
    }
}
