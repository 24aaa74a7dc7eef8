//! Looks through the entries and the witnesses of a hierarchy that go on from pair to pair.

ghost use Rattle.std.specs.Prelude.{IsTrue};
ghost use Rattle.hierarchy.specs.Soundness.{HasLighter, IsBridged};

use crate::witnesses::is_witness_at;
use hierarchy::{Entry, Hierarchy, Witnesses};

/// Of so many entries from a node those are passed one by one that lead to nodes before the one that is looked for; of more it
/// is found by halves, so that a node with many costs no more than their logarithm.
const FEW: usize = 64;

/// Where a look stands. Nodes come by their numbers, and the pairs of entries around a node in the order in which entries and
/// witnesses are listed. So each witness is passed once, and each entry once for each node that the pairs lead by. Whether what
/// stands at a place is what is looked for, that itself tells.
#[derive(Drop)]
pub(crate) struct Look {
    entry: usize,
    /// One past the entries of the node that the pairs begin at.
    end: usize,
    witness: usize,
}

impl Look {
    /// A look before all pairs.
    pub fn before_all() -> Look {
        Look {
            entry: 0,
            end: 0,
            witness: 0,
        }
    }

    /// Goes on to the pairs that begin at a node.
    pub fn begin(&mut self, h: &Hierarchy, u: u32) {
        let (first, end) = h.entries_from(u);
        self.entry = first as usize;
        self.end = end as usize;
    }

    /// Whether an entry, or a witness for `x`, stands next that leads from `u` to `v` and weighs at most the limit.
    pub fn is_bridged(&mut self, h: &Hierarchy, x: u32, u: u32, v: u32, limit: u64) -> bool
        ensures { IsTrue result → IsBridged h.now x u v limit }
    {
        self.entry = next_entry(h.entries(), self.entry, self.end, v);
        if is_lighter_at(h.entries(), self.entry, u, v, limit) {
            return true;
        }
        self.witness = next_witness(h.witnesses(), self.witness, (x, u, v));
        is_witness_at(h, self.witness, x, u, v, limit)
    }
}

/// The first place from this one on, up to the end, whose entry does not lead to a node before `v`.
fn next_entry(entries: &[Entry], place: usize, end: usize, v: u32) -> usize {
    if end.saturating_sub(place) > FEW && end <= entries.len() {
        place.saturating_add(entries[place..end].partition_point(|entry| entry.to < v))
    } else {
        next_of_few(entries, place, end, v)
    }
}

/// The same, of few entries.
fn next_of_few(entries: &[Entry], place: usize, end: usize, v: u32) -> usize {
    for next in place..end.min(entries.len()) {
        if entries[next].to >= v {
            return next;
        }
    }
    end
}

/// Whether the entry at a place leads from `u` to `v` and weighs at most the limit.
fn is_lighter_at(entries: &[Entry], place: usize, u: u32, v: u32, limit: u64) -> bool
    ensures { IsTrue result → HasLighter entries.now u v limit }
{
    match entries.get(place) {
        Some(entry) => entry.from == u && entry.to == v && entry.weight <= limit,
        None => false,
    }
}

/// The first place from this one on whose witness does not stand before the one with this key.
fn next_witness(witnesses: &Witnesses, place: usize, key: (u32, u32, u32)) -> usize {
    for next in place..witnesses.len() {
        if witnesses.get(next).key() >= key {
            return next;
        }
    }
    witnesses.len()
}
