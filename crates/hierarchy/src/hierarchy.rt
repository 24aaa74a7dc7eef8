//! A hierarchy: its lists, and what finds things in them.

ghost use Rattle.std.specs.Prelude.{◌≡◌, IfOk, MatchOption};
ghost use Rattle.hierarchy.specs.Lists.{height_in, is_above, is_contracted};
ghost use Rattle.hierarchy.specs.Rules.{IsHierarchy};
ghost use Rattle.hierarchy.specs.Rises.{IsRiseRange, RisesFrom, all_rises, has_legs, legs_from, rise_from, rise_places_from};
ghost use Rattle.mode_network.specs.Indexes.{range_of};
ghost use Rattle.hierarchy.specs.Lookups.{IsEntryFor, HasNoEntry, IsWitnessFor, HasNoWitness, AreFrom, ArePlaces, falls_into, from_of};

use crate::entry::Entry;
use crate::falls::Fall;
use crate::lists::Lists;
use crate::tables::Tables;
use crate::witnesses::{Witness, Witnesses};
use search_laws::Leg;
use std::alloc::{AllocError, Global};
use std::marker::Model;

/// An order of contracted nodes, entries and witnesses. A contract sees these lists.
#[derive(Drop)]
pub struct Hierarchy {
    lists: Lists,
    tables: Tables,
}

impl Model for Hierarchy {
    ghost use Rattle.hierarchy.specs.Lists.{HierarchyLists};

    ghost Value = { HierarchyLists };

    ghost use Rattle.hierarchy.specs.inside.Fields.{IsKept};

    ghost view = { λ h. h.lists };

    ghost invariant = { IsKept };
}

impl Lists {
    /// The hierarchy with these lists. Its tables are as long as the greatest node that the order or the entries name. An
    /// order or entries of 2^32 or more count as want of memory.
    pub fn into_hierarchy(self, alloc: Global) -> Result<Hierarchy, AllocError>
        ensures { IfOk result (λ h. h ≡ self) }
    {
        self.known();
        let tables = Tables::new(alloc, self.order(), self.entries())?;
        Ok(Hierarchy {
            lists: self,
            tables,
        })
    }
}

impl Hierarchy {
    /// Each hierarchy keeps the rules of [`Lists::new`].
    pub fn known(&self)
        ensures { IsHierarchy self.now }
    {
        self.lists.known();
    }

    /// Its lists alone.
    pub fn into_lists(self) -> Lists
        ensures { result ≡ self }
    {
        self.lists
    }

    /// The contracted nodes, lowest first.
    pub fn order(&self) -> &[u32]
        ensures { result.now ≡ self.now.order }
    {
        self.lists.order()
    }

    /// The entries, ascending by (from, to).
    pub fn entries(&self) -> &[Entry]
        ensures { result.now ≡ self.now.entries }
    {
        self.lists.entries()
    }

    /// The witnesses, ascending by (below, first node, last node).
    pub fn witnesses(&self) -> &Witnesses
        ensures { result.now ≡ self.now.witnesses }
    {
        self.lists.witnesses()
    }

    /// The first place of `v` in the order, or the order's length where it is not in it.
    pub fn height(&self, v: u32) -> u64
        ensures { result ≡ height_in self.now.order v }
    {
        if v < self.tables.nodes {
            self.tables.heights[v as usize] as u64
        } else {
            self.order().len() as u64
        }
    }

    /// Whether `v` is above `u`: `u` is in the order, and `v` is later in it or core. A node that is listed twice has
    /// its first place.
    pub fn above(&self, v: u32, u: u32) -> bool
        ensures { result ≡ is_above self.now.order v u }
    {
        self.height(u) < self.height(v)
    }

    /// Whether `v` is in the order; else it is core.
    pub fn contracted(&self, v: u32) -> bool
        ensures { result ≡ is_contracted self.now.order v }
    {
        self.height(v) < self.order().len() as u64
    }

    /// The entry from `u` to `v`; None exactly where there is none. Of all entries it looks at those from `u` alone.
    pub fn entry(&self, u: u32, v: u32) -> Option<&Entry>
        ensures { MatchOption result (HasNoEntry self.now.entries u v)
            (λ e. IsEntryFor self.now.entries u v e.now) }
    {
        self.known();
        let (first, end) = self.entries_from(u);
        let row = &self.entries()[first as usize..end as usize];
        match row.binary_search_by(|entry| entry.to.cmp(&v)) {
            Ok(place) => Some(&row[place]),
            Err(_) => None,
        }
    }

    /// The first place in [`entries`](Self::entries) of those from `u`, and one past the last. Where nothing is from
    /// `u`, both are the number of the entries from lower nodes.
    pub fn entries_from(&self, u: u32) -> (u64, u64)
        ensures range { result ≡ range_of from_of self.now.entries u }
        ensures are { AreFrom self.now.entries u result.0 result.1 }
    {
        if u < self.tables.nodes {
            (
                self.tables.rows[u as usize].entries as u64,
                self.tables.rows[u as usize + 1].entries as u64,
            )
        } else {
            let count = self.entries().len() as u64;
            (count, count)
        }
    }

    /// The entries that lead down to `x`, in their order: those that end there and begin above it. To a core node none
    /// does.
    #[inline(always)]
    pub fn falls_into(&self, x: u32) -> &[Fall]
        ensures { result.now ≡ falls_into self.now x }
    {
        if x < self.tables.nodes {
            let first = self.tables.fall_offsets[x as usize] as usize;
            let end = self.tables.fall_offsets[x as usize + 1] as usize;
            &self.tables.falls[first..end]
        } else {
            &[]
        }
    }

    /// Where the entries from `u` that lead to a node above it, or from one core node to another, stand among all that do so:
    /// their first place, and one past the last.
    #[inline(always)]
    fn rise_range(&self, u: u32) -> (usize, usize)
        ensures range { result ≡ range_of rise_from (all_rises self.now) u }
        ensures are { IsRiseRange self.now u (all_rises self.now) result.0 result.1 }
    {
        if u < self.tables.nodes {
            (
                self.tables.rows[u as usize].rises as usize,
                self.tables.rows[u as usize + 1].rises as usize,
            )
        } else {
            let count = self.tables.rises.len();
            (count, count)
        }
    }

    /// The places in [`entries`](Self::entries) of those from `u` that lead to a node above it, or from one core node to another,
    /// ascending.
    pub fn rise_places_from(&self, u: u32) -> &[u32]
        ensures list { result.now ≡ rise_places_from self.now u }
        ensures are { ArePlaces (RisesFrom self.now.order u) self.now.entries result.now }
    {
        let (first, end) = self.rise_range(u);
        &self.tables.rises[first..end]
    }

    /// Whether each entry that leads to a node above its own, or from one core node to another, takes less than 2^32 ms.
    #[inline(always)]
    pub fn has_legs(&self) -> bool
        ensures { result ≡ has_legs self.now }
    {
        self.tables.legs.len() == self.tables.rises.len()
    }

    /// Where the entries at [`rise_places_from`](Self::rise_places_from) lead, and how long that takes. Nodes are numbered as
    /// before the descent: `2v` stands for v. Without [`has_legs`](Self::has_legs) there are none.
    #[inline(always)]
    pub fn legs_from(&self, u: u32) -> &[Leg]
        ensures { result.now ≡ legs_from self.now u }
    {
        if self.has_legs() {
            let (first, end) = self.rise_range(u);
            &self.tables.legs[first..end]
        } else {
            &[]
        }
    }

    /// The witness that is listed for `below` from `first` to `last`; None exactly where there is none.
    pub fn witness_for(&self, below: u32, first: u32, last: u32) -> Option<Witness<'_>>
        ensures { MatchOption result
            (HasNoWitness self.now.witnesses below first last)
            (λ w. IsWitnessFor self.now.witnesses below first last w) }
    {
        self.known();
        self.witnesses().between(below, first, last)
    }
}
