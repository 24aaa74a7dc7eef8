//! The lists of a hierarchy, with no tables.

ghost use Rattle.std.specs.Prelude.{◌≡◌};
ghost use Rattle.hierarchy.specs.Rules.{IsHierarchy};

use crate::entry::Entry;
use crate::sizes::Sizes;
use crate::witnesses::Witnesses;
use std::marker::Model;

/// The lists that a hierarchy is made of. They take as much memory as they are long, whatever nodes they name. A contract
/// sees them as lists.
#[derive(Drop)]
pub struct Lists {
    order: Vec<u32>,
    entries: Vec<Entry>,
    witnesses: Witnesses,
}

impl Model for Lists {
    ghost use Rattle.hierarchy.specs.Lists.{HierarchyLists};

    ghost Value = { HierarchyLists };

    ghost use Rattle.hierarchy.specs.Rules.{IsHierarchy};

    ghost view = { λ l. record {
      order = l.order.items;
      entries = l.entries.items;
      witnesses = l.witnesses;
    } };

    ghost invariant = { λ l. IsHierarchy (record {
      order = l.order.items;
      entries = l.entries.items;
      witnesses = l.witnesses;
    }) };
}

impl Lists {
    /// These lists. Entries ascend strictly by (from, to), and witnesses by (below, first node, last node); each witness
    /// has at least two nodes, and every node is below 2^24.
    pub fn new(order: Vec<u32>, entries: Vec<Entry>, witnesses: Witnesses) -> Lists
        requires { IsHierarchy (record {
          order = order.items;
          entries = entries.items;
          witnesses = witnesses;
        }) }
        ensures { result ≡ record {
          order = order.items;
          entries = entries.items;
          witnesses = witnesses;
        } }
    {
        Lists {
            order,
            entries,
            witnesses,
        }
    }

    /// Lists always keep the rules of [`new`](Self::new).
    pub fn known(&self)
        ensures { IsHierarchy self.now }
    {
        let _ = &self.order;
    }

    /// The contracted nodes, lowest first.
    pub fn order(&self) -> &[u32]
        ensures { result.now ≡ self.now.order }
    {
        &self.order
    }

    /// The entries, ascending by (from, to).
    pub fn entries(&self) -> &[Entry]
        ensures { result.now ≡ self.now.entries }
    {
        &self.entries
    }

    /// The witnesses, ascending by (below, first node, last node).
    pub fn witnesses(&self) -> &Witnesses
        ensures { result.now ≡ self.now.witnesses }
    {
        &self.witnesses
    }

    /// How long they are.
    pub fn sizes(&self) -> Sizes {
        Sizes::of(&self.order, &self.entries, &self.witnesses)
    }

    /// The order, the entries and the witnesses, each to be let go by itself.
    pub fn into_parts(self) -> (Vec<u32>, Vec<Entry>, Witnesses)
        ensures order { result.0.items ≡ self.order }
        ensures entries { result.1.items ≡ self.entries }
        ensures witnesses { result.2 ≡ self.witnesses }
    {
        (self.order, self.entries, self.witnesses)
    }
}
