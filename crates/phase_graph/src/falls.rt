//! The entries that lead down from a node with a mark to another, in a chain for each node that they leave.

ghost use Rattle.std.specs.Prelude.{◌≡◌, ◌<◌, ◌+◌, ◌++◌, ◌∷◌, [], All, IfOk, OnOk, length, set, slice_index_or};
ghost use Rattle.phase_graph.specs.Marks.{marks_in};
ghost use Rattle.phase_graph.specs.inside.Falls.{HasFalls, IsFallAt, PutsFalls, places_into};
ghost use Rattle.phase_graph.specs.inside.Marking.{AreMarked, HasNoFalls};

use crate::phases::number_of;
use hierarchy::Hierarchy;
use std::alloc::{AllocError, Global};

/// An entry that leads down from a node with a mark to another.
#[derive(Clone, Copy)]
pub(crate) struct Fall {
    /// Its place among all entries.
    pub place: u32,
    /// The number of the node that it leads to, in the descent.
    pub to: u32,
    /// How long it takes, in milliseconds.
    pub weight: u64,
}

/// A fall in the chain of the node that it leaves.
#[derive(Clone, Copy)]
pub(crate) struct ChainedFall {
    pub fall: Fall,
    /// The number of the next fall of the chain and 2; or 1.
    pub next: u32,
}

/// The falls between nodes with marks; those of each node are a chain, in the order of their places.
#[derive(Drop)]
pub(crate) struct FallChains {
    pub all: Vec<ChainedFall>,
    /// For each node the number of the first fall of its chain and 2; 1 where there is none; 0 where it has no mark.
    pub first: Vec<u32>,
}

impl FallChains {
    /// All falls between nodes with these marks.
    pub fn new(
        alloc: Global,
        h: &Hierarchy,
        numbers: Vec<u32>,
        nodes: &[u32],
    ) -> Result<FallChains, AllocError>
        requires small { HasNoFalls numbers.items }
        requires marked { AreMarked h.now (marks_in numbers.items) nodes.now }
        ensures falls { IfOk result (λ falls. HasFalls h.now (marks_in falls.first.items) falls.all.items
            falls.first.items) }
        ensures marks { IfOk result (λ falls. marks_in falls.first.items ≡ marks_in numbers.items) }
    {
        h.known();
        let mut falls = FallChains {
            all: Vec::new(alloc),
            first: numbers,
        };
        for left in (0..nodes.len()).rev() {
            falls.put_into(h, nodes[left])?;
        }
        Ok(falls)
    }

    /// The number of the first fall from a node and 2; 1 where there is none; 0 where the node has no mark.
    #[inline(always)]
    pub fn first_from(&self, v: u32) -> u32
        ensures { result ≡ slice_index_or self.now.first.items v 0 }
    {
        match self.first.get(v as usize) {
            None => 0,
            Some(number) => *number,
        }
    }

    /// Puts the falls to a node before the others from the nodes that they leave.
    fn put_into(&mut self, h: &Hierarchy, x: u32) -> Result<(), AllocError>
        requires { All (IsFallAt h.now (marks_in self.old.first.items)) (places_into h.now x) }
        ensures { OnOk result (PutsFalls h.now x self.old self.new) }
    {
        h.known();
        let falls = h.falls_into(x);
        for left in (0..falls.len()).rev() {
            let fall = &falls[left];
            self.put(
                fall.from,
                Fall {
                    place: fall.place,
                    to: number_of(x, true),
                    weight: fall.weight,
                },
            )?;
        }
        Ok(())
    }

    /// Puts a fall before the others from a node. That there are too many for a number counts as want of memory.
    #[inline(always)]
    fn put(&mut self, v: u32, fall: Fall) -> Result<(), AllocError>
        requires { v < length self.old.first.items }
        ensures all { OnOk result (self.new.all.items ≡ self.old.all.items ++
            record { fall = fall; next = slice_index_or self.old.first.items v 0 } ∷ []) }
        ensures first { OnOk result (self.new.first.items ≡
            set self.old.first.items v (length self.old.all.items + 2)) }
    {
        let number = self.all.len() + 2;
        if number > 0xffff_ffff {
            return Err(AllocError);
        }
        let next = self.first[v as usize];
        self.all.push(ChainedFall { fall, next })?;
        self.first[v as usize] = number as u32;
        Ok(())
    }
}
