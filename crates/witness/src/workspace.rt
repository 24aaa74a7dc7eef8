//! What searches keep for the next one.

ghost use Rattle.std.specs.Prelude.{◌≡◌, ◌<◌, ◌≤◌, ◌↔◌, OnOk, IfSome, IfNone, IsTrue, length};
ghost use Rattle.std.specs.BinaryHeap.{IsHeap, heap_items};
ghost use Rattle.witness.specs.inside.Places.{ArePast};

use crate::place::Place;
use std::alloc::{AllocError, Global};
use std::cmp::Reverse;
use std::collections::BinaryHeap;

/// Tables by node and a queue, kept from search to search. Each search is a round: what a table has of earlier rounds
/// counts for nothing, so none is cleared.
#[derive(Drop)]
pub struct Workspace {
    pub(crate) places: Vec<Place>,
    /// Weights and nodes. A pair stays where a better one is found later, and is passed over when it comes up.
    pub(crate) waiting: BinaryHeap<Reverse<(u64, u32)>>,
    pub(crate) round: u32,
    /// The node that this round began at.
    pub(crate) start: u32,
    /// What a walk of this round weighs at most.
    pub(crate) most: u64,
    ghost past: { ArePast round places.items },
}

impl Workspace {
    ghost use Rattle.witness.specs.inside.Searching.{IsFresh, IsWalkOffered, IsNext, NobodyWaitsWithin};
    ghost use Rattle.witness.specs.inside.Searching.{Reaches, IsKnownAt, waiting_cmp};

    /// Tables without room; the first search makes it.
    pub fn new(alloc: Global) -> Workspace {
        Workspace {
            places: Vec::new(alloc),
            waiting: BinaryHeap::new(alloc),
            round: 0,
            start: 0,
            most: 0,
        }
    }

    /// Begins a round over so many nodes.
    pub(crate) fn clear(
        &mut self,
        alloc: Global,
        nodes: usize,
        start: u32,
        most: u64,
    ) -> Result<(), AllocError>
        ensures { OnOk result (IsFresh self.new nodes start most) }
    {
        if self.round == 0xffff_ffff || self.places.len() != nodes {
            let unknown = Place {
                at: 0,
                parent: 0,
                round: 0,
            };
            *self = Workspace {
                places: vec![in alloc; unknown; nodes]?,
                waiting: BinaryHeap::new(alloc),
                round: 0,
                start,
                most,
            };
        }
        self.round += 1;
        self.start = start;
        self.most = most;
        self.waiting.clear();
        Ok(())
    }

    /// Takes a walk to a node that weighs so much, if it is the first or lighter than the one that is known.
    pub fn offer(&mut self, to: u32, at: u64, parent: u32) -> Result<(), AllocError>
        requires { to < length self.old.places.items }
        ensures { OnOk result (IsWalkOffered self.old self.new to at parent) }
    {
        let place = self.places[to as usize];
        if place.round != self.round || at < place.at {
            let round = self.round;
            self.places[to as usize] = Place { at, parent, round };
            self.waiting.push(Reverse((at, to)))?;
        }
        Ok(())
    }

    /// Takes the least pair from the queue, if its weight is within the limit.
    pub(crate) fn next(&mut self, limit: u64) -> Option<(u64, u32)>
        requires { IsHeap waiting_cmp (heap_items self.old.waiting) }
        ensures next { IfSome result (λ x. IsNext self.old self.new x.0 x.1) }
        ensures within { IfSome result (λ x. x.0 ≤ limit) }
        ensures none { IfNone result (NobodyWaitsWithin self.old limit) }
        ensures same { IfNone result (self.new ≡ self.old) }
    {
        match self.waiting.peek() {
            Some(Reverse((at, _))) => {
                if *at > limit {
                    return None;
                }
            }
            None => return None,
        }
        let Reverse(next) = self.waiting.pop()?;
        Some(next)
    }

    /// Whether a walk to a node is known that weighs no more than the limit.
    pub(crate) fn is_within(&self, v: u32, limit: u64) -> bool
        requires { v < length self.now.places.items }
        ensures { IsTrue result ↔ Reaches self.now v limit }
    {
        let place = self.places[v as usize];
        place.round == self.round && place.at <= limit
    }

    /// Whether this is the least weight so far of a walk to a node.
    pub(crate) fn is_known_at(&self, v: u32, at: u64) -> bool
        ensures { IsTrue result ↔ IsKnownAt self.now v at }
    {
        let place = v as usize;
        place < self.places.len()
            && self.places[place].round == self.round
            && self.places[place].at == at
    }
}
