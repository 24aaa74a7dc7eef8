//! How many shortcuts the contraction of a node would need, as far as short searches tell.

use crate::layer::Layer;
use std::alloc::{AllocError, Global};
use std::cmp::Reverse;
use std::collections::BinaryHeap;
use witness::Edge;

/// A search takes so many nodes from its queue and then gives up: longer ones make no better order.
const MOST_TURNS: u32 = 60;

/// What a search knows of a node; each part counts in its round alone.
#[derive(Clone, Copy, Debug)]
struct Trace {
    /// The least weight so far of a walk to the node, in the round in which it was reached.
    at: u64,
    reached: u32,
    /// The round in which a walk to the node is looked for that weighs no more than the way to it.
    wanted: u32,
    way: u64,
}

/// Tables by node and a queue, kept from search to search. No contract speaks of them, since any order of contraction
/// will do.
#[derive(Drop)]
pub(crate) struct Trials {
    traces: Vec<Trace>,
    waiting: BinaryHeap<Reverse<(u64, u32)>>,
    round: u32,
    /// The nodes to which a walk is still looked for.
    missing: u32,
    /// How many ways were tried so far, in all rounds.
    pub tried: u64,
}

impl Trials {
    /// Tables for so many nodes.
    pub fn new(alloc: Global, nodes: usize) -> Result<Trials, AllocError> {
        let unknown = Trace {
            at: 0,
            reached: 0,
            wanted: 0,
            way: 0,
        };
        Ok(Trials {
            traces: vec![in alloc; unknown; nodes]?,
            waiting: BinaryHeap::new(alloc),
            round: 0,
            missing: 0,
            tried: 0,
        })
    }

    /// How many of the ways by a node seem to need a shortcut.
    pub fn shortcuts(&mut self, layer: &Layer, x: u32) -> Result<u32, AllocError> {
        let mut count: u32 = 0;
        if let Some(before) = layer.into.get(x as usize) {
            for u in before {
                count = count.saturating_add(self.shortcuts_from(layer, *u, x)?);
            }
        }
        Ok(count)
    }

    /// How many of the ways from one node by another seem to need a shortcut.
    fn shortcuts_from(&mut self, layer: &Layer, u: u32, x: u32) -> Result<u32, AllocError> {
        let (Some(row), Some(after)) = (layer.rows.get(u as usize), layer.rows.get(x as usize))
        else {
            return Ok(0);
        };
        let most = self.begin(u, weight_to(row, x), after);
        self.reach(u, 0, most)?;
        for _ in 0..MOST_TURNS {
            if self.missing == 0 {
                break;
            }
            let Some(Reverse((at, node))) = self.waiting.pop() else {
                break;
            };
            self.relax(layer, node, at, x, most)?;
        }
        Ok(self.missing)
    }

    /// Begins a round that looks for walks to the ends of these ways. Answers the greatest weight of a way to one.
    fn begin(&mut self, u: u32, first: u64, after: &[Edge]) -> u64 {
        self.round = self.round.wrapping_add(1);
        self.waiting.clear();
        self.missing = 0;
        let mut most = 0;
        for edge in after {
            if edge.to != u {
                let way = first.saturating_add(edge.weight);
                most = most.max(way);
                self.want(edge.to, way);
            }
        }
        most
    }

    /// Looks for a walk to a node.
    fn want(&mut self, node: u32, way: u64) {
        if let Some(trace) = self.traces.get_mut(node as usize) {
            trace.wanted = self.round;
            trace.way = way;
            self.missing = self.missing.saturating_add(1);
            self.tried = self.tried.saturating_add(1);
        }
    }

    /// Offers what each way out of a node leads to, past `x`.
    fn relax(
        &mut self,
        layer: &Layer,
        node: u32,
        at: u64,
        x: u32,
        most: u64,
    ) -> Result<(), AllocError> {
        if !self.is_reached_at(node, at) {
            return Ok(());
        }
        if let Some(row) = layer.rows.get(node as usize) {
            for edge in row {
                if edge.to != x {
                    self.reach(edge.to, at.saturating_add(edge.weight), most)?;
                }
            }
        }
        Ok(())
    }

    /// Whether this is the least weight so far of a walk to a node.
    fn is_reached_at(&self, node: u32, at: u64) -> bool {
        match self.traces.get(node as usize) {
            Some(trace) => trace.reached == self.round && trace.at == at,
            None => false,
        }
    }

    /// Takes a walk to a node, if it is the first or lighter than the one that is known, and weighs no more than `most`.
    fn reach(&mut self, node: u32, at: u64, most: u64) -> Result<(), AllocError> {
        let Some(trace) = self.traces.get_mut(node as usize) else {
            return Ok(());
        };
        if at > most || (trace.reached == self.round && trace.at <= at) {
            return Ok(());
        }
        trace.at = at;
        trace.reached = self.round;
        if trace.wanted == self.round && at <= trace.way {
            trace.wanted = 0;
            self.missing = self.missing.saturating_sub(1);
        }
        self.waiting.push(Reverse((at, node)))?;
        Ok(())
    }
}

/// The weight of the way to a node that a row has, or 0.
fn weight_to(row: &[Edge], to: u32) -> u64 {
    for edge in row {
        if edge.to == to {
            return edge.weight;
        }
    }
    0
}
