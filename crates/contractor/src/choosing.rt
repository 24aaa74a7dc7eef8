//! Which node is contracted next.

ghost use Rattle.std.specs.Prelude.{◌≡◌, ◌<◌, ◌^◌, Some, true, length, count_by, slice_get};

use crate::layer::Layer;
use crate::trials::Trials;
use std::alloc::{AllocError, Global};
use std::cmp::Reverse;
use std::collections::BinaryHeap;

/// So many ways are tried for one choice, and then the node comes next whose key is the least that is known. Where all is
/// joined to all, each contraction raises all keys.
const MOST_TRIED: u64 = 100_000;

/// Nodes by how much their contraction is thought to add: the shortcuts that it would need, less the entries that it takes
/// out of what is left, and how many nodes below them were contracted one after the other. No contract speaks of it, since
/// any order will do.
#[derive(Drop)]
pub(crate) struct Queue {
    heap: BinaryHeap<Reverse<(i64, u32)>>,
    depths: Vec<u32>,
    trials: Trials,
}

impl Queue {
    /// A queue of the marked nodes.
    pub fn new(alloc: Global, layer: &Layer, waiting: &[bool]) -> Result<Queue, AllocError>
        requires { length waiting.now < 2 ^ 32 }
    {
        let mut queue = Queue {
            heap: BinaryHeap::new(alloc),
            depths: vec![in alloc; 0; waiting.len()]?,
            trials: Trials::new(alloc, waiting.len())?,
        };
        for v in 0..waiting.len() {
            if waiting[v] {
                let key = queue.key(layer, v as u32)?;
                queue.heap.push(Reverse((key, v as u32)))?;
            }
        }
        Ok(queue)
    }

    /// A node with a least key, as far as keys are known: the least known one is made anew, until one is no greater for it,
    /// or enough ways are tried.
    pub fn next(&mut self, layer: &Layer) -> Result<u32, AllocError> {
        let most = self.trials.tried.saturating_add(MOST_TRIED);
        for _ in 0..self.heap.len() {
            let Some(Reverse((_, x))) = self.heap.pop() else {
                break;
            };
            if self.trials.tried > most {
                return Ok(x);
            }
            let key = self.key(layer, x)?;
            if self.is_least(key) {
                return Ok(x);
            }
            self.heap.push(Reverse((key, x)))?;
        }
        Ok(0)
    }

    /// Whether no node that waits has a lower key.
    fn is_least(&self, key: i64) -> bool {
        match self.heap.peek() {
            Some(Reverse((least, _))) => key <= *least,
            None => true,
        }
    }

    fn key(&mut self, layer: &Layer, v: u32) -> Result<i64, AllocError> {
        let place = v as usize;
        let after = layer.rows.get(place).map_or(0, |row| row.len()) as i64;
        let before = layer.into.get(place).map_or(0, |nodes| nodes.len()) as i64;
        let shortcuts = i64::from(self.trials.shortcuts(layer, v)?);
        Ok(
            shortcuts
                .saturating_sub(after)
                .saturating_sub(before)
                .saturating_add(i64::from(self.depth(v))),
        )
    }

    fn depth(&self, v: u32) -> u32 {
        self.depths.get(v as usize).copied().unwrap_or(0)
    }

    /// Notes that a node is contracted: its neighbours are deeper now.
    pub fn deepen(&mut self, layer: &Layer, x: u32) {
        let depth = self.depth(x).saturating_add(1);
        if let Some(row) = layer.rows.get(x as usize) {
            for edge in row {
                self.raise(edge.to, depth);
            }
        }
        if let Some(nodes) = layer.into.get(x as usize) {
            for u in nodes {
                self.raise(*u, depth);
            }
        }
    }

    fn raise(&mut self, v: u32, depth: u32) {
        let place = v as usize;
        if place < self.depths.len() && self.depths[place] < depth {
            self.depths[place] = depth;
        }
    }
}

/// The node that was proposed, if it is marked, or else the first that is.
pub(crate) fn marked(waiting: &[bool], proposed: u32) -> u32
    requires few { length waiting.now < 2 ^ 32 }
    requires some { 0 < count_by (λ b. b) waiting.now }
    ensures { slice_get waiting.now result ≡ Some true }
{
    if (proposed as usize) < waiting.len() && waiting[proposed as usize] {
        return proposed;
    }
    'nodes: for v in 0..waiting.len() {
        if waiting[v] {
            return v as u32;
        }
    }
    unreachable!()
}
