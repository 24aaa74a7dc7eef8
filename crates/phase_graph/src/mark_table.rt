//! The numbers of nodes that are kept from one phase graph to the next.

ghost use Rattle.std.specs.Prelude.{IfOk};
ghost use Rattle.phase_graph.specs.inside.Marking.{AreClear, AreListed, HasNoMarks};

use std::alloc::{AllocError, Global};
use std::mem;

/// A number for each node of a network, all of them 0. A phase graph takes them for its marks, and gives them back, so
/// that the next one need not make them anew.
#[derive(Drop)]
pub struct MarkTable {
    numbers: Vec<u32>,
    ghost clear: { HasNoMarks numbers.items },
}

impl MarkTable {
    /// Takes no memory.
    pub fn new(alloc: Global) -> MarkTable {
        MarkTable {
            numbers: Vec::new(alloc),
        }
    }

    /// Gives out the numbers of so many nodes. Until they are put back they are made anew.
    pub(crate) fn take(&mut self, alloc: Global, nodes: u32) -> Result<Vec<u32>, AllocError>
        ensures { IfOk result (λ numbers. AreClear nodes numbers.items) }
    {
        let MarkTable { numbers } = mem::replace(self, MarkTable::new(alloc));
        if numbers.len() == nodes as usize {
            Ok(numbers)
        } else {
            Ok(vec![in alloc; 0; nodes as usize]?)
        }
    }

    /// Puts back numbers, of which those of these nodes alone may be others than 0.
    pub(crate) fn put(&mut self, mut numbers: Vec<u32>, nodes: &[u32])
        requires { AreListed numbers.items nodes.now }
    {
        for v in nodes {
            numbers[*v as usize] = 0;
        }
        *self = MarkTable { numbers };
    }
}
