//! What searches keep for the next one.

ghost use Rattle.std.specs.Prelude.{◌≡◌, []};
ghost use Rattle.product_search.specs.inside.Queued.{IsQueue, IsEmptyQueue};
ghost use Rattle.product_search.specs.inside.Waiting.{IsClear, IsFrontier};

use crate::frontier::{Frontier, cleared};
use crate::queue::Queue;
use crate::row::{Row, Taken};
use std::alloc::{AllocError, Global};
use std::mem;

/// Two lists, a table by chain and a queue that searches use again. They are empty, and have room for what was reached so far.
#[derive(Drop)]
pub struct Workspace {
    pub(crate) rows: Vec<Row>,
    pub(crate) ways: Vec<Taken>,
    pub(crate) first: Vec<u32>,
    pub(crate) queue: Queue,
    /// What was read ahead, which is kept for the sake of the reads alone.
    pub(crate) read: u32,
    ghost no_rows: { rows.items ≡ [] },
    ghost no_ways: { ways.items ≡ [] },
    ghost clear: { IsClear first.items },
    ghost right: { IsQueue queue },
    ghost empty: { IsEmptyQueue queue },
}

impl Workspace {
    pub fn new(alloc: Global) -> Workspace {
        Workspace {
            rows: Vec::new(alloc),
            ways: Vec::new(alloc),
            first: Vec::new(alloc),
            queue: Queue::new(alloc),
            read: 0,
        }
    }

    /// Where it takes memory.
    pub(crate) fn allocator(&self) -> Global {
        *self.rows.allocator()
    }

    /// Gives out what it has. Until that is put back the next search makes it anew.
    pub(crate) fn take(&mut self, alloc: Global) -> Workspace {
        mem::replace(self, Workspace::new(alloc))
    }

    /// The same with room for so many product states and ways, so that lists are seldom moved while they grow. Memory that is
    /// not written to costs nothing.
    pub(crate) fn with_room(self, count: u32) -> Result<Workspace, AllocError> {
        let Workspace {
            mut rows,
            mut ways,
            first,
            queue,
            read,
        } = self;
        rows.reserve(count as usize)?;
        ways.reserve(count as usize)?;
        Ok(Workspace {
            rows,
            ways,
            first,
            queue,
            read,
        })
    }

    /// Puts back the lists, the table and the queue of a search.
    pub(crate) fn put(&mut self, frontier: Frontier, read: u32)
        requires { IsFrontier frontier }
    {
        let Frontier {
            base: _base,
            until: _until,
            mut rows,
            mut ways,
            first,
            chains,
            queue,
        } = frontier;
        let first = cleared(&rows, chains, first);
        rows.clear();
        ways.clear();
        *self = Workspace {
            rows,
            ways,
            first,
            queue: queue.cleared(),
            read,
        };
    }
}
