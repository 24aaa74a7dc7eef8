//! Files that are given out in small pieces.

use plan_base::{MemoryShelf, Shelf, ShelfError};

/// Files in memory, of which a read gives no more than so many bytes. It does not tell what it holds.
#[derive(Drop)]
pub struct Pieces {
    shelf: MemoryShelf,
    most: usize,
}

impl Pieces {
    /// A shelf of which a read gives at most `most` bytes, and at least one.
    pub fn new(shelf: MemoryShelf, most: usize) -> Pieces {
        Pieces { shelf, most }
    }
}

impl Shelf for Pieces {
    ghost use Rattle.std.specs.Prelude.{None};
    ghost use Rattle.plan_base.specs.MemoryStates.{shelf_meaning};

    ghost meaning = { λ s. record {
      files = None;
      misses = (shelf_meaning s.shelf).misses;
      faults =
          (shelf_meaning s.shelf).faults;
    } };

    fn read(&mut self, name: &str, from: u64, into: &mut [u8]) -> Result<usize, ShelfError> {
        let most = into.len().min(self.most.max(1));
        self.shelf.read(name, from, &mut into[..most])
    }
}
