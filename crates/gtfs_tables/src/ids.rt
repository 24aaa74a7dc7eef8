//! Ids, and sets of ids in the order of first sight.

ghost use Rattle.std.specs.Prelude.{◌≡◌, List, ℕ};

use indexmap::IndexSet;
use std::alloc::{AllocError, Global};
use std::marker::Model;

/// An id of a feed, as it stands in its file. A contract sees it as its bytes.
#[derive(Drop)]
pub struct Id {
    bytes: Vec<u8>,
}

impl Model for Id {
    ghost Value = { List ℕ };

    ghost view = { λ id. id.bytes.items };
}

impl Id {
    ghost use Rattle.std.specs.Prelude.{IfOk};

    /// A copy of these bytes as an id.
    pub(crate) fn from_slice(alloc: Global, bytes: &[u8]) -> Result<Id, AllocError>
        ensures { IfOk result (λ id. id ≡ bytes.now) }
    {
        let bytes = Vec::from_slice(alloc, bytes)?;
        Ok(Id { bytes })
    }

    /// The bytes of the id.
    pub fn as_bytes(&self) -> &[u8]
        ensures { result.now ≡ self.now }
    {
        self.bytes.as_slice()
    }
}

/// Ids in the order of first sight, each once. A contract sees them as a list.
#[derive(Drop)]
pub(crate) struct Ids {
    alloc: Global,
    ids: IndexSet<Vec<u8>>,
}

impl Model for Ids {
    ghost use Rattle.std.specs.Prelude.{List, ℕ, map};

    ghost Value = { List (List ℕ) };

    ghost view = { λ s. map (λ id. id.items) s.ids.keys };
}

impl Ids {
    ghost use Rattle.std.specs.Prelude.{◌∷◌, [], ◌++◌, ◌<◌, length, bytes_eq, not, IfOk, IfSome, IsTrue};
    ghost use Rattle.std.specs.List.{list_any};
    ghost use Rattle.gtfs_tables.specs.Trips.{place_among};

    /// No ids.
    pub(crate) fn new(alloc: Global) -> Ids
        ensures { result ≡ [] }
    {
        Ids {
            alloc,
            ids: IndexSet::new(alloc),
        }
    }

    /// Puts an id to the others, and says whether it is new.
    pub(crate) fn insert(&mut self, id: &[u8]) -> Result<bool, AllocError>
        ensures new { IfOk result (λ new. new ≡ not (list_any (bytes_eq id.now) self.old)) }
        ensures ids { IfOk result (λ new. IsTrue new → self.new ≡ self.old ++ id.now ∷ []) }
    {
        let id = Vec::from_slice(self.alloc, id)?;
        let new = self.ids.insert(id)?;
        Ok(new)
    }

    /// The place of an id; `None` exactly where it is not there.
    pub(crate) fn place(&self, id: &[u8]) -> Option<usize>
        ensures value { result ≡ place_among self.now id.now }
        ensures within { IfSome result (λ place. place < length self.now) }
    {
        self.ids.get_index_of(id)
    }
}
