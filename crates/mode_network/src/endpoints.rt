//! The endpoints of a query, as it names them.

ghost use Rattle.std.specs.Prelude.{◌≡◌, List, ℕ};

use plan_base::{Mode, Place};
use std::marker::Model;

/// Bytes. A contract sees them as a list.
#[derive(Debug, Drop)]
pub struct Bytes {
    items: Vec<u8>,
}

impl Model for Bytes {
    ghost Value = { List ℕ };

    ghost view = { λ b. b.items.items };
}

impl Bytes {
    pub fn as_slice(&self) -> &[u8]
        ensures { result.now ≡ self.now }
    {
        &self.items
    }
}

impl From<Vec<u8>> for Bytes {
    ghost from_gives = { λ items bytes. bytes ≡ items.items };

    fn from(items: Vec<u8>) -> Bytes {
        Bytes { items }
    }
}

/// What a query names as its origin or its destination.
#[derive(Debug, Drop)]
pub enum Endpoint {
    /// The OSM node of this id, in the layers of all modes.
    Road(i64),
    /// The stop of this name.
    Stop(Bytes),
    /// The OSM node of the road node that is nearest to this place, which has to lie within two kilometres.
    Near(Place),
    /// The road node of this mode that is nearest to this place, which has to lie within two kilometres.
    NearIn(Mode, Place),
}
