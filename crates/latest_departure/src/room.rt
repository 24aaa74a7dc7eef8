//! What searches for latest departures keep from query to query.

use crate::backward::Backward;
use kept_automata::{Kept, Room};
use std::alloc::Global;

/// What searches for latest departures keep from query to query, for the search through mirrored time and for the one forward
/// from the departure that it finds.
#[derive(Drop)]
pub struct LateRoom {
    /// What the search forward keeps. Both searches use its workspace.
    pub forward: Room,
    /// The automaton of the search through mirrored time.
    pub backward: Kept<Backward>,
}

impl LateRoom {
    /// Takes no memory.
    pub fn new(alloc: Global) -> LateRoom {
        LateRoom {
            forward: Room::new(alloc),
            backward: Kept::new(alloc),
        }
    }
}
