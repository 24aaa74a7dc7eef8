//! Where the ways of a row stand.

ghost use Rattle.std.specs.Prelude.{IsTrue};
ghost use Rattle.contractor.specs.inside.Layers.{HasWithin};

use std::alloc::{AllocError, Global};
use witness::Edge;

/// By node the place in a row of the way to it, kept from row to row. What it has of earlier rows counts for nothing: whether
/// a way stands at a place, the row itself tells.
#[derive(Drop)]
pub(crate) struct RowPlaces {
    places: Vec<usize>,
}

impl RowPlaces {
    /// A table for so many nodes.
    pub fn new(alloc: Global, nodes: usize) -> Result<RowPlaces, AllocError> {
        Ok(RowPlaces {
            places: vec![in alloc; 0; nodes]?,
        })
    }

    /// Notes where the ways of a row stand.
    pub fn note(&mut self, row: &[Edge]) {
        for (place, edge) in row.iter().enumerate() {
            if let Some(noted) = self.places.get_mut(edge.to as usize) {
                *noted = place;
            }
        }
    }

    /// Whether the row that was noted last has a way to a node that is no heavier.
    pub fn has_way_to(&self, row: &[Edge], to: u32, most: u64) -> bool
        ensures { IsTrue result → HasWithin row.now to most }
    {
        let place = self.places.get(to as usize).copied().unwrap_or(0);
        match row.get(place) {
            Some(edge) => edge.to == to && edge.weight <= most,
            None => false,
        }
    }
}
