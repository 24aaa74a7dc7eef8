//! The places of nodes, by their ids.

ghost use Rattle.std.specs.Prelude.{◌≡◌, ℤ, IfOk, OnOk};
ghost use Rattle.std.specs.HashMap.{get};
ghost use Rattle.std.specs.Ordering.{int_eq};
ghost use Rattle.road_profile.specs.Legs.{place_of_node, place_with};

use opl_reader::OsmNode;
use plan_base::Place;
use std::alloc::{AllocError, Global};
use std::collections::HashMap;

/// The places of nodes, by their ids.
#[derive(Drop)]
pub struct Places {
    pub by_id: HashMap<i64, Place>,
}

/// Keeps the place of a node, unless an earlier node has its id.
fn add_place(by_id: &mut HashMap<i64, Place>, node: &OsmNode) -> Result<(), AllocError>
    ensures { OnOk result ((id : ℤ) → get int_eq by_id.new id ≡ place_with (get int_eq by_id.old id)
        node.now id) }
{
    by_id.entry(node.id)?.or_insert(node.place);
    Ok(())
}

/// The place of each of these nodes.
pub fn places_of(alloc: Global, nodes: &[OsmNode]) -> Result<Places, AllocError>
    ensures { IfOk result (λ places. (id : ℤ) → get int_eq places.by_id id ≡ place_of_node nodes.now id) }
{
    let mut by_id = HashMap::new(alloc);
    for node in nodes {
        add_place(&mut by_id, node)?;
    }
    Ok(Places { by_id })
}

/// The place of the node with this id, if there is one.
pub fn place_of(places: &Places, id: i64) -> Option<Place>
    ensures { result ≡ get int_eq places.now.by_id id }
{
    places.by_id.get(&id).copied()
}
