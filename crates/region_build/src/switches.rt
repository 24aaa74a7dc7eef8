//! Places where travellers change between layers.

ghost use Rattle.std.specs.Prelude.{◌≡◌, ◌++◌, map, option_to_list, IfOk, OnOk};
ghost use Rattle.std.specs.List.{flat_map};
ghost use Rattle.std.specs.List.Sorted.{IsPermutation, IsSorted};
ghost use Rattle.std.specs.Ordering.{int_cmp};
ghost use Rattle.region_build.specs.Switches as spec;

use mode_network::{Node, NodeKey};
use opl_reader::{Amenity, OsmNode};
use std::alloc::{AllocError, Global};

fn is_switch(amenity: Amenity) -> bool
    ensures { result ≡ spec.is_switch amenity }
{
    match amenity {
        Amenity::Nothing => false,
        Amenity::Parking | Amenity::BicycleParking | Amenity::BicycleRental => true,
    }
}

fn push_switch(switches: &mut Vec<OsmNode>, node: OsmNode) -> Result<(), AllocError>
    ensures { OnOk result (switches.new.items ≡ switches.old.items ++ option_to_list (spec.switch_at node)) }
{
    if is_switch(node.amenity) {
        switches.push(node)?;
    }
    Ok(())
}

fn all_switches(alloc: Global, nodes: &[OsmNode]) -> Result<Vec<OsmNode>, AllocError>
    ensures { IfOk result (λ switches. switches.items ≡ flat_map
        (λ node. option_to_list (spec.switch_at node)) nodes.now) }
{
    let mut switches = Vec::new(alloc);
    for node in nodes {
        push_switch(&mut switches, *node)?;
    }
    Ok(switches)
}

fn in_order(mut switches: Vec<OsmNode>) -> Result<Vec<OsmNode>, AllocError>
    ensures same { IfOk result (λ sorted. IsPermutation switches.items sorted.items) }
    ensures ascend { IfOk result (λ sorted. IsSorted (λ a b. int_cmp a.id b.id) sorted.items) }
{
    switches.sort_by_key(|node| node.id)?;
    Ok(switches)
}

/// The switches of a map in the order of their ids.
pub(crate) fn switches_of(alloc: Global, nodes: &[OsmNode]) -> Result<Vec<OsmNode>, AllocError>
    ensures { IfOk result (λ switches. spec.AreSwitches nodes.now switches.items) }
{
    let switches = all_switches(alloc, nodes)?;
    in_order(switches)
}

/// The nodes of these switches.
pub(crate) fn switch_nodes(alloc: Global, switches: &[OsmNode]) -> Result<Vec<Node>, AllocError>
    ensures { IfOk result (λ nodes. nodes.items ≡ map spec.switch_node switches.now) }
{
    let mut nodes = Vec::new(alloc);
    for switch in switches {
        nodes.push(Node {
            key: NodeKey::Switch(switch.id),
            place: switch.place,
        })?;
    }
    Ok(nodes)
}
