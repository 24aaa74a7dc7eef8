//! The road nodes of the sample city, and their numbers.

ghost use Rattle.std.specs.Prelude.{◌≡◌, ◌+◌, ◌<◌, ◌^◌, ◌++◌, length, IfOk, OnOk};
ghost use Rattle.std.specs.HashMap.{get};
ghost use Rattle.std.specs.List.{flat_map};
ghost use Rattle.sample_city.specs.Roads as spec;
ghost use Rattle.sample_city.specs.inside.Numbers.{number_if_here};

use crate::corners::{Corner, has_cars, place_at};
use mode_network::{Node, NodeKey};
use plan_base::{Mode, Place};
use std::alloc::{AllocError, Global};
use std::collections::HashMap;

/// Puts the node at a place to the others, if there is one.
pub(crate) fn push_node(
    nodes: &mut Vec<Node>,
    place: Option<Place>,
    key: NodeKey,
) -> Result<(), AllocError>
    ensures { OnOk result (nodes.new.items ≡ nodes.old.items ++ spec.node_at place key) }
{
    if let Some(place) = place {
        nodes.push(Node { key, place })?;
    }
    Ok(())
}

/// Puts the node of a corner in the layer of this mode to the others.
fn push_road(nodes: &mut Vec<Node>, at: Corner, mode: Mode) -> Result<(), AllocError>
    ensures { OnOk result (nodes.new.items ≡ nodes.old.items ++ spec.road_at at mode) }
{
    push_node(nodes, place_at(at), NodeKey::Road(mode, i64::from(at.id)))
}

/// Puts the nodes of a corner in all layers to the others.
fn push_nodes(nodes: &mut Vec<Node>, at: Corner) -> Result<(), AllocError>
    ensures { OnOk result (nodes.new.items ≡ nodes.old.items ++ spec.nodes_at at) }
{
    push_road(nodes, at, Mode::Foot)?;
    push_road(nodes, at, Mode::Bike)?;
    if has_cars(at) {
        push_road(nodes, at, Mode::Car)?;
    }
    Ok(())
}

/// The road nodes of all corners.
pub(crate) fn road_nodes(alloc: Global, corners: &[Corner]) -> Result<Vec<Node>, AllocError>
    ensures { IfOk result (λ nodes. nodes.items ≡ flat_map spec.nodes_at corners.now) }
{
    let mut nodes = Vec::new(alloc);
    for at in corners {
        push_nodes(&mut nodes, *at)?;
    }
    Ok(nodes)
}

/// The numbers of road nodes, by their OSM ids and the numbers of their modes.
#[derive(Drop)]
pub(crate) struct RoadNumbers {
    pub(crate) by_end: HashMap<(i64, u8), u32>,
}

/// Notes the number of an end, unless it has one.
fn note(by_end: &mut HashMap<(i64, u8), u32>, key: (i64, u8), number: u32) -> Result<(), AllocError>
    ensures { OnOk result ((end : spec.RoadNodeKey) → get spec.is_same_road_key by_end.new end
        ≡ number_if_here (get spec.is_same_road_key by_end.old end) (spec.is_same_road_key key end) number) }
{
    if by_end.contains_key(&key) {
        return Ok(());
    }
    by_end.insert(key, number)?;
    Ok(())
}

/// Notes the number of a road node, unless it has one.
fn note_node(
    by_end: &mut HashMap<(i64, u8), u32>,
    key: NodeKey,
    number: u32,
) -> Result<(), AllocError>
    ensures { OnOk result ((end : spec.RoadNodeKey) → get spec.is_same_road_key by_end.new end
        ≡ number_if_here (get spec.is_same_road_key by_end.old end) (spec.is_key_of end key) number) }
{
    match key {
        NodeKey::Road(mode, id) => note(by_end, (id, mode.number()), number),
        NodeKey::Stop(_) | NodeKey::Switch(_) => Ok(()),
    }
}

/// The numbers of these road nodes.
pub(crate) fn road_numbers(alloc: Global, nodes: &[Node]) -> Result<RoadNumbers, AllocError>
    requires { length nodes.now < 2 ^ 32 }
    ensures { IfOk result (λ numbers. get spec.is_same_road_key numbers.by_end ≡ spec.road_number nodes.now) }
{
    let mut by_end = HashMap::new(alloc);
    let mut number = 0;
    let mut rest = nodes;
    while let [node, after @ ..] = rest {
        note_node(&mut by_end, node.key, number)?;
        number += 1;
        rest = after;
    }
    Ok(RoadNumbers { by_end })
}

impl RoadNumbers {
    ghost use Rattle.std.specs.Prelude.{◌≡◌, ◌<◌, ◌^◌};
    ghost use Rattle.std.specs.HashMap.{get};
    ghost use Rattle.sample_city.specs.Roads.{is_same_road_key, road_key};

    /// The number of a road node; `None` exactly where none is noted.
    pub(crate) fn of(&self, id: u64, mode: Mode) -> Option<u32>
        requires { id < 2 ^ 33 }
        ensures { result ≡ get is_same_road_key self.now.by_end (road_key id mode) }
    {
        self.by_end.get(&(id as i64, mode.number())).copied()
    }
}
