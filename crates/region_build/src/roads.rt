//! Road nodes and road arcs.

ghost use Rattle.std.specs.Prelude.{◌≡◌, ◌<◌, ◌^◌, ◌++◌, length, option_to_list, IfOk, OnOk};
ghost use Rattle.std.specs.HashMap.{get};
ghost use Rattle.std.specs.Ordering.{int_eq};
ghost use Rattle.mode_network.specs.Rules.{AreInOrder};
ghost use Rattle.region_build.specs.Roads as spec;

use crate::ends::Ends;
use mode_network::{Arc, Node, NodeKey};
use plan_base::Mode;
use road_profile::{Places, RoadRow, place_of};
use std::alloc::{AllocError, Global};

/// The node of a mode at the place of this OSM id, if it has one.
#[tactic(auto, unfolding(crate::specs::Roads::road_node))]
fn road_node(places: &Places, id: i64, mode: Mode) -> Option<Node>
    ensures { result ≡ spec.road_node (get int_eq places.now.by_id) (id, mode) }
{
    let place = place_of(places, id)?;
    Some(Node {
        key: NodeKey::Road(mode, id),
        place,
    })
}

/// Puts a node to the others, if there is one.
pub(crate) fn push_node(nodes: &mut Vec<Node>, node: Option<Node>) -> Result<(), AllocError>
    ensures { OnOk result (nodes.new.items ≡ nodes.old.items ++ option_to_list node) }
{
    if let Some(node) = node {
        nodes.push(node)?;
    }
    Ok(())
}

/// Puts an arc to the others, if there is one.
pub(crate) fn push_arc(arcs: &mut Vec<Arc>, arc: Option<Arc>) -> Result<(), AllocError>
    ensures { OnOk result (arcs.new.items ≡ arcs.old.items ++ option_to_list arc) }
{
    if let Some(arc) = arc {
        arcs.push(arc)?;
    }
    Ok(())
}

/// The road nodes of these ends.
pub(crate) fn road_nodes(
    alloc: Global,
    places: &Places,
    ends: &Ends,
) -> Result<Vec<Node>, AllocError>
    ensures { IfOk result (λ nodes. nodes.items ≡ spec.road_nodes (get int_eq places.now.by_id) ends.now) }
{
    let mut nodes = Vec::new(alloc);
    for (id, mode) in ends.as_slice() {
        push_node(&mut nodes, road_node(places, *id, *mode))?;
    }
    Ok(nodes)
}

/// A road arc by the numbers of its ends, if both have one.
#[tactic(auto, unfolding(crate::specs::Roads::arc_by_row))]
fn arc_of(ends: &Ends, row: &RoadRow) -> Option<Arc>
    requires { length ends.now < 2 ^ 32 }
    ensures { result ≡ spec.arc_by_row ends.now row.now }
{
    let from = ends.number(row.from, row.mode)?;
    let to = ends.number(row.to, row.mode)?;
    Some(Arc {
        from: from as u32,
        to: to as u32,
        ms: row.ms,
    })
}

fn arcs_between(alloc: Global, ends: &Ends, rows: &[RoadRow]) -> Result<Vec<Arc>, AllocError>
    requires { length ends.now < 2 ^ 32 }
    ensures { IfOk result (λ arcs. arcs.items ≡ spec.arcs_of ends.now rows.now) }
{
    let mut arcs = Vec::new(alloc);
    for row in rows {
        push_arc(&mut arcs, arc_of(ends, row))?;
    }
    Ok(arcs)
}

/// These arcs in the order of their ends.
pub(crate) fn in_order(mut arcs: Vec<Arc>) -> Result<Vec<Arc>, AllocError>
    ensures { IfOk result (λ sorted. AreInOrder arcs.items sorted.items) }
{
    arcs.sort_by_key(|arc| (arc.from, arc.to))?;
    Ok(arcs)
}

/// The road arcs between these ends.
pub(crate) fn road_arcs_between(
    alloc: Global,
    ends: &Ends,
    rows: &[RoadRow],
) -> Result<Vec<Arc>, AllocError>
    requires { length ends.now < 2 ^ 32 }
    ensures { IfOk result (λ arcs. AreInOrder (spec.arcs_of ends.now rows.now) arcs.items) }
{
    let arcs = arcs_between(alloc, ends, rows)?;
    in_order(arcs)
}
