//! The ways by a node that no entry is as light as, in order.

ghost use Rattle.std.specs.Prelude.{◌<◌, ◌^◌, length, All, OnOk, IfOk};
ghost use Rattle.contractor.specs.inside.Layers.{AreWaysOf, AreWaysWith, IsWayTaken};

use crate::cutting::Sides;
use crate::layer::Layer;
use crate::places::RowPlaces;
use crate::way::{Side, Way};
use std::alloc::{AllocError, Global};
use witness::Edge;

/// The ways from the nodes of one side to those of the other, each once. The row of each start is looked through once.
pub(crate) fn ways_by(
    alloc: Global,
    places: &mut RowPlaces,
    layer: &Layer,
    sides: &Sides,
) -> Result<Vec<Way>, AllocError>
    requires nodes { All (λ side. side.node < length layer.now.rows.items) sides.now.first.items }
    requires first { All (λ side. side.weight < 2 ^ 56) sides.now.first.items }
    requires second { All (λ edge. edge.weight < 2 ^ 56) sides.now.second.items }
    ensures { IfOk result (λ ways. AreWaysOf layer.now.rows.items sides.now.first.items
        sides.now.second.items ways.items) }
{
    let mut ways = Vec::new(alloc);
    'first: for side in &sides.first {
        let row = &layer.rows[side.node as usize];
        places.note(row);
        push_ways(&mut ways, places, row, *side, &sides.second)?;
    }
    ways.sort()?;
    ways.dedup();
    Ok(ways)
}

/// Appends the ways from one node, whose row was noted.
fn push_ways(
    ways: &mut Vec<Way>,
    places: &RowPlaces,
    row: &[Edge],
    side: Side,
    second: &[Edge],
) -> Result<(), AllocError>
    requires first { side.weight < 2 ^ 56 }
    requires second { All (λ edge. edge.weight < 2 ^ 56) second.now }
    ensures { OnOk result (AreWaysWith row.now side second.now ways.old.items ways.new.items) }
{
    'second: for edge in second {
        if side.node != edge.to {
            let way = Way {
                first: side.weight,
                from: side.node,
                sum: side.weight + edge.weight,
                to: edge.to,
            };
            push_way(ways, places, row, way)?;
        }
    }
    Ok(())
}

/// Appends a way, if the row of its start has none that is as light.
fn push_way(
    ways: &mut Vec<Way>,
    places: &RowPlaces,
    row: &[Edge],
    way: Way,
) -> Result<(), AllocError>
    ensures { OnOk result (IsWayTaken row.now way ways.old.items ways.new.items) }
{
    if !places.has_way_to(row, way.to, way.sum) {
        ways.push(way)?;
    }
    Ok(())
}
