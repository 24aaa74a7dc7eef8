//! The road nodes as points, and the grid in which the nearest of them is found.

ghost use Rattle.std.specs.Prelude.{◌≡◌, Some, true, IfOk};
ghost use Rattle.mode_network.specs.Copies.{point_of, road_points};
ghost use Rattle.mode_network.specs.Points.{HoldSame};
ghost use Rattle.mode_network.specs.Rules.{rank_of};

use crate::nodes::{Node, NodeKey};
use geo_length::Grid;
use plan_base::Place;
use std::alloc::{AllocError, Global};

/// The id of a road node or a switch.
pub(crate) fn id_of(key: NodeKey) -> i64
    ensures { result ≡ (rank_of key).0 }
{
    match key {
        NodeKey::Road(_, id) | NodeKey::Switch(id) => id,
        NodeKey::Stop(_) => 0,
    }
}

fn point_of(node: &Node) -> (i64, Place)
    ensures { result ≡ point_of node.now }
{
    (id_of(node.key), node.place)
}

fn is_same(last: Option<(i64, Place)>, point: (i64, Place)) -> bool
    ensures { result ≡ true → last ≡ Some point }
{
    match last {
        Some((id, place)) => id == point.0 && place == point.1,
        None => false,
    }
}

/// The points of the road nodes. An OSM node is mostly in several layers, whose nodes follow one another: where
/// these are the same point, it stands once.
fn distinct_points(alloc: Global, roads: &[Node]) -> Result<Vec<(i64, Place)>, AllocError>
    ensures { IfOk result (λ points. HoldSame points.items (road_points roads.now)) }
{
    let mut points = Vec::new(alloc);
    let mut last = None;
    for node in roads {
        let point = point_of(node);
        if !is_same(last, point) {
            points.push(point)?;
            last = Some(point);
        }
    }
    Ok(points)
}

/// The grid of the road nodes.
pub(crate) fn road_grid(alloc: Global, roads: &[Node]) -> Result<Grid, AllocError>
    ensures { IfOk result (λ grid. HoldSame grid (road_points roads.now)) }
{
    let points = distinct_points(alloc, roads)?;
    Grid::of(alloc, points)
}
