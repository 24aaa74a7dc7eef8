//! The layer of a mode: its road nodes, and their points.

ghost use Rattle.std.specs.Prelude.{◌≡◌, ℕ, Some, IfSome};
ghost use Rattle.mode_network.specs.Copies.{IsCopyIn, layer_points};
ghost use Rattle.mode_network.specs.Points.{AreRoads, AreRoads-prop, has_point};

use crate::nodes::Node;
use crate::order::rank;
use geo_length::PointFilter;
use plan_base::{Mode, Place};

/// The road node of a mode that has this id, by its place among all.
pub(crate) fn node_in(roads: &[Node], mode: Mode, id: i64) -> Option<usize>
    requires { AreRoads roads.now }
    ensures found { IfSome result (IsCopyIn roads.now mode id) }
    ensures only { (v : ℕ) → IsCopyIn roads.now mode id v → result ≡ Some v }
{
    match roads.binary_search_by(|node| rank(node.key).cmp(&(id, u32::from(mode.number())))) {
        Ok(place) => Some(place),
        Err(_) => None,
    }
}

/// Passes the points of a mode's road nodes.
#[derive(Drop)]
pub(crate) struct Layer<'a> {
    pub roads: &'a [Node],
    pub mode: Mode,
    pub ghost kept: { AreRoads roads.now } by { AreRoads-prop roads.now },
}

impl PointFilter for Layer<'_> {
    ghost passes = { λ layer point. has_point (layer_points layer.roads.now layer.mode) point };

    fn passes(&self, point: &(i64, Place)) -> bool {
        match node_in(self.roads, self.mode, point.0) {
            Some(v) => self.roads[v].place == point.1,
            None => false,
        }
    }
}
