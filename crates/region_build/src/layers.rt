//! The layers of the road modes, and the nearest node of each.

ghost use Rattle.std.specs.Prelude.{◌≡◌, ◌++◌, ◌≤◌, ℕ, ℤ, Option, option_to_list, IfOk, IfSome, OnOk};
ghost use Rattle.plan_base.specs.declared.places.Place.{Place};
ghost use Rattle.geo_length.specs.Nearest.{IsNearest};
ghost use Rattle.mode_network.specs.declared.nodes.Node.{Node};
ghost use Rattle.region_build.specs.Links as spec;
ghost use Rattle.region_build.specs.inside.Layers.{near_of};

use geo_length::Grid;
use mode_network::{Node, NodeKey};
use plan_base::{Mode, Place};
use std::alloc::{AllocError, Global};

/// How far away from a place the node that it is linked with may lie, in millimetres.
const MOST_AWAY: u64 = 500_000;

/// The road nodes of each mode, kept so that the nearest one is found.
#[derive(Drop)]
pub(crate) struct Layers {
    foot: Grid,
    bike: Grid,
    car: Grid,
}

/// A node by its id and its place, if it is of this mode.
fn point_in(mode: Mode, node: &Node) -> Option<(i64, Place)>
    ensures { result ≡ spec.point_in mode node.now.place node.now.key }
{
    match node.key {
        NodeKey::Road(other, id) if other.number() == mode.number() => Some((id, node.place)),
        NodeKey::Road(_, _) => None,
        NodeKey::Stop(_) => None,
        NodeKey::Switch(_) => None,
    }
}

fn push_point(points: &mut Vec<(i64, Place)>, point: Option<(i64, Place)>) -> Result<(), AllocError>
    ensures { OnOk result (points.new.items ≡ points.old.items ++ option_to_list point) }
{
    if let Some(point) = point {
        points.push(point)?;
    }
    Ok(())
}

/// The nodes of a mode.
#[tactic(auto, unfolding(crate::specs::Links::layer))]
fn points_of(alloc: Global, mode: Mode, roads: &[Node]) -> Result<Vec<(i64, Place)>, AllocError>
    ensures { IfOk result (λ points. points.items ≡ spec.layer mode roads.now) }
{
    let mut points = Vec::new(alloc);
    for node in roads {
        push_point(&mut points, point_in(mode, node))?;
    }
    Ok(points)
}

fn layer_of(alloc: Global, mode: Mode, roads: &[Node]) -> Result<Grid, AllocError>
    ensures { IfOk result (λ grid. (place : Place) (within : ℕ) (best : Option (ℤ × ℕ))
        → IsNearest grid place within best → IsNearest (spec.layer mode roads.now) place within best) }
{
    let points = points_of(alloc, mode, roads)?;
    Grid::of(alloc, points)
}

impl Layers {
    ghost use Rattle.std.specs.Prelude.{◌≡◌, IfOk, IfSome, ◌≤◌, ◌<◌};
    ghost use Rattle.region_build.specs.Links.{FindsNearest};
    ghost use Rattle.region_build.specs.inside.Layers.{near_of, points_by};

    /// The layers of these road nodes.
    pub(crate) fn of(alloc: Global, roads: &[Node]) -> Result<Layers, AllocError>
        ensures { IfOk result (λ layers. FindsNearest roads.now
            (near_of layers.foot layers.bike layers.car)) }
    {
        let foot = layer_of(alloc, Mode::Foot, roads)?;
        let bike = layer_of(alloc, Mode::Bike, roads)?;
        let car = layer_of(alloc, Mode::Car, roads)?;
        Ok(Layers { foot, bike, car })
    }

    fn layer(&self, mode: Mode) -> &Grid
        ensures { result.now ≡ points_by self.now.foot self.now.bike self.now.car mode }
    {
        match mode {
            Mode::Foot => &self.foot,
            Mode::Bike => &self.bike,
            Mode::Car => &self.car,
        }
    }

    /// The nearest node of a mode's layer within half a kilometre of a place, and how far away it is.
    pub(crate) fn nearest(&self, mode: Mode, place: Place) -> Option<(i64, u64)>
        ensures value { result ≡ near_of self.now.foot self.now.bike self.now.car mode place }
        ensures within { IfSome result (λ nearest. nearest.1 ≤ 500000) }
    {
        self.layer(mode).nearest(place, MOST_AWAY)
    }
}
