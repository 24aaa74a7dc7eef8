//! The roads of a map: which ways walkers, cyclists and cars may use, in which directions and how fast, and
//! the road arcs that they give.
#![tactic(auto)]

ghost use Rattle.std.specs.Prelude.{◌≡◌, ℤ, All, IfOk};
ghost use Rattle.std.specs.HashMap.{get};
ghost use Rattle.std.specs.Ordering.{int_eq};
ghost use Rattle.road_profile.specs.Arcs.{AreRoadArcs, IsTimed, JoinsPlaces};
ghost use Rattle.road_profile.specs.Legs.{place_of_node};

mod classes;
mod legs;
mod passages;
mod places;
mod rows;
mod rules;
mod tags;

use legs::legs_of_ways;
use opl_reader::Objects;
pub use passages::FOOT_SPEED;
pub use places::{Places, place_of, places_of};
pub use rows::RoadRow;
use rows::arcs_of;
use std::alloc::{AllocError, Global};

/// The road arcs of a map, by the places of its nodes, ascending by (from, to, mode).
///
/// Each two neighbours on a way that are not the same node give an arc for each mode and direction in which
/// the way's tags let them go, if its duration is below 2^32 ms. Of parallel arcs of one mode the one that
/// takes the least time is given. A node that the map does not place gives no arc.
pub fn road_arcs(
    alloc: Global,
    places: &Places,
    objects: &Objects,
) -> Result<Vec<RoadRow>, AllocError>
    requires { (id : ℤ) → get int_eq places.now.by_id id ≡ place_of_node objects.now.nodes id }
    ensures arcs { IfOk result (λ rows. AreRoadArcs objects.now rows.items) }
    ensures timed { IfOk result (λ rows. All IsTimed rows.items) }
    ensures ends { IfOk result (λ rows. All (JoinsPlaces objects.now.nodes) rows.items) }
{
    let legs = legs_of_ways(alloc, places, &objects.ways)?;
    arcs_of(legs)
}
