//! Links between places and the layers of the road modes.

ghost use Rattle.std.specs.Prelude.{◌≡◌, ◌+◌, ◌<◌, ◌^◌, ◌++◌, ◌∷◌, [], List, length, map, true, false, if◌then◌else◌, IfOk, OnOk};
ghost use Rattle.plan_base.specs.declared.places.Place.{Place};
ghost use Rattle.region_build.specs.Links as spec;
ghost use Rattle.region_build.specs.declared.links.Join.{Join};
ghost use Rattle.region_build.specs.Ends.{number_of_end};
ghost use Rattle.region_build.specs.inside.Layers.{near_of};

use crate::ends::Ends;
use crate::layers::Layers;
use crate::roads::in_order;
use crate::stops::StopEntry;
use geo_length::duration_ms;
use mode_network::{Arc, Node};
use opl_reader::{Amenity, OsmNode};
use plan_base::{Mode, Place};
use road_profile::FOOT_SPEED;
use std::alloc::{AllocError, Global};

/// How a place is joined with the layer of a mode.
#[derive(Clone, Copy)]
pub(crate) struct Join {
    mode: Mode,
    /// Whether there is a link from the layer to the place.
    enters: bool,
    /// Whether there is a link from the place to the layer.
    leaves: bool,
}

fn joined(mode: Mode, enters: bool, leaves: bool) -> Join
    ensures { result ≡ spec.join mode enters leaves }
{
    Join {
        mode,
        enters,
        leaves,
    }
}

fn both_ways(mode: Mode) -> Join
    ensures { result ≡ spec.join mode true true }
{
    joined(mode, true, true)
}

fn into_place(mode: Mode) -> Join
    ensures { result ≡ spec.join mode true false }
{
    joined(mode, true, false)
}

fn out_of_place(mode: Mode) -> Join
    ensures { result ≡ spec.join mode false true }
{
    joined(mode, false, true)
}

/// Puts the links of a place and a road node to the others, if there is such a node and a duration.
fn push_linked(
    links: &mut Vec<Arc>,
    join: Join,
    place: u32,
    road: Option<u32>,
    ms: Option<u32>,
) -> Result<(), AllocError>
    ensures { OnOk result (links.new.items ≡ links.old.items ++ spec.linked join place road ms) }
{
    match (road, ms) {
        (Some(road), Some(ms)) => {
            push_if(join.enters, links, road, place, ms)?;
            push_if(join.leaves, links, place, road, ms)
        }
        (Some(_), None) => Ok(()),
        (None, _) => Ok(()),
    }
}

fn push_if(there: bool, links: &mut Vec<Arc>, from: u32, to: u32, ms: u32) -> Result<(), AllocError>
    ensures { OnOk result (links.new.items ≡ links.old.items ++
        (if there then record { from = from; to = to; ms = ms } ∷ [] else [])) }
{
    if there {
        links.push(Arc { from, to, ms })?;
    }
    Ok(())
}

fn road_number(ends: &Ends, id: i64, mode: Mode) -> Option<u32>
    requires { length ends.now < 2 ^ 32 }
    ensures { result ≡ number_of_end ends.now (id, mode) }
{
    let number = ends.number(id, mode)?;
    Some(number as u32)
}

/// Puts the links of a place with the nearest node of a layer to the others, if one is near enough.
#[tactic(auto, unfolding(crate::specs::Links::join_links))]
fn push_join(
    links: &mut Vec<Arc>,
    layers: &Layers,
    ends: &Ends,
    number: u32,
    place: Place,
    join: Join,
) -> Result<(), AllocError>
    requires { length ends.now < 2 ^ 32 }
    ensures { OnOk result (links.new.items ≡ links.old.items ++ spec.join_links
        (near_of layers.now.foot layers.now.bike layers.now.car) ends.now number place join) }
{
    match layers.nearest(join.mode, place) {
        None => Ok(()),
        Some((id, mm)) => push_linked(
            links,
            join,
            number,
            road_number(ends, id, join.mode),
            duration_ms(mm, FOOT_SPEED),
        ),
    }
}

/// A place that is joined with layers.
trait JoinedPlace {
    /// Where it lies, and what it joins.
    ghost joins: { Self → Place × List Join };

    /// Puts its links to the others; its node has this number.
    fn push_links(
        &self,
        links: &mut Vec<Arc>,
        layers: &Layers,
        ends: &Ends,
        number: u32,
    ) -> Result<(), AllocError>
        requires { length ends.now < 2 ^ 32 }
        ensures { OnOk result (links.new.items ≡ links.old.items ++ spec.links_at
            (near_of layers.now.foot layers.now.bike layers.now.car) ends.now number (joins self.now).0
            (joins self.now).1) };
}

impl JoinedPlace for StopEntry {
    ghost joins = { spec.joined_stop };

    #[tactic(auto, unfolding(crate::specs::Links::links_at))]
    fn push_links(
        &self,
        links: &mut Vec<Arc>,
        layers: &Layers,
        ends: &Ends,
        number: u32,
    ) -> Result<(), AllocError> {
        push_join(
            links,
            layers,
            ends,
            number,
            self.place,
            both_ways(Mode::Foot),
        )
    }
}

impl JoinedPlace for OsmNode {
    ghost joins = { spec.joined_switch };

    #[tactic(auto, unfolding(crate::specs::Links::links_at))]
    fn push_links(
        &self,
        links: &mut Vec<Arc>,
        layers: &Layers,
        ends: &Ends,
        number: u32,
    ) -> Result<(), AllocError> {
        let (first, second) = match self.amenity {
            Amenity::Nothing => return Ok(()),
            Amenity::Parking => (both_ways(Mode::Car), both_ways(Mode::Foot)),
            Amenity::BicycleParking => (into_place(Mode::Bike), out_of_place(Mode::Foot)),
            Amenity::BicycleRental => (both_ways(Mode::Foot), both_ways(Mode::Bike)),
        };
        push_join(links, layers, ends, number, self.place, first)?;
        push_join(links, layers, ends, number, self.place, second)
    }
}

/// Puts the links of these places to the others; their nodes are numbered from `first` on.
fn push_places<P: JoinedPlace>(
    links: &mut Vec<Arc>,
    layers: &Layers,
    ends: &Ends,
    first: u32,
    places: &[P],
) -> Result<(), AllocError>
    requires few { length ends.now < 2 ^ 32 }
    requires numbers { first + length places.now < 2 ^ 32 }
    ensures { OnOk result (links.new.items ≡ links.old.items ++ spec.place_links
        (near_of layers.now.foot layers.now.bike layers.now.car) ends.now first
        (map P.joins places.now)) }
{
    let mut number = first;
    let mut rest = places;
    while let [place, after @ ..] = rest {
        place.push_links(links, layers, ends, number)?;
        number += 1;
        rest = after;
    }
    Ok(())
}

/// The links of all stops and switches with the nearest nodes of these layers.
fn links_by(
    alloc: Global,
    layers: &Layers,
    roads: &[Node],
    ends: &Ends,
    entries: &[StopEntry],
    switches: &[OsmNode],
) -> Result<Vec<Arc>, AllocError>
    requires few { length ends.now < 2 ^ 32 }
    requires numbers { length roads.now + length entries.now + length switches.now < 2 ^ 32 }
    requires nearest { spec.FindsNearest roads.now (near_of layers.now.foot layers.now.bike layers.now.car) }
    ensures { IfOk result (λ links. spec.AreLinks roads.now ends.now entries.now switches.now links.items) }
{
    let first = roads.len() as u32;
    let mut links = Vec::new(alloc);
    push_places(&mut links, layers, ends, first, entries)?;
    let first = first + entries.len() as u32;
    push_places(&mut links, layers, ends, first, switches)?;
    in_order(links)
}

/// The links of all stops and switches with the nearest nodes of the layers.
pub(crate) fn links_of(
    alloc: Global,
    roads: &[Node],
    ends: &Ends,
    entries: &[StopEntry],
    switches: &[OsmNode],
) -> Result<Vec<Arc>, AllocError>
    requires few { length ends.now < 2 ^ 32 }
    requires numbers { length roads.now + length entries.now + length switches.now < 2 ^ 32 }
    ensures { IfOk result (λ links. spec.AreLinks roads.now ends.now entries.now switches.now links.items) }
{
    let layers = Layers::of(alloc, roads)?;
    links_by(alloc, &layers, roads, ends, entries, switches)
}
