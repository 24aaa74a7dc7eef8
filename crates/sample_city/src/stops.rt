//! The stops and the switches of the sample city, and their links.

ghost use Rattle.std.specs.Prelude.{◌≡◌, ◌+◌, ◌<◌, ◌≤◌, ◌^◌, ◌++◌, length, map, option_to_list, IfOk, OnOk};
ghost use Rattle.std.specs.HashMap.{get};
ghost use Rattle.std.specs.List.{flat_map};
ghost use Rattle.std.specs.List.Sorted.{IsPermutation, IsSorted};
ghost use Rattle.mode_network.specs.Rules.{AreInOrder, name_cmp};
ghost use Rattle.sample_city.specs.Roads.{is_same_road_key};
ghost use Rattle.sample_city.specs.Stops as spec;

use crate::corners::{Corner, corner_at, is_stop_line, place_at};
use crate::roads::{RoadNumbers, push_node};
use crate::streets::{in_order, push_arc};
use mode_network::{Arc, Node, NodeKey};
use plain_texts::{Name, push_decimal};
use plan_base::{Mode, Place};
use std::alloc::{AllocError, Global};

/// A stop: its name, the OSM id of the nodes at its corner, and where that lies.
#[derive(Drop)]
pub(crate) struct CityStop {
    pub(crate) name: Name,
    pub(crate) id: u32,
    pub(crate) place: Place,
}

fn has_stop(at: Corner) -> bool
    ensures { result ≡ spec.has_stop at }
{
    is_stop_line(at.row) && is_stop_line(at.column)
}

/// A letter, a number, an underscore, and another number.
pub(crate) fn text_of(
    alloc: Global,
    letter: u8,
    line: u32,
    other: u32,
) -> Result<Vec<u8>, AllocError>
    ensures { IfOk result (λ text. text.items ≡ spec.corner_text letter line other) }
{
    let mut text = Vec::new(alloc);
    text.push(letter)?;
    push_decimal(&mut text, u128::from(line))?;
    text.push(b'_')?;
    push_decimal(&mut text, u128::from(other))?;
    Ok(text)
}

fn stop_in(name: Option<Name>, place: Option<Place>, at: Corner) -> Option<CityStop>
    ensures { result ≡ spec.stop_in name place at }
{
    let name = name?;
    let place = place?;
    Some(CityStop {
        name,
        id: at.id,
        place,
    })
}

/// Puts the stop of a corner to the others, if it has one.
fn push_stop(alloc: Global, stops: &mut Vec<CityStop>, at: Corner) -> Result<(), AllocError>
    ensures { OnOk result (stops.new.items ≡ stops.old.items ++ option_to_list (spec.corner_stop at)) }
{
    if has_stop(at) {
        let name = Name::new(text_of(alloc, b'S', at.row, at.column)?);
        if let Some(stop) = stop_in(name, place_at(at), at) {
            stops.push(stop)?;
        }
    }
    Ok(())
}

/// The stops of all corners, in the order of their names.
pub(crate) fn city_stops(alloc: Global, corners: &[Corner]) -> Result<Vec<CityStop>, AllocError>
    ensures are { IfOk result (λ stops. IsPermutation (flat_map (λ at. option_to_list (spec.corner_stop at))
        corners.now) stops.items) }
    ensures ascend { IfOk result (λ stops. IsSorted (λ a b. name_cmp a.name b.name) stops.items) }
{
    let mut stops = Vec::new(alloc);
    for at in corners {
        push_stop(alloc, &mut stops, *at)?;
    }
    stops.sort_by(|a, b| a.name.as_bytes().cmp(b.name.as_bytes()))?;
    Ok(stops)
}

/// The nodes of these stops.
pub(crate) fn stop_nodes(alloc: Global, stops: &[CityStop]) -> Result<Vec<Node>, AllocError>
    requires { length stops.now < 2 ^ 32 }
    ensures { IfOk result (λ nodes. nodes.items ≡ spec.city_stop_nodes 0 stops.now) }
{
    let mut nodes = Vec::new(alloc);
    let mut number = 0;
    let mut rest = stops;
    while let [stop, after @ ..] = rest {
        nodes.push(Node {
            key: NodeKey::Stop(number),
            place: stop.place,
        })?;
        number += 1;
        rest = after;
    }
    Ok(nodes)
}

/// The names of these stops.
pub(crate) fn names_of(alloc: Global, stops: Vec<CityStop>) -> Result<Vec<Name>, AllocError>
    ensures { IfOk result (λ names. names.items ≡ map (λ stop. stop.name) stops.items) }
{
    let mut names = Vec::new(alloc);
    for stop in stops {
        names.push(stop.name)?;
    }
    Ok(names)
}

/// The bicycle rental at the first corner, and the bicycle parking at the last.
pub(crate) fn city_switches(alloc: Global, n: u32) -> Result<Vec<Node>, AllocError>
    requires some { 1 ≤ n }
    requires size { n ≤ 300 }
    ensures { IfOk result (λ switches. switches.items ≡ spec.city_switches n) }
{
    let (first, last) = (corner_at(n, 0, 0), corner_at(n, n - 1, n - 1));
    let mut switches = Vec::new(alloc);
    push_node(&mut switches, place_at(first), NodeKey::Switch(1_000_000))?;
    push_node(&mut switches, place_at(last), NodeKey::Switch(1_000_001))?;
    Ok(switches)
}

/// Puts the links between a place and a road node, both ways, to the others, if there is such a node.
fn push_link_both(
    links: &mut Vec<Arc>,
    ms: u32,
    place: u32,
    road: Option<u32>,
) -> Result<(), AllocError>
    ensures { OnOk result (links.new.items ≡ links.old.items ++ spec.link_both ms place road) }
{
    push_arc(links, road, Some(place), ms)?;
    push_arc(links, Some(place), road, ms)
}

/// Puts the links of these stops to the others; their nodes are numbered from `first` on.
fn push_stop_links(
    links: &mut Vec<Arc>,
    numbers: &RoadNumbers,
    first: u32,
    stops: &[CityStop],
) -> Result<(), AllocError>
    requires { first + length stops.now < 2 ^ 32 }
    ensures { OnOk result (links.new.items ≡ links.old.items ++ spec.city_stop_links
        (get is_same_road_key numbers.now.by_end) first stops.now) }
{
    let mut number = first;
    let mut rest = stops;
    while let [stop, after @ ..] = rest {
        push_link_both(
            links,
            60_000,
            number,
            numbers.of(u64::from(stop.id), Mode::Foot),
        )?;
        number += 1;
        rest = after;
    }
    Ok(())
}

/// Puts the links of both switches to the others; the node of the first has the number `place`.
fn push_switch_links(
    links: &mut Vec<Arc>,
    numbers: &RoadNumbers,
    n: u32,
    place: u32,
) -> Result<(), AllocError>
    requires some { 1 ≤ n }
    requires size { n ≤ 300 }
    requires place { place + 1 < 2 ^ 32 }
    ensures { OnOk result (links.new.items ≡ links.old.items ++ spec.city_switch_links n
        (get is_same_road_key numbers.now.by_end) place) }
{
    let first = u64::from(corner_at(n, 0, 0).id);
    let last = u64::from(corner_at(n, n - 1, n - 1).id);
    push_link_both(links, 30_000, place, numbers.of(first, Mode::Foot))?;
    push_link_both(links, 30_000, place, numbers.of(first, Mode::Bike))?;
    let place = Some(place + 1);
    push_arc(links, numbers.of(last, Mode::Bike), place, 30_000)?;
    push_arc(links, place, numbers.of(last, Mode::Foot), 30_000)
}

/// The links of the stops and the switches, which stand behind so many road nodes.
pub(crate) fn city_links(
    alloc: Global,
    numbers: &RoadNumbers,
    n: u32,
    roads: u32,
    stops: &[CityStop],
) -> Result<Vec<Arc>, AllocError>
    requires some { 1 ≤ n }
    requires size { n ≤ 300 }
    requires few { roads + length stops.now + 1 < 2 ^ 32 }
    ensures { IfOk result (λ links. AreInOrder (spec.city_links n (get is_same_road_key numbers.now.by_end)
        roads stops.now) links.items) }
{
    let mut links = Vec::new(alloc);
    push_stop_links(&mut links, numbers, roads, stops)?;
    push_switch_links(&mut links, numbers, n, roads + stops.len() as u32)?;
    in_order(links)
}
