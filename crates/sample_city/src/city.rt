//! The sample city, a network to try a planner on.

ghost use Rattle.std.specs.Prelude.{◌≡◌, ◌<◌, ◌≤◌, ◌^◌, None, IfErr, IfOk, OnOk, length};
ghost use Rattle.std.specs.List.{flat_map};
ghost use Rattle.service_days.specs.Days.{plain_days};
ghost use Rattle.plan_base.specs.CapsByKind.{cap_of};
ghost use Rattle.plan_base.specs.FullCaps.{full_cap_of};
ghost use Rattle.plan_base.specs.declared.limits.Kind.{Kind};
ghost use Rattle.mode_network.specs.Rules.{AreInOrder, AreParts, first_fault};
ghost use Rattle.mode_network.specs.declared.faults.NetFault.TheVariants.{OutOfMemory};
ghost use Rattle.sample_city.specs.Roads.{corner_arcs, road_number};
ghost use Rattle.sample_city.specs.Stops.{city_links};
ghost use Rattle.sample_city.specs.SampleCity.{IsCityRefusal, IsSampleCity};
ghost use Rattle.sample_city.specs.Trips.{city_trips};

use crate::corners::{Corner, all_corners, stop_lines};
use crate::roads::{road_nodes, road_numbers};
use crate::stops::{CityStop, city_links, city_stops, city_switches, names_of, stop_nodes};
use crate::streets::city_arcs;
use crate::trips::city_trips;
use mode_network::{Arc, NetFault, Network, Node, Parts};
use plan_base::Caps;
use service_days::Days;
use std::alloc::{AllocError, Global};
use timetable_arcs::Trip;

/// More than 2^31 things are never held.
fn are_few(count: usize) -> Result<(), AllocError>
    ensures { OnOk result (count < 2 ^ 31) }
{
    if count >= 0x8000_0000 {
        return Err(AllocError);
    }
    Ok(())
}

fn ten_days(alloc: Global) -> Result<Days, AllocError>
    ensures { IfOk result (λ days. days ≡ plain_days 20240304 3) }
{
    match Days::new(alloc, 20_240_304, 3) {
        Ok(days) => Ok(days),
        Err(_) => Err(AllocError),
    }
}

/// The road arcs and the links of the city.
#[derive(Drop)]
struct Ways {
    arcs: Vec<Arc>,
    links: Vec<Arc>,
}

/// The ways between these corners, road nodes and stops.
fn city_ways(
    alloc: Global,
    n: u32,
    corners: &[Corner],
    roads: &[Node],
    city: &[CityStop],
) -> Result<Ways, AllocError>
    requires some { 1 ≤ n }
    requires size { n ≤ 300 }
    requires few_roads { length roads.now < 2 ^ 31 }
    requires few_stops { length city.now < 2 ^ 31 }
    ensures arcs { IfOk result (λ ways. AreInOrder (flat_map (corner_arcs n (road_number roads.now))
        corners.now) ways.arcs.items) }
    ensures links { IfOk result (λ ways. AreInOrder (city_links n (road_number roads.now) (length roads.now)
        city.now) ways.links.items) }
{
    let numbers = road_numbers(alloc, roads)?;
    let arcs = city_arcs(alloc, &numbers, n, corners)?;
    let links = city_links(alloc, &numbers, n, roads.len() as u32, city)?;
    Ok(Ways { arcs, links })
}

/// The trips between these stops.
fn trips_between(alloc: Global, n: u32, city: &[CityStop]) -> Result<Vec<Trip>, AllocError>
    requires size { n ≤ 300 }
    requires few { length city.now < 2 ^ 31 }
    ensures { IfOk result (λ trips. trips.items ≡ city_trips n city.now) }
{
    let lines = stop_lines(alloc, n)?;
    city_trips(alloc, city, n, &lines)
}

/// The parts of the city.
fn parts_of(alloc: Global, n: u32) -> Result<Parts, AllocError>
    requires some { 1 ≤ n }
    requires size { n ≤ 300 }
    ensures city { IfOk result (IsSampleCity n) }
    ensures parts { IfOk result AreParts }
{
    let all = all_corners(alloc, n)?;
    let corners = all.as_slice();
    let roads = road_nodes(alloc, corners)?;
    are_few(roads.len())?;
    let city = city_stops(alloc, corners)?;
    are_few(city.len())?;
    let Ways { arcs, links } = city_ways(alloc, n, corners, &roads, &city)?;
    let trips = trips_between(alloc, n, &city)?;
    let stops = stop_nodes(alloc, &city)?;
    let switches = city_switches(alloc, n)?;
    let days = ten_days(alloc)?;
    let stop_names = names_of(alloc, city)?;
    Ok(Parts {
        days,
        roads,
        stop_names,
        stops,
        switches,
        arcs,
        links,
        trips,
    })
}

/// The sample city of `n` rows and `n` columns of corners, `n` from 1 to 300.
///
/// Walkers and cyclists may use every street, and cars each third row and column. Buses go along the rows, and trams along
/// the columns, that have stops, which stand at every ninth corner; bicycles are hired at the first corner, and may be left
/// at the last. Within [`Caps::FULL`] it fails only where memory runs out.
pub fn sample(alloc: Global, n: u32, caps: &Caps) -> Result<Network, NetFault>
    requires some { 1 ≤ n }
    requires size { n ≤ 300 }
    ensures city { IfOk result (IsSampleCity n) }
    ensures faultless { IfOk result (λ network. first_fault caps.now network ≡ None) }
    ensures fault { IfErr result (IsCityRefusal n caps.now) }
    ensures full { ((kind : Kind) → cap_of caps.now kind ≡ full_cap_of kind)
        → IfErr result (λ fault. fault ≡ OutOfMemory) }
{
    let parts = parts_of(alloc, n)?;
    match Network::build(alloc, parts, caps) {
        Ok(network) => Ok(network),
        Err(fault) => Err(fault),
    }
}
