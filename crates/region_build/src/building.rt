//! The build of a region.

ghost use Rattle.std.specs.Prelude.{◌≡◌, ◌<◌, ◌^◌, length, map, None, IfErr, IfOk, OnOk};
ghost use Rattle.std.specs.List.{AllByRecursion};
ghost use Rattle.opl_reader.specs.ObjectLists.{AreObjects, ObjectLists};
ghost use Rattle.gtfs_tables.specs.Sound.{IsFeed, IsFeedId};
ghost use Rattle.mode_network.specs.Rules.{AreParts, first_fault};
ghost use Rattle.region_build.specs.Answers.{IsCompiled, IsFaultOf, fault_by};
ghost use Rattle.region_build.specs.Compiled.{AreLists, AreListsOf, AreRoads, network_lists};
ghost use Rattle.region_build.specs.Copies.{expanded};
ghost use Rattle.region_build.specs.Left.{AreLeftOut};
ghost use Rattle.region_build.specs.Links.{AreLinks};
ghost use Rattle.region_build.specs.Sources.{lists_of};
ghost use Rattle.region_build.specs.StopNames.{stop_number};

use crate::copies::expanded;
use crate::ends::Ends;
use crate::faults::BuildFault;
use crate::left::LeftOut;
use crate::links::links_of;
use crate::roads::{road_arcs_between, road_nodes};
use crate::sources::{Source, calls_in_order, frequencies_in_order, sources_of};
use crate::stops::{StopEntry, entries_of, names_of, numbers_of, stop_nodes};
use crate::switches::{switch_nodes, switches_of};
use crate::tallies::{Counts, Tally, kind_over, tally_of};
use gtfs_tables::Feed;
use mode_network::{Arc, NetFault, Network, Node, Parts};
use opl_reader::{Objects, OsmNode};
use plan_base::Caps;
use road_profile::{places_of, road_arcs};
use service_days::Days;
use std::alloc::{AllocError, Global};
use timetable_arcs::Trip;

/// The road nodes of a map, its road arcs, and the ends that both are numbered by.
#[derive(Drop)]
struct Roads {
    ends: Ends,
    nodes: Vec<Node>,
    arcs: Vec<Arc>,
}

/// The roads of a map.
fn roads_of(alloc: Global, objects: &Objects) -> Result<Roads, AllocError>
    requires { AreObjects objects.now }
    ensures are { IfOk result (λ roads. AreRoads objects.now roads.ends roads.nodes.items roads.arcs.items) }
    ensures few { IfOk result (λ roads. length roads.ends < 2 ^ 32) }
{
    let places = places_of(alloc, &objects.nodes)?;
    let rows = road_arcs(alloc, &places, objects)?;
    let ends = Ends::of(alloc, &rows)?;
    if ends.as_slice().len() > u32::MAX as usize {
        return Err(AllocError);
    }
    let nodes = road_nodes(alloc, &places, &ends)?;
    let arcs = road_arcs_between(alloc, &ends, &rows)?;
    Ok(Roads { ends, nodes, arcs })
}

/// The nodes, the road arcs and the links of a region.
#[derive(Drop)]
pub(crate) struct Lists {
    roads: Vec<Node>,
    entries: Vec<StopEntry>,
    stops: Vec<Node>,
    switches: Vec<Node>,
    arcs: Vec<Arc>,
    links: Vec<Arc>,
}

/// More than 2^32 things have no numbers; so many are never held.
fn has_numbers(count: usize) -> Result<(), AllocError>
    ensures { OnOk result (count < 2 ^ 32) }
{
    if count > u32::MAX as usize {
        return Err(AllocError);
    }
    Ok(())
}

/// The links of these roads, stops and switches, where all of them together have numbers.
fn numbered_links(
    alloc: Global,
    roads: &Roads,
    entries: &[StopEntry],
    places: &[OsmNode],
) -> Result<Vec<Arc>, AllocError>
    requires { length roads.now.ends < 2 ^ 32 }
    ensures { IfOk result (λ links. AreLinks roads.now.nodes.items roads.now.ends entries.now places.now
        links.items) }
{
    let count = roads.nodes.len();
    has_numbers(count)?;
    has_numbers(count + entries.len())?;
    has_numbers(count + entries.len() + places.len())?;
    links_of(alloc, &roads.nodes, &roads.ends, entries, places)
}

/// The nodes, the road arcs and the links that a map and a feed give.
fn lists_of(alloc: Global, objects: &Objects, feed: &Feed) -> Result<Lists, AllocError>
    requires objects { AreObjects objects.now }
    requires feed { IsFeed feed.now }
    ensures are { IfOk result (λ lists. AreLists objects.now feed.now lists.entries.items lists.roads.items
        lists.stops.items lists.switches.items lists.arcs.items lists.links.items) }
    ensures few { IfOk result (λ lists. length lists.entries.items < 2 ^ 32) }
{
    has_numbers(feed.stops.len())?;
    let places = switches_of(alloc, &objects.nodes)?;
    let switches = switch_nodes(alloc, &places)?;
    let entries = entries_of(alloc, &feed.stops)?;
    has_numbers(entries.len())?;
    let stops = stop_nodes(alloc, &entries)?;
    let roads = roads_of(alloc, objects)?;
    let links = numbered_links(alloc, &roads, &entries, &places)?;
    let Roads { nodes, arcs, .. } = roads;
    Ok(Lists {
        roads: nodes,
        entries,
        stops,
        switches,
        arcs,
        links,
    })
}

impl Lists {
    ghost use Rattle.std.specs.Prelude.{◌≡◌, ◌++◌, length, map, IfOk};

    /// How much there is of everything.
    fn counts(&self, tally: &Tally) -> Counts
        ensures { result ≡ record {
          nodes = length (self.now.roads.items ++ self.now.stops.items ++ self.now.switches.items);
          stops = length self.now.stops.items;
          arcs = length self.now.arcs.items;
          links = length self.now.links.items;
          trips = tally.now.trips;
          calls = tally.now.calls;
        } }
    {
        Counts {
            nodes: self.roads.len() as u128
                + self.stops.len() as u128
                + self.switches.len() as u128,
            stops: self.stops.len() as u64,
            arcs: self.arcs.len() as u64,
            links: self.links.len() as u64,
            trips: tally.trips,
            calls: tally.calls,
        }
    }

    /// The parts of a network with these days and trips.
    fn into_parts(self, alloc: Global, days: Days, trips: Vec<Trip>) -> Result<Parts, AllocError>
        ensures { IfOk result (λ parts. parts ≡ record {
          days = days;
          roads = self.roads.items;
          stop_names = map (λ entry. entry.name) self.entries.items;
          stops = self.stops.items;
          switches = self.switches.items;
          arcs = self.arcs.items;
          links = self.links.items;
          trips = trips.items;
        }) }
    {
        let Lists {
            roads,
            entries,
            stops,
            switches,
            arcs,
            links,
        } = self;
        let stop_names = names_of(alloc, entries)?;
        Ok(Parts {
            days,
            roads,
            stop_names,
            stops,
            switches,
            arcs,
            links,
            trips,
        })
    }
}

/// The first fault of what has so much of everything, and in which the times of the trip in this row go back, or none do.
fn fault_by(caps: &Caps, counts: &Counts, back: Option<u64>) -> Option<BuildFault>
    ensures { result ≡ fault_by caps.now counts.now back }
{
    if let Some(kind) = kind_over(caps, counts) {
        return Some(BuildFault::TooMany { kind });
    }
    match back {
        Some(row) => Some(BuildFault::TimeGoesBack { row }),
        None => None,
    }
}

/// The network of parts that break no rule.
fn network_of(alloc: Global, caps: &Caps, parts: Parts) -> Result<Network, AllocError>
    requires parts { AreParts parts }
    requires faultless { first_fault caps.now parts ≡ None }
    ensures parts { IfOk result (λ network. network ≡ parts) }
    ensures faultless { IfOk result (λ network. first_fault caps.now network ≡ None) }
{
    match Network::build(alloc, parts, caps) {
        Ok(network) => Ok(network),
        Err(NetFault::OutOfMemory) => Err(AllocError),
        Err(NetFault::OutOfOrder { .. }) => unreachable!(),
        Err(NetFault::BadEnd { .. }) => unreachable!(),
        Err(NetFault::Table(_)) => unreachable!(),
        Err(NetFault::TooMany { .. }) => unreachable!(),
    }
}

/// The trips of these sources, which stop at the numbers of these stops.
fn numbered_trips(
    alloc: Global,
    entries: &[StopEntry],
    sources: &[Source<'_>],
) -> Result<Vec<Trip>, AllocError>
    requires few { length entries.now < 2 ^ 32 }
    requires ids { AllByRecursion (λ source. IsFeedId source.id.now) sources.now }
    ensures { IfOk result (λ trips. trips.items ≡ expanded (stop_number entries.now)
        (map lists_of sources.now)) }
{
    let numbers = numbers_of(alloc, entries)?;
    expanded(alloc, &numbers, sources)
}

/// The trips of a feed over some days, beside the other lists of a region, and what is left out of them; or the first fault of
/// the region.
fn trips_of(
    alloc: Global,
    feed: &Feed,
    days: &Days,
    caps: &Caps,
    lists: &Lists,
) -> Result<(Vec<Trip>, LeftOut), BuildFault>
    requires feed { IsFeed feed.now }
    requires few { length lists.now.entries.items < 2 ^ 32 }
    ensures compiled { IfOk result (λ given. (objects : ObjectLists) → AreListsOf objects feed.now lists.now
        → IsCompiled caps.now objects feed.now days.now (network_lists days.now lists.now given.0.items)) }
    ensures left_out { IfOk result (λ given. AreLeftOut feed.now days.now given.1) }
    ensures fault { IfErr result (λ fault. (objects : ObjectLists) → AreListsOf objects feed.now lists.now
        → IsFaultOf caps.now objects feed.now days.now fault) }
{
    has_numbers(feed.trips.len())?;
    let calls = calls_in_order(alloc, &feed.calls)?;
    let frequencies = frequencies_in_order(alloc, &feed.frequencies)?;
    let sources = sources_of(alloc, feed, days, &calls, &frequencies)?;
    let tally = tally_of(&sources)?;
    if let Some(fault) = fault_by(caps, &lists.counts(&tally), tally.back) {
        return Err(fault);
    }
    let trips = numbered_trips(alloc, &lists.entries, &sources)?;
    Ok((trips, tally.left_out))
}

/// A region that was built, and what was left out of it.
#[derive(Drop)]
pub struct Region {
    pub network: Network,
    pub left_out: LeftOut,
}

/// The region of a map and a timetable feed over some days.
///
/// Its road nodes are the ends of road arcs, in the order of their OSM ids and modes; its stops are those of the feed, in
/// the order of their names, which are their ids escaped as by [`plain_texts::name_of_id`]; its switches are the parkings
/// and rentals of the map, in the order of their ids. A stop is linked with the nearest foot node both ways, a parking
/// with car and foot both ways, a bicycle parking from bike and to foot, and a bicycle rental with foot and bike both ways,
/// where such a node is within 500 metres; a link takes as long as a walk. The trips stand in the order of trips.txt. A
/// trip with fewer than two calls or without a day is left out. By frequencies.txt a trip leaves as often as its headways
/// say instead, or not at all where one of them is not exact; a copy with a time past 167:59:59 is left out.
pub fn build(
    alloc: Global,
    objects: &Objects,
    feed: &Feed,
    days: Days,
    caps: &Caps,
) -> Result<Region, BuildFault>
    requires objects { AreObjects objects.now }
    requires feed { IsFeed feed.now }
    ensures compiled { IfOk result (λ region. IsCompiled caps.now objects.now feed.now days region.network) }
    ensures faultless { IfOk result (λ region. first_fault caps.now region.network ≡ None) }
    ensures left_out { IfOk result (λ region. AreLeftOut feed.now days region.left_out) }
    ensures fault { IfErr result (IsFaultOf caps.now objects.now feed.now days) }
{
    days.known();
    let lists = lists_of(alloc, objects, feed)?;
    let (trips, left_out) = trips_of(alloc, feed, &days, caps, &lists)?;
    let parts = lists.into_parts(alloc, days, trips)?;
    let network = network_of(alloc, caps, parts)?;
    Ok(Region { network, left_out })
}
