//! A network: its lists, and what finds things in them.

ghost use Rattle.std.specs.Prelude.{◌≡◌, ◌<◌, ◌^◌, Some, None, [], ◌++◌, length, All, IfOk, OnOk, IfErr, slice_get, true};
ghost use Rattle.mode_network.specs.NetworkLists.{nodes_of, mode_at, letter_at, stop_at, stop_node};
ghost use Rattle.mode_network.specs.Rules.{AreParts, IsNetwork, IsFaultOf, IsAscending, IsRoad, arc_cmp, node_cmp, name_cmp, first_fault};
ghost use Rattle.mode_network.specs.Journeys.{IsDuration};
ghost use Rattle.plain_texts.specs.Names.{is_name};
ghost use Rattle.mode_network.specs.Timetables.{IsTimetableOf};
ghost use Rattle.timetable_arcs.specs.Table.{IsTable};
ghost use Rattle.mode_network.specs.Copies.{IsNearestRoad, IsNearestIn, IsNearCopy, IsNearCopyIn, IsRoadCopy, IsCopyIn, IsStopCopy, AreExactly, AreCopies, IsPlaceOf};
ghost use Rattle.mode_network.specs.Indexes.{range_from, legs_from, IsRange, is_end_of};

use crate::bases::{no_trips, timetable};
use crate::endpoints::Endpoint;
use crate::faults::NetFault;
use crate::indexes::{NodeRow, Tables};
use crate::layers::{Layer, node_in};
use crate::nodes::{Arc, Node, NodeKey};
use crate::parts::Parts;
use crate::points::id_of;
use crate::rules;
use geo_length::Grid;
use plain_texts::Name;
use plan_base::{Caps, Mode, Place};
use search_laws::Leg;
use service_days::Days;
use std::alloc::{AllocError, Global};
use std::marker::Model;
use timetable_arcs::Timetable;

/// How far away from a place its nearest road node may lie, in millimetres.
const MOST_AWAY: u64 = 2_000_000;

/// The network of a region. Each keeps the rules of [`Network::build`]; a contract sees its lists.
#[derive(Drop)]
pub struct Network {
    days: Days,
    roads: Vec<Node>,
    stop_names: Vec<Name>,
    stops: Vec<Node>,
    switches: Vec<Node>,
    arcs: Vec<Arc>,
    legs: Vec<Leg>,
    links: Vec<Arc>,
    timetable: Timetable,
    rows: Vec<NodeRow>,
    linked: Vec<bool>,
    grid: Grid,
}

impl Model for Network {
    ghost use Rattle.mode_network.specs.NetworkLists.{NetworkLists};

    ghost Value = { NetworkLists };

    ghost use Rattle.mode_network.specs.inside.Fields.{lists_of, IsKept};

    ghost view = { lists_of };

    ghost invariant = { IsKept };
}

impl Network {
    /// The network of these parts, or the first rule that they break. The rules are tried in this order: the
    /// counts of nodes, stops, arcs and links are within `caps`; the road nodes ascend strictly by (id, mode),
    /// the stop names by bytes and the switches by id; each arc in turn joins different road nodes of one mode,
    /// and the arcs ascend strictly by (from, to); each link in turn joins a road node with a node that is none,
    /// and the links ascend likewise; and the trips
    /// keep the rules of [`Timetable::build`].
    pub fn build(alloc: Global, parts: Parts, caps: &Caps) -> Result<Network, NetFault>
        requires { AreParts parts }
        ensures built { IfOk result (λ network. network ≡ parts) }
        ensures faultless { OnOk result (first_fault caps.now parts ≡ None) }
        ensures fault { IfErr result (IsFaultOf caps.now parts) }
    {
        if let Some(fault) = rules::lists_fault(caps, &parts) {
            return Err(fault);
        }
        rules::known(&parts);
        let nodes = rules::node_count(&parts) as u32;
        let Parts {
            days,
            roads,
            stop_names,
            stops,
            switches,
            arcs,
            links,
            trips,
        } = parts;
        let timetable = timetable(alloc, &days, stops.len() as u32, trips, caps)?;
        let tables = Tables::build(alloc, nodes, &roads, &arcs, &links)?;
        let Tables {
            rows,
            legs,
            linked,
            grid,
        } = tables;
        Ok(Network {
            days,
            roads,
            stop_names,
            stops,
            switches,
            arcs,
            legs,
            links,
            timetable,
            rows,
            linked,
            grid,
        })
    }

    /// The same network without its trips, whose memory is free again.
    pub fn without_trips(mut self, alloc: Global) -> Result<Network, AllocError>
        ensures { IfOk result (λ network. network ≡ record self { trips = [] }) }
    {
        self.timetable = no_trips(alloc, &self.days, self.stops.len() as u32)?;
        Ok(self)
    }

    /// Each network keeps the rules.
    pub fn known(&self)
        ensures { IsNetwork self.now }
    {
        let _ = &self.roads;
    }

    /// The days of the region.
    pub fn days(&self) -> &Days
        ensures { result.now ≡ self.now.days }
    {
        &self.days
    }

    /// How many nodes there are. The road nodes have the first numbers, then come the stops, then the switches.
    pub fn nodes(&self) -> u32
        ensures { result ≡ length (nodes_of self.now) }
    {
        (self.roads.len() + self.stops.len() + self.switches.len()) as u32
    }

    /// The node of this number.
    pub fn node(&self, v: u32) -> Node
        requires { v < length (nodes_of self.now) }
        ensures { slice_get (nodes_of self.now) v ≡ Some result }
    {
        node_at(&self.roads, &self.stops, &self.switches, v as usize)
    }

    /// The mode of the road node of this number. None exactly where no road node has the number.
    pub fn mode(&self, v: u32) -> Option<Mode>
        ensures { result ≡ mode_at self.now.roads v }
    {
        self.rows.get(v as usize)?.mode
    }

    /// The letter of the road node of this number, which is the number of its mode. None exactly where no road node has
    /// the number.
    pub fn letter(&self, v: u32) -> Option<u8>
        ensures { result ≡ letter_at self.now.roads v }
    {
        self.mode(v).map(Mode::number)
    }

    /// The name of this stop.
    pub fn stop_name(&self, stop: u32) -> &[u8]
        requires { stop < length self.now.stop_names }
        ensures at { slice_get self.now.stop_names stop ≡ Some result.now }
        ensures name { is_name result.now ≡ true }
    {
        self.stop_names[stop as usize].as_bytes()
    }

    /// The node number of this stop.
    pub fn stop_node(&self, stop: u32) -> u32
        requires { stop < length self.now.stop_names }
        ensures { result ≡ stop_node self.now stop }
    {
        self.roads.len() as u32 + stop
    }

    /// The stop of the node of this number, by its place among the stops; None exactly where the node is no stop.
    pub fn stop_at(&self, v: u32) -> Option<u32>
        ensures { result ≡ stop_at self.now v }
    {
        let (roads, v) = (self.roads.len(), v as usize);
        if roads <= v && v - roads < self.stops.len() {
            Some((v - roads) as u32)
        } else {
            None
        }
    }

    /// The road arcs, ascending by (from, to).
    pub fn arcs(&self) -> &[Arc]
        ensures { result.now ≡ self.now.arcs }
    {
        &self.arcs
    }

    /// The first place in [`arcs`](Self::arcs) of those that begin at `v`, and one past the last. Where none
    /// begins at `v`, both are the number of those that begin at lower nodes.
    pub fn arcs_from(&self, v: u32) -> (u32, u32)
        requires { v < length (nodes_of self.now) }
        ensures range { result ≡ range_from self.now.arcs v }
        ensures within { IsRange result self.now.arcs }
    {
        (self.rows[v as usize].arcs, self.rows[v as usize + 1].arcs)
    }

    /// Where the road arcs that begin at `v` lead, in the order of [`arcs`](Self::arcs).
    #[inline(always)]
    pub fn legs_from(&self, v: u32) -> &[Leg]
        requires { v < length (nodes_of self.now) }
        ensures { result.now ≡ legs_from self.now.arcs v }
    {
        let (first, past) = self.arcs_from(v);
        &self.legs[first as usize..past as usize]
    }

    /// The links, ascending by (from, to).
    pub fn links(&self) -> &[Arc]
        ensures { result.now ≡ self.now.links }
    {
        &self.links
    }

    /// The first place in [`links`](Self::links) of those that begin at `v`, and one past the last. Where none
    /// begins at `v`, both are the number of those that begin at lower nodes.
    pub fn links_from(&self, v: u32) -> (u32, u32)
        requires { v < length (nodes_of self.now) }
        ensures range { result ≡ range_from self.now.links v }
        ensures within { IsRange result self.now.links }
    {
        (self.rows[v as usize].links, self.rows[v as usize + 1].links)
    }

    /// The timetable of the network's trips.
    pub fn timetable(&self) -> &Timetable
        ensures of { IsTimetableOf self.now result.now }
        ensures keeps { IsTable result.now }
    {
        self.timetable.known();
        &self.timetable
    }

    /// Whether some link begins or ends at `v`.
    pub fn has_link(&self, v: u32) -> bool
        requires { v < length (nodes_of self.now) }
        ensures { result ≡ is_end_of self.now.links v }
    {
        self.linked[v as usize]
    }

    /// How long the road arc from `u` to `v` takes; None exactly where there is none.
    pub fn arc_ms(&self, u: u32, v: u32) -> Option<u32>
        ensures { IsDuration self.now.arcs u v result }
    {
        self.known();
        ms_between(self.arcs(), u, v)
    }

    /// How long the link from `u` to `v` takes; None exactly where there is none.
    pub fn link_ms(&self, u: u32, v: u32) -> Option<u32>
        ensures { IsDuration self.now.links u v result }
    {
        self.known();
        ms_between(self.links(), u, v)
    }

    /// The copies of an endpoint: the first node number, and one past the last; None exactly where there is none.
    /// Those of an OSM id are the road nodes with this id, in the layers of all modes; that of a stop is the stop;
    /// those of a place are those of the id of the nearest road node, where that is within two kilometres; that of a
    /// place and a mode is the nearest road node of the mode, where that is within two kilometres.
    pub fn copies(&self, endpoint: &Endpoint) -> Option<(u32, u32)>
        ensures { AreCopies self.now endpoint.now result }
    {
        match endpoint {
            Endpoint::Road(id) => self.copies_of_id(*id),
            Endpoint::Stop(name) => self.copies_of_name(name.as_slice()),
            Endpoint::Near(place) => self.copies_near(*place),
            Endpoint::NearIn(mode, place) => self.copies_near_in(*mode, *place),
        }
    }

    /// The id of the road node of any layer that is nearest to a place, and how far away it is in millimetres: the least
    /// (length, id). None exactly where there is no road node.
    pub fn nearest_road(&self, place: Place) -> Option<(i64, u64)>
        ensures { IsNearestRoad self.now.roads place result }
    {
        self.grid.nearest(place, u64::MAX)
    }

    /// The same among the road nodes of a mode alone. None exactly where it has none.
    pub fn nearest_in(&self, mode: Mode, place: Place) -> Option<(i64, u64)>
        ensures { IsNearestIn self.now.roads mode place result }
    {
        let roads = &self.roads;
        let layer = Layer { roads, mode };
        self.grid.nearest_of(&layer, place, u64::MAX)
    }

    fn copies_near(&self, place: Place) -> Option<(u32, u32)>
        ensures { AreExactly (IsNearCopy self.now.roads place) result }
    {
        let (id, mm) = self.nearest_road(place)?;
        if mm <= MOST_AWAY {
            self.copies_of_id(id)
        } else {
            None
        }
    }

    fn copies_near_in(&self, mode: Mode, place: Place) -> Option<(u32, u32)>
        ensures { AreExactly (IsNearCopyIn self.now.roads mode place) result }
    {
        let (id, mm) = self.nearest_in(mode, place)?;
        if mm <= MOST_AWAY {
            self.copy_in(mode, id)
        } else {
            None
        }
    }

    fn copy_in(&self, mode: Mode, id: i64) -> Option<(u32, u32)>
        ensures { AreExactly (IsCopyIn self.now.roads mode id) result }
    {
        let v = node_in(&self.roads, mode, id)? as u32;
        Some((v, v + 1))
    }

    fn copies_of_id(&self, id: i64) -> Option<(u32, u32)>
        ensures { AreExactly (IsRoadCopy self.now.roads id) result }
    {
        road_copies(&self.roads, id)
    }

    fn copies_of_name(&self, name: &[u8]) -> Option<(u32, u32)>
        ensures { AreExactly (IsStopCopy self.now name.now) result }
    {
        let stop = place_of_name(&self.stop_names, name)?;
        let first = (self.roads.len() + stop) as u32;
        Some((first, first + 1))
    }
}

/// The node at a place of three lists in a row.
fn node_at(roads: &[Node], stops: &[Node], switches: &[Node], place: usize) -> Node
    requires { place < length (roads.now ++ stops.now ++ switches.now) }
    ensures { slice_get (roads.now ++ stops.now ++ switches.now) place ≡ Some result }
{
    if place < roads.len() {
        roads[place]
    } else if place < roads.len() + stops.len() {
        stops[place - roads.len()]
    } else {
        switches[place - roads.len() - stops.len()]
    }
}

/// The duration of the arc with these ends, in a list that ascends by them.
fn ms_between(arcs: &[Arc], u: u32, v: u32) -> Option<u32>
    requires { IsAscending arc_cmp arcs.now }
    ensures { IsDuration arcs.now u v result }
{
    match arcs.binary_search_by(|arc| (arc.from, arc.to).cmp(&(u, v))) {
        Ok(place) => Some(arcs[place].ms),
        Err(_) => None,
    }
}

/// The places of the road nodes with this id: the first, and one past the last.
fn road_copies(roads: &[Node], id: i64) -> Option<(u32, u32)>
    requires few { length roads.now < 2 ^ 32 }
    requires ascend { IsAscending node_cmp roads.now }
    requires are { All (λ node. IsRoad node.key) roads.now }
    ensures { AreExactly (IsRoadCopy roads.now id) result }
{
    let first = roads.partition_point(|node| id_of(node.key) < id);
    let end = roads.partition_point(|node| id_of(node.key) <= id);
    if first < end {
        Some((first as u32, end as u32))
    } else {
        None
    }
}

/// The place of a name in a list that ascends by bytes.
fn place_of_name(names: &[Name], name: &[u8]) -> Option<usize>
    requires { IsAscending name_cmp names.now }
    ensures { IsPlaceOf names.now name.now result }
{
    match names.binary_search_by(|held| held.as_bytes().cmp(name)) {
        Ok(place) => Some(place),
        Err(_) => None,
    }
}
