//! The parts that a network is built of.

use crate::nodes::{Arc, Node};
use plain_texts::Name;
use service_days::Days;
use std::marker::Model;
use timetable_arcs::Trip;

/// The lists that [`Network::build`](crate::Network::build) takes. A contract sees them as lists.
///
/// `roads` hold road keys, `stops` hold the stop keys 0, 1, .. in turn with one name each,
/// and `switches` hold switch keys; each id has at most 18 digits, and each arc and link takes at least 1 ms.
/// The node numbers in `arcs` and `links` run over roads, stops and switches in turn.
#[derive(Drop)]
pub struct Parts {
    pub days: Days,
    pub roads: Vec<Node>,
    pub stop_names: Vec<Name>,
    pub stops: Vec<Node>,
    pub switches: Vec<Node>,
    pub arcs: Vec<Arc>,
    pub links: Vec<Arc>,
    pub trips: Vec<Trip>,
}

impl Model for Parts {
    ghost use Rattle.mode_network.specs.NetworkLists.{NetworkLists};

    ghost Value = { NetworkLists };

    ghost view = { λ p. record {
      days = p.days;
      roads = p.roads.items;
      stop_names = p.stop_names.items;
      stops
          = p.stops.items;
      switches = p.switches.items;
      arcs = p.arcs.items;
      links = p.links.items;
      trips =
          p.trips.items;
    } };
}
