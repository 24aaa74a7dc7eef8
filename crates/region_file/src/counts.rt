//! How many records of each kind a region in bytes has.

ghost use Rattle.std.specs.Prelude.{◌≡◌, length};
ghost use Rattle.region_file.specs.Bytes.{counts_of};

use mode_network::Network;

/// How many records of each kind there are behind the head. The calls of a trip are counted by its own record.
#[derive(Clone, Copy)]
pub struct Counts {
    pub roads: u32,
    pub stops: u32,
    pub switches: u32,
    pub arcs: u32,
    pub links: u32,
    pub trips: u32,
}

/// How many road nodes there are.
fn road_count(network: &Network) -> u32
    ensures { result ≡ length network.now.roads }
{
    network.known();
    let mut v = 0;
    while v < network.nodes() && network.mode(v).is_some() {
        v += 1;
    }
    v
}

/// How many stops there are, behind so many road nodes.
fn stop_count(network: &Network, roads: u32) -> u32
    requires { roads ≡ length network.now.roads }
    ensures { result ≡ length network.now.stops }
{
    network.known();
    let mut v = roads;
    while v < network.nodes() && network.stop_at(v).is_some() {
        v += 1;
    }
    v - roads
}

/// How many records of each kind a network has: its road nodes come first, then its stops, then its switches.
pub fn counts_of(network: &Network) -> Counts
    ensures { result ≡ counts_of network.now }
{
    network.known();
    let roads = road_count(network);
    let stops = stop_count(network, roads);
    Counts {
        roads,
        stops,
        switches: network.nodes() - roads - stops,
        arcs: network.arcs().len() as u32,
        links: network.links().len() as u32,
        trips: network.timetable().trips().len() as u32,
    }
}
