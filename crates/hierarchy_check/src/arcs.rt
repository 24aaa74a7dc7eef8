//! Whether a road arc leads from one node to another.

ghost use Rattle.std.specs.Prelude.{◌↔◌, IsTrue};
ghost use Rattle.mode_network.specs.Journeys.{Leads};

use mode_network::{Arc, Network};

/// Whether a road arc from `u` to `v` takes so many milliseconds. Where those that are asked for come in the order of the arcs,
/// each arc is passed once.
pub(crate) fn is_arc_past(network: &Network, place: &mut usize, u: u32, v: u32, weight: u64) -> bool
    ensures { IsTrue result ↔ Leads network.now.arcs u v weight }
{
    *place = next_arc(network.arcs(), *place, (u, v));
    is_arc_at(network.arcs(), *place, u, v, weight) || is_arc(network, u, v, weight)
}

/// The first place from this one on whose arc does not stand before one with these ends.
fn next_arc(arcs: &[Arc], place: usize, ends: (u32, u32)) -> usize {
    for next in place..arcs.len() {
        if (arcs[next].from, arcs[next].to) >= ends {
            return next;
        }
    }
    arcs.len()
}

/// Whether the arc at a place leads from `u` to `v` and takes so many milliseconds.
fn is_arc_at(arcs: &[Arc], place: usize, u: u32, v: u32, weight: u64) -> bool
    ensures { IsTrue result → Leads arcs.now u v weight }
{
    match arcs.get(place) {
        Some(arc) => arc.from == u && arc.to == v && arc.ms as u64 == weight,
        None => false,
    }
}

/// Whether a road arc from `u` to `v` takes so many milliseconds.
fn is_arc(network: &Network, u: u32, v: u32, weight: u64) -> bool
    ensures { IsTrue result ↔ Leads network.now.arcs u v weight }
{
    network.known();
    match network.arc_ms(u, v) {
        Some(ms) => ms as u64 == weight,
        None => false,
    }
}
