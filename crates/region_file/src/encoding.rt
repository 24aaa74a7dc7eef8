//! From a network to bytes.

ghost use Rattle.std.specs.Prelude.{◌≡◌, ◌++◌, ◌<◌, ◌^◌, None, All, IfOk, OnOk, length};
ghost use Rattle.std.specs.List.{flat_map};
ghost use Rattle.plan_base.specs.declared.limits.Caps.{Caps};
ghost use Rattle.mode_network.specs.NetworkLists.{nodes_of};
ghost use Rattle.mode_network.specs.Rules.{first_fault};
ghost use Rattle.region_file.specs.Regions.{IsDecoded, spelling};
ghost use Rattle.region_file.specs.inside.Texts.{line_in, node_in, trip_in};
ghost use Rattle.region_file.specs.declared.lines.Line.TheVariants as line;

use crate::format::Format;
use crate::formatting::{
    push_arc, push_call, push_days, push_end, push_head, push_link, push_node, push_trip_line,
};
use mode_network::{Arc, Network};
use std::alloc::{AllocError, Global};
use timetable_arcs::{Call, Trip};

/// The lines of the nodes.
fn push_nodes(out: &mut Vec<u8>, format: Format, network: &Network) -> Result<(), AllocError>
    ensures { OnOk result (out.new.items ≡ out.old.items ++ flat_map (node_in format network.now.stop_names)
        (nodes_of network.now)) }
{
    network.known();
    for v in 0..network.nodes() {
        push_node(out, format, network, network.node(v))?;
    }
    Ok(())
}

/// The lines of the road arcs.
fn push_arcs(out: &mut Vec<u8>, format: Format, arcs: &[Arc]) -> Result<(), AllocError>
    ensures { OnOk result (out.new.items ≡ out.old.items ++ flat_map (λ arc. line_in format (line.Arc arc))
        arcs.now) }
{
    for arc in arcs {
        push_arc(out, format, *arc)?;
    }
    Ok(())
}

/// The lines of the links.
fn push_links(out: &mut Vec<u8>, format: Format, links: &[Arc]) -> Result<(), AllocError>
    ensures { OnOk result (out.new.items ≡ out.old.items ++ flat_map (λ link. line_in format (line.Link link))
        links.now) }
{
    for link in links {
        push_link(out, format, *link)?;
    }
    Ok(())
}

/// The lines of the calls of a trip.
fn push_calls(out: &mut Vec<u8>, format: Format, calls: &[Call]) -> Result<(), AllocError>
    ensures { OnOk result (out.new.items ≡ out.old.items ++ flat_map (λ call. line_in format (line.Call call))
        calls.now) }
{
    for call in calls {
        push_call(out, format, *call)?;
    }
    Ok(())
}

/// The line of a trip and those of its calls.
fn push_trip(out: &mut Vec<u8>, format: Format, trip: &Trip) -> Result<(), AllocError>
    requires { length trip.now.calls < 2 ^ 32 }
    ensures { OnOk result (out.new.items ≡ out.old.items ++ trip_in format trip.now) }
{
    push_trip_line(out, format, trip)?;
    push_calls(out, format, &trip.calls)?;
    Ok(())
}

/// The lines of the trips, each with those of its calls.
fn push_trips(out: &mut Vec<u8>, format: Format, trips: &[Trip]) -> Result<(), AllocError>
    requires { All (λ trip. length trip.calls < 2 ^ 32) trips.now }
    ensures { OnOk result (out.new.items ≡ out.old.items ++ flat_map (trip_in format) trips.now) }
{
    for trip in trips {
        push_trip(out, format, trip)?;
    }
    Ok(())
}

/// A network in its one spelling in a format: [`decode`](crate::decode) reads it as the same network, where that is
/// within the limits of its caps.
pub fn encode(alloc: Global, network: &Network, format: Format) -> Result<Vec<u8>, AllocError>
    // The bytes are the one spelling of the network in this format.
    ensures spelled { IfOk result (λ bytes. bytes.items ≡ spelling format network.now) }
    // They are read as this network again, where it is within the limits.
    ensures again { IfOk result (λ bytes. (caps : Caps) → first_fault caps network.now ≡ None
        → IsDecoded caps bytes.items network.now) }
{
    network.known();
    network.days().known();
    let mut out = Vec::new(alloc);
    push_head(&mut out, format, network)?;
    push_days(&mut out, format, network.days())?;
    push_nodes(&mut out, format, network)?;
    push_arcs(&mut out, format, network.arcs())?;
    push_links(&mut out, format, network.links())?;
    push_trips(&mut out, format, network.timetable().trips())?;
    push_end(&mut out, format)?;
    Ok(out)
}
