//! One line of a region in a format: as text, or as a record.

ghost use Rattle.std.specs.Prelude.{◌≡◌, ◌++◌, ◌<◌, ◌^◌, OnOk, length, true};
ghost use Rattle.plain_texts.specs.Names.{is_name};
ghost use Rattle.region_file.specs.inside.Texts.{IsNamedKey, head_in, line_in, node_in};
ghost use Rattle.region_file.specs.declared.lines.Line.TheVariants as line;

use crate::counts::counts_of;
use crate::format::Format;
use crate::lines::HEAD;
use crate::{printing, writing};
use mode_network::{Arc, Network, Node, NodeKey};
use plan_base::{Mode, Place};
use service_days::Days;
use std::alloc::AllocError;
use timetable_arcs::{Call, Trip};

/// What a region begins with: the head line, or the head of records.
pub fn push_head(out: &mut Vec<u8>, format: Format, network: &Network) -> Result<(), AllocError>
    ensures { OnOk result (out.new.items ≡ out.old.items ++ head_in format network.now) }
{
    match format {
        Format::Text => out.extend_from_slice(HEAD),
        Format::Binary => writing::push_head(out, network.days(), counts_of(network)),
    }
}

/// The line of the days, which stand in the head of records.
pub fn push_days(out: &mut Vec<u8>, format: Format, days: &Days) -> Result<(), AllocError>
    ensures { OnOk result (out.new.items ≡ out.old.items ++ line_in format (line.Days days.now)) }
{
    match format {
        Format::Text => printing::push_days(out, days),
        Format::Binary => Ok(()),
    }
}

/// The line of a road node.
fn push_road(
    out: &mut Vec<u8>,
    format: Format,
    mode: Mode,
    id: i64,
    place: Place,
) -> Result<(), AllocError>
    ensures { OnOk result (out.new.items ≡ out.old.items ++ line_in format (line.Road mode id place)) }
{
    match format {
        Format::Text => printing::push_road(out, mode, id, place),
        Format::Binary => writing::push_road(out, mode, id, place),
    }
}

/// The line of a stop.
fn push_stop(out: &mut Vec<u8>, format: Format, name: &[u8], place: Place) -> Result<(), AllocError>
    requires { is_name name.now ≡ true }
    ensures { OnOk result (out.new.items ≡ out.old.items ++ line_in format (line.Stop name.now place)) }
{
    match format {
        Format::Text => printing::push_stop(out, name, place),
        Format::Binary => writing::push_stop(out, name, place),
    }
}

/// The line of a switch.
fn push_switch(out: &mut Vec<u8>, format: Format, id: i64, place: Place) -> Result<(), AllocError>
    ensures { OnOk result (out.new.items ≡ out.old.items ++ line_in format (line.Switch id place)) }
{
    match format {
        Format::Text => printing::push_switch(out, id, place),
        Format::Binary => writing::push_switch(out, id, place),
    }
}

/// The line of a node.
pub fn push_node(
    out: &mut Vec<u8>,
    format: Format,
    network: &Network,
    node: Node,
) -> Result<(), AllocError>
    requires { IsNamedKey network.now.stop_names node.key }
    ensures { OnOk result (out.new.items ≡ out.old.items ++ node_in format network.now.stop_names node) }
{
    match node.key {
        NodeKey::Road(mode, id) => push_road(out, format, mode, id, node.place),
        NodeKey::Stop(stop) => push_stop(out, format, network.stop_name(stop), node.place),
        NodeKey::Switch(id) => push_switch(out, format, id, node.place),
    }
}

/// The line of a road arc.
pub fn push_arc(out: &mut Vec<u8>, format: Format, arc: Arc) -> Result<(), AllocError>
    ensures { OnOk result (out.new.items ≡ out.old.items ++ line_in format (line.Arc arc)) }
{
    match format {
        Format::Text => printing::push_arc(out, arc),
        Format::Binary => writing::push_arc(out, arc),
    }
}

/// The line of a link.
pub fn push_link(out: &mut Vec<u8>, format: Format, link: Arc) -> Result<(), AllocError>
    ensures { OnOk result (out.new.items ≡ out.old.items ++ line_in format (line.Link link)) }
{
    match format {
        Format::Text => printing::push_link(out, link),
        Format::Binary => writing::push_arc(out, link),
    }
}

/// The line of a trip, which says how many calls it has.
pub fn push_trip_line(out: &mut Vec<u8>, format: Format, trip: &Trip) -> Result<(), AllocError>
    requires { length trip.now.calls < 2 ^ 32 }
    ensures { OnOk result (out.new.items ≡ out.old.items ++ line_in format
        (line.Trip trip.now.letter trip.now.days (length trip.now.calls) trip.now.name)) }
{
    match format {
        Format::Text => printing::push_trip_line(out, trip),
        Format::Binary => writing::push_trip_head(out, trip),
    }
}

/// The line of a call.
pub fn push_call(out: &mut Vec<u8>, format: Format, call: Call) -> Result<(), AllocError>
    ensures { OnOk result (out.new.items ≡ out.old.items ++ line_in format (line.Call call)) }
{
    match format {
        Format::Text => printing::push_call(out, call),
        Format::Binary => writing::push_call(out, call),
    }
}

/// The line of the end, which no record tells.
#[tactic(auto, unfolding(plain_texts::specs::Lines::spaced))]
pub fn push_end(out: &mut Vec<u8>, format: Format) -> Result<(), AllocError>
    ensures { OnOk result (out.new.items ≡ out.old.items ++ line_in format line.End) }
{
    match format {
        Format::Text => out.extend_from_slice(b"end\n"),
        Format::Binary => Ok(()),
    }
}
