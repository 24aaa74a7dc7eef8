//! Hierarchies by their files, and by contraction; the walks that spare shortcuts; and times after a sweep.

ghost use Rattle.std.specs.Prelude.{◌≡◌, ◌<◌, length, All, IfOk};
ghost use Rattle.mode_network.specs.NetworkLists.{nodes_of};
ghost use Rattle.witness.specs.Rows.{AreEdgeRows, IsEdgeOf};

use crate::parts;
use case_script::{Answer, Script, words};
use contractor::{Progress, contract};
use hierarchy::{Hierarchy, Lists, Sizes};
use hierarchy_file::{decode, decode_lists, encode};
use mode_network::Network;
use std::alloc::{AllocError, Global};
use sweeps::{Sheet, Slope};
use witness::{Edge, Workspace, find};

/// `hierarchy TEXT NODES`: what a hierarchy says of the first so many nodes, and whether it is written as the same bytes; or the
/// first fault of the bytes.
pub fn hierarchy(out: &mut Answer, script: &Script, words: &[u8]) {
    let bytes = script.text(parts::word(words, 0));
    match decode(out.alloc(), bytes) {
        Ok(h) => {
            print_spelled(out, bytes);
            print_hierarchy(out, &h, parts::node(words, 1));
        }
        Err(fault) => out.debug("", &fault),
    }
}

/// Whether the lists that the bytes spell are written as the same bytes.
fn print_spelled(out: &mut Answer, bytes: &[u8]) {
    if let Ok(lists) = decode_lists(out.alloc(), bytes) {
        let same = parts::is_text(encode(out.alloc(), lists), bytes);
        out.shown("written as the same bytes: ", same);
    }
}

fn print_hierarchy(out: &mut Answer, h: &Hierarchy, count: u32) {
    for v in 0..count {
        print_node(out, h, v);
    }
    for u in 0..count {
        for v in 0..count {
            print_pair(out, h, u, v);
        }
    }
}

/// How high a node is, which entries lead from it, where those of them lead that lead up or along the core, and which lead down
/// to it.
fn print_node(out: &mut Answer, h: &Hierarchy, v: u32) {
    out.shown("\n", v);
    out.shown(": height ", h.height(v));
    out.shown(", contracted ", h.contracted(v));
    out.debug(", entries from ", h.entries_from(v));
    out.debug(", up ", h.rise_places_from(v));
    for leg in h.legs_from(v) {
        out.shown(", to ", leg.to);
        out.shown(" in ", leg.ms);
    }
    out.debug(", down to it ", h.falls_into(v));
}

/// Of two nodes: which is above the other, their entry, and the witness past node 1.
fn print_pair(out: &mut Answer, h: &Hierarchy, u: u32, v: u32) {
    if let Some(entry) = h.entry(u, v) {
        out.debug("\n", entry);
    }
    if h.above(u, v) {
        out.shown("\n", u);
        out.shown(" is above ", v);
    }
    if let Some(witness) = h.witness_for(1, u, v) {
        out.debug("\npast 1: ", witness.nodes);
    }
}

/// `sweep TEXT ORIGIN LIMIT`: the nodes of a hierarchy's order, and the times of walking from one of them to each, in milliseconds,
/// for which what is at the limit or later goes no further up.
pub fn sweep(out: &mut Answer, script: &Script, words: &[u8]) {
    let alloc = out.alloc();
    if let Ok(h) = decode(alloc, script.text(parts::word(words, 0))) {
        if let Ok(sheet) = order_sheet(alloc, &h) {
            print_swept(out, sheet, parts::node(words, 1), parts::node(words, 2));
        }
    }
}

/// The sheet of all nodes of an order, if it has one.
fn order_sheet(alloc: Global, h: &Hierarchy) -> Result<Option<Sheet>, AllocError> {
    let nodes = Vec::from_slice(alloc, h.order())?;
    Sheet::new(alloc, h, nodes)
}

fn print_swept(out: &mut Answer, sheet: Option<Sheet>, origin: u32, limit: u32) {
    let Some(sheet) = sheet else {
        return out.text("no sheet");
    };
    if let Ok(times) = swept(out.alloc(), &sheet, origin, limit) {
        out.debug("", sheet.nodes());
        out.debug(" in ", &times);
    }
}

/// The times of walking from a node to each node of a sheet.
fn swept(alloc: Global, sheet: &Sheet, origin: u32, limit: u32) -> Result<Vec<u32>, AllocError> {
    let mut times = vec![in alloc; u32::MAX; sheet.nodes().len()]?;
    begin_at(sheet.nodes(), origin, &mut times);
    sheet.sweep(&mut times, limit);
    Ok(times)
}

/// Makes the times at a node 0.
fn begin_at(nodes: &[u32], origin: u32, times: &mut [u32]) {
    for i in 0..times.len() {
        if nodes.get(i) == Some(&origin) {
            times[i] = 0;
        }
    }
}

/// `descend TEXT ORIGIN`: the nodes of a hierarchy's order, the times of going down from one of them to each, in milliseconds, and whether
/// a leg more fits.
pub fn descend(out: &mut Answer, script: &Script, words: &[u8]) {
    let alloc = out.alloc();
    if let Ok(h) = decode(alloc, script.text(parts::word(words, 0))) {
        if let Ok(slope) = order_slope(alloc, &h) {
            print_descended(out, slope, parts::node(words, 1));
        }
    }
}

/// The slope of all nodes of an order, if it has one.
fn order_slope(alloc: Global, h: &Hierarchy) -> Result<Option<Slope>, AllocError> {
    let nodes = Vec::from_slice(alloc, h.order())?;
    Slope::new(alloc, h, nodes)
}

fn print_descended(out: &mut Answer, slope: Option<Slope>, origin: u32) {
    let Some(slope) = slope else {
        return out.text("no slope");
    };
    if let Ok(times) = descended(out.alloc(), &slope, origin) {
        out.debug("", slope.nodes());
        out.debug(" in ", &times);
        out.shown(", has room: ", slope.has_room(&times));
    }
}

/// The times of going down from a node to each node of a slope.
fn descended(alloc: Global, slope: &Slope, origin: u32) -> Result<Vec<u32>, AllocError> {
    let mut times = vec![in alloc; u32::MAX; slope.nodes().len()]?;
    if let Some(place) = slope.place_of(origin) {
        times[place as usize] = 0;
    }
    slope.sweep_down(&mut times);
    Ok(times)
}

/// Hears nothing of a contraction.
#[derive(Drop)]
struct Silent;

impl Progress for Silent {
    fn told(&mut self, _sizes: Sizes, _of: u64) {}
}

/// `contracted REGION KEEP`: the order in which a contraction that keeps so many nodes takes the others, and how many entries are
/// arcs and how many shortcuts.
pub fn contracted(out: &mut Answer, network: &Network, keep: &[u8]) {
    if let Ok(h) = contract(out.alloc(), network, words::node(keep), &mut Silent) {
        let shortcuts = shortcuts(&h);
        out.debug("order ", h.order());
        out.shown(", ", h.entries().len().saturating_sub(shortcuts));
        out.shown(" arcs, ", shortcuts);
        out.text(" shortcuts");
    }
}

/// How many entries are shortcuts.
fn shortcuts(h: &Lists) -> usize {
    let mut shortcuts = 0usize;
    for entry in h.entries() {
        if entry.via.is_some() {
            shortcuts = shortcuts.saturating_add(1);
        }
    }
    shortcuts
}

/// `witness REGION U V LIMIT`: the nodes of a walk by road arcs from one node to another that takes at most so many
/// milliseconds, or that there is none.
pub fn witness(out: &mut Answer, network: &Network, words: &[u8]) {
    let (u, v) = (parts::node(words, 0), parts::node(words, 1));
    let limit = parts::number(words, 2);
    if u >= network.nodes() || v >= network.nodes() || limit >= 1 << 57 {
        return out.text("no such nodes, or no such limit");
    }
    if let Ok(rows) = edge_rows(out.alloc(), network) {
        let mut workspace = Workspace::new(out.alloc());
        if let Ok(walk) = find(out.alloc(), &mut workspace, &rows, u, v, limit) {
            out.debug("", &walk);
        }
    }
}

/// The road arcs out of each node, as edges.
fn edge_rows(alloc: Global, network: &Network) -> Result<Vec<Vec<Edge>>, AllocError>
    ensures rows { IfOk result (λ rows. AreEdgeRows rows.items) }
    ensures count { IfOk result (λ rows. length rows.items ≡ length (nodes_of network.now)) }
{
    network.known();
    let mut rows = Vec::new(alloc);
    'nodes: for v in 0..network.nodes() {
        rows.push(edge_row(alloc, network, v)?)?;
    }
    Ok(rows)
}

/// The road arcs out of a node, as edges.
fn edge_row(alloc: Global, network: &Network, v: u32) -> Result<Vec<Edge>, AllocError>
    requires { v < length (nodes_of network.now) }
    ensures { IfOk result (λ row. All (IsEdgeOf (length (nodes_of network.now))) row.items) }
{
    let (first, end) = network.arcs_from(v);
    let mut row = Vec::new(alloc);
    'arcs: for place in first..end {
        row.push(edge_at(network, place))?;
    }
    Ok(row)
}

/// The road arc at a place of all arcs, as an edge.
fn edge_at(network: &Network, place: u32) -> Edge
    requires { place < length network.now.arcs }
    ensures { IsEdgeOf (length (nodes_of network.now)) result }
{
    network.known();
    let arc = network.arcs()[place as usize];
    Edge {
        to: arc.to,
        entry: place,
        weight: u64::from(arc.ms),
    }
}
