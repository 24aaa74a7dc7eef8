//! Tables that find what a network holds: the mode, the arcs and the links of a node, and the nearest road node.

ghost use Rattle.std.specs.Prelude.{◌≡◌, ◌+◌, ◌<◌, ◌≤◌, ◌^◌, length, map, All, IfOk, slice_index_or};
ghost use Rattle.std.specs.List.{AllWithin};
ghost use Rattle.mode_network.specs.declared.nodes.Arc.{Arc};
ghost use Rattle.mode_network.specs.Rules.{IsAscending, arc_cmp};
ghost use Rattle.mode_network.specs.Copies.{road_points};
ghost use Rattle.mode_network.specs.Indexes.{AreNodeRows, AreEndMarks, leg_of};
ghost use Rattle.mode_network.specs.NetworkLists.{mode_of, mode_at};
ghost use Rattle.mode_network.specs.Points.{HoldSame};

use crate::nodes::{Arc, Node, NodeKey};
use crate::points::road_grid;
use geo_length::Grid;
use plan_base::Mode;
use search_laws::Leg;
use std::alloc::{AllocError, Global};

/// What is kept of a node: its mode if it is a road node, and how many arcs and how many links begin at lower nodes.
#[derive(Clone, Copy)]
pub(crate) struct NodeRow {
    pub(crate) mode: Option<Mode>,
    pub(crate) arcs: u32,
    pub(crate) links: u32,
}

/// The tables of a network.
#[derive(Drop)]
pub(crate) struct Tables {
    /// One for each node, and one past the last.
    pub(crate) rows: Vec<NodeRow>,
    /// For each arc where it leads.
    pub(crate) legs: Vec<Leg>,
    pub(crate) linked: Vec<bool>,
    pub(crate) grid: Grid,
}

impl Tables {
    /// The tables of so many nodes, these road nodes among them, with these arcs and links.
    pub(crate) fn build(
        alloc: Global,
        nodes: u32,
        roads: &[Node],
        arcs: &[Arc],
        links: &[Arc],
    ) -> Result<Tables, AllocError>
        requires few_nodes { nodes < 2 ^ 31 }
        requires few_arcs { length arcs.now < 2 ^ 31 }
        requires arcs_ascend { IsAscending arc_cmp arcs.now }
        requires few_links { length links.now < 2 ^ 31 }
        requires links_ascend { IsAscending arc_cmp links.now }
        requires in_range { All (λ link. (link.from < nodes) × (link.to < nodes)) links.now }
        ensures rows { IfOk result (λ tables. AreNodeRows nodes roads.now arcs.now links.now
            tables.rows.items) }
        ensures legs { IfOk result (λ tables. tables.legs.items ≡ map leg_of arcs.now) }
        ensures ends { IfOk result (λ tables. AreEndMarks nodes links.now tables.linked.items) }
        ensures grid { IfOk result (λ tables. HoldSame tables.grid (road_points roads.now)) }
    {
        Ok(Tables {
            rows: rows(alloc, nodes, roads, arcs, links)?,
            legs: legs(alloc, arcs)?,
            linked: ends(alloc, nodes, links)?,
            grid: road_grid(alloc, roads)?,
        })
    }
}

/// The first place, from this one on, whose arc leaves `v` or a later node.
fn skip_below(arcs: &[Arc], mut place: usize, v: u32) -> usize
    requires within { place ≤ length arcs.now }
    requires below { AllWithin (λ arc. arc.from < v) arcs.now 0 place }
    ensures within { result ≤ length arcs.now }
    ensures below { AllWithin (λ arc. arc.from < v) arcs.now 0 result }
    ensures next { (d : Arc) → result < length arcs.now → v ≤ (slice_index_or arcs.now result d).from }
{
    while place < arcs.len() && arcs[place].from < v {
        place += 1;
    }
    place
}

/// The row of each node number, and of one past the last.
fn rows(
    alloc: Global,
    nodes: u32,
    roads: &[Node],
    arcs: &[Arc],
    links: &[Arc],
) -> Result<Vec<NodeRow>, AllocError>
    requires few_nodes { nodes < 2 ^ 31 }
    requires few_arcs { length arcs.now < 2 ^ 31 }
    requires arcs_ascend { IsAscending arc_cmp arcs.now }
    requires few_links { length links.now < 2 ^ 31 }
    requires links_ascend { IsAscending arc_cmp links.now }
    ensures { IfOk result (λ rows. AreNodeRows nodes roads.now arcs.now links.now rows.items) }
{
    let mut rows = Vec::with_capacity(alloc, nodes as usize + 1)?;
    let mut arc = 0;
    let mut link = 0;
    for v in 0..nodes + 1 {
        arc = skip_below(arcs, arc, v);
        link = skip_below(links, link, v);
        rows.push(NodeRow {
            mode: mode_at(roads, v),
            arcs: arc as u32,
            links: link as u32,
        })?;
    }
    Ok(rows)
}

/// Where each arc leads, and how long it takes.
fn legs(alloc: Global, arcs: &[Arc]) -> Result<Vec<Leg>, AllocError>
    ensures { IfOk result (λ legs. legs.items ≡ map leg_of arcs.now) }
{
    arcs.iter()
        .map(|arc| Leg {
            to: arc.to,
            ms: arc.ms,
        })
        .collect(alloc)
}

/// The mode of a road node; of any other none.
fn mode_of(key: NodeKey) -> Option<Mode>
    ensures { result ≡ mode_of key }
{
    match key {
        NodeKey::Road(mode, _) => Some(mode),
        NodeKey::Stop(_) | NodeKey::Switch(_) => None,
    }
}

/// The mode of the road node of this number, if it is one.
pub(crate) fn mode_at(roads: &[Node], v: u32) -> Option<Mode>
    ensures { result ≡ mode_at roads.now v }
{
    mode_of(roads.get(v as usize)?.key)
}

/// For each node number: whether some arc begins or ends there.
fn ends(alloc: Global, nodes: u32, arcs: &[Arc]) -> Result<Vec<bool>, AllocError>
    requires in_range { All (λ arc. (arc.from < nodes) × (arc.to < nodes)) arcs.now }
    ensures { IfOk result (λ ends. AreEndMarks nodes arcs.now ends.items) }
{
    let mut ends = vec![in alloc; false; nodes as usize]?;
    for arc in arcs {
        ends[arc.from as usize] = true;
        ends[arc.to as usize] = true;
    }
    Ok(ends)
}
