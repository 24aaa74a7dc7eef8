//! One contraction.

ghost use Rattle.std.specs.Prelude.{◌≡◌, ◌<◌, ◌≤◌, ◌+◌, [], ◌∷◌, ◌++◌, length, OnOk, IfOk, slice_index_or};
ghost use Rattle.hierarchy.specs.Lists.{IsCore};
ghost use Rattle.hierarchy.specs.Soundness.{IsFree};
ghost use Rattle.witness.specs.inside.Searching.{IsSearch, IsSameRound, NobodyBusy};
ghost use Rattle.contractor.specs.inside.Layers.{IsState, IsBridging, IsEndOf, IsSearchFor};

use crate::cutting::cut;
use crate::layer::{Layer, put};
use crate::places::RowPlaces;
use crate::way::{Crossing, Way};
use crate::ways::ways_by;
use mode_network::Network;
use std::alloc::{AllocError, Global};
use witness::{Workspace, begin, walk_to};

/// Tables by node, which are kept from contraction to contraction.
#[derive(Drop)]
pub(crate) struct Tables {
    workspace: Workspace,
    places: RowPlaces,
}

impl Tables {
    /// Tables for so many nodes.
    pub fn new(alloc: Global, nodes: usize) -> Result<Tables, AllocError> {
        Ok(Tables {
            workspace: Workspace::new(alloc),
            places: RowPlaces::new(alloc, nodes)?,
        })
    }
}

/// Contracts a node: all ways by it get a witness or a shortcut, where no entry is as light.
pub(crate) fn contract_node(
    alloc: Global,
    network: &Network,
    tables: &mut Tables,
    layer: &mut Layer,
    x: u32,
) -> Result<(), AllocError>
    requires state { IsState network.now layer.old }
    requires free { IsFree network.now x }
    requires core { IsCore layer.old.order.items x }
    requires node { x < length layer.old.rows.items }
    ensures state { OnOk result (IsState network.now layer.new) }
    ensures order { OnOk result (layer.new.order.items ≡ layer.old.order.items ++ x ∷ []) }
    ensures count { OnOk result (length layer.new.rows.items ≡ length layer.old.rows.items) }
{
    network.known();
    let sides = cut(alloc, layer, x)?;
    let ways = ways_by(alloc, &mut tables.places, layer, &sides)?;
    let crossing = Crossing { node: x, ways };
    bridge(alloc, network, &mut tables.workspace, layer, &crossing)?;
    layer.order.push(x)?;
    Ok(())
}

/// Bridges each way by a node that was taken out, start by start.
fn bridge(
    alloc: Global,
    network: &Network,
    workspace: &mut Workspace,
    layer: &mut Layer,
    crossing: &Crossing,
) -> Result<(), AllocError>
    requires { IsBridging network.now crossing.now.node crossing.now.ways.items 0 layer.old }
    ensures state { OnOk result (IsBridging network.now crossing.now.node crossing.now.ways.items
        (length crossing.now.ways.items) layer.new) }
    ensures order { OnOk result (layer.new.order.items ≡ layer.old.order.items) }
    ensures count { OnOk result (length layer.new.rows.items ≡ length layer.old.rows.items) }
{
    let mut place = 0;
    'starts: while place < crossing.ways.len() {
        place = bridge_from(alloc, network, workspace, layer, crossing, place)?;
    }
    Ok(())
}

/// Bridges the ways of one start, from a place on, by one search. Answers the place behind them.
fn bridge_from(
    alloc: Global,
    network: &Network,
    workspace: &mut Workspace,
    layer: &mut Layer,
    crossing: &Crossing,
    place: usize,
) -> Result<usize, AllocError>
    requires place { place < length crossing.now.ways.items }
    requires state { IsBridging network.now crossing.now.node crossing.now.ways.items place layer.old }
    ensures end { IfOk result (λ end. (place < end) × (end ≤ length crossing.now.ways.items)) }
    ensures state { IfOk result (λ end. IsBridging network.now crossing.now.node crossing.now.ways.items
        end layer.new) }
    ensures order { OnOk result (layer.new.order.items ≡ layer.old.order.items) }
    ensures count { OnOk result (length layer.new.rows.items ≡ length layer.old.rows.items) }
{
    let ways = &crossing.ways;
    let end = end_of(ways, place);
    begin(
        alloc,
        workspace,
        &layer.rows,
        ways[place].from,
        ways[end - 1].sum,
    )?;
    'ways: for k in place..end {
        bridge_way(alloc, network, workspace, layer, crossing, k)?;
    }
    Ok(end)
}

/// The place behind those ways that have the start of the way at a place.
fn end_of(ways: &[Way], place: usize) -> usize
    requires { place < length ways.now }
    ensures { IsEndOf ways.now place result }
{
    let mut end = place + 1;
    'ways: while end < ways.len() && ways[end].from == ways[place].from {
        end += 1;
    }
    end
}

/// Bridges a way, by the search from its start.
fn bridge_way(
    alloc: Global,
    network: &Network,
    workspace: &mut Workspace,
    layer: &mut Layer,
    crossing: &Crossing,
    k: usize,
) -> Result<(), AllocError>
    requires place { k < length crossing.now.ways.items }
    requires state { IsBridging network.now crossing.now.node crossing.now.ways.items k layer.old }
    requires search { (d : Way) → IsSearchFor layer.old (slice_index_or crossing.now.ways.items k d)
        workspace.old }
    ensures state { OnOk result (IsBridging network.now crossing.now.node crossing.now.ways.items (k + 1)
        layer.new) }
    ensures search { OnOk result (IsSearch layer.new.rows.items workspace.old.most NobodyBusy workspace.new) }
    ensures same { OnOk result (IsSameRound workspace.old workspace.new) }
    ensures order { OnOk result (layer.new.order.items ≡ layer.old.order.items) }
    ensures count { OnOk result (length layer.new.rows.items ≡ length layer.old.rows.items) }
{
    network.known();
    let way = crossing.ways[k];
    match walk_to(alloc, workspace, &layer.rows, way.to, way.sum)? {
        Some(nodes) => layer.witnesses.push(crossing.node, &nodes)?,
        None => {
            put(layer, crossing.node, way)?;
            workspace.offer(way.to, way.sum, way.from)?;
        }
    }
    Ok(())
}
