//! The layers before any contraction.

ghost use Rattle.std.specs.Prelude.{◌≡◌, ◌<◌, [], length, All, IfOk};
ghost use Rattle.mode_network.specs.NetworkLists.{nodes_of};
ghost use Rattle.contractor.specs.inside.Layers.{IsState, AreEmptyLists};

use crate::layer::{Layer, place};
use hierarchy::{Entry, Witnesses};
use mode_network::Network;
use std::alloc::{AllocError, Global};

/// Each road arc is an entry, and all nodes are left.
pub(crate) fn begin(alloc: Global, network: &Network) -> Result<Layer, AllocError>
    ensures state { IfOk result (IsState network.now) }
    ensures order { IfOk result (λ layer. layer.order.items ≡ []) }
    ensures count { IfOk result (λ layer. length layer.rows.items ≡ length (nodes_of network.now)) }
{
    network.known();
    let nodes = network.nodes() as usize;
    let mut layer = Layer {
        order: Vec::new(alloc),
        entries: Vec::new(alloc),
        witnesses: Witnesses::new(alloc),
        rows: empty_lists(alloc, nodes)?,
        into: empty_lists(alloc, nodes)?,
    };
    'arcs: for arc in network.arcs() {
        let entry = Entry {
            from: arc.from,
            to: arc.to,
            weight: u64::from(arc.ms),
            via: None,
        };
        place(&mut layer, entry)?;
    }
    Ok(layer)
}

/// So many empty lists.
fn empty_lists<T: Drop>(alloc: Global, count: usize) -> Result<Vec<Vec<T>>, AllocError>
    ensures { IfOk result (λ lists. AreEmptyLists count lists.items) }
{
    let mut lists = Vec::with_capacity(alloc, count)?;
    'lists: while lists.len() < count {
        lists.push(Vec::new(alloc))?;
    }
    Ok(lists)
}
