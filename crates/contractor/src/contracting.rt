//! The contraction of all nodes that are not kept.

ghost use Rattle.std.specs.Prelude.{◌≡◌, ◌+◌, ◌-◌, ◌<◌, ◌≤◌, [], length, IfOk, OnOk, IsTrue};
ghost use Rattle.mode_network.specs.NetworkLists.{nodes_of};
ghost use Rattle.hierarchy.specs.Soundness.{IsFree};
ghost use Rattle.contractor.specs.Contracted.{IsContractedTo, free_count, is_free};
ghost use Rattle.contractor.specs.inside.Layers.{IsState, AreWaiting};

use crate::beginning::begin;
use crate::bridging::{Tables, contract_node};
use crate::choosing::{Queue, marked};
use crate::finishing::finish;
use crate::layer::Layer;
use hierarchy::{Lists, Sizes};
use mode_network::Network;
use std::alloc::{AllocError, Global};

/// The nodes that may be contracted, as marks, and how many there are.
#[derive(Drop)]
struct Waiting {
    marks: Vec<bool>,
    count: u64,
}

/// What is told of a contraction while it goes on.
pub trait Progress {
    /// Another node is contracted: the lists are so long now, and their order is to have so many nodes at last.
    fn told(&mut self, sizes: Sizes, of: u64);
}

/// The lists of a sound hierarchy of a network. Its core is all nodes that are no road nodes, the road nodes with a link,
/// and of the other road nodes as many as are to be kept, or all where there are fewer. Each shortcut weighs what the
/// roads between its ends take at least, in milliseconds. Fails where memory runs out.
///
/// The nodes are contracted one after the other, those first that seem to need the fewest shortcuts, as in Geisberger's
/// contraction hierarchies; those with a link are left, as Dibbelt, Pajor and Wagner do for user-constrained paths.
pub fn contract<P: Progress>(
    alloc: Global,
    network: &Network,
    keep: u32,
    progress: &mut P,
) -> Result<Lists, AllocError>
    ensures { IfOk result (IsContractedTo network.now keep) }
{
    network.known();
    let mut layer = begin(alloc, network)?;
    let waiting = free_nodes(alloc, network)?;
    let number = waiting.count.saturating_sub(u64::from(keep));
    contract_nodes(alloc, network, &mut layer, waiting, number, progress)?;
    Ok(finish(network, layer))
}

/// Marks the nodes that are free, and counts them.
fn free_nodes(alloc: Global, network: &Network) -> Result<Waiting, AllocError>
    ensures { IfOk result (λ waiting. AreWaiting network.now [] waiting.count waiting.marks.items
        × (waiting.count ≡ free_count network.now)) }
{
    let mut marks = Vec::with_capacity(alloc, network.nodes() as usize)?;
    let mut count = 0;
    'nodes: for v in 0..network.nodes() {
        let free = is_free(network, v);
        marks.push(free)?;
        count += u64::from(free);
    }
    Ok(Waiting { marks, count })
}

/// Whether a node is a road node without links.
fn is_free(network: &Network, v: u32) -> bool
    requires { v < length (nodes_of network.now) }
    ensures is { result ≡ is_free network.now v }
    ensures free { IsTrue result → IsFree network.now v }
{
    network.mode(v).is_some() && !network.has_link(v)
}

/// Contracts so many of the marked nodes. Where there are none to contract, no node is tried.
fn contract_nodes<P: Progress>(
    alloc: Global,
    network: &Network,
    layer: &mut Layer,
    waiting: Waiting,
    number: u64,
    progress: &mut P,
) -> Result<(), AllocError>
    requires state { IsState network.now layer.old }
    requires count { length layer.old.rows.items ≡ length (nodes_of network.now) }
    requires order { layer.old.order.items ≡ [] }
    requires waiting { AreWaiting network.now [] waiting.count waiting.marks.items }
    requires number { number ≤ waiting.count }
    ensures state { OnOk result (IsState network.now layer.new) }
    ensures order { OnOk result (length layer.new.order.items ≡ number) }
{
    network.known();
    if number == 0 {
        return Ok(());
    }
    let mut marks = waiting.marks;
    let mut tables = Tables::new(alloc, layer.rows.len())?;
    let mut queue = Queue::new(alloc, layer, &marks)?;
    let mut left = number;
    'nodes: while left > 0 {
        let x = marked(&marks, queue.next(layer)?);
        marks[x as usize] = false;
        queue.deepen(layer, x);
        contract_node(alloc, network, &mut tables, layer, x)?;
        left -= 1;
        progress.told(layer.sizes(), number);
    }
    Ok(())
}
