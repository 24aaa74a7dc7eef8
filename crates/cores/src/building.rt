//! The network of a core.

ghost use Rattle.std.specs.Prelude.{◌≡◌, IfOk, IfSome, IfNone, None};
ghost use Rattle.mode_network.specs.{AreParts, IsNetwork, OutOfMemory};
ghost use Rattle.hierarchy.specs.{IsSound};
ghost use Rattle.cores.specs.Cores.{HasLongEntry, HasNoNetwork, IsCoreOf, core_arcs, is_core_entry};
ghost use Rattle.cores.specs.inside.Parts.{AreRefused};

use hierarchy::{Entry, Hierarchy};
use mode_network::{Arc, NetFault, Network, Node, Parts};
use plan_base::Caps;
use service_days::Days;
use std::alloc::{AllocError, Global};

/// The first date of the one day that the network of a core has.
const FIRST_DATE: u32 = 20_000_101;

/// The core of a hierarchy as a network of its own. None where an entry between two core nodes takes 2^32 ms or longer, or where
/// there are more of them than a network may have arcs.
pub fn core_network(
    alloc: Global,
    network: &Network,
    hierarchy: &Hierarchy,
) -> Result<Option<Network>, AllocError>
    requires { IsSound network.now hierarchy.now }
    ensures some { IfOk result (λ made. IfSome made (IsCoreOf network.now hierarchy.now)) }
    ensures fits { IfOk result (λ made. IfSome made (λ _. HasNoNetwork hierarchy.now → ⊥)) }
    ensures none { IfOk result (λ made. IfNone made (HasNoNetwork hierarchy.now)) }
{
    network.known();
    hierarchy.known();
    let Some(arcs) = core_arcs(alloc, hierarchy)? else {
        return Ok(None);
    };
    let parts = Parts {
        days: one_day(alloc)?,
        roads: road_nodes(alloc, network)?,
        stop_names: Vec::new(alloc),
        stops: Vec::new(alloc),
        switches: Vec::new(alloc),
        arcs,
        links: Vec::new(alloc),
        trips: Vec::new(alloc),
    };
    network_of(alloc, parts, &Caps::FULL)
}

/// The network of these parts. None where they break a rule.
fn network_of(alloc: Global, parts: Parts, caps: &Caps) -> Result<Option<Network>, AllocError>
    requires { AreParts parts }
    ensures some { IfOk result (λ made. IfSome made (λ network. network ≡ parts)) }
    ensures rules { IfOk result (λ made. IfSome made (λ _. IsNetwork parts)) }
    ensures none { IfOk result (λ made. IfNone made (AreRefused caps.now parts)) }
{
    match Network::build(alloc, parts, caps) {
        Ok(network) => {
            network.known();
            Ok(Some(network))
        }
        Err(fault) => refused(fault),
    }
}

/// None, where parts broke a rule. That memory ran out is no such fault.
fn refused(fault: NetFault) -> Result<Option<Network>, AllocError>
    ensures { IfOk result (λ made. (made ≡ None) × (fault ≡ OutOfMemory → ⊥)) }
{
    match fault {
        NetFault::OutOfMemory => Err(AllocError),
        _ => Ok(None),
    }
}

/// The road nodes of a network.
fn road_nodes(alloc: Global, network: &Network) -> Result<Vec<Node>, AllocError>
    requires { IsNetwork network.now }
    ensures { IfOk result (λ roads. roads.items ≡ network.now.roads) }
{
    let mut roads = Vec::new(alloc);
    for v in 0..network.nodes() {
        if network.mode(v).is_none() {
            break;
        }
        roads.push(network.node(v))?;
    }
    Ok(roads)
}

/// The entries between two core nodes, as arcs. None where one of them takes 2^32 ms or longer.
fn core_arcs(alloc: Global, hierarchy: &Hierarchy) -> Result<Option<Vec<Arc>>, AllocError>
    ensures some { IfOk result (λ made. IfSome made (λ arcs. arcs.items ≡ core_arcs hierarchy.now)) }
    ensures none { IfOk result (λ made. IfNone made (HasLongEntry hierarchy.now)) }
{
    let mut arcs = Vec::new(alloc);
    for entry in hierarchy.entries() {
        if is_core_entry(hierarchy, entry) {
            let Ok(ms) = u32::try_from(entry.weight) else {
                return Ok(None);
            };
            arcs.push(Arc {
                from: entry.from,
                to: entry.to,
                ms,
            })?;
        }
    }
    Ok(Some(arcs))
}

/// Whether an entry leads between two core nodes.
fn is_core_entry(hierarchy: &Hierarchy, entry: &Entry) -> bool
    ensures { result ≡ is_core_entry hierarchy.now.order entry.now }
{
    !hierarchy.contracted(entry.from) && !hierarchy.contracted(entry.to)
}

/// Some day, as a network has one. The date is one, so that nothing but want of memory refuses it.
fn one_day(alloc: Global) -> Result<Days, AllocError> {
    match Days::new(alloc, FIRST_DATE, 1) {
        Ok(days) => Ok(days),
        Err(_) => Err(AllocError),
    }
}
