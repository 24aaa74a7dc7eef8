//! Clause 1: the order lists distinct road nodes that no link joins.

ghost use Rattle.std.specs.Prelude.{◌≡◌, ◌↔◌, IfOk, IsTrue, MatchOption, length};
ghost use Rattle.mode_network.specs.NetworkLists.{nodes_of};
ghost use Rattle.search_laws.specs.Firsts.{HoldsBelow, FailsFirstAt};
ghost use Rattle.hierarchy.specs.Soundness.{IsFree, MayStandAt};
ghost use Rattle.hierarchy_check.specs.inside.Meetings.{IsFirstMeeting, meets};

use mode_network::Network;
use std::alloc::{AllocError, Global};

/// The first place of an order whose node is no road node, has a link, or stands before.
pub(crate) fn first_misplaced(
    alloc: Global,
    network: &Network,
    order: &[u32],
) -> Result<Option<u64>, AllocError>
    ensures { IfOk result (λ found. MatchOption found
        (HoldsBelow (length order.now) (MayStandAt network.now order.now))
        (FailsFirstAt (length order.now) (MayStandAt network.now order.now))) }
{
    let mut met = vec![in alloc; false; network.nodes() as usize]?;
    for place in 0..order.len() {
        if !meet(network, &mut met, order[place]) {
            return Ok(Some(place as u64));
        }
    }
    Ok(None)
}

/// Whether a node is free and was not met before. It is then noted as met.
fn meet(network: &Network, met: &mut Vec<bool>, x: u32) -> bool
    requires { length met.old.items ≡ length (nodes_of network.now) }
    ensures is { IsTrue result ↔ IsFirstMeeting network.now met.old.items x }
    ensures noted { met.new.items ≡ meets result met.old.items x }
{
    if !is_free(network, x) || met[x as usize] {
        return false;
    }
    met[x as usize] = true;
    true
}

/// Whether the node is a road node that no link joins.
fn is_free(network: &Network, x: u32) -> bool
    ensures { IsTrue result ↔ IsFree network.now x }
{
    match network.mode(x) {
        Some(_) => !network.has_link(x),
        None => false,
    }
}
