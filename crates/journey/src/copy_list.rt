//! The copies of an endpoint as a list.

ghost use Rattle.std.specs.Prelude.{◌≡◌, ◌-◌, ◌<◌, ◌≤◌, All, IfOk, length};
ghost use Rattle.std.specs.List.{range_with_len};
ghost use Rattle.mode_network.specs.NetworkLists.{nodes_of};
ghost use Rattle.journey.specs.CopyLists.{AreTheCopies};

use mode_network::{Endpoint, Network};
use std::alloc::{AllocError, Global};

/// The node numbers of the copies of an endpoint, in order; none where the network has no copy.
pub fn copies(alloc: Global, network: &Network, endpoint: &Endpoint) -> Result<Vec<u32>, AllocError>
    ensures are { IfOk result (λ copies. AreTheCopies network.now endpoint.now copies.items) }
    ensures nodes { IfOk result (λ copies. All (λ v. v < length (nodes_of network.now)) copies.items) }
{
    network.known();
    match network.copies(endpoint) {
        Some((first, end)) => numbers(alloc, first, end),
        None => Ok(Vec::new(alloc)),
    }
}

/// The numbers from one to before another.
fn numbers(alloc: Global, first: u32, end: u32) -> Result<Vec<u32>, AllocError>
    requires { first ≤ end }
    ensures { IfOk result (λ numbers. numbers.items ≡ range_with_len first (end - first)) }
{
    let mut numbers = Vec::new(alloc);
    for v in first..end {
        numbers.push(v)?;
    }
    Ok(numbers)
}
