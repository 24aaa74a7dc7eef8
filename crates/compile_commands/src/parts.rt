//! The parts of the road layers that hang together. Nothing is proved of these numbers: people are told them.

ghost use Rattle.std.specs.Prelude.{◌<◌, IfSome};

use mode_network::Network;
use std::alloc::{AllocError, Global};

/// How many nodes a road layer has, and how many of them its largest part has.
#[derive(Clone, Copy)]
pub(crate) struct Layer {
    pub nodes: u32,
    pub largest: u32,
}

/// The road layers of a network, by mode: foot, bike and car.
pub(crate) fn layers(alloc: Global, network: &Network) -> Result<[Layer; 3], AllocError> {
    let mut lower = each_apart(alloc, network.nodes())?;
    for arc in network.arcs() {
        join(&mut lower, arc.from, arc.to);
    }
    let sizes = sizes(alloc, network, &mut lower)?;
    let empty = Layer {
        nodes: 0,
        largest: 0,
    };
    let mut layers = [empty, empty, empty];
    for v in 0..network.nodes() {
        if let Some(mode) = network.mode(v) {
            let size = sizes.get(v as usize).copied().unwrap_or(0);
            if let Some(layer) = layers.get_mut(usize::from(mode.number())) {
                layer.nodes = layer.nodes.saturating_add(1);
                layer.largest = layer.largest.max(size);
            }
        }
    }
    Ok(layers)
}

/// For each node the node itself: a node of the same part with a number that is no higher.
fn each_apart(alloc: Global, nodes: u32) -> Result<Vec<u32>, AllocError> {
    let mut lower = Vec::with_capacity(alloc, nodes as usize)?;
    for v in 0..nodes {
        lower.push(v)?;
    }
    Ok(lower)
}

/// How many road nodes the part has of which a node is the least; none for each other node.
fn sizes(alloc: Global, network: &Network, lower: &mut Vec<u32>) -> Result<Vec<u32>, AllocError> {
    let mut sizes = Vec::with_capacity(alloc, network.nodes() as usize)?;
    for _ in 0..network.nodes() {
        sizes.push(0)?;
    }
    for v in 0..network.nodes() {
        let least = least_of(lower, v);
        if let Some(size) = sizes.get_mut(least as usize) {
            *size = u32::saturating_add(*size, 1);
        }
    }
    Ok(sizes)
}

/// Makes one part of those of two nodes.
fn join(lower: &mut Vec<u32>, a: u32, b: u32) {
    let (a, b) = (least_of(lower, a), least_of(lower, b));
    set(lower, a.max(b), a.min(b));
}

/// The node at the end of the way from a node to lower and lower ones of its part. The way is made shorter.
fn least_of(lower: &mut Vec<u32>, node: u32) -> u32 {
    let mut v = node;
    while let Some(next) = lower_than(lower, v) {
        if let Some(behind) = lower_than(lower, next) {
            set(lower, v, behind);
        }
        v = next;
    }
    v
}

/// The lower node that is noted for a node, if there is one.
fn lower_than(lower: &[u32], v: u32) -> Option<u32>
    ensures { IfSome result (λ w. w < v) }
{
    let noted = *lower.get(v as usize)?;
    if noted < v { Some(noted) } else { None }
}

/// Notes a node of the same part.
fn set(lower: &mut Vec<u32>, v: u32, noted: u32) {
    if let Some(place) = lower.get_mut(v as usize) {
        *place = noted;
    }
}
