//! The nodes from which entries lead down to targets.

use hierarchy::Hierarchy;
use std::alloc::{AllocError, Global};

/// The nodes below `count` from which chains of entries, each to a lower node, lead to some of these targets, with the targets: first
/// those that are contracted, lower ones first, and then the others.
pub(crate) fn nodes_above(
    alloc: Global,
    count: u32,
    h: &Hierarchy,
    targets: &[u32],
) -> Result<Vec<u32>, AllocError> {
    let mut above = vec![in alloc; false; count as usize]?;
    for v in targets {
        mark(&mut above, *v);
    }
    let mut nodes = Vec::new(alloc);
    for v in h.order() {
        if has_mark(&above, *v) {
            nodes.push(*v)?;
            for fall in h.falls_into(*v) {
                mark(&mut above, fall.from);
            }
        }
    }
    for v in 0..count {
        if has_mark(&above, v) && !h.contracted(v) {
            nodes.push(v)?;
        }
    }
    Ok(nodes)
}

/// Marks a node.
fn mark(above: &mut [bool], v: u32) {
    if let Some(here) = above.get_mut(v as usize) {
        *here = true;
    }
}

/// Whether a node has a mark.
fn has_mark(above: &[bool], v: u32) -> bool {
    above.get(v as usize).copied().unwrap_or(false)
}
