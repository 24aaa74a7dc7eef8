//! What a hierarchy that is not sound breaks, told to people by the keys of the nodes.

use hierarchy::Entry;
use mode_network::{Network, NodeKey};
use std::alloc::{AllocError, Global};

/// What a verdict on a hierarchy speaks of: the lists of the file of this path, and the network.
#[derive(Clone, Copy)]
pub(crate) struct Judged<'a> {
    pub network: &'a Network,
    pub path: &'a str,
    pub order: &'a [u32],
    pub entries: &'a [Entry],
}

impl Judged<'_> {
    /// Which node of the order, road arc or entries a clause fails at, each counted from 0, and what the clause asks for.
    pub(crate) fn broken(
        &self,
        alloc: Global,
        clause: u8,
        at: u64,
        by: u64,
    ) -> Result<String, AllocError> {
        let path = self.path;
        let what = self.broken_at(alloc, clause, at, by)?;
        let rule = sound_rule(clause);
        format!(in alloc;
            "{path}: the hierarchy is not sound for the region: {what}; by clause {clause}, {rule}"
        )
    }

    /// The node of the order, the road arc or the entries that a clause fails at.
    fn broken_at(&self, alloc: Global, clause: u8, at: u64, by: u64) -> Result<String, AllocError> {
        match clause {
            1 => {
                let node = match self.order.get(at as usize) {
                    Some(v) => key(alloc, self.network, *v)?,
                    None => String::new(alloc),
                };
                format!(in alloc; "number {at} of its order is {node}")
            }
            2 => {
                let arc = match self.network.arcs().get(at as usize) {
                    Some(arc) => leg(alloc, self.network, arc.from, arc.to, arc.ms as u64)?,
                    None => String::new(alloc),
                };
                format!(in alloc; "arc {at} of the region leads {arc}")
            }
            4 => {
                let first = self.entry(alloc, at)?;
                let second = self.entry(alloc, by)?;
                format!(in alloc; "entry {at} leads {first}, and entry {by} {second}")
            }
            _ => {
                let entry = self.entry(alloc, at)?;
                format!(in alloc; "entry {at} leads {entry}")
            }
        }
    }

    /// The ends of the entry at a place, and its weight.
    fn entry(&self, alloc: Global, at: u64) -> Result<String, AllocError> {
        match self.entries.get(at as usize) {
            Some(e) => leg(alloc, self.network, e.from, e.to, e.weight),
            None => Ok(String::new(alloc)),
        }
    }
}

/// From where to where, in how many milliseconds.
fn leg(
    alloc: Global,
    network: &Network,
    from: u32,
    to: u32,
    ms: u64,
) -> Result<String, AllocError> {
    let from = key(alloc, network, from)?;
    let to = key(alloc, network, to)?;
    format!(in alloc; "from {from} to {to} in {ms} ms")
}

/// A node as blocks name it, such as `foot:17`; or its number, where the region has no such node.
fn key(alloc: Global, network: &Network, v: u32) -> Result<String, AllocError> {
    network.known();
    if v < network.nodes() {
        match network.node(v).key {
            NodeKey::Road(mode, id) => {
                let name = mode.name();
                format!(in alloc; "{name}:{id}")
            }
            NodeKey::Stop(stop) => {
                let name = String::from_utf8_lossy(alloc, network.stop_name(stop))?;
                format!(in alloc; "stop:{name}")
            }
            NodeKey::Switch(id) => format!(in alloc; "switch:{id}"),
        }
    } else {
        format!(in alloc; "{v} (no node of the region)")
    }
}

/// What a clause of a sound hierarchy asks for, to people.
fn sound_rule(clause: u8) -> &'static str {
    match clause {
        1 => "a node of the order must be a road node without links, and stand once",
        2 => "a road arc must have an entry with its ends that is no heavier",
        3 =>
            "an entry must be a road arc with its weight, or the sum of two entries by way of a lower node",
        4 =>
            "the entries to and from a contracted node must have an entry or a listed witness that is no heavier",
        _ =>
            "the ends of an entry must be different road nodes of one layer, and its weight below 2^56",
    }
}
