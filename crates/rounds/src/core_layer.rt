//! A road layer of a core that is contracted once more.

ghost use Rattle.std.specs.Prelude.{◌≡◌, ℕ, ◌<◌, ◌^◌, Contains, IfOk, IfSome, IsTrue, false, length};
ghost use Rattle.hierarchy.specs.{IsSound};
ghost use Rattle.cores.specs.{IsSoundOnCore};
ghost use Rattle.rounds.specs.Layers.{IsApart, IsCoreIn, IsCoreLayer, AreGates, AreLayerNodes};

use hierarchy::Hierarchy;
use mode_network::Network;
use std::alloc::{AllocError, Global};
use sweeps::Sheet;

/// A crossing that is a node of a layer.
#[derive(Clone, Copy)]
pub struct Gate {
    /// Its place among the crossings.
    pub crossing: u32,
    /// Its place in the sheet of the layer.
    pub place: u32,
}

/// A road layer of the core, contracted whole.
#[derive(Drop)]
pub struct CoreLayer {
    /// Its nodes, with what leads up and down among them.
    pub(crate) sheet: Sheet,
    /// The crossings that are nodes of it.
    pub(crate) gates: Vec<Gate>,
}

/// What the layers of a core are made of: a network, a hierarchy of it, and one of that one's core.
#[derive(Clone, Copy)]
pub(crate) struct Cores<'a> {
    pub network: &'a Network,
    pub hierarchy: &'a Hierarchy,
    pub core: &'a Hierarchy,
}

impl CoreLayer {
    /// The layer of the mode with this letter, with its gates to the crossings. None where the core is not contracted whole, or one of
    /// its entries takes 2^32 ms or longer.
    pub(crate) fn new(
        alloc: Global,
        cores: Cores<'_>,
        letter: u8,
        crossings: &[u32],
    ) -> Result<Option<CoreLayer>, AllocError>
        requires few { length crossings.now < 2 ^ 32 }
        requires sound { IsSound cores.network.now cores.hierarchy.now }
        requires core { IsSoundOnCore cores.network.now cores.hierarchy.now cores.core.now }
        ensures layer { IfOk result (λ made. IfSome made (λ layer. IsCoreLayer
            cores.entry.network.now cores.entry.hierarchy.now letter layer.sheet)) }
        ensures gates { IfOk result (λ made. IfSome made (λ layer. AreGates layer.sheet.slope.nodes.items
            crossings.now layer.gates.items)) }
    {
        cores.hierarchy.known();
        cores.core.known();
        let nodes = cores.layer_nodes(alloc, letter)?;
        let Some(sheet) = Sheet::new(alloc, cores.core, nodes)? else {
            return Ok(None);
        };
        if !cores.has_all(letter, &sheet) || !cores.is_apart(&sheet) {
            return Ok(None);
        }
        let gates = gates_of(alloc, &sheet, crossings)?;
        Ok(Some(CoreLayer { sheet, gates }))
    }
}

impl Cores<'_> {
    /// The nodes of a layer of the core, in the order in which they are contracted.
    fn layer_nodes(&self, alloc: Global, letter: u8) -> Result<Vec<u32>, AllocError>
        requires { IsSoundOnCore self.now.network.now self.now.hierarchy.now self.now.core.now }
        ensures { IfOk result (λ nodes. AreLayerNodes self.now.network.now self.now.hierarchy.now
            self.now.core.now.order letter nodes.items) }
    {
        let mut nodes = Vec::new(alloc);
        for v in self.core.order() {
            if self.is_core_in(letter, *v) {
                nodes.push(*v)?;
            }
        }
        Ok(nodes)
    }

    /// Whether a node of the network is one of the core whose mode has this letter.
    fn is_core_in(&self, letter: u8, v: u32) -> bool
        ensures yes { IsTrue result → IsCoreIn self.now.network.now self.now.hierarchy.now letter v }
        ensures no { result ≡ false → IsCoreIn self.now.network.now self.now.hierarchy.now letter v → ⊥ }
    {
        self.network.letter(v) == Some(letter) && !self.hierarchy.contracted(v)
    }

    /// Whether a sheet has all nodes of a layer of the core.
    fn has_all(&self, letter: u8, sheet: &Sheet) -> bool
        ensures { IsTrue result → (v : ℕ) → IsCoreIn self.now.network.now self.now.hierarchy.now letter v
            → Contains sheet.now.slope.nodes.items v }
    {
        for v in 0..self.network.nodes() {
            if self.is_core_in(letter, v) && !has_node(sheet, v) {
                return false;
            }
        }
        true
    }

    /// Whether each entry of the core's hierarchy leads between two nodes of a sheet, or between two others.
    fn is_apart(&self, sheet: &Sheet) -> bool
        ensures { IsTrue result → IsApart self.now.core.now sheet.now.slope.nodes.items }
    {
        for entry in self.core.entries() {
            if has_node(sheet, entry.from) != has_node(sheet, entry.to) {
                return false;
            }
        }
        true
    }
}

/// Whether a sheet has a node.
fn has_node(sheet: &Sheet, v: u32) -> bool
    ensures yes { IsTrue result → Contains sheet.now.slope.nodes.items v }
    ensures no { result ≡ false → Contains sheet.now.slope.nodes.items v → ⊥ }
{
    sheet.place_of(v).is_some()
}

/// The crossings that are nodes of a sheet.
fn gates_of(alloc: Global, sheet: &Sheet, crossings: &[u32]) -> Result<Vec<Gate>, AllocError>
    requires few { length crossings.now < 2 ^ 32 }
    ensures { IfOk result (λ gates. AreGates sheet.now.slope.nodes.items crossings.now gates.items) }
{
    let mut gates = Vec::new(alloc);
    for crossing in 0..crossings.len() {
        if let Some(place) = sheet.place_of(crossings[crossing]) {
            gates.push(Gate {
                crossing: crossing as u32,
                place,
            })?;
        }
    }
    Ok(gates)
}
