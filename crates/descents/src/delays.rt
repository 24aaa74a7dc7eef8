//! How long after a departure nodes are reached before any descent.

ghost use Rattle.std.specs.Prelude.{◌≡◌, ◌+◌, ◌^◌, ◌<◌, ◌↔◌, ℕ, All, IfOk, IfSome, IfNone, IsTrue, length};
ghost use Rattle.search_laws.specs.{Letters.IsLetter, LabelLaws.HasMove};
ghost use Rattle.descents.specs.inside.Delaying.{AreDelays, IsKnownLabel, IsMin, IsTopOf};

use mode_network::Network;
use product_search::Label;
use search_laws::{Labels, Time};
use std::alloc::{AllocError, Global};
use sweeps::Slope;

/// Stands for never.
pub(crate) const NEVER: u32 = u32::MAX;

/// How long after a departure nodes are reached by accepted walks that have not gone down, in ms, where they are.
#[derive(Drop)]
pub(crate) struct Delays {
    /// By node of the network.
    pub ends: Vec<u32>,
    /// By place of a slope: by those walks alone that are still accepted when its node's letter is read once more.
    pub tops: Vec<u32>,
}

/// The delays of these labels. None where one of them is before the departure, or 2^32 - 1 ms or longer after it.
pub(crate) fn delays_of<L: Labels>(
    alloc: Global,
    automaton: &L,
    network: &Network,
    slope: &Slope,
    labels: &[Label],
    dep: Time,
) -> Result<Option<Delays>, AllocError>
    requires { All (IsKnownLabel network.now (L.automaton automaton.now)) labels.now }
    ensures { IfOk result (λ made. IfSome made (AreDelays network.now slope.now.nodes.items
        (L.automaton automaton.now) dep labels.now)) }
{
    let mut delays = Delays {
        ends: vec![in alloc; NEVER; network.nodes() as usize]?,
        tops: vec![in alloc; NEVER; slope.nodes().len()]?,
    };
    for label in labels {
        if !delays.note(automaton, network, slope, label, dep) {
            return Ok(None);
        }
    }
    Ok(Some(delays))
}

impl Delays {
    ghost use Rattle.std.specs.Prelude.{◌≡◌, ◌++◌, [], ◌∷◌, List, IsTrue, length};
    ghost use Rattle.mode_network.specs.NetworkLists.{nodes_of};
    ghost use Rattle.product_search.specs.{declared.label.Label.Label};
    ghost use Rattle.descents.specs.inside.Delaying.{AreDelays, IsKnownLabel};

    /// Notes one label more. Whether its delay fits.
    fn note<L: Labels>(
        &mut self,
        automaton: &L,
        network: &Network,
        slope: &Slope,
        label: &Label,
        dep: Time,
    ) -> bool
        requires known { IsKnownLabel network.now (L.automaton automaton.now) label.now }
        requires ends_each { length self.old.ends.items ≡ length (nodes_of network.now) }
        requires tops_each { length self.old.tops.items ≡ length slope.now.nodes.items }
        ensures { IsTrue result → (labels : List Label) → AreDelays network.now slope.now.nodes.items
            (L.automaton automaton.now) dep labels self.old → AreDelays network.now slope.now.nodes.items
            (L.automaton automaton.now) dep (labels ++ label.now ∷ []) self.new }
    {
        let Some(delay) = delay_of(label.at, dep) else {
            return false;
        };
        if label.node % 2 == 0 && automaton.accepts(label.state) {
            let node = label.node / 2;
            lower(&mut self.ends, node as usize, delay);
            if let Some(place) = top_of(automaton, network, slope, node, label.state) {
                lower(&mut self.tops, place as usize, delay);
            }
        }
        true
    }
}

/// How long a time is after a departure, if it is, and less than never.
fn delay_of(at: Time, dep: Time) -> Option<u32>
    ensures { IfSome result (λ delay. (at ≡ dep + delay) × (delay + 1 < 2 ^ 32)) }
{
    if at < dep {
        return None;
    }
    match u32::try_from(at - dep) {
        Ok(delay) if delay < NEVER => Some(delay),
        _ => None,
    }
}

/// Makes the delay at a place no longer than this.
fn lower(delays: &mut [u32], place: usize, delay: u32)
    requires { place < length delays.old }
    ensures { IsMin place delay delays.old delays.new }
{
    delays[place] = delays[place].min(delay);
}

/// The place of a node on the slope, if it has one and its letter can be read again in this state.
fn top_of<L: Labels>(
    automaton: &L,
    network: &Network,
    slope: &Slope,
    node: u32,
    state: u32,
) -> Option<u32>
    requires { state < (L.automaton automaton.now).states }
    ensures some { IfSome result (IsTopOf network.now slope.now.nodes.items (L.automaton automaton.now) node state) }
    ensures none { IfNone result ((i : ℕ) → IsTopOf network.now slope.now.nodes.items (L.automaton automaton.now)
        node state i → ⊥) }
{
    let letter = network.letter(node)?;
    let place = slope.place_of(node)?;
    if stays(automaton, state, letter) {
        Some(place)
    } else {
        None
    }
}

/// Whether a move by a letter leads from a state to itself.
fn stays<L: Labels>(automaton: &L, state: u32, letter: u8) -> bool
    requires state { state < (L.automaton automaton.now).states }
    requires letter { IsLetter letter }
    ensures { IsTrue result ↔ HasMove (L.automaton automaton.now) state letter state }
{
    for i in 0..automaton.moves(state) {
        let step = automaton.move_at(state, i);
        if step.to == state && step.has_letter(letter) {
            return true;
        }
    }
    false
}
