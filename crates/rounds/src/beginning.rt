//! What is reached at first.

ghost use Rattle.std.specs.Prelude.{◌≡◌, ◌<◌, ◌↔◌, ℕ, Contains, IfOk, IfSome, IfNone, IsTrue, false, length, slice_index};
ghost use Rattle.phase_graph.specs.{node_of};
ghost use Rattle.sweeps.specs.inside.Tables.{ArePlacesOf};

use crate::asked::{Asked, Reached};
use crate::core_layer::CoreLayer;
use crate::delays::{NEVER, delay_of, lower, lower_in, rows_of};
use crate::turning::Turn;
use product_search::Label;
use search_laws::{Labels, RoadLabels};
use std::alloc::{AllocError, Global};
use sweeps::Places;

impl<L: RoadLabels> Asked<'_, L> {
    ghost use Rattle.std.specs.Prelude.{◌≤◌, ◌≡◌, ◌<◌, ◌^◌, ℕ, All, Contains, IfOk, IfSome, IsTrue, Some, false, length, slice_get};
    ghost use Rattle.sweeps.specs.{time_at};
    ghost use Rattle.rounds.specs.Rounds.{AreRounds};
    ghost use Rattle.rounds.specs.Layers.{CoreLayer};
    ghost use Rattle.rounds.specs.inside.{asked_of, IsLayerOf, AreFirsts, Turn, IsTurn, AreTurns, AreWalksReached, AreWalksClosed, AreCrossingsReached, HaveCrossed, HaveWalked, HaveShape, AreLowered, IsRowLowered, IsWalkOf, IsOfLabel, IsOfSource, IsNotedIn, IsNotedAt, row_of, cell, never};

    /// No delay at any crossing in any state.
    pub(crate) fn no_crossings(&self, alloc: Global) -> Result<Vec<Vec<u32>>, AllocError>
        ensures shape { IfOk result (λ rows. HaveShape (L.automaton self.now.machine.now.labels).states
            (length self.now.rounds.now.crossings.items) rows.items) }
        ensures none { IfOk result (λ rows. (q j : ℕ) → q < (L.automaton self.now.machine.now.labels).states
            → j < length self.now.rounds.now.crossings.items → cell rows.items q j ≡ never) }
    {
        rows_of(
            alloc,
            self.machine.labels.states(),
            self.rounds.crossings.len(),
        )
    }

    /// What the first labels lead to by walks, if they fit.
    pub(crate) fn begin(
        &self,
        alloc: Global,
        firsts: &[Label],
        turns: &[Turn],
    ) -> Result<Option<Reached>, AllocError>
        requires is { AreRounds self.now.rounds.now }
        requires firsts { AreFirsts (asked_of self.now) firsts.now }
        requires turns { AreTurns (L.automaton self.now.machine.now.labels) turns.now }
        ensures walks { IfOk result (λ made. IfSome made (λ r. AreWalksReached (asked_of self.now) turns.now
            r.walks.items)) }
        ensures closed { IfOk result (λ made. IfSome made (λ r. AreWalksClosed (asked_of self.now) turns.now
            r.walks.items)) }
        ensures crossings { IfOk result (λ made. IfSome made (λ r. AreCrossingsReached (asked_of self.now)
            r.crossings.items)) }
        ensures few { IfOk result (λ made. IfSome made (λ r. (q j : ℕ)
            → q < (L.automaton self.now.machine.now.labels).states
            → j < length self.now.rounds.now.crossings.items → cell r.crossings.items q j ≤ never)) }
        ensures crossed { IfOk result (λ made. IfSome made (λ r. HaveCrossed (asked_of self.now) firsts.now
            r.crossings.items)) }
        ensures walked { IfOk result (λ made. IfSome made (λ r. HaveWalked (asked_of self.now) firsts.now
            turns.now r.walks.items)) }
    {
        let mut crossings = self.no_crossings(alloc)?;
        if !self.note_crossings(firsts, &mut crossings) {
            return Ok(None);
        }
        let Some(walks) = self.first_walks(alloc, firsts, turns)? else {
            return Ok(None);
        };
        Ok(Some(Reached { walks, crossings }))
    }

    /// Makes crossings no later than labels at them, in the states of these. Whether all labels fit.
    fn note_crossings(&self, labels: &[Label], crossings: &mut Vec<Vec<u32>>) -> bool
        requires states { All (λ x. x.state < length crossings.old.items) labels.now }
        requires shape { HaveShape (L.automaton self.now.machine.now.labels).states
            (length self.now.rounds.now.crossings.items) crossings.old.items }
        ensures lowered { IsTrue result → AreLowered (IsOfLabel self.now.dep self.now.rounds.now.crossings.items
            labels.now) crossings.old.items crossings.new.items }
        ensures noted { IsTrue result → All (IsNotedIn self.now.dep self.now.rounds.now.crossings.items
            crossings.new.items) labels.now }
    {
        let places = Places {
            nodes: &self.rounds.crossings,
            of: &self.rounds.crossing_places,
        };
        for label in labels {
            let Some(delay) = delay_of(label.at, self.dep) else {
                return false;
            };
            if let Some(place) = places.place_of(label.node / 2) {
                lower(crossings, label.state, place, delay);
            }
        }
        true
    }

    /// The walks of these turns from the first labels on, if they fit.
    fn first_walks(
        &self,
        alloc: Global,
        firsts: &[Label],
        turns: &[Turn],
    ) -> Result<Option<Vec<Vec<u32>>>, AllocError>
        requires is { AreRounds self.now.rounds.now }
        requires firsts { AreFirsts (asked_of self.now) firsts.now }
        requires turns { All (IsTurn (L.automaton self.now.machine.now.labels)) turns.now }
        ensures many { IfOk result (λ made. IfSome made (λ walks. length walks.items ≡ length turns.now)) }
        ensures walks { IfOk result (λ made. IfSome made (λ walks. (k : ℕ) (turn : Turn)
            → slice_get turns.now k ≡ Some turn → IsWalkOf (asked_of self.now) turn (row_of walks.items k))) }
        ensures noted { IfOk result (λ made. IfSome made (λ walks. (k : ℕ) (turn : Turn) (layer : CoreLayer)
            → slice_get turns.now k ≡ Some turn → IsLayerOf (asked_of self.now) turn.letter layer
            → All (IsNotedAt self.now.dep layer.sheet.slope.nodes.items turn (row_of walks.items k)) firsts.now)) }
    {
        let mut walks = Vec::with_capacity(alloc, turns.len())?;
        for turn in turns {
            let Some(walk) = self.first_walk(alloc, firsts, turn)? else {
                return Ok(None);
            };
            walks.push(walk)?;
        }
        Ok(Some(walks))
    }

    /// The walk of a turn from the first labels on, if they fit.
    fn first_walk(
        &self,
        alloc: Global,
        firsts: &[Label],
        turn: &Turn,
    ) -> Result<Option<Vec<u32>>, AllocError>
        requires is { AreRounds self.now.rounds.now }
        requires firsts { AreFirsts (asked_of self.now) firsts.now }
        requires turn { IsTurn (L.automaton self.now.machine.now.labels) turn.now }
        ensures walk { IfOk result (λ made. IfSome made (λ walk. IsWalkOf (asked_of self.now) turn.now
            walk.items)) }
        ensures noted { IfOk result (λ made. IfSome made (λ walk. (layer : CoreLayer) → IsLayerOf
            (asked_of self.now) turn.now.letter layer → All (IsNotedAt self.now.dep
            layer.sheet.slope.nodes.items turn.now walk.items) firsts.now)) }
    {
        self.rounds.network.known();
        self.rounds.hierarchy.known();
        let layer = &self.rounds.layers[turn.letter as usize];
        let mut walk = vec![in alloc; NEVER; layer.sheet.nodes().len()]?;
        let Some(some) = self.note_walk(firsts, turn, layer, &mut walk) else {
            return Ok(None);
        };
        if some {
            layer.sheet.sweep(&mut walk, NEVER);
        }
        Ok(Some(walk))
    }

    /// Makes a walk in a layer no later than labels there in the sources of its turn. Whether it was later at one of them; if these fit.
    fn note_walk(
        &self,
        labels: &[Label],
        turn: &Turn,
        layer: &CoreLayer,
        walk: &mut [u32],
    ) -> Option<bool>
        requires each { length walk.old ≡ length layer.now.sheet.slope.nodes.items }
        ensures lowered { IfSome result (λ _. IsRowLowered (IsOfSource self.now.dep
            layer.now.sheet.slope.nodes.items labels.now turn.now) walk.old walk.new) }
        ensures noted { IfSome result (λ _. All (IsNotedAt self.now.dep layer.now.sheet.slope.nodes.items
            turn.now walk.new) labels.now) }
        ensures same { IfSome result (λ sooner. sooner ≡ false → walk.new ≡ walk.old) }
    {
        let mut sooner = false;
        for label in labels {
            if let Some(place) = source_place(turn, layer, label) {
                let delay = delay_of(label.at, self.dep)?;
                if lower_in(walk, place as usize, delay) {
                    sooner = true;
                }
            }
        }
        Some(sooner)
    }
}

/// The place in a layer of the node of a label, if it has one and the label is in one of the sources of a turn.
fn source_place(turn: &Turn, layer: &CoreLayer, label: &Label) -> Option<u32>
    ensures some { IfSome result (λ place. (place < length layer.now.sheet.slope.nodes.items)
        × (slice_index layer.now.sheet.slope.nodes.items place ≡ node_of label.now.node)) }
    ensures source { IfSome result (λ _. Contains turn.now.sources.items label.now.state) }
    ensures none { IfNone result (Contains turn.now.sources.items label.now.state
        → Contains layer.now.sheet.slope.nodes.items (node_of label.now.node) → ⊥) }
{
    if is_source(turn, label.state) {
        layer.sheet.place_of(label.node / 2)
    } else {
        None
    }
}

/// Whether a state is one of the sources of a turn.
fn is_source(turn: &Turn, state: u32) -> bool
    ensures { IsTrue result ↔ Contains turn.now.sources.items state }
{
    turn.sources.contains(&state)
}
