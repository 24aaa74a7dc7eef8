//! The labels from which walks over the core begin.

ghost use Rattle.std.specs.Prelude.{◌<◌, ◌^◌, All, OnOk};
ghost use Rattle.rounds.specs.inside.{AddsLabels, IsClimbIn, IsOfAny};

use crate::asked::Asked;
use crate::climb::{Climb, climbs_from};
use crate::turning::Turn;
use product_search::Label;
use search_laws::{Labels, RoadLabels, Time};
use std::alloc::{AllocError, Global};

impl<L: RoadLabels> Asked<'_, L> {
    ghost use Rattle.std.specs.Prelude.{◌<◌, ◌↔◌, ◌^◌, ℕ, All, Contains, IfOk, IfSome, IsTrue, OnOk};
    ghost use Rattle.phase_graph.specs.{node_of};
    ghost use Rattle.rounds.specs.Rounds.{AreRounds, AreStarts};
    ghost use Rattle.rounds.specs.inside.{asked_of, AddsLabels, AreClimbs, AreFirsts, AreTurns, IsClimbLabel, IsFirstTurn, IsOfAny, IsStartLabel, IsTurn};

    /// The labels of the starts in the start states, and those of the climbs from there, if all climbs fit.
    pub(crate) fn firsts(
        &self,
        alloc: Global,
        turns: &[Turn],
    ) -> Result<Option<Vec<Label>>, AllocError>
        requires is { AreRounds self.now.rounds.now }
        requires starts { AreStarts self.now.rounds.now self.now.starts.now }
        requires early { self.now.dep < 2 ^ 64 }
        requires turns { AreTurns (L.automaton self.now.machine.now.labels) turns.now }
        ensures { IfOk result (λ found. IfSome found (λ labels. AreFirsts (asked_of self.now) labels.items)) }
    {
        self.rounds.network.known();
        self.rounds.hierarchy.known();
        let mut labels = Vec::new(alloc);
        for start in self.starts {
            let Some(climbs) = climbs_from(alloc, self.rounds.hierarchy, *start / 2)? else {
                return Ok(None);
            };
            self.push_starts(*start, &mut labels)?;
            self.push_climbs(*start, &climbs, turns, &mut labels)?;
        }
        Ok(Some(labels))
    }

    /// Appends the labels of a start in the start states.
    fn push_starts(&self, start: u32, labels: &mut Vec<Label>) -> Result<(), AllocError>
        ensures { OnOk result (AddsLabels (IsStartLabel (asked_of self.now) start) labels.old.items
            labels.new.items) }
    {
        for state in 0..self.machine.labels.states() {
            if self.machine.labels.is_start(state) {
                labels.push(Label {
                    node: start,
                    state,
                    at: self.dep,
                })?;
            }
        }
        Ok(())
    }

    /// Appends the labels of the climbs from a start, in the states of the turns that begin there.
    fn push_climbs(
        &self,
        start: u32,
        climbs: &[Climb],
        turns: &[Turn],
        labels: &mut Vec<Label>,
    ) -> Result<(), AllocError>
        requires is { AreRounds self.now.rounds.now }
        requires starts { AreStarts self.now.rounds.now self.now.starts.now }
        requires early { self.now.dep < 2 ^ 64 }
        requires start { Contains self.now.starts.now start }
        requires climbs { AreClimbs self.now.rounds.now.hierarchy.now (node_of start) climbs.now }
        requires turns { AreTurns (L.automaton self.now.machine.now.labels) turns.now }
        ensures { OnOk result (AddsLabels (IsOfAny (IsClimbLabel (asked_of self.now) (node_of start) climbs.now)
            turns.now) labels.old.items labels.new.items) }
    {
        self.rounds.network.known();
        self.rounds.hierarchy.known();
        for turn in turns {
            if self.begins(turn, start / 2) {
                push_climbs_in(turn.state, climbs, self.dep, labels)?;
            }
        }
        Ok(())
    }

    /// Whether a turn is by the letter of this node and leads from a start state.
    fn begins(&self, turn: &Turn, node: u32) -> bool
        requires { IsTurn (L.automaton self.now.machine.now.labels) turn.now }
        ensures { IsTrue result ↔ IsFirstTurn (asked_of self.now) node turn.now }
    {
        self.rounds.network.letter(node) == Some(turn.letter) && self.has_start(&turn.sources)
    }

    /// Whether one of these states is a start state.
    fn has_start(&self, states: &[u32]) -> bool
        requires { All (λ q. q < (L.automaton self.now.machine.now.labels).states) states.now }
        ensures { IsTrue result ↔ ((q : ℕ) × Contains states.now q
            × IsTrue ((L.automaton self.now.machine.now.labels).is_start q)) }
    {
        for state in states {
            if self.machine.labels.is_start(*state) {
                return true;
            }
        }
        false
    }
}

/// Appends the labels of climbs in a state.
fn push_climbs_in(
    state: u32,
    climbs: &[Climb],
    dep: Time,
    labels: &mut Vec<Label>,
) -> Result<(), AllocError>
    requires early { dep < 2 ^ 64 }
    requires low { All (λ climb. climb.node < 2 ^ 31) climbs.now }
    ensures { OnOk result (AddsLabels (IsOfAny (IsClimbIn state dep) climbs.now) labels.old.items
        labels.new.items) }
{
    for climb in climbs {
        let Climb { node, ms } = *climb;
        labels.push(Label {
            node: 2 * node,
            state,
            at: dep + Time::from(ms),
        })?;
    }
    Ok(())
}
