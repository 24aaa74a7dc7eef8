//! What is reached as a list of labels.

ghost use Rattle.std.specs.Prelude.{◌≡◌, ◌<◌, ◌^◌, ℕ, OnOk, length, slice_index};
ghost use Rattle.sweeps.specs.Sweeps.{time_at};
ghost use Rattle.rounds.specs.inside.{Rows.never, Listing.AddsLabels, Listing.IsRowLabel};

use crate::asked::{Asked, Reached};
use crate::delays::NEVER;
use crate::turning::Turn;
use product_search::Label;
use search_laws::{Labels, RoadLabels, Time};
use std::alloc::AllocError;

impl<L: RoadLabels> Asked<'_, L> {
    ghost use Rattle.std.specs.Prelude.{◌<◌, ◌^◌, IfOk, OnOk};
    ghost use Rattle.rounds.specs.Rounds.{AreRounds, AreStarts};
    ghost use Rattle.rounds.specs.inside.{asked_of, AddsLabels, AreTurns, AreWalksReached, AreCrossingsReached, AreSettled, AreLabelsOf, IsWalkLabel, IsCrossingLabel};

    /// The first labels, with those of all that is reached.
    pub(crate) fn list(
        &self,
        firsts: Vec<Label>,
        turns: &[Turn],
        reached: &Reached,
    ) -> Result<Vec<Label>, AllocError>
        requires is { AreRounds self.now.rounds.now }
        requires starts { AreStarts self.now.rounds.now self.now.starts.now }
        requires early { self.now.dep < 2 ^ 64 }
        requires turns { AreTurns (L.automaton self.now.machine.now.labels) turns.now }
        requires settled { AreSettled (asked_of self.now) firsts.items turns.now reached.now.walks.items
            reached.now.crossings.items }
        ensures { IfOk result (λ labels. AreLabelsOf (asked_of self.now) firsts.items turns.now
            reached.now.walks.items reached.now.crossings.items labels.items) }
    {
        let mut labels = firsts;
        labels.reserve(cells(&reached.walks).saturating_add(cells(&reached.crossings)))?;
        self.list_walks(turns, &reached.walks, &mut labels)?;
        self.list_crossings(&reached.crossings, &mut labels)?;
        Ok(labels)
    }

    /// Appends the labels of all places that walks reach.
    fn list_walks(
        &self,
        turns: &[Turn],
        walks: &[Vec<u32>],
        labels: &mut Vec<Label>,
    ) -> Result<(), AllocError>
        requires is { AreRounds self.now.rounds.now }
        requires starts { AreStarts self.now.rounds.now self.now.starts.now }
        requires early { self.now.dep < 2 ^ 64 }
        requires turns { AreTurns (L.automaton self.now.machine.now.labels) turns.now }
        requires reached { AreWalksReached (asked_of self.now) turns.now walks.now }
        ensures { OnOk result (AddsLabels (IsWalkLabel (asked_of self.now) turns.now walks.now)
            labels.old.items labels.new.items) }
    {
        for row in 0..turns.len() {
            let turn = &turns[row];
            let layer = &self.rounds.layers[turn.letter as usize];
            push_labels(
                layer.sheet.nodes(),
                &walks[row],
                turn.state,
                self.dep,
                labels,
            )?;
        }
        Ok(())
    }

    /// Appends the labels of all crossings that are reached, in each state.
    fn list_crossings(&self, rows: &[Vec<u32>], labels: &mut Vec<Label>) -> Result<(), AllocError>
        requires is { AreRounds self.now.rounds.now }
        requires starts { AreStarts self.now.rounds.now self.now.starts.now }
        requires early { self.now.dep < 2 ^ 64 }
        requires reached { AreCrossingsReached (asked_of self.now) rows.now }
        ensures { OnOk result (AddsLabels (IsCrossingLabel (asked_of self.now) rows.now)
            labels.old.items labels.new.items) }
    {
        for state in 0..self.machine.labels.states() {
            push_labels(
                &self.rounds.crossings,
                &rows[state as usize],
                state,
                self.dep,
                labels,
            )?;
        }
        Ok(())
    }
}

/// How many delays rows have together.
fn cells(rows: &[Vec<u32>]) -> usize {
    let mut count: usize = 0;
    for row in rows {
        count = count.saturating_add(row.len());
    }
    count
}

/// Appends the labels of the nodes that have a delay other than never, in this state.
fn push_labels(
    nodes: &[u32],
    delays: &[u32],
    state: u32,
    dep: Time,
    labels: &mut Vec<Label>,
) -> Result<(), AllocError>
    requires early { dep < 2 ^ 64 }
    requires one_each { length delays.now ≡ length nodes.now }
    requires low { (i : ℕ) → i < length delays.now → time_at delays.now i < never
        → slice_index nodes.now i < 2 ^ 31 }
    ensures { OnOk result (AddsLabels (IsRowLabel nodes.now delays.now state dep (length delays.now))
        labels.old.items labels.new.items) }
{
    for place in 0..delays.len() {
        let delay = delays[place];
        if delay != NEVER {
            labels.push(Label {
                node: 2 * nodes[place],
                state,
                at: dep + Time::from(delay),
            })?;
        }
    }
    Ok(())
}
