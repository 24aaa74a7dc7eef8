//! Links from crossings.

ghost use Rattle.std.specs.Prelude.{◌≡◌, ◌<◌, ◌≤◌, All, Contains, false, length};
ghost use Rattle.rounds.specs.inside.{AreLowered, cell, row_of};

use crate::asked::Asked;
use crate::delays::{NEVER, delay_of, lower};
use crate::rounds::ROAD_LETTERS;
use search_laws::{GivenRuns, Graph, Labels, RoadLabels, Time, Visit, Way};
use std::alloc::{AllocError, Global};
use sweeps::Places;

/// The set of the letters of roads.
const ROADS: u32 = (1 << ROAD_LETTERS) - 1;

impl<L: RoadLabels> Asked<'_, L> {
    ghost use Rattle.std.specs.Prelude.{◌≡◌, ◌≤◌, ◌<◌, ◌^◌, ℕ, All, false, length, IfOk, IfSome, IsBitSet};
    ghost use Rattle.search_laws.specs.{IsLetter, HasMove};
    ghost use Rattle.phase_graph.specs.{meaning_in_use};
    ghost use Rattle.rounds.specs.Rounds.{AreRounds};
    ghost use Rattle.rounds.specs.inside.{asked_of, AreCrossedOn, AreCrossingsReached, AreLowered, AreVisited, AreVisiting, HaveShape, IsVisited, WayIsCrossed, WayReaches, cell, crossing_node, never};

    /// Takes links from the crossings that are reached sooner than they were visited last, in each state. Whether a crossing is
    /// reached sooner by that; if all fits.
    pub(crate) fn visit_all(
        &self,
        alloc: Global,
        rows: &mut Vec<Vec<u32>>,
        visits: &mut Vec<Vec<u32>>,
        ways: &mut Vec<Way>,
    ) -> Result<Option<bool>, AllocError>
        requires is { AreRounds self.now.rounds.now }
        requires early { self.now.dep < 2 ^ 64 }
        requires crossings { AreCrossingsReached (asked_of self.now) rows.old.items }
        requires shape { HaveShape (L.automaton self.now.machine.now.labels).states
            (length self.now.rounds.now.crossings.items) visits.old.items }
        requires visited { AreVisited (asked_of self.now) rows.old.items visits.old.items }
        ensures crossings { IfOk result (λ done. IfSome done (λ _. AreCrossingsReached (asked_of self.now)
            rows.new.items)) }
        ensures shape { IfOk result (λ done. IfSome done (λ _. HaveShape
            (L.automaton self.now.machine.now.labels).states (length self.now.rounds.now.crossings.items)
            visits.new.items)) }
        ensures visited { IfOk result (λ done. IfSome done (λ _. AreVisited (asked_of self.now) rows.new.items
            visits.new.items)) }
        ensures lowered { IfOk result (λ done. IfSome done (λ _. AreLowered (λ _ _ _. Unit {0}) rows.old.items
            rows.new.items)) }
        ensures same { IfOk result (λ done. IfSome done (λ changed. changed ≡ false → rows.new.items
            ≡ rows.old.items)) }
        ensures all { IfOk result (λ done. IfSome done (λ changed. changed ≡ false → (q j : ℕ)
            → q < (L.automaton self.now.machine.now.labels).states
            → j < length self.now.rounds.now.crossings.items → cell rows.new.items q j < never
            → cell visits.new.items q j ≡ cell rows.new.items q j)) }
    {
        let mut changed = false;
        for state in 0..self.machine.labels.states() {
            let Some(crossed) = self.visit_state(alloc, state, rows, visits, ways)? else {
                return Ok(None);
            };
            changed |= crossed;
        }
        Ok(Some(changed))
    }

    /// The same in one state.
    fn visit_state(
        &self,
        alloc: Global,
        state: u32,
        rows: &mut Vec<Vec<u32>>,
        visits: &mut Vec<Vec<u32>>,
        ways: &mut Vec<Way>,
    ) -> Result<Option<bool>, AllocError>
        requires state { state < (L.automaton self.now.machine.now.labels).states }
        requires is { AreRounds self.now.rounds.now }
        requires early { self.now.dep < 2 ^ 64 }
        requires visiting { AreVisiting (asked_of self.now) rows.old.items visits.old.items }
        ensures visiting { IfOk result (λ done. IfSome done (λ _. AreVisiting (asked_of self.now) rows.new.items
            visits.new.items)) }
        ensures taken { IfOk result (λ done. IfSome done (AreCrossedOn (asked_of self.now) rows.old.items
            rows.new.items)) }
        ensures lowered { IfOk result (λ done. IfSome done (λ _. AreLowered (λ _ _ _. Unit {0}) visits.old.items
            visits.new.items)) }
        ensures all { IfOk result (λ done. IfSome done (λ changed. changed ≡ false → (j : ℕ)
            → j < length self.now.rounds.now.crossings.items → cell rows.new.items state j < never
            → cell visits.new.items state j ≡ cell rows.new.items state j)) }
    {
        let mut changed = false;
        for crossing in 0..self.rounds.crossings.len() as u32 {
            let Some(crossed) = self.visit_if_sooner(alloc, state, crossing, rows, visits, ways)?
            else {
                return Ok(None);
            };
            changed |= crossed;
        }
        Ok(Some(changed))
    }

    /// The same at one crossing.
    #[inline(always)]
    fn visit_if_sooner(
        &self,
        alloc: Global,
        state: u32,
        crossing: u32,
        rows: &mut Vec<Vec<u32>>,
        visits: &mut Vec<Vec<u32>>,
        ways: &mut Vec<Way>,
    ) -> Result<Option<bool>, AllocError>
        requires state { state < (L.automaton self.now.machine.now.labels).states }
        requires crossing { crossing < length self.now.rounds.now.crossings.items }
        requires is { AreRounds self.now.rounds.now }
        requires early { self.now.dep < 2 ^ 64 }
        requires visiting { AreVisiting (asked_of self.now) rows.old.items visits.old.items }
        ensures visiting { IfOk result (λ done. IfSome done (λ _. AreVisiting (asked_of self.now) rows.new.items
            visits.new.items)) }
        ensures taken { IfOk result (λ done. IfSome done (AreCrossedOn (asked_of self.now) rows.old.items
            rows.new.items)) }
        ensures lowered { IfOk result (λ done. IfSome done (λ _. AreLowered (λ _ _ _. Unit {0}) visits.old.items
            visits.new.items)) }
        ensures here { IfOk result (λ done. IfSome done (λ changed. changed ≡ false
            → cell rows.new.items state crossing < never → cell visits.new.items state crossing
            ≡ cell rows.new.items state crossing)) }
    {
        let delay = rows[state as usize][crossing as usize];
        if delay < NEVER && lower(visits, state, crossing, delay) {
            self.visit(alloc, state, crossing, delay, rows, ways)
        } else {
            Ok(Some(false))
        }
    }

    /// Takes links from a crossing that is reached in a state so long after the departure, as `visit_all` does.
    fn visit(
        &self,
        alloc: Global,
        state: u32,
        crossing: u32,
        delay: u32,
        rows: &mut Vec<Vec<u32>>,
        ways: &mut Vec<Way>,
    ) -> Result<Option<bool>, AllocError>
        requires state { state < (L.automaton self.now.machine.now.labels).states }
        requires crossing { crossing < length self.now.rounds.now.crossings.items }
        requires delay { delay < never }
        requires is { AreRounds self.now.rounds.now }
        requires early { self.now.dep < 2 ^ 64 }
        requires crossings { AreCrossingsReached (asked_of self.now) rows.old.items }
        requires here { cell rows.old.items state crossing ≡ delay }
        ensures taken { IfOk result (λ done. IfSome done (AreCrossedOn (asked_of self.now) rows.old.items
            rows.new.items)) }
        ensures visited { IfOk result (λ done. IfSome done (λ _. IsVisited (asked_of self.now) rows.new.items state
            crossing delay)) }
    {
        let Some(node) = self.number_of(crossing) else {
            return Ok(None);
        };
        let visit = Visit {
            node,
            at: self.dep + Time::from(delay),
            state,
            letters: self.roads_of(state),
            leaving: self.machine.leaving(state),
        };
        let graph = &self.rounds.graph;
        if !graph.may_have_fresh(node, visit.letters, visit.leaving) {
            return Ok(Some(false));
        }
        ways.clear();
        // No rides are asked for, so no runs are given.
        let mut given = GivenRuns::new(alloc);
        graph.fresh_ways(visit, &mut given, ways)?;
        Ok(self.take_ways(state, ways, rows))
    }

    /// The road letters of the moves that leave a state, as bits.
    fn roads_of(&self, state: u32) -> u32
        requires { state < (L.automaton self.now.machine.now.labels).states }
        ensures { (c r : ℕ) → c < 3 → HasMove (L.automaton self.now.machine.now.labels) state c r
            → IsBitSet result c }
    {
        self.machine.letters_of(state) & ROADS
    }

    /// Takes these ways in a state. Whether a crossing is reached sooner by that; if all of them lead to crossings, and all fits.
    fn take_ways(&self, state: u32, ways: &[Way], rows: &mut Vec<Vec<u32>>) -> Option<bool>
        requires state { state < (L.automaton self.now.machine.now.labels).states }
        requires letters { All (λ way. IfSome way.arc.letter IsLetter) ways.now }
        requires reached { All (WayReaches (asked_of self.now) state) ways.now }
        requires crossings { AreCrossingsReached (asked_of self.now) rows.old.items }
        ensures taken { IfSome result (AreCrossedOn (asked_of self.now) rows.old.items rows.new.items) }
        ensures crossed { IfSome result (λ _. All (WayIsCrossed (asked_of self.now) rows.new.items state) ways.now) }
    {
        let mut changed = false;
        for way in ways {
            changed |= self.take(state, *way, rows)?;
        }
        Some(changed)
    }

    /// The same of one way.
    fn take(&self, state: u32, way: Way, rows: &mut Vec<Vec<u32>>) -> Option<bool>
        requires state { state < (L.automaton self.now.machine.now.labels).states }
        requires letter { IfSome way.arc.letter IsLetter }
        requires reached { WayReaches (asked_of self.now) state way }
        requires crossings { AreCrossingsReached (asked_of self.now) rows.old.items }
        ensures taken { IfSome result (AreCrossedOn (asked_of self.now) rows.old.items rows.new.items) }
        ensures crossed { IfSome result (λ _. WayIsCrossed (asked_of self.now) rows.new.items state way) }
    {
        let crossing = self.crossing_of(way.arc.to)?;
        let delay = delay_of(way.at, self.dep)?;
        match way.arc.letter {
            None => Some(lower(rows, state, crossing, delay)),
            Some(letter) => {
                let states = self.machine.targets_of(state, letter);
                Some(lower_each(rows, states, crossing, delay))
            }
        }
    }

    /// The number of a crossing in the graph, if it has one.
    fn number_of(&self, crossing: u32) -> Option<u32>
        requires { crossing < length self.now.rounds.now.crossings.items }
        ensures is { IfSome result (λ node. node ≡ crossing_node (asked_of self.now) crossing) }
        ensures node { IfSome result (λ node. node < (meaning_in_use self.now.rounds.now.graph).nodes) }
    {
        let node = self.rounds.crossings[crossing as usize].checked_mul(2)?;
        if node < self.rounds.graph.nodes() {
            Some(node)
        } else {
            None
        }
    }

    /// The crossing that has this number in the graph, if one has.
    fn crossing_of(&self, number: u32) -> Option<u32>
        ensures within { IfSome result (λ crossing. crossing < length self.now.rounds.now.crossings.items) }
        ensures is { IfSome result (λ crossing. number ≡ crossing_node (asked_of self.now) crossing) }
    {
        if number % 2 == 1 {
            return None;
        }
        let places = Places {
            nodes: &self.rounds.crossings,
            of: &self.rounds.crossing_places,
        };
        places.place_of(number / 2)
    }
}

/// Makes the delays at a place of some rows no longer than this. Whether one of them was longer.
#[inline(always)]
pub(crate) fn lower_each(rows: &mut Vec<Vec<u32>>, states: &[u32], place: u32, delay: u32) -> bool
    requires { All (λ q. (q < length rows.old.items) × (place < length (row_of rows.old.items q))) states.now }
    ensures lowered { AreLowered (λ k i t. Contains states.now k × (i ≡ place) × (t ≡ delay)) rows.old.items
        rows.new.items }
    ensures here { All (λ q. cell rows.new.items q place ≤ delay) states.now }
    ensures same { result ≡ false → rows.new.items ≡ rows.old.items }
{
    let mut changed = false;
    for state in states {
        changed |= lower(rows, *state, place, delay);
    }
    changed
}
