//! Walks all over the layers.

ghost use Rattle.std.specs.Prelude.{◌≡◌, ◌<◌, ◌≤◌, ℕ, All, false, length};
ghost use Rattle.sweeps.specs.Sweeps.{time_at};
ghost use Rattle.rounds.specs.inside.{row_of, cell, AreLowered, IsRowLowered, IsTakenIn, IsFedBy, IsGivenBack};

use crate::asked::{Asked, Reached};
use crate::core_layer::Gate;
use crate::delays::{NEVER, lower, lower_in};
use crate::turning::Turn;
use search_laws::RoadLabels;

impl<L: RoadLabels> Asked<'_, L> {
    ghost use Rattle.std.specs.Prelude.{◌≡◌, ◌⊎◌, ℕ, false, length};
    ghost use Rattle.rounds.specs.Rounds.{AreRounds};
    ghost use Rattle.rounds.specs.inside.{asked_of, IsLayerOf, IsTurn, AreTurns, AreWalksReached, AreWalksClosed, AreWalkedBelow, AreCrossingsReached, IsWalkOf, IsWalked, AreLowered, IsRowLowered};
    ghost use Rattle.rounds.specs.Layers.{CoreLayer};

    /// Walks on from the crossings all over the layers, in each turn, and to the crossings again. Whether a crossing is reached sooner.
    pub(crate) fn walk_all(&self, turns: &[Turn], reached: &mut Reached) -> bool
        requires is { AreRounds self.now.rounds.now }
        requires turns { AreTurns (L.automaton self.now.machine.now.labels) turns.now }
        requires walks { AreWalksReached (asked_of self.now) turns.now reached.old.walks.items }
        requires closed { AreWalksClosed (asked_of self.now) turns.now reached.old.walks.items }
        requires crossings { AreCrossingsReached (asked_of self.now) reached.old.crossings.items }
        ensures walks { AreWalksReached (asked_of self.now) turns.now reached.new.walks.items }
        ensures closed { AreWalksClosed (asked_of self.now) turns.now reached.new.walks.items }
        ensures crossings { AreCrossingsReached (asked_of self.now) reached.new.crossings.items }
        ensures walks_lowered { AreLowered (λ _ _ _. Unit {0}) reached.old.walks.items reached.new.walks.items }
        ensures lowered { AreLowered (λ _ _ _. Unit {0}) reached.old.crossings.items reached.new.crossings.items }
        ensures same { result ≡ false → reached.new.crossings.items ≡ reached.old.crossings.items }
        ensures walked { result ≡ false → AreWalkedBelow (asked_of self.now) turns.now reached.new.walks.items
            reached.new.crossings.items (length turns.now) }
    {
        let mut sooner = false;
        for k in 0..turns.len() {
            if self.walk_on(&turns[k], &mut reached.walks[k], &mut reached.crossings) {
                sooner = true;
            }
        }
        sooner
    }

    /// Walks on in a turn. Whether a crossing is reached sooner.
    fn walk_on(&self, turn: &Turn, walk: &mut [u32], crossings: &mut Vec<Vec<u32>>) -> bool
        requires is { AreRounds self.now.rounds.now }
        requires turn { IsTurn (L.automaton self.now.machine.now.labels) turn.now }
        requires walk { IsWalkOf (asked_of self.now) turn.now walk.old }
        requires crossings { AreCrossingsReached (asked_of self.now) crossings.old.items }
        ensures walk { IsWalkOf (asked_of self.now) turn.now walk.new }
        ensures walk_lowered { IsRowLowered (λ _ _. Unit {0}) walk.old walk.new }
        ensures crossings { AreCrossingsReached (asked_of self.now) crossings.new.items }
        ensures lowered { AreLowered (λ _ _ _. Unit {0}) crossings.old.items crossings.new.items }
        ensures same { result ≡ false → crossings.new.items ≡ crossings.old.items }
        ensures walked { result ≡ false → (layer : CoreLayer) → IsLayerOf (asked_of self.now) turn.now.letter layer
            → IsWalked turn.now layer walk.new crossings.new.items }
    {
        self.rounds.network.known();
        self.rounds.hierarchy.known();
        let layer = &self.rounds.layers[turn.letter as usize];
        if feed(turn, &layer.gates, crossings, walk) {
            layer.sheet.sweep(walk, NEVER);
        }
        give_back(turn.state, &layer.gates, walk, crossings)
    }
}

/// Makes a walk no later at gates than crossings are in the sources of its turn. Whether it was later at one of them.
fn feed(turn: &Turn, gates: &[Gate], crossings: &[Vec<u32>], walk: &mut [u32]) -> bool
    requires sources { All (λ q. q < length crossings.now) turn.now.sources.items }
    requires crossings { (q : ℕ) → q < length crossings.now
        → All (λ gate. gate.crossing < length (row_of crossings.now q)) gates.now }
    requires places { All (λ gate. gate.place < length walk.old) gates.now }
    ensures lowered { IsRowLowered (IsFedBy turn.now gates.now crossings.now) walk.old walk.new }
    ensures fed { All (λ q. All (λ gate. time_at walk.new gate.place ≤ cell crossings.now q gate.crossing)
        gates.now) turn.now.sources.items }
    ensures same { result ≡ false → walk.new ≡ walk.old }
{
    let mut sooner = false;
    for source in &turn.sources {
        if take_in(gates, &crossings[*source as usize], walk) {
            sooner = true;
        }
    }
    sooner
}

/// Makes a walk no later at gates than the crossings. Whether it was later at one of them.
fn take_in(gates: &[Gate], from: &[u32], walk: &mut [u32]) -> bool
    requires crossings { All (λ gate. gate.crossing < length from.now) gates.now }
    requires places { All (λ gate. gate.place < length walk.old) gates.now }
    ensures lowered { IsRowLowered (IsTakenIn gates.now from.now) walk.old walk.new }
    ensures fed { All (λ gate. time_at walk.new gate.place ≤ time_at from.now gate.crossing) gates.now }
    ensures same { result ≡ false → walk.new ≡ walk.old }
{
    let mut sooner = false;
    for gate in gates {
        if lower_in(walk, gate.place as usize, from[gate.crossing as usize]) {
            sooner = true;
        }
    }
    sooner
}

/// Makes crossings no later at gates than a walk, in the state of that. Whether one of them was later.
fn give_back(state: u32, gates: &[Gate], walk: &[u32], crossings: &mut Vec<Vec<u32>>) -> bool
    requires state { state < length crossings.old.items }
    requires crossings { All (λ gate. gate.crossing < length (row_of crossings.old.items state)) gates.now }
    requires places { All (λ gate. gate.place < length walk.now) gates.now }
    ensures lowered { AreLowered (IsGivenBack state gates.now walk.now) crossings.old.items crossings.new.items }
    ensures returned { All (λ gate. cell crossings.new.items state gate.crossing ≤ time_at walk.now gate.place)
        gates.now }
    ensures same { result ≡ false → crossings.new.items ≡ crossings.old.items }
{
    let mut sooner = false;
    for gate in gates {
        if lower(crossings, state, gate.crossing, walk[gate.place as usize]) {
            sooner = true;
        }
    }
    sooner
}
