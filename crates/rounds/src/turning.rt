//! The states in which one walks all over a layer.

use crate::asked::Asked;
use crate::rounds::ROAD_LETTERS;
use search_laws::{Labels, RoadLabels};
use std::alloc::{AllocError, Global};

/// A state in which a road letter can be read again and again, and the states from which a move by that letter leads to it.
#[derive(Drop)]
pub(crate) struct Turn {
    pub letter: u8,
    pub state: u32,
    pub sources: Vec<u32>,
}

impl<L: RoadLabels> Asked<'_, L> {
    ghost use Rattle.std.specs.Prelude.{◌<◌, ◌↔◌, ℕ, All, Contains, IfOk, IsTrue};
    ghost use Rattle.search_laws.specs.{HasMove};
    ghost use Rattle.rounds.specs.inside.{AreTurns};

    /// The turns of all moves by road letters.
    pub(crate) fn turns(&self, alloc: Global) -> Result<Vec<Turn>, AllocError>
        ensures { IfOk result (λ turns. AreTurns (L.automaton self.now.machine.now.labels) turns.items) }
    {
        let mut turns = Vec::new(alloc);
        for state in 0..self.machine.labels.states() {
            for letter in 0..ROAD_LETTERS {
                if self.leads(state, letter, state) {
                    let sources = self.sources(alloc, letter, state)?;
                    turns.push(Turn {
                        letter,
                        state,
                        sources,
                    })?;
                }
            }
        }
        Ok(turns)
    }

    /// The states from which a move by a road letter leads to this one.
    fn sources(&self, alloc: Global, letter: u8, state: u32) -> Result<Vec<u32>, AllocError>
        requires letter { letter < 3 }
        ensures are { IfOk result (λ sources. All (λ q. (q < (L.automaton self.now.machine.now.labels).states)
            × HasMove (L.automaton self.now.machine.now.labels) q letter state) sources.items) }
        ensures all { IfOk result (λ sources. (q : ℕ) → q < (L.automaton self.now.machine.now.labels).states
            → HasMove (L.automaton self.now.machine.now.labels) q letter state → Contains sources.items q) }
    {
        let mut sources = Vec::new(alloc);
        for source in 0..self.machine.labels.states() {
            if self.leads(source, letter, state) {
                sources.push(source)?;
            }
        }
        Ok(sources)
    }

    /// Whether a move by a road letter leads from one state to another.
    fn leads(&self, from: u32, letter: u8, to: u32) -> bool
        requires state { from < (L.automaton self.now.machine.now.labels).states }
        requires letter { letter < 3 }
        ensures { IsTrue result ↔ HasMove (L.automaton self.now.machine.now.labels) from letter to }
    {
        self.machine.targets_of(from, letter).contains(&to)
    }
}
