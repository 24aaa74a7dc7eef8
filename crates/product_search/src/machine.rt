//! An automaton as searches go through it.

ghost use Rattle.std.specs.Prelude.{◌≡◌, ◌<◌, IfOk};
ghost use Rattle.product_search.specs.inside.MoveTables.{IsTableOf};

use crate::moves::{StateMoves, move_table};
use search_laws::Labels;
use std::alloc::{AllocError, Global};

/// An automaton with the table of its moves by state and letter, which is made once for many searches.
#[derive(Drop)]
pub struct Machine<L: Labels> {
    pub labels: L,
    pub(crate) moves: Vec<StateMoves>,
    ghost tabled: { IsTableOf (L.automaton labels) moves.items },
}

impl<L: Labels + Drop> Machine<L> {
    /// The machine of an automaton. Fails where memory runs out.
    pub fn new(alloc: Global, labels: L) -> Result<Machine<L>, AllocError>
        ensures { IfOk result (λ machine. machine.labels ≡ labels) }
    {
        let moves = move_table(alloc, &labels)?;
        Ok(Machine { labels, moves })
    }
}

impl<L: Labels> Machine<L> {
    ghost use Rattle.search_laws.specs.Letters.{IsLetter};
    ghost use Rattle.product_search.specs.inside.MoveTables.{AreTargets, HasLeaving, HasLetters};

    /// The letters of the moves that leave a state, as bits.
    pub fn letters_of(&self, state: u32) -> u32
        requires { state < (L.automaton self.now.labels).states }
        ensures { HasLetters (L.automaton self.now.labels) state result }
    {
        self.moves[state as usize].letters
    }

    /// The letters of the moves that lead from a state to another one, as bits.
    pub fn leaving(&self, state: u32) -> u32
        requires { state < (L.automaton self.now.labels).states }
        ensures { HasLeaving (L.automaton self.now.labels) state result }
    {
        self.moves[state as usize].leaving
    }

    /// The states that the moves by a letter lead to from a state.
    pub fn targets_of(&self, state: u32, letter: u8) -> &[u32]
        requires state { state < (L.automaton self.now.labels).states }
        requires letter { IsLetter letter }
        ensures { AreTargets (L.automaton self.now.labels) state letter result.now }
    {
        self.moves[state as usize].targets[letter as usize].as_slice()
    }
}
