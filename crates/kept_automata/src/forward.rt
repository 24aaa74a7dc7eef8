//! Automata that read words from their beginning.

use crate::maker::Maker;
use automaton::{Collapsed, Positions};
use mode_expression::Expr;
use product_search::Machine;
use std::alloc::{AllocError, Global};

/// Makes the automaton that reads the words of an expression from their beginning, and adjacent equal road letters as one.
#[derive(Clone, Copy, Debug, PartialEq, Eq)]
pub struct Forward;

impl Maker for Forward {
    ghost use Rattle.automaton.specs.Meanings.{position_meaning};
    ghost use Rattle.automaton.specs.Written.{written};
    ghost use Rattle.automaton.specs.States.{IsPositionAutomaton};
    ghost use Rattle.kept_automata.specs.KnownLaws.{known_positions};

    type Made = Machine<Collapsed<Positions>>;

    ghost is_made = { λ _ form machine. IsPositionAutomaton (written form)
        (position_meaning machine.labels.inner) };

    fn is_same(&self, _other: &Forward) -> bool {
        true
    }

    fn make(
        &self,
        alloc: Global,
        expr: &Expr,
    ) -> Result<Machine<Collapsed<Positions>>, AllocError> {
        let labels = Collapsed::new(Positions::of(alloc, expr)?);
        Machine::new(alloc, labels)
    }

    ghost known = { λ _ form machine. known_positions (written form)
        (position_meaning machine.labels.inner) };
}
