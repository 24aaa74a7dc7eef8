//! What makes automata that read words from their ends.

use crate::reversed::Reversed;
use automaton::{Collapsed, Positions};
use kept_automata::Maker;
use mode_expression::Expr;
use product_search::Machine;
use std::alloc::{AllocError, Global};

/// Makes the automaton that reads the words of an expression from their ends, and adjacent equal road letters as one.
#[derive(Clone, Copy, Debug, PartialEq, Eq)]
pub struct Backward;

/// The automaton that reads the words of an expression from their ends, beside the one of the expression's positions, which it is
/// the reverse of.
#[derive(Drop)]
pub struct BackwardMachine {
    pub positions: Positions,
    pub machine: Machine<Collapsed<Reversed>>,
}

impl Maker for Backward {
    ghost use Rattle.automaton.specs.Meanings.{position_meaning};
    ghost use Rattle.latest_departure.specs.Meanings.{reversed_meaning};
    ghost use Rattle.latest_departure.specs.Backward.{IsReversedFor};
    ghost use Rattle.latest_departure.specs.BackwardLaws.{known_reversed};

    type Made = BackwardMachine;

    ghost is_made = { λ _ form made. IsReversedFor form (position_meaning made.positions)
        (reversed_meaning made.machine.labels.inner) };

    fn is_same(&self, _other: &Backward) -> bool {
        true
    }

    fn make(&self, alloc: Global, expr: &Expr) -> Result<BackwardMachine, AllocError> {
        let positions = Positions::of(alloc, expr)?;
        let labels = Collapsed::new(Reversed::of(alloc, &positions)?);
        let machine = Machine::new(alloc, labels)?;
        Ok(BackwardMachine { positions, machine })
    }

    ghost known = { λ _ form made. known_reversed form (position_meaning made.positions)
        (reversed_meaning made.machine.labels.inner) };
}
