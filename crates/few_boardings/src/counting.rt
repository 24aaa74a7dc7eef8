//! What makes automata that count transit letters.

use crate::counted::{Counted, Side};
use automaton::{Collapsed, Positions};
use kept_automata::Maker;
use mode_expression::Expr;
use product_search::Machine;
use std::alloc::{AllocError, Global};

/// Makes the automaton that reads the words of an expression that have at most, or at least, `limit` rides, and adjacent equal
/// road letters as one. The limit is at most 8.
#[derive(Clone, Copy, Debug, PartialEq, Eq)]
pub struct Counting {
    pub side: Side,
    pub limit: u8,
}

impl Maker for Counting {
    ghost use Rattle.std.specs.Prelude.{◌≤◌};
    ghost use Rattle.automaton.specs.Meanings.{position_meaning};
    ghost use Rattle.few_boardings.specs.Counting.{IsCountingFor};
    ghost use Rattle.few_boardings.specs.CountingLaws.{known_counting};

    type Made = Machine<Counted<Collapsed<Positions>>>;

    ghost can_make = { λ maker. maker.limit ≤ 8 };

    ghost is_made = { λ maker form machine. IsCountingFor form maker.side maker.limit
        (position_meaning machine.labels.inner.inner) machine.labels.side machine.labels.limit };

    fn is_same(&self, other: &Counting) -> bool {
        self.side == other.side && self.limit == other.limit
    }

    fn make(
        &self,
        alloc: Global,
        expr: &Expr,
    ) -> Result<Machine<Counted<Collapsed<Positions>>>, AllocError> {
        let collapsed = Collapsed::new(Positions::of(alloc, expr)?);
        let labels = Counted::new(collapsed, self.side, self.limit);
        Machine::new(alloc, labels)
    }

    ghost known = { λ maker form machine. known_counting form maker.side maker.limit
        (position_meaning machine.labels.inner.inner) machine.labels.side machine.labels.limit };
}
