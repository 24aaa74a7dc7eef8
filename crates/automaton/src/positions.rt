ghost use Rattle.std.specs.Prelude.{ℕ, ◌≤◌, ◌↔◌, List, map, IfOk};
ghost use Rattle.mode_expression.specs.Form.{form_of, IsUsable, Denotes};
ghost use Rattle.search_laws.specs.LabelLaws.{IsLawfulLabels, Accepts};
ghost use Rattle.automaton.specs.States.{meaning_of_states, view_of, IsPositionAutomaton};
ghost use Rattle.automaton.specs.Written.{written};

use crate::builder::Builder;
use crate::position_set::PositionSet;
use crate::state::{State, make_states};
use mode_expression::Expr;
use search_laws::{Labels, Move};
use std::alloc::{AllocError, Global};

/// The position automaton of an expression that is written out (Glushkov; McNaughton and Yamada).
///
/// State 0 is the start. The places of letters are numbered 1, 2, .. from left to right, and state p is
/// "position p was read last".
#[derive(Drop)]
pub struct Positions {
    states: Vec<State>,
    ghost lawful: { IsLawfulLabels (meaning_of_states (map view_of states.items)) },
}

impl Positions {
    ghost use Rattle.automaton.specs.Meanings.{position_meaning};

    /// The automaton that accepts exactly the words which the expression denotes.
    ///
    /// The time is at most the square of the number of positions, times the depth of the expression.
    ///
    /// # Errors
    ///
    /// Where memory is refused.
    pub fn of(alloc: Global, expr: &Expr) -> Result<Positions, AllocError>
        requires { IsUsable (form_of expr.now) }
        ensures states { IfOk result (λ positions.
            IsPositionAutomaton (written (form_of expr.now)) (position_meaning positions)) }
        ensures accepts { IfOk result (λ positions. (word : List ℕ)
            → Accepts (position_meaning positions) word ↔ Denotes expr.now word) }
        ensures few_states { IfOk result (λ positions. (position_meaning positions).states ≤ 201) }
        ensures few_moves { IfOk result (λ positions. (q : ℕ) → (position_meaning positions).moves q ≤ 200) }
    {
        let mut builder = Builder::new(alloc, expr.places() as u8);
        let first = builder.add(expr, PositionSet::just(0))?;
        let drafts = builder.into_drafts();
        let states = make_states(alloc, &drafts, first)?;
        Ok(Positions { states })
    }
}

impl Labels for Positions {
    ghost use Rattle.automaton.specs.Meanings.{position_meaning};

    ghost automaton = { λ positions. position_meaning positions };

    ghost lawful = { λ positions. positions.lawful };

    fn states(&self) -> u32 {
        self.states.len() as u32
    }

    fn is_start(&self, q: u32) -> bool {
        q == 0
    }

    fn moves(&self, q: u32) -> u32 {
        self.states[q as usize].moves.len() as u32
    }

    fn move_at(&self, q: u32, i: u32) -> Move {
        self.states[q as usize].moves[i as usize]
    }

    fn accepts(&self, q: u32) -> bool {
        self.states[q as usize].accepts
    }
}
