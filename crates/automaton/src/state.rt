ghost use Rattle.std.specs.Prelude.{◌≡◌, ◌≤◌, map, length, IfOk};
ghost use Rattle.automaton.specs.inside.Builds.{draft_row};
ghost use Rattle.automaton.specs.inside.Sets.{has};
ghost use Rattle.automaton.specs.States.{moves_upto, state_for, states_for, view_of};

use crate::builder::Draft;
use crate::position_set::PositionSet;
use search_laws::Move;
use std::alloc::{AllocError, Global};

/// A state of an automaton.
#[derive(Drop)]
pub struct State {
    pub moves: Vec<Move>,
    pub accepts: bool,
}

/// The moves to the positions of a set.
fn make_moves(alloc: Global, drafts: &[Draft], next: PositionSet) -> Result<Vec<Move>, AllocError>
    requires { length drafts.now ≤ 200 }
    ensures { IfOk result (λ moves.
        moves.items ≡ moves_upto (map draft_row drafts.now) (has next) (length drafts.now)) }
{
    let mut moves = Vec::new(alloc);
    for (index, draft) in drafts.iter().enumerate() {
        let to = index + 1;
        if next.contains(to as u8) {
            moves.push(Move {
                letters: draft.letters,
                to: to as u32,
            })?;
        }
    }
    Ok(moves)
}

fn make_state(alloc: Global, drafts: &[Draft], next: PositionSet) -> Result<State, AllocError>
    requires { length drafts.now ≤ 200 }
    ensures { IfOk result (λ state. view_of state ≡ state_for (map draft_row drafts.now) (has next)) }
{
    let moves = make_moves(alloc, drafts, next)?;
    Ok(State {
        moves,
        accepts: next.contains(0),
    })
}

/// The states of the positions, after the start in which `first` may be read.
pub fn make_states(
    alloc: Global,
    drafts: &[Draft],
    first: PositionSet,
) -> Result<Vec<State>, AllocError>
    requires { length drafts.now ≤ 200 }
    ensures { IfOk result (λ states.
        map view_of states.items ≡ states_for (map draft_row drafts.now) (has first)) }
{
    let mut states = Vec::new(alloc);
    states.push(make_state(alloc, drafts, first)?)?;
    for draft in drafts {
        states.push(make_state(alloc, drafts, draft.next)?)?;
    }
    Ok(states)
}
