//! Automata that read words from their ends.

ghost use Rattle.std.specs.Prelude.{◌≡◌, ℕ, ◌<◌, ◌≤◌, ◌^◌, ◌++◌, map, IfOk, OnOk};
ghost use Rattle.std.specs.List.{range_with_len};
ghost use Rattle.search_laws.specs.LabelLaws.{IsLawfulLabels};
ghost use Rattle.latest_departure.specs.Reversed.{IsReversed, AcceptsReversed, all_moves, turned_move, turned_from, turned_below, turned_state, states_meaning};
ghost use Rattle.latest_departure.specs.StateViews.{view_of};

use search_laws::{Labels, Move};
use std::alloc::{AllocError, Global};

/// A state of a reversed automaton.
#[derive(Drop)]
pub struct State {
    pub moves: Vec<Move>,
    pub starts: bool,
    pub accepts: bool,
}

/// An automaton that accepts exactly the reverses of the words that another accepts.
///
/// It keeps the numbers of the states. It starts where the other accepts, accepts where the other starts, and each
/// move goes the other way.
#[derive(Drop)]
pub struct Reversed {
    states: Vec<State>,
    ghost lawful: { IsLawfulLabels (states_meaning (map view_of states.items)) },
}

/// Appends a move of the state `q`, turned round, if it leads to `r`.
fn push_if(moves: &mut Vec<Move>, step: Move, q: u32, r: u32) -> Result<(), AllocError>
    ensures { OnOk result (moves.new.items ≡ moves.old.items ++ turned_move r q step) }
{
    if step.to == r {
        moves.push(Move {
            letters: step.letters,
            to: q,
        })?;
    }
    Ok(())
}

/// Appends the moves of the state `q` that lead to `r`, turned round.
fn push_turned<L: Labels>(
    inner: &L,
    q: u32,
    r: u32,
    moves: &mut Vec<Move>,
) -> Result<(), AllocError>
    requires { q < (L.automaton inner.now).states }
    ensures { OnOk result (moves.new.items ≡ moves.old.items ++ turned_from (L.automaton inner.now) r q
        ((L.automaton inner.now).moves q)) }
{
    for i in 0..inner.moves(q) {
        push_if(moves, inner.move_at(q, i), q, r)?;
    }
    Ok(())
}

/// The moves that lead to the state `r`, turned round.
fn turned_below<L: Labels>(alloc: Global, inner: &L, r: u32) -> Result<Vec<Move>, AllocError>
    ensures { IfOk result (λ moves. moves.items ≡ turned_below (L.automaton inner.now) r
        (L.automaton inner.now).states) }
{
    let mut moves = Vec::new(alloc);
    for q in 0..inner.states() {
        push_turned(inner, q, r, &mut moves)?;
    }
    Ok(moves)
}

/// The state that stands for `r`.
fn turned_state<L: Labels>(alloc: Global, inner: &L, r: u32) -> Result<State, AllocError>
    requires { r < (L.automaton inner.now).states }
    ensures { IfOk result (λ state. view_of state ≡ turned_state (L.automaton inner.now) r) }
{
    let moves = turned_below(alloc, inner, r)?;
    Ok(State {
        moves,
        starts: inner.accepts(r),
        accepts: inner.is_start(r),
    })
}

/// The states that stand for those of an automaton, in order.
fn turned_states<L: Labels>(alloc: Global, inner: &L) -> Result<Vec<State>, AllocError>
    ensures { IfOk result (λ states. map view_of states.items ≡ map (turned_state (L.automaton inner.now))
        (range_with_len 0 (L.automaton inner.now).states)) }
{
    let mut states = Vec::new(alloc);
    for r in 0..inner.states() {
        states.push(turned_state(alloc, inner, r)?)?;
    }
    Ok(states)
}

impl Reversed {
    ghost use Rattle.std.specs.Prelude.{◌≡◌, ◌≤◌, ◌<◌, ◌^◌, ℕ, IfOk};
    ghost use Rattle.latest_departure.specs.Meanings.{reversed_meaning};

    /// The automaton that accepts exactly the reverses of the words that another accepts. Fails where memory runs out.
    pub fn of<L: Labels>(alloc: Global, inner: &L) -> Result<Reversed, AllocError>
        requires { all_moves (L.automaton inner.now) ≤ 2 ^ 16 }
        ensures reversed { IfOk result (λ labels. IsReversed (L.automaton inner.now)
            (reversed_meaning labels)) }
        ensures accepts { IfOk result (λ labels. AcceptsReversed (L.automaton inner.now)
            (reversed_meaning labels)) }
        ensures few_moves { IfOk result (λ labels. (q : ℕ) → q < (L.automaton inner.now).states
            → (reversed_meaning labels).moves q ≤ 2 ^ 16) }
    {
        let states = turned_states(alloc, inner)?;
        Ok(Reversed { states })
    }
}

impl Labels for Reversed {
    ghost use Rattle.latest_departure.specs.Meanings.{reversed_meaning};

    ghost automaton = { λ labels. reversed_meaning labels };

    ghost lawful = { λ labels. labels.lawful };

    fn states(&self) -> u32 {
        self.states.len() as u32
    }

    fn is_start(&self, q: u32) -> bool {
        self.states[q as usize].starts
    }

    fn moves(&self, q: u32) -> u32 {
        self.states[q as usize].moves.len() as u32
    }

    fn move_at(&self, q: u32, i: u32) -> Move {
        self.states[q as usize].moves[i as usize]
    }

    fn accepts(&self, q: u32) -> bool {
        self.states[q as usize].accepts
    }
}
