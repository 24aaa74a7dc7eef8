//! The moves of the states of an automaton, by their letters.

ghost use Rattle.std.specs.Prelude.{◌≡◌, [], ◌+◌, ◌<◌, ◌≤◌, ◌++◌, ◌∷◌, ℕ, length, IfOk, OnOk, IsBitSet};
ghost use Rattle.search_laws.specs.Letters.{IsLetterSet, letter_count};
ghost use Rattle.search_laws.specs.LabelLaws.{LabelsMeaning};
ghost use Rattle.product_search.specs.inside.MoveTables.{AreMoves, AreMovesBelow, AreTargetsWith, HasLetters, IsTableOf};

use search_laws::{LETTERS, Labels, Move};
use std::alloc::{AllocError, Global};
use std::marker::Model;

/// The states that moves by one letter lead to. A contract sees them as a list.
#[derive(Drop)]
pub(crate) struct Targets {
    states: Vec<u32>,
}

impl Model for Targets {
    ghost use Rattle.std.specs.Prelude.{List, ℕ};

    ghost Value = { List ℕ };

    ghost view = { λ targets. targets.states.items };
}

impl Targets {
    fn none(alloc: Global) -> Targets
        ensures { result ≡ [] }
    {
        Targets {
            states: Vec::new(alloc),
        }
    }

    fn push(&mut self, state: u32) -> Result<(), AllocError>
        ensures { OnOk result (self.new ≡ self.old ++ state ∷ []) }
    {
        self.states.push(state)?;
        Ok(())
    }

    pub fn as_slice(&self) -> &[u32]
        ensures { result.now ≡ self.now }
    {
        &self.states
    }
}

/// The moves that leave a state, by their letters.
#[derive(Drop)]
pub(crate) struct StateMoves {
    /// The letters of its moves, as bits.
    pub letters: u32,
    /// The letters of its moves that lead to another state, as bits.
    pub leaving: u32,
    /// For each letter, where its moves lead to.
    pub targets: Vec<Targets>,
}

impl StateMoves {
    /// None yet, with room for each letter.
    fn none(alloc: Global) -> Result<StateMoves, AllocError>
        ensures { IfOk result (λ none. (l : LabelsMeaning) (q : ℕ) → AreMovesBelow l q 0 none) }
    {
        let mut targets = Vec::with_capacity(alloc, LETTERS as usize)?;
        for letter in 0..LETTERS {
            targets.push(Targets::none(alloc))?;
        }
        Ok(StateMoves {
            letters: 0,
            leaving: 0,
            targets,
        })
    }

    /// Adds the move at a place of a state to those before it.
    fn add<L: Labels>(&mut self, labels: &L, state: u32, place: u32) -> Result<(), AllocError>
        requires state { state < (L.automaton labels.now).states }
        requires place { place < (L.automaton labels.now).moves state }
        requires before { AreMovesBelow (L.automaton labels.now) state place self.old }
        ensures { OnOk result (AreMovesBelow (L.automaton labels.now) state (place + 1) self.new) }
    {
        let step = labels.move_at(state, place);
        self.letters |= step.letters;
        self.leaving |= letters_leaving(step, state);
        add_target(&mut self.targets, step)?;
        Ok(())
    }
}

/// The letters of a move, if it leads from the state to another one.
fn letters_leaving(step: Move, state: u32) -> u32
    ensures { (step.to ≡ state → ⊥) → result ≡ step.letters }
{
    if step.to == state { 0 } else { step.letters }
}

/// Adds where a move leads to to the list of each of its letters.
fn add_target(targets: &mut Vec<Targets>, step: Move) -> Result<(), AllocError>
    requires letters { IsLetterSet step.letters }
    requires one_each { length targets.old.items ≡ letter_count }
    ensures { OnOk result (AreTargetsWith step letter_count targets.old.items targets.new.items) }
{
    for letter in 0..letters_end(step.letters) {
        if step.has_letter(letter as u8) {
            targets[letter as usize].push(step.to)?;
        }
    }
    Ok(())
}

/// The letter behind the last one of a set.
fn letters_end(letters: u32) -> u32
    requires { IsLetterSet letters }
    ensures few { result ≤ letter_count }
    ensures end { (c : ℕ) → IsBitSet letters c → c < result }
{
    u32::BITS - letters.leading_zeros()
}

/// The moves that leave a state.
fn moves_of<L: Labels>(alloc: Global, labels: &L, state: u32) -> Result<StateMoves, AllocError>
    requires { state < (L.automaton labels.now).states }
    ensures { IfOk result (AreMoves (L.automaton labels.now) state) }
{
    let mut moves = StateMoves::none(alloc)?;
    for place in 0..labels.moves(state) {
        moves.add(labels, state, place)?;
    }
    Ok(moves)
}

/// The moves that leave each state.
pub(crate) fn move_table<L: Labels>(
    alloc: Global,
    labels: &L,
) -> Result<Vec<StateMoves>, AllocError>
    ensures { IfOk result (λ table. IsTableOf (L.automaton labels.now) table.items) }
{
    let mut table = Vec::with_capacity(alloc, labels.states() as usize)?;
    for state in 0..labels.states() {
        table.push(moves_of(alloc, labels, state)?)?;
    }
    Ok(table)
}

/// The letters by which moves leave a state, as bits.
pub(crate) fn letters_after<L: Labels>(labels: &L, state: u32) -> u32
    requires { state < (L.automaton labels.now).states }
    ensures { HasLetters (L.automaton labels.now) state result }
{
    let mut letters = 0;
    for j in 0..labels.moves(state) {
        letters |= labels.move_at(state, j).letters;
    }
    letters
}
