//! The states of an automaton that the letters of a journey are read to.

ghost use Rattle.std.specs.Prelude.{◌≡◌, ℕ, ◌<◌, ◌↔◌, ◌++◌, ◌∷◌, [], List, length, slice_index_or, All, IfOk, IsTrue, IsBitSet};
ghost use Rattle.search_laws.specs.Letters.{IsLetterSet};
ghost use Rattle.search_laws.specs.LabelLaws.{HasMove, Accepts};
ghost use Rattle.certificate.specs.StateSets.{IsInSet, AreAdded, HasMoveFrom, AreAfter, AreKnown, IsKept};

use search_laws::{LETTERS, Labels, Move};
use std::alloc::{AllocError, Global};
use std::mem::swap;

/// A step that was looked up: its letter leads the states of the one set to exactly those of the other.
#[derive(Drop)]
pub struct KnownStep {
    pub before: Vec<bool>,
    pub after: Vec<bool>,
}

/// The states of an automaton that the letters so far are read to, and room for those after one letter more.
#[derive(Drop)]
pub struct StateSets {
    pub reached: Vec<bool>,
    pub next: Vec<bool>,
    /// For each letter the last step by it that was looked up. Where the letter stands behind the same states again, no move
    /// need be read, so that letters that take turns cost no more than their sets.
    pub known: Vec<KnownStep>,
}

impl StateSets {
    /// The start states: no letter is read yet. All memory that reading takes is taken here.
    pub fn start<L: Labels>(alloc: Global, labels: &L) -> Result<StateSets, AllocError>
        ensures { IfOk result (λ sets. AreAfter (L.automaton labels.now) [] sets) }
    {
        Ok(StateSets {
            reached: start_states(alloc, labels)?,
            next: no_states(alloc, labels)?,
            known: no_steps(alloc, labels)?,
        })
    }

    /// Reads one letter more.
    pub fn read<L: Labels>(&mut self, labels: &L, letter: u8)
        requires { (letters : List ℕ) × AreAfter (L.automaton labels.now) letters self.old }
        ensures { (letters : List ℕ) → AreAfter (L.automaton labels.now) letters self.old
            → AreAfter (L.automaton labels.now) (letters ++ letter ∷ []) self.new }
    {
        if self.knows(letter) {
            self.reached
                .copy_from_slice(&self.known[letter as usize].after);
        } else {
            self.look_up(labels, letter);
        }
    }

    /// Whether the last step by the letter that was looked up is known to be one from these states.
    fn knows(&self, letter: u8) -> bool
        ensures there { IsTrue result → letter < length self.now.known.items }
        ensures same { (d : KnownStep) → IsTrue result
            → (slice_index_or self.now.known.items letter d).before.items ≡ self.now.reached.items }
    {
        match self.known.get(letter as usize) {
            Some(step) => are_same(&step.before, &self.reached),
            None => false,
        }
    }

    /// Reads one letter more by the moves of the states.
    fn look_up<L: Labels>(&mut self, labels: &L, letter: u8)
        requires { (letters : List ℕ) × AreAfter (L.automaton labels.now) letters self.old }
        ensures { (letters : List ℕ) → AreAfter (L.automaton labels.now) letters self.old
            → AreAfter (L.automaton labels.now) (letters ++ letter ∷ []) self.new }
    {
        follow(labels, &self.reached, letter, &mut self.next);
        keep_step(&mut self.known, letter, &self.reached, &self.next);
        swap(&mut self.reached, &mut self.next);
    }

    /// Whether the automaton accepts the letters so far.
    pub fn accepts<L: Labels>(&self, labels: &L) -> bool
        requires { (letters : List ℕ) × AreAfter (L.automaton labels.now) letters self.now }
        ensures { (letters : List ℕ) → AreAfter (L.automaton labels.now) letters self.now
            → IsTrue result ↔ Accepts (L.automaton labels.now) letters }
    {
        for state in 0..labels.states() {
            if self.reached[state as usize] && labels.accepts(state) {
                return true;
            }
        }
        false
    }
}

/// Whether two sets are known to be the same.
fn are_same(one: &[bool], other: &[bool]) -> bool
    ensures { IsTrue result → one.now ≡ other.now }
{
    one == other
}

/// Keeps a step by a letter in the place of the one that was kept.
fn keep_step(known: &mut [KnownStep], letter: u8, before: &[bool], after: &[bool])
    requires before { All (λ step. length step.before.items ≡ length before.now) known.old }
    requires after { All (λ step. length step.after.items ≡ length after.now) known.old }
    ensures length { length known.new ≡ length known.old }
    ensures each { (c : ℕ) (d : KnownStep) → c < length known.new
        → IsKept known.old letter before.now after.now c (slice_index_or known.new c d) }
{
    if (letter as usize) < known.len() {
        let step = &mut known[letter as usize];
        step.before.copy_from_slice(before);
        step.after.copy_from_slice(after);
    }
}

/// Whether each state is a start state.
fn start_states<L: Labels>(alloc: Global, labels: &L) -> Result<Vec<bool>, AllocError>
    ensures size { IfOk result (λ set. length set.items ≡ (L.automaton labels.now).states) }
    ensures are { IfOk result (λ set. (q : ℕ) → IsInSet set.items q ↔
        ((q < (L.automaton labels.now).states) × IsTrue ((L.automaton labels.now).is_start q))) }
{
    let mut set = Vec::new(alloc);
    for state in 0..labels.states() {
        set.push(labels.is_start(state))?;
    }
    Ok(set)
}

/// A set with a place for each state, and none in it.
fn no_states<L: Labels>(alloc: Global, labels: &L) -> Result<Vec<bool>, AllocError>
    ensures size { IfOk result (λ set. length set.items ≡ (L.automaton labels.now).states) }
    ensures none { IfOk result (λ set. (q : ℕ) → IsInSet set.items q → ⊥) }
{
    let mut set = Vec::new(alloc);
    set.resize(labels.states() as usize, false)?;
    Ok(set)
}

/// For each letter the step from no state to none.
fn no_steps<L: Labels>(alloc: Global, labels: &L) -> Result<Vec<KnownStep>, AllocError>
    ensures { IfOk result (λ known. AreKnown (L.automaton labels.now) known.items) }
{
    let mut known = Vec::with_capacity(alloc, LETTERS as usize)?;
    for letter in 0..LETTERS {
        known.push(KnownStep {
            before: no_states(alloc, labels)?,
            after: no_states(alloc, labels)?,
        })?;
    }
    Ok(known)
}

/// Makes a set hold exactly the states that a move by the letter leads to from one that is reached.
fn follow<L: Labels>(labels: &L, reached: &[bool], letter: u8, set: &mut [bool])
    requires reached { length reached.now ≡ (L.automaton labels.now).states }
    requires set { length set.old ≡ (L.automaton labels.now).states }
    ensures { (r : ℕ) → IsInSet set.new r ↔ HasMoveFrom (L.automaton labels.now)
        (L.automaton labels.now).states reached.now letter r }
{
    clear(set);
    mark_states(labels, reached, letter, set);
}

/// Takes all states out of a set.
fn clear(set: &mut [bool])
    ensures { (q : ℕ) → IsInSet set.new q → ⊥ }
{
    set.fill(false);
}

/// Puts into a set each state that a move by the letter leads to from one that is reached.
fn mark_states<L: Labels>(labels: &L, reached: &[bool], letter: u8, set: &mut [bool])
    requires reached { length reached.now ≡ (L.automaton labels.now).states }
    requires set { length set.old ≡ (L.automaton labels.now).states }
    ensures { AreAdded set.old set.new (λ r. HasMoveFrom (L.automaton labels.now)
        (L.automaton labels.now).states reached.now letter r) }
{
    for state in 0..labels.states() {
        if reached[state as usize] {
            mark_moves(labels, state, letter, set);
        }
    }
}

/// Puts into a set each state that a move by the letter leads to from one state.
fn mark_moves<L: Labels>(labels: &L, state: u32, letter: u8, set: &mut [bool])
    requires state { state < (L.automaton labels.now).states }
    requires set { length set.old ≡ (L.automaton labels.now).states }
    ensures { AreAdded set.old set.new (λ r. HasMove (L.automaton labels.now) state letter r) }
{
    for i in 0..labels.moves(state) {
        mark_move(labels.move_at(state, i), letter, set);
    }
}

/// Puts the state that a move leads to into a set, if it is by the letter.
fn mark_move(step: Move, letter: u8, set: &mut [bool])
    requires to { step.to < length set.old }
    requires letters { IsLetterSet step.letters }
    ensures { AreAdded set.old set.new (λ r. IsBitSet step.letters letter × (step.to ≡ r)) }
{
    if has_letter(step, letter) {
        set[step.to as usize] = true;
    }
}

/// Whether a move is by this letter, if it is one: letters are below [`LETTERS`].
fn has_letter(step: Move, letter: u8) -> bool
    requires { IsLetterSet step.letters }
    ensures { IsTrue result ↔ IsBitSet step.letters letter }
{
    letter < LETTERS as u8 && step.has_letter(letter)
}
