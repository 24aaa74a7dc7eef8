//! Automata that read the letters of a walk.

ghost use Rattle.std.specs.Prelude.{◌≡◌, ◌<◌};
ghost use Rattle.search_laws.specs.LabelLaws.{LabelsMeaning, IsLawfulLabels, IsRoadLabels};

/// How many letters there are: they are the numbers below.
pub const LETTERS: u32 = 14;

/// The set of all letters, each of which is a bit.
pub const EVERY_LETTER: u32 = 0x3fff;

/// The set of the letters of public transport, which are 3 to 13.
pub const TRANSIT: u32 = 0x3ff8;

/// A move of an automaton: to the state `to`, by each letter whose bit is set in `letters`.
#[derive(Clone, Copy)]
pub struct Move {
    pub letters: u32,
    pub to: u32,
}

impl Move {
    ghost use Rattle.std.specs.Prelude.{◌↔◌, IsTrue, IsBitSet};
    ghost use Rattle.search_laws.specs.Letters.{IsLetter};

    /// Whether it is by the letter.
    pub fn has_letter(self, letter: u8) -> bool
        requires { IsLetter letter }
        ensures { IsTrue result ↔ IsBitSet self.letters letter }
    {
        self.letters & (1 << letter) != 0
    }
}

/// A nondeterministic automaton over the letters 0 to 13.
///
/// It has at most 2^16 states, numbered from 0, and at most 2^20 moves leave a state. It accepts a word where some
/// sequence of moves reads the word from a start state to an accepting one.
pub trait Labels {
    /// What the calls answer, as functions on numbers.
    ghost automaton: { Self → LabelsMeaning };

    /// The number of states.
    fn states(&self) -> u32
        ensures { result ≡ (automaton self.now).states };

    /// Whether a word may be read from the state `q` on.
    fn is_start(&self, q: u32) -> bool
        requires { q < (automaton self.now).states }
        ensures { result ≡ (automaton self.now).is_start q };

    /// The number of moves that leave the state `q`.
    fn moves(&self, q: u32) -> u32
        requires { q < (automaton self.now).states }
        ensures { result ≡ (automaton self.now).moves q };

    /// The move at place `i` of those that leave the state `q`.
    fn move_at(&self, q: u32, i: u32) -> Move
        requires state { q < (automaton self.now).states }
        requires place { i < (automaton self.now).moves q }
        ensures { result ≡ (automaton self.now).move_at q i };

    /// Whether a word that was read up to the state `q` is accepted.
    fn accepts(&self, q: u32) -> bool
        requires { q < (automaton self.now).states }
        ensures { result ≡ (automaton self.now).accepts q };

    /// Every automaton keeps its limits.
    ghost lawful: { (l : Self) → IsLawfulLabels (automaton l) };
}

/// An automaton for which it makes no difference how often a road letter is read in a row.
///
/// The road letters are 0, 1 and 2. Where a move by one of them leads from q to r, exactly one move by that letter
/// leaves r, and it leads to r.
pub trait RoadLabels: Labels {
    ghost road_law: { (l : Self) → IsRoadLabels (Self.automaton l) };
}
