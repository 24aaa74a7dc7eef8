//! The automaton that counts transit letters.

ghost use Rattle.std.specs.Prelude.{◌≡◌, ℕ, ◌+◌, ◌*◌, ◌<◌, ◌≤◌, ◌^◌};
ghost use Rattle.few_boardings.specs.Counted.{FitsCounted, counted, counted_move, reads_on, may_end_with, AcceptsCounted};
ghost use Rattle.few_boardings.specs.CountedLaws.{counted_lawful, counted_road};

use search_laws::{Labels, Move, RoadLabels, TRANSIT};

/// The bits of the road letters: foot, bike and car.
const ROAD: u32 = 0x7;

/// On which side of a limit a count is to be.
#[derive(Clone, Copy, Debug, PartialEq, Eq)]
pub enum Side {
    AtMost,
    AtLeast,
}

/// An automaton that counts transit letters: it accepts the words that the inner one accepts and that have at most, or at
/// least, `limit` letters from tram on.
///
/// State `q * (limit + 1) + k` is the inner state `q` after `k` transit letters. Where there must be `limit` at least, those
/// beyond it are not counted.
#[derive(Drop)]
pub struct Counted<L: Labels> {
    pub inner: L,
    pub side: Side,
    pub limit: u8,
    ghost fits: { FitsCounted (L.automaton inner) limit },
}

impl<L: Labels> Counted<L> {
    /// Takes no memory.
    pub fn new(inner: L, side: Side, limit: u8) -> Counted<L>
        requires limit { limit ≤ 8 }
        requires states { (L.automaton inner).states * (limit + 1) ≤ 2 ^ 16 }
        requires moves { (q : ℕ) → q < (L.automaton inner).states → (L.automaton inner).moves q ≤ 2 ^ 19 }
        ensures same { result.inner ≡ inner }
        ensures side { result.side ≡ side }
        ensures limit { result.limit ≡ limit }
        ensures accepts { AcceptsCounted (L.automaton inner) side limit }
    {
        Counted { inner, side, limit }
    }

    /// The number of states of an inner state: one for each count.
    fn counts(&self) -> u32
        ensures { result ≡ self.now.limit + 1 }
    {
        u32::from(self.limit) + 1
    }

    /// Whether letters are read beyond the limit.
    fn reads_on(&self) -> bool
        ensures { result ≡ reads_on self.now.side }
    {
        match self.side {
            Side::AtMost => false,
            Side::AtLeast => true,
        }
    }

    /// Whether a word may end with the count `k`.
    fn may_end(&self, k: u32) -> bool
        ensures { result ≡ may_end_with self.now.side self.now.limit k }
    {
        match self.side {
            Side::AtMost => true,
            Side::AtLeast => k == u32::from(self.limit),
        }
    }

    /// The move that an inner move gives with the count `k`: by its road letters, or by its transit letters.
    fn counted_move(&self, kind: u32, k: u32, inner: Move) -> Move
        requires count { k ≤ self.now.limit }
        requires to { inner.to < (L.automaton self.now.inner).states }
        ensures { result ≡ counted_move (reads_on self.now.side) self.now.limit kind k inner }
    {
        let to = inner.to * self.counts() + k;
        if kind == 0 {
            Move {
                letters: inner.letters & ROAD,
                to,
            }
        } else if k < u32::from(self.limit) {
            Move {
                letters: inner.letters & TRANSIT,
                to: to + 1,
            }
        } else if self.reads_on() {
            Move {
                letters: inner.letters & TRANSIT,
                to,
            }
        } else {
            Move { letters: 0, to }
        }
    }
}

impl<L: Labels> Labels for Counted<L> {
    ghost automaton = { λ labels. counted (L.automaton labels.inner) labels.side labels.limit };

    ghost lawful = { λ labels. counted_lawful (L.automaton labels.inner) (L.lawful labels.inner) labels.side
        labels.limit labels.fits };

    fn states(&self) -> u32 {
        self.inner.states() * self.counts()
    }

    fn is_start(&self, q: u32) -> bool {
        let counts = self.counts();
        q % counts == 0 && self.inner.is_start(q / counts)
    }

    fn moves(&self, q: u32) -> u32 {
        2 * self.inner.moves(q / self.counts())
    }

    fn move_at(&self, q: u32, i: u32) -> Move {
        let counts = self.counts();
        let inner = self.inner.move_at(q / counts, i / 2);
        self.counted_move(i % 2, q % counts, inner)
    }

    fn accepts(&self, q: u32) -> bool {
        let counts = self.counts();
        self.may_end(q % counts) && self.inner.accepts(q / counts)
    }
}

impl<L: RoadLabels> RoadLabels for Counted<L> {
    ghost road_law = { λ labels. counted_road (L.Labels.automaton labels.inner) (L.Labels.lawful labels.inner)
        labels.side labels.limit (L.road_law labels.inner) };
}
