ghost use Rattle.std.specs.Prelude.{◌≡◌, ℕ, ◌<◌, ◌≤◌, ◌^◌};
ghost use Rattle.automaton.specs.Collapsed.{FitsCollapsed, collapsed, AcceptsCollapsed, move_by};
ghost use Rattle.automaton.specs.CollapsedLaws.{collapsed_lawful, collapsed_road};

use search_laws::{Labels, Move, RoadLabels, TRANSIT};

/// An automaton that reads adjacent equal road letters as one: it accepts the words whose collapse the
/// inner one accepts.
///
/// State `4*q + c` is the inner state `q`, where `c` is 0 (no road letter was read last), 1 (foot),
/// 2 (bike) or 3 (car).
#[derive(Drop)]
pub struct Collapsed<L: Labels> {
    pub inner: L,
    ghost fits: { FitsCollapsed (L.automaton inner) },
}

impl<L: Labels> Collapsed<L> {
    /// Takes no memory.
    pub fn new(inner: L) -> Collapsed<L>
        requires states { (L.automaton inner).states ≤ 2 ^ 14 }
        requires moves { (q : ℕ) → q < (L.automaton inner).states → (L.automaton inner).moves q ≤ 2 ^ 16 }
        ensures same { result.inner ≡ inner }
        ensures accepts { AcceptsCollapsed (L.automaton inner) }
    {
        Collapsed { inner }
    }

    /// The move that an inner move gives by the letters of one kind, where `own` was read last.
    fn move_by(own: u32, kind: u32, inner: Move) -> Move
        requires kind { kind < 4 }
        requires to { inner.to < 2 ^ 14 }
        ensures { result ≡ move_by own kind inner }
    {
        if kind == 0 {
            Move {
                letters: inner.letters & TRANSIT,
                to: 4 * inner.to,
            }
        } else if kind == own {
            Move {
                letters: 0,
                to: 4 * inner.to + kind,
            }
        } else {
            Move {
                letters: inner.letters & 1 << (kind - 1),
                to: 4 * inner.to + kind,
            }
        }
    }
}

impl<L: Labels> Labels for Collapsed<L> {
    ghost automaton = { λ labels. collapsed (L.automaton labels.inner) };

    ghost lawful = { λ labels. collapsed_lawful (L.automaton labels.inner) (L.lawful labels.inner)
        labels.fits };

    fn states(&self) -> u32 {
        4 * self.inner.states()
    }

    fn is_start(&self, q: u32) -> bool {
        q % 4 == 0 && self.inner.is_start(q / 4)
    }

    fn moves(&self, q: u32) -> u32 {
        let moves = 4 * self.inner.moves(q / 4);
        if q % 4 == 0 { moves } else { moves + 1 }
    }

    fn move_at(&self, q: u32, i: u32) -> Move {
        let own = q % 4;
        if own == 0 {
            return Self::move_by(own, i % 4, self.inner.move_at(q / 4, i / 4));
        }
        if i == 0 {
            return Move {
                letters: 1 << (own - 1),
                to: q,
            };
        }
        let place = i - 1;
        Self::move_by(own, place % 4, self.inner.move_at(q / 4, place / 4))
    }

    fn accepts(&self, q: u32) -> bool {
        self.inner.accepts(q / 4)
    }
}

impl<L: Labels> RoadLabels for Collapsed<L> {
    ghost road_law = { λ labels. collapsed_road (L.automaton labels.inner) (L.lawful labels.inner) };
}
