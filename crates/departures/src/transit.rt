//! Whether an automaton reads letters of transit.

ghost use Rattle.std.specs.Prelude.{◌≡◌, ◌<◌, false};
ghost use Rattle.departures.specs.inside.Transit.{NoneByTransit, ReadsNoTransit};

use search_laws::{Labels, TRANSIT};

/// Whether some move of the state `q` is by a letter from tram on.
fn leaves_by_transit<L: Labels>(labels: &L, q: u32) -> bool
    requires { q < (L.automaton labels.now).states }
    ensures { result ≡ false → NoneByTransit (L.automaton labels.now) q }
{
    for i in 0..labels.moves(q) {
        if labels.move_at(q, i).letters & TRANSIT != 0 {
            return true;
        }
    }
    false
}

/// Whether some move is by a letter from tram on.
pub(crate) fn reads_transit<L: Labels>(labels: &L) -> bool
    ensures { result ≡ false → ReadsNoTransit (L.automaton labels.now) }
{
    for q in 0..labels.states() {
        if leaves_by_transit(labels, q) {
            return true;
        }
    }
    false
}
