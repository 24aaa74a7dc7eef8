//! Notes for people, in the name of this program.

ghost use Rattle.std.specs.Prelude.{◌<◌, ◌≤◌, length};

use plan_base::{Sink, SinkFailed};

/// How the steps that are shared with `modeplan` begin a note; and this program, as many bytes.
const SHARED: &[u8] = b"modeplan: ";

const OWN: &[u8] = b"planbook: ";

/// A sink of notes. One that begins with the name `modeplan` gets this program's in its place. It tells nothing of what it takes.
#[derive(Drop)]
pub struct Notes<S> {
    sink: S,
    faults: u64,
}

impl<S: Sink> Notes<S> {
    pub fn new(sink: S) -> Notes<S> {
        Notes { sink, faults: 0 }
    }
}

/// The name at the beginning of a note in the place of a name that is as long.
fn renamed(piece: &[u8]) -> &[u8]
    ensures within { length result.now ≤ length piece.now }
    ensures some { 0 < length piece.now → 0 < length result.now }
{
    if piece.starts_with(SHARED) {
        OWN
    } else {
        piece
    }
}

impl<S: Sink> Sink for Notes<S> {
    ghost use Rattle.std.specs.Prelude.{None};

    ghost meaning = { λ notes. record { bytes = None; faults = notes.faults } };

    fn write(&mut self, piece: &[u8]) -> Result<usize, SinkFailed> {
        match self.sink.write(renamed(piece)) {
            Ok(n) => Ok(n),
            Err(_) => {
                self.faults = self.faults.saturating_add(1);
                Err(SinkFailed)
            }
        }
    }
}
