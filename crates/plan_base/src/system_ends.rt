//! A sink over a stream, which tells what the stream tells.

ghost use Rattle.std.specs.Io.{WritesAtMost};
ghost use Rattle.std.specs.Io.KnownBytes.{WriteAppends};

use crate::writing::{Sink, SinkFailed};
use std::io::{self, ErrorKind, Write};

/// How often a write is begun that the system interrupts before any byte.
const MOST_TRIES: usize = 100;

/// A stream that bytes are written to. It tells what the stream tells of what it holds.
#[derive(Drop)]
pub struct StreamSink<W: Write + Drop> {
    stream: W,
    faults: u64,
}

impl<W: Write + Drop> StreamSink<W> {
    /// A sink over this stream.
    pub fn new(stream: W) -> StreamSink<W> {
        StreamSink { stream, faults: 0 }
    }
}

impl<W: Write + Drop> Sink for StreamSink<W> {
    ghost meaning = { λ s. record { bytes = W.contents s.stream; faults = s.faults } };

    /// A stream that takes nothing of a piece that is not empty counts as failed.
    fn write(&mut self, piece: &[u8]) -> Result<usize, SinkFailed> {
        match write_to(&mut self.stream, piece) {
            Ok(n) if n > 0 || piece.is_empty() => Ok(n),
            _ => {
                self.faults = self.faults.saturating_add(1);
                Err(SinkFailed)
            }
        }
    }
}

/// Writes a front of the piece; a write that was interrupted is begun again.
fn write_to<W: Write>(stream: &mut W, piece: &[u8]) -> io::Result<usize>
    ensures within { WritesAtMost result piece.now }
    ensures bytes { WriteAppends (W.contents stream.old) (W.contents stream.new) result piece.now }
{
    for _ in 1..MOST_TRIES {
        match stream.write(piece) {
            Err(error) if error.kind() == ErrorKind::Interrupted => {}
            result => return result,
        }
    }
    stream.write(piece)
}
