//! Writing: the sink, and whole pieces to it.

ghost use Rattle.std.specs.Prelude.{◌<◌, ◌≤◌, length, take, IfOk, OnOk, OnErr};
ghost use Rattle.plan_base.specs.Counts.{Rose};
ghost use Rattle.plan_base.specs.Sinks.{SinkMeaning, Appended, AppendedPart, Stays};

/// Writing failed.
#[derive(Clone, Copy, Debug, PartialEq, Eq)]
pub struct SinkFailed;

/// Something that takes bytes, one after another.
///
/// Its meaning has the bytes that were written, or nothing where it does not tell, and a count of the
/// writes that failed, which never falls.
pub trait Sink {
    ghost meaning: { Self → SinkMeaning };

    /// Writes a front of the piece, and answers how many bytes: at least one of a piece that is not empty.
    fn write(&mut self, piece: &[u8]) -> Result<usize, SinkFailed>
        ensures later { (meaning self.old).faults ≤ (meaning self.new).faults }
        ensures some { 0 < length piece.now → IfOk result (λ n. 0 < n) }
        ensures within { IfOk result (λ n. n ≤ length piece.now) }
        ensures ok { IfOk result (λ n. Appended (meaning self.old) (meaning self.new) (take n piece.now)) }
        ensures same { OnErr result (Stays (meaning self.old) (meaning self.new)) }
        ensures cause { OnErr result (Rose (meaning self.old).faults (meaning self.new).faults) };
}

/// Writes the whole piece, by as many writes as that takes; each is given all that is left of it.
///
/// Where a write fails, the writes before it have appended a front of the piece.
pub fn write_all<O: Sink>(sink: &mut O, piece: &[u8]) -> Result<(), SinkFailed>
    ensures later { (O.meaning sink.old).faults ≤ (O.meaning sink.new).faults }
    ensures ok { OnOk result (Appended (O.meaning sink.old) (O.meaning sink.new) piece.now) }
    ensures part { OnErr result (AppendedPart (O.meaning sink.old) (O.meaning sink.new) piece.now) }
    ensures cause { OnErr result (Rose (O.meaning sink.old).faults (O.meaning sink.new).faults) }
{
    let mut rest = piece;
    while !rest.is_empty() {
        let n = sink.write(rest)?;
        let (_, left) = rest.split_at(n);
        rest = left;
    }
    Ok(())
}
