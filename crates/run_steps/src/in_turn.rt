//! Answering a file in turn: the block of each line is written as soon as that has been read whole.

ghost use Rattle.std.specs.Prelude.{◌≡◌, ◌<◌, ◌≤◌, ◌+◌, ◌*◌, ◌^◌, ◌∷◌, [], ◌++◌, ⊤, ℕ, List, length, IfOk, IfErr, OnOk};
ghost use Rattle.plan_base.specs.Shelves.{Gave, IsLater};
ghost use Rattle.run_steps.specs.Scene.{Scene, scene};
ghost use Rattle.run_steps.specs.Sayings.{end_of, most_bytes};
ghost use Rattle.run_steps.specs.QueryLines.{queries_among, query_lines};
ghost use Rattle.run_steps.specs.Blocks.{WroteBlock, WroteBlocks, AreCounted};
ghost use Rattle.run_steps.specs.inside.BlockCauses.{IsBlockOutcome, IsBlocksOutcome};
ghost use Rattle.run_steps.specs.InTurn.{AnswersFile, HasAnswered, StopsInTurn};
ghost use Rattle.run_steps.specs.inside.TurnCauses.{AreAnswered, AreEnded, IsBegun, IsKeepOutcome, IsLineOutcome, IsPieceOutcome, IsSumWith, IsUpToDate, fault_at};

use crate::blocks::LineBlocks;
use crate::files::{MOST_BYTES, refused};
use crate::lines::{as_query, without_return};
use crate::notes::tell;
use crate::outcome::{FileRole, Outcome};
use crate::ports::Ports;
use crate::tally::Tally;
use plain_texts::next_line;
use plan_base::{ReadFault, Shelf, ShelfError, Sink, write_all};
use std::alloc::Global;

/// How many bytes of a file are asked for at a time.
const PIECE: usize = 65_536;

/// Each file has fewer bytes: a place in one is a signed number of 64 bits.
const MOST_PLACES: u64 = 1 << 63;

/// Reads the file of this role piece by piece, writes a right block of each query line as soon as that has been read whole,
/// and answers the sum of what is counted for them. A line has been read whole when its line feed has been read, or the file
/// has ended.
///
/// Of the file no more is held than the line that is not whole yet. `notes` is told at the end how many lines were answered,
/// or why the file could not be read on.
///
/// # Errors
///
/// `Missing` where there is no such file, and then nothing is written; `ReadFault`; `TooLong` where a line has more than 2^30
/// bytes without its line feed, or 2^63 bytes have been read; `WriteFault`; `OutOfMemory`.
pub fn write_in_turn<B: LineBlocks, F: Shelf, O: Sink, E: Sink>(
    ports: &mut Ports<F, O, E>,
    blocks: &B,
    file: FileRole,
    path: &str,
) -> Result<u128, Outcome>
    requires { B.may blocks.now }
    ensures ok { IfOk result (λ sum. (bytes : List ℕ) × HasAnswered (B.is_block blocks.now) path.now bytes
        (scene (F.meaning ports.old.shelf) (O.meaning ports.old.out))
        (scene (F.meaning ports.new.shelf) (O.meaning ports.new.out))
        × AreCounted (B.counts blocks.now) (query_lines bytes) sum) }
    ensures err { IfErr result (StopsInTurn file path.now (B.is_block blocks.now)
        (scene (F.meaning ports.old.shelf) (O.meaning ports.old.out))
        (scene (F.meaning ports.new.shelf) (O.meaning ports.new.out))) }
{
    let alloc = ports.alloc;
    let turn = Turn {
        alloc,
        blocks,
        file,
        path,
    };
    let mut kept = Kept::new(blocks.room(alloc));
    let rest = turn.answer_pieces(&mut kept, ports)?;
    if !rest.is_empty() {
        turn.answer_line(&mut kept, &rest, &mut ports.out)?;
    }
    kept.tally
        .tell(alloc, path, blocks.called(), &mut ports.notes);
    Ok(kept.sum)
}

/// Answers the file of this role in turn, as `write_in_turn` does, where nothing is to follow.
pub fn answer_file<B: LineBlocks, F: Shelf, O: Sink, E: Sink>(
    ports: &mut Ports<F, O, E>,
    blocks: &B,
    file: FileRole,
    path: &str,
) -> Result<(), Outcome>
    requires { B.may blocks.now }
    ensures { AnswersFile file path.now (B.is_block blocks.now)
        (scene (F.meaning ports.old.shelf) (O.meaning ports.old.out))
        (scene (F.meaning ports.new.shelf) (O.meaning ports.new.out)) (end_of result) }
{
    write_in_turn(ports, blocks, file, path)?;
    Ok(())
}

/// A file that is answered in turn, and what makes the blocks of its lines.
#[derive(Drop)]
struct Turn<'a, B> {
    alloc: Global,
    blocks: &'a B,
    file: FileRole,
    path: &'a str,
}

/// What is kept from line to line.
#[derive(Drop)]
struct Kept<R> {
    room: R,
    tally: Tally,
    sum: u128,
}

impl<R> Kept<R> {
    fn new(room: R) -> Kept<R>
        ensures { result.sum ≡ 0 }
    {
        Kept {
            room,
            tally: Tally::new(),
            sum: 0,
        }
    }
}

impl<B: LineBlocks> Turn<'_, B> {
    /// Answers the lines that end in a line feed, each as soon as that has been read, and gives out what stands behind the
    /// last of them at the end of the file.
    fn answer_pieces<F: Shelf, O: Sink, E: Sink>(
        &self,
        kept: &mut Kept<B::Room>,
        ports: &mut Ports<F, O, E>,
    ) -> Result<Vec<u8>, Outcome>
        ghost first: { Scene ⊤ }
        requires may { B.may self.now.blocks.now }
        requires first { first ≡ scene (F.meaning ports.old.shelf) (O.meaning ports.old.out) }
        requires sum { kept.old.sum ≡ 0 }
        ensures ok { IfOk result (λ rest. AreEnded (B.is_block self.now.blocks.now)
            (B.counts self.now.blocks.now) self.now.path.now first
            (scene (F.meaning ports.new.shelf) (O.meaning ports.new.out)) rest.items kept.new.sum) }
        ensures few { OnOk result (kept.new.sum + 2 ^ 64 ≤ 2 ^ 128) }
        ensures err { IfErr result (StopsInTurn self.now.file self.now.path.now
            (B.is_block self.now.blocks.now) first
            (scene (F.meaning ports.new.shelf) (O.meaning ports.new.out))) }
    {
        let mut buffer = [0u8; PIECE];
        let mut rest = Vec::new(self.alloc);
        let mut place: u64 = 0;
        'pieces: loop {
            let n = self.next_piece(ports, place, &mut buffer)?;
            if n == 0 {
                return Ok(rest);
            }
            match self.answer_piece(kept, &mut rest, &buffer[..n], &mut ports.out) {
                Ok(()) => {}
                Err(outcome) => {
                    self.tell_long(kept, outcome, &mut ports.notes);
                    return Err(outcome);
                }
            }
            place += n as u64;
        }
    }

    /// Asks for bytes of the file from a place on, up to which it was read, as far as there is room, and answers how many
    /// came: none at its end.
    ///
    /// **No line waits for the next one**: this may be called only when the blocks of all lines that have been read whole
    /// stand in the output.
    fn next_piece<F: Shelf, O: Sink, E: Sink>(
        &self,
        ports: &mut Ports<F, O, E>,
        place: u64,
        into: &mut [u8],
    ) -> Result<usize, Outcome>
        ghost first: { Scene ⊤ }
        requires { IsUpToDate (B.is_block self.now.blocks.now) self.now.path.now place first
            (scene (F.meaning ports.old.shelf) (O.meaning ports.old.out)) }
        ensures out { ports.new.out ≡ ports.old.out }
        ensures later { IsLater (F.meaning ports.old.shelf) (F.meaning ports.new.shelf) }
        ensures within { IfOk result (λ n. n ≤ length into.old) }
        ensures early { IfOk result (λ n. place < 2 ^ 63) }
        ensures bytes { IfOk result
            (λ n. Gave (F.meaning ports.old.shelf) self.now.path.now place n into.new) }
        ensures err { IfErr result (StopsInTurn self.now.file self.now.path.now
            (B.is_block self.now.blocks.now) first
            (scene (F.meaning ports.new.shelf) (O.meaning ports.new.out))) }
    {
        if place >= MOST_PLACES {
            let fault = ReadFault::TooLong { cap: MOST_PLACES };
            return Err(refused(self.alloc, self.path, self.file, fault, &mut ports.notes));
        }
        match ports.shelf.read(self.path, place, into) {
            Ok(n) => Ok(n),
            Err(error) => {
                let fault = fault_at(place, error);
                Err(refused(self.alloc, self.path, self.file, fault, &mut ports.notes))
            }
        }
    }

    /// Answers the lines that end in a piece, and keeps what stands behind the last of them. The first one begins with what
    /// was kept.
    fn answer_piece<O: Sink>(
        &self,
        kept: &mut Kept<B::Room>,
        rest: &mut Vec<u8>,
        piece: &[u8],
        out: &mut O,
    ) -> Result<(), Outcome>
        requires may { B.may self.now.blocks.now }
        requires begun { IsBegun rest.old.items }
        requires short { length piece.now ≤ most_bytes }
        requires room { kept.old.sum + 2 ^ 64 * length piece.now ≤ 2 ^ 128 }
        ensures later { (O.meaning out.old).faults ≤ (O.meaning out.new).faults }
        ensures ok { OnOk result ((count : ℕ)
            × AreAnswered (B.is_block self.now.blocks.now) (B.counts self.now.blocks.now)
            (O.meaning out.old) (O.meaning out.new) (rest.old.items ++ piece.now) rest.new.items count
            × (kept.new.sum ≡ kept.old.sum + count)) }
        ensures begun { OnOk result (IsBegun rest.new.items) }
        ensures few { OnOk result (kept.new.sum ≤ kept.old.sum + 2 ^ 64 * length piece.now) }
        ensures err { IfErr result (IsPieceOutcome self.now.file (B.is_block self.now.blocks.now)
            (O.meaning out.old) (O.meaning out.new) (rest.old.items ++ piece.now)) }
    {
        let mut left = piece;
        'lines: while let Some((end, after)) = next_line(left) {
            self.answer_end(kept, rest, end, out)?;
            left = after;
        }
        keep(rest, left, self.file)
    }

    /// Answers the line that begins with what was kept, and ends with these bytes.
    fn answer_end<O: Sink>(
        &self,
        kept: &mut Kept<B::Room>,
        rest: &mut Vec<u8>,
        end: &[u8],
        out: &mut O,
    ) -> Result<(), Outcome>
        requires may { B.may self.now.blocks.now }
        requires short { length rest.old.items ≤ most_bytes }
        requires within { length end.now ≤ most_bytes }
        requires room { kept.old.sum + 2 ^ 64 ≤ 2 ^ 128 }
        ensures later { (O.meaning out.old).faults ≤ (O.meaning out.new).faults }
        ensures ok { OnOk result (WroteBlocks (O.meaning out.old) (O.meaning out.new)
            (B.is_block self.now.blocks.now) (queries_among ((rest.old.items ++ end.now) ∷ []))) }
        ensures sum { OnOk result (IsSumWith (B.counts self.now.blocks.now)
            (queries_among ((rest.old.items ++ end.now) ∷ [])) kept.old.sum kept.new.sum) }
        ensures few { OnOk result (kept.new.sum ≤ kept.old.sum + 2 ^ 64) }
        ensures line { OnOk result (length (rest.old.items ++ end.now) ≤ most_bytes) }
        ensures none { OnOk result (rest.new.items ≡ []) }
        ensures err { IfErr result (IsLineOutcome self.now.file (B.is_block self.now.blocks.now)
            (O.meaning out.old) (O.meaning out.new) (rest.old.items ++ end.now)) }
    {
        if rest.is_empty() {
            return self.answer_line(kept, end, out);
        }
        keep(rest, end, self.file)?;
        self.answer_line(kept, rest, out)?;
        rest.clear();
        Ok(())
    }

    /// Answers a line that has been read whole: if it is a query line, a right block of it is written.
    fn answer_line<O: Sink>(
        &self,
        kept: &mut Kept<B::Room>,
        line: &[u8],
        out: &mut O,
    ) -> Result<(), Outcome>
        requires may { B.may self.now.blocks.now }
        requires room { kept.old.sum + 2 ^ 64 ≤ 2 ^ 128 }
        ensures later { (O.meaning out.old).faults ≤ (O.meaning out.new).faults }
        ensures ok { OnOk result (WroteBlocks (O.meaning out.old) (O.meaning out.new)
            (B.is_block self.now.blocks.now) (queries_among (line.now ∷ []))) }
        ensures sum { OnOk result (IsSumWith (B.counts self.now.blocks.now)
            (queries_among (line.now ∷ [])) kept.old.sum kept.new.sum) }
        ensures few { OnOk result (kept.new.sum ≤ kept.old.sum + 2 ^ 64) }
        ensures err { IfErr result (IsBlocksOutcome (O.meaning out.old) (O.meaning out.new)
            (B.is_block self.now.blocks.now) (queries_among (line.now ∷ []))) }
    {
        kept.tally.next_line();
        let Some(query) = as_query(without_return(line)) else {
            return Ok(());
        };
        let count = self.write_block(kept, query, out)?;
        kept.sum += u128::from(count);
        Ok(())
    }

    /// Writes a right block of a query line, and answers what is counted for it.
    fn write_block<O: Sink>(
        &self,
        kept: &mut Kept<B::Room>,
        query: &[u8],
        out: &mut O,
    ) -> Result<u64, Outcome>
        requires { B.may self.now.blocks.now }
        ensures later { (O.meaning out.old).faults ≤ (O.meaning out.new).faults }
        ensures sum { kept.new.sum ≡ kept.old.sum }
        ensures ok { OnOk result (WroteBlock (O.meaning out.old) (O.meaning out.new)
            (B.is_block self.now.blocks.now query.now)) }
        ensures count { IfOk result (B.counts self.now.blocks.now query.now) }
        ensures err { IfErr result (IsBlockOutcome (O.meaning out.old) (O.meaning out.new)
            (B.is_block self.now.blocks.now query.now)) }
    {
        let (block, count) = self.blocks.block_of(self.alloc, &mut kept.room, query)?;
        match write_all(out, &block) {
            Ok(()) => {}
            Err(_) => return Err(Outcome::WriteFault),
        }
        kept.tally.note(self.alloc, &block);
        Ok(count)
    }

    /// Tells people which line is too long, where that is how a run ends.
    fn tell_long<E: Sink>(&self, kept: &Kept<B::Room>, outcome: Outcome, notes: &mut E) {
        if let Outcome::TooLong { .. } = outcome {
            let (path, line) = (self.path, kept.tally.lines().saturating_add(1));
            tell(
                self.alloc,
                notes,
                format!(in self.alloc;
                    "{path}:{line}: this line has more than 2^30 bytes, which is the most that a line may have"
                ),
            );
        }
    }
}

/// Keeps more of a line that has not been read whole yet, if it is not too long.
fn keep(rest: &mut Vec<u8>, more: &[u8], file: FileRole) -> Result<(), Outcome>
    requires { length rest.old.items ≤ most_bytes }
    ensures ok { OnOk result (rest.new.items ≡ rest.old.items ++ more.now) }
    ensures short { OnOk result (length rest.new.items ≤ most_bytes) }
    ensures err { IfErr result (IsKeepOutcome file (rest.old.items ++ more.now)) }
{
    let room = MOST_BYTES - rest.len() as u64;
    if more.len() as u64 > room {
        return Err(Outcome::TooLong { file });
    }
    rest.extend_from_slice(more)?;
    Ok(())
}

/// Why a file can't be read on from a place. It is missing only where nothing was read of it before.
fn fault_at(place: u64, error: ShelfError) -> ReadFault
    ensures { result ≡ fault_at place error }
{
    if place == 0 {
        ReadFault::from(error)
    } else {
        ReadFault::Failed
    }
}
