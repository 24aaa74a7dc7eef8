//! Reads a map's text in pieces.

ghost use Rattle.std.specs.Prelude.{◌≡◌, ◌++◌, [], Ok, IfOk, OnOk, IfErr};
ghost use Rattle.opl_reader.specs.Lines.{map_line_of};
ghost use Rattle.opl_reader.specs.Gathered.{IsFaultOf, last_line, lists_of};

use crate::cuts::cut;
use crate::gathered::Gathered;
use crate::lines::{Line, read_line};
use crate::objects::{Objects, OplFault};
use plan_base::Caps;
use std::alloc::{AllocError, Global};

/// What was gathered, and the line that has not ended.
#[derive(Drop)]
pub struct Reader {
    alloc: Global,
    caps: Caps,
    gathered: Gathered,
    held: Vec<u8>,
}

/// What a line says that ends with these bytes, behind those that were held.
fn read_held(alloc: Global, held: &mut Vec<u8>, line: &[u8]) -> Result<Line, AllocError>
    ensures line { IfOk result (λ read. read ≡ map_line_of (held.old.items ++ line.now)) }
    ensures held { OnOk result (held.new.items ≡ []) }
{
    if held.is_empty() {
        return read_line(alloc, line);
    }
    held.extend_from_slice(line)?;
    let read = read_line(alloc, held)?;
    held.clear();
    Ok(read)
}

/// Judges the last line, if it is not empty.
fn take_last_line(
    alloc: Global,
    caps: &Caps,
    gathered: &mut Gathered,
    line: &[u8],
) -> Result<(), OplFault>
    ensures ok { OnOk result (last_line caps.now (lists_of gathered.old) line.now ≡ Ok
        (lists_of gathered.new)) }
    ensures fault { IfErr result (IsFaultOf (last_line caps.now (lists_of gathered.old) line.now)) }
{
    if line.is_empty() {
        return Ok(());
    }
    let read = read_line(alloc, line)?;
    gathered.take(caps, read)
}

impl Reader {
    ghost use Rattle.opl_reader.specs.Gathered.{IsFaultOf};
    ghost use Rattle.opl_reader.specs.Readers.{finished, fresh, holding, state_of, with_bytes, with_end};

    pub(crate) fn new(alloc: Global, caps: Caps) -> Reader
        ensures { state_of result ≡ fresh caps }
    {
        Reader {
            alloc,
            caps,
            gathered: Gathered::new(alloc),
            held: Vec::new(alloc),
        }
    }

    /// Judges the line that ends with these bytes.
    fn end_line(&mut self, line: &[u8]) -> Result<(), OplFault>
        ensures ok { OnOk result (with_end (holding (state_of self.old) line.now) ≡ Ok (state_of self.new)) }
        ensures fault { IfErr result (IsFaultOf (with_end (holding (state_of self.old) line.now))) }
    {
        let read = read_held(self.alloc, &mut self.held, line)?;
        self.gathered.take(&self.caps, read)
    }

    /// Takes bytes, and judges each line as its line feed comes.
    pub(crate) fn take(&mut self, piece: &[u8]) -> Result<(), OplFault>
        ensures ok { OnOk result (with_bytes (state_of self.old) piece.now ≡ Ok (state_of self.new)) }
        ensures fault { IfErr result (IsFaultOf (with_bytes (state_of self.old) piece.now)) }
    {
        let mut rest = piece;
        while let Some((line, behind)) = cut(rest, b'\n') {
            self.end_line(line)?;
            rest = behind;
        }
        self.held.extend_from_slice(rest)?;
        Ok(())
    }

    /// Judges a last line without a line feed, and gives the objects.
    pub(crate) fn finish(self) -> Result<Objects, OplFault>
        ensures ok { IfOk result (λ objects. finished (state_of self) ≡ Ok objects) }
        ensures fault { IfErr result (IsFaultOf (finished (state_of self))) }
    {
        let Reader {
            alloc,
            caps,
            mut gathered,
            held,
        } = self;
        take_last_line(alloc, &caps, &mut gathered, &held)?;
        let objects = gathered.into_objects(alloc)?;
        Ok(objects)
    }
}
