//! Reading: the shelf, and whole files from it.

ghost use Rattle.std.specs.Prelude.{◌≤◌, length, IfOk, IfErr};
ghost use Rattle.plan_base.specs.Shelves.{ShelfMeaning, IsLater, Gave, HasRead};
ghost use Rattle.plan_base.specs.ShelfCauses.{HasCause};
ghost use Rattle.plan_base.specs.ReadCauses.{HasReadCause};

use std::alloc::{AllocError, Global};

/// Why a read of a shelf was refused.
#[derive(Clone, Copy, Debug, PartialEq, Eq)]
pub enum ShelfError {
    /// There is no file of this name.
    Missing,
    /// Reading failed.
    Failed,
}

/// Something that holds files under names.
///
/// Its meaning has what it holds under each name, or nothing where it does not tell, and two counts: of
/// names that were missed and of reads that failed. The counts never fall and the files never change.
pub trait Shelf {
    ghost meaning: { Self → ShelfMeaning };

    /// Reads bytes of the file `name`, from the place `from` on, into the front of `into`, and answers
    /// how many: 0 for a buffer that is not empty comes exactly at the file's end.
    fn read(&mut self, name: &str, from: u64, into: &mut [u8]) -> Result<usize, ShelfError>
        ensures later { IsLater (meaning self.old) (meaning self.new) }
        ensures within { IfOk result (λ n. n ≤ length into.old) }
        ensures bytes { IfOk result (λ n. Gave (meaning self.old) name.now from n into.new) }
        ensures cause { IfErr result (HasCause (meaning self.old) (meaning self.new) name.now) };
}

/// Why a whole file was refused.
#[derive(Clone, Copy, Debug, PartialEq, Eq)]
pub enum ReadFault {
    /// There is no file of this name.
    Missing,
    /// Reading failed.
    Failed,
    /// The file has more than `cap` bytes.
    TooLong { cap: u64 },
    OutOfMemory,
}

impl From<ShelfError> for ReadFault {
    ghost use Rattle.std.specs.Prelude.{◌≡◌};
    ghost use Rattle.plan_base.specs.ReadFaults.{read_fault_of};

    ghost from_gives = { λ error fault. fault ≡ read_fault_of error };

    fn from(error: ShelfError) -> ReadFault {
        match error {
            ShelfError::Missing => ReadFault::Missing,
            ShelfError::Failed => ReadFault::Failed,
        }
    }
}

impl From<AllocError> for ReadFault {
    ghost use Rattle.std.specs.Prelude.{◌≡◌};
    ghost use Rattle.plan_base.specs.declared.reading.ReadFault.{ReadFault};
    ghost use Rattle.plan_base.specs.declared.reading.ReadFault.TheVariants.{OutOfMemory};

    ghost from_gives = { λ _ fault. fault ≡ OutOfMemory };

    fn from(_: AllocError) -> ReadFault {
        ReadFault::OutOfMemory
    }
}

/// How many bytes of a file are read at a time.
const PIECE: usize = 65_536;

/// The whole file `name`, if it has at most `cap` bytes.
///
/// It is read piece by piece, each from the place where the bytes so far end.
pub fn read_whole<F: Shelf>(
    alloc: Global,
    shelf: &mut F,
    name: &str,
    cap: u64,
) -> Result<Vec<u8>, ReadFault>
    ensures later { IsLater (F.meaning shelf.old) (F.meaning shelf.new) }
    ensures ok { IfOk result (λ v. HasRead (F.meaning shelf.old) name.now cap v.items) }
    ensures cause { IfErr result (HasReadCause (F.meaning shelf.old) (F.meaning shelf.new) name.now cap) }
{
    let mut bytes = Vec::new(alloc);
    let mut buffer = [0u8; PIECE];
    loop {
        let n = shelf.read(name, bytes.len() as u64, &mut buffer)?;
        if n == 0 {
            return Ok(bytes);
        }
        bytes.extend_from_slice(&buffer[..n])?;
        if bytes.len() as u64 > cap {
            return Err(ReadFault::TooLong { cap });
        }
    }
}
