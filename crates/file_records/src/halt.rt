//! Why the reading of records stops.

ghost use Rattle.std.specs.Prelude.{◌≡◌};
ghost use Rattle.file_records.specs.declared.halt.Halt.TheVariants.{Memory};

use std::alloc::{AllocError, AllocFailed};

/// Why the reading of records stopped.
#[derive(Clone, Copy, Debug, PartialEq, Eq)]
pub enum Halt {
    /// Memory ran out.
    Memory,
    /// So many bytes were left where the record begins that may not stand there.
    Left(u64),
}

impl From<AllocError> for Halt {
    ghost from_gives = { λ _ halt. halt ≡ Memory };

    fn from(_error: AllocError) -> Halt {
        Halt::Memory
    }
}

impl<T: Drop> From<AllocFailed<T>> for Halt {
    ghost from_gives = { λ _ halt. halt ≡ Memory };

    fn from(_error: AllocFailed<T>) -> Halt {
        Halt::Memory
    }
}
