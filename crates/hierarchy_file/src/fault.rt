//! Why bytes are no hierarchy.

ghost use Rattle.std.specs.Prelude.{◌≡◌};
ghost use Rattle.hierarchy_file.specs.declared.fault.HFileFault.TheVariants.{OutOfMemory};

use std::alloc::AllocError;

/// The first thing that is wrong with the bytes of a hierarchy.
#[derive(Clone, Copy, Debug, PartialEq, Eq)]
pub enum HFileFault {
    /// The bytes are fewer than the 32 of the head, or do not begin with the magic.
    BadHead,
    /// The record that begins at this byte is the first that is cut short or breaks its rule.
    BadRecord { at: u64 },
    /// Bytes follow the last record; this is where they begin.
    Trailing { at: u64 },
    /// Memory ran out.
    OutOfMemory,
}

impl From<AllocError> for HFileFault {
    ghost from_gives = { λ _ fault. fault ≡ OutOfMemory };

    fn from(_error: AllocError) -> HFileFault {
        HFileFault::OutOfMemory
    }
}
