//! Why bytes are no region.

ghost use Rattle.std.specs.Prelude.{◌≡◌};
ghost use Rattle.region_file.specs.declared.fault.RegionFault.TheVariants.{OutOfMemory};

use mode_network::NetFault;
use std::alloc::AllocError;

/// The first thing that is wrong with the bytes of a region.
#[derive(Clone, Copy, Debug, PartialEq, Eq)]
pub enum RegionFault {
    /// The bytes begin neither with the head line of a text nor with a head of records.
    BadHead,
    /// Of a text, this line, counted from 1, is the first that may not stand there; where the text ends too early it
    /// is the line after the last whole one. Of records, the first that may not stand there, or is cut short, begins
    /// at this byte, counted from 0.
    BadRecord { at: u64 },
    /// Each line or record may stand where it does, but the network breaks a rule.
    Network(NetFault),
    /// Bytes follow the last line or record. Where they begin: this line, counted from 1, of a text, and this byte,
    /// counted from 0, of records.
    Trailing { at: u64 },
    /// Memory ran out.
    OutOfMemory,
}

impl From<AllocError> for RegionFault {
    ghost from_gives = { λ _ fault. fault ≡ OutOfMemory };

    fn from(_error: AllocError) -> RegionFault {
        RegionFault::OutOfMemory
    }
}
