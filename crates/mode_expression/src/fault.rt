ghost use Rattle.std.specs.Prelude.{◌≡◌};

use std::alloc::AllocError;
use thiserror::Error;

/// Why a text is no expression. The faults are tried in this order.
#[derive(Debug, Clone, Copy, PartialEq, Eq, Error)]
pub enum ExprFault {
    /// The text has more than 4,096 bytes.
    #[error("an expression has at most 4096 bytes; this one has {bytes}")]
    TooLong { bytes: u64 },
    /// At this byte stands a `(` before which `(` outnumber `)` by 64 or more.
    #[error("byte {at}: parentheses are at most 64 deep")]
    TooDeep { at: u64 },
    /// At this byte begins the first token that no expression can go on with, or the text ends too
    /// early there.
    #[error("byte {at}: no expression goes on like this")]
    Syntax { at: u64 },
    /// Written out, the expression has more than 200 places for letters.
    #[error("an expression has at most 200 places for letters; this one has {places}")]
    TooLarge { places: u64 },
    /// There was no memory.
    #[error("out of memory")]
    OutOfMemory,
}

impl From<AllocError> for ExprFault {
    ghost use Rattle.mode_expression.specs.declared.fault.ExprFault.TheVariants.{OutOfMemory};

    ghost from_gives = { λ _ fault. fault ≡ OutOfMemory };

    fn from(_error: AllocError) -> Self {
        ExprFault::OutOfMemory
    }
}
