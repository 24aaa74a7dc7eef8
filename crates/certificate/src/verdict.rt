//! What is said of a certificate: why a text is none, and what a check of one answers.

use std::alloc::AllocError;

/// Why a text is no certificate.
#[derive(Clone, Copy, Debug, PartialEq, Eq)]
pub enum CertFault {
    /// This line, counted from 1, is the first that may not stand where it does.
    BadLine { line: u64 },
    /// There was no memory.
    OutOfMemory,
}

impl From<AllocError> for CertFault {
    ghost use Rattle.std.specs.Prelude.{◌≡◌};
    ghost use Rattle.certificate.specs.declared.verdict.CertFault.TheVariants.{OutOfMemory};

    ghost from_gives = { λ _ fault. fault ≡ OutOfMemory };

    fn from(_error: AllocError) -> CertFault {
        CertFault::OutOfMemory
    }
}

/// What a check of a certificate answers.
#[derive(Clone, Copy, Debug, PartialEq, Eq)]
pub enum CertVerdict {
    /// Every clause holds.
    Valid,
    /// This clause is the first that fails, and this is the least place where it does.
    Invalid { clause: u8, at: u64 },
}
