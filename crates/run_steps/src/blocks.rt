//! The blocks of lines.

ghost use Rattle.std.specs.Prelude.{ℕ, List, IfOk};

use std::alloc::{AllocError, Global};

/// What makes the block of a query line.
pub trait LineBlocks {
    /// What is kept from line to line.
    type Room: Drop;

    /// When it may be asked for blocks.
    ghost may: { Self → Type 0 } = { λ _. Unit {0} };

    /// Which blocks are right for a line.
    ghost is_block: { Self → List ℕ → List ℕ → Type 0 };

    /// What is counted for a line.
    ghost counts: { Self → List ℕ → ℕ → Type 0 };

    /// What there is to keep before the first line.
    fn room(&self, alloc: Global) -> Self::Room;

    /// A right block of a line, and what is counted for it. It may use what was kept, and keep other things.
    fn block_of(
        &self,
        alloc: Global,
        room: &mut Self::Room,
        line: &[u8],
    ) -> Result<(Vec<u8>, u64), AllocError>
        requires { may self.now }
        ensures block { IfOk result (λ it. is_block self.now line.now it.0.items) }
        ensures count { IfOk result (λ it. counts self.now line.now it.1) };

    /// What people call what is written for a line, so that they are told how many lines have it. None for the block of a
    /// query, of which they are told whether there is a journey.
    fn called(&self) -> Option<&'static str> {
        None
    }
}
