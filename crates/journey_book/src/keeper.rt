//! What keeps journeys by name.

ghost use Rattle.std.specs.Prelude.{◌≡◌, ◌≤◌, is_some, map, option_map, string_bytes, IfErr, IfOk, OnErr, OnOk};
ghost use Rattle.journey_book.specs.Books.{AreNamesOf, dropped, kept};
ghost use Rattle.journey_book.specs.Keepers.{KeeperMeaning, Becomes, IsKeepFault, BookStays, Tells};

use std::alloc::AllocError;

/// Why a keeper refused a call.
#[derive(Clone, Copy)]
pub enum KeepFault {
    /// It failed, which it counts.
    Failed,
    OutOfMemory,
}

/// Something that keeps bytes under names.
///
/// Its meaning has what it keeps under each name, or nothing where it does not tell, and a count of its failures, which never
/// falls. A call that is refused changes nothing.
pub trait Keeper {
    ghost meaning: { Self → KeeperMeaning };

    /// Keeps bytes under a name, in the place of what was there.
    fn put(&mut self, name: &str, body: &[u8]) -> Result<(), KeepFault>
        ensures later { (meaning self.old).faults ≤ (meaning self.new).faults }
        ensures ok { OnOk result (Becomes (meaning self.old) (meaning self.new) (kept name.now body.now)) }
        ensures same { OnErr result (BookStays (meaning self.old) (meaning self.new)) }
        ensures cause { IfErr result (IsKeepFault (meaning self.old) (meaning self.new)) };

    /// Removes a name, and answers whether it was there.
    fn remove(&mut self, name: &str) -> Result<bool, KeepFault>
        ensures later { (meaning self.old).faults ≤ (meaning self.new).faults }
        ensures ok { OnOk result (Becomes (meaning self.old) (meaning self.new) (dropped name.now)) }
        ensures was { IfOk result (λ was. Tells (meaning self.old) (λ book. is_some (book name.now) ≡ was)) }
        ensures same { OnErr result (BookStays (meaning self.old) (meaning self.new)) }
        ensures cause { IfErr result (IsKeepFault (meaning self.old) (meaning self.new)) };

    /// What is kept under a name.
    fn get(&mut self, name: &str) -> Result<Option<Vec<u8>>, KeepFault>
        ensures later { (meaning self.old).faults ≤ (meaning self.new).faults }
        ensures ok { IfOk result (λ held. Tells (meaning self.old)
            (λ book. book name.now ≡ option_map (λ body. body.items) held)) }
        ensures same { BookStays (meaning self.old) (meaning self.new) }
        ensures cause { IfErr result (IsKeepFault (meaning self.old) (meaning self.new)) };

    /// All names, ascending by bytes.
    fn names(&mut self) -> Result<Vec<String>, KeepFault>
        ensures later { (meaning self.old).faults ≤ (meaning self.new).faults }
        ensures ok { IfOk result (λ names. Tells (meaning self.old)
            (λ book. AreNamesOf book (map string_bytes names.items))) }
        ensures same { BookStays (meaning self.old) (meaning self.new) }
        ensures cause { IfErr result (IsKeepFault (meaning self.old) (meaning self.new)) };
}

impl From<AllocError> for KeepFault {
    ghost use Rattle.std.specs.Prelude.{◌≡◌};
    ghost use Rattle.journey_book.specs.declared.keeper.KeepFault.TheVariants.{OutOfMemory};

    ghost from_gives = { λ _ fault. fault ≡ OutOfMemory };

    fn from(_: AllocError) -> KeepFault {
        KeepFault::OutOfMemory
    }
}
