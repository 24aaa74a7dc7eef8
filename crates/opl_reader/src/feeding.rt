//! The reader that a map's text is fed to.

ghost use Rattle.std.specs.Prelude.{◌≡◌, ◌++◌, ℕ, List, [], None, Some, Ok, Err, IfSome, IfOk, OnOk, IfErr};
ghost use Rattle.plan_base.specs.declared.limits.Caps.{Caps};
ghost use Rattle.opl_reader.specs.Gathered.{IsFaultOf};
ghost use Rattle.opl_reader.specs.ObjectLists.{AreObjects};
ghost use Rattle.opl_reader.specs.Objects.{ended_fault, objects_of};
ghost use Rattle.opl_reader.specs.Readings.{HasTaken, IsFaultOfEnded};

use crate::objects::{Objects, OplFault};
use crate::reader::Reader;
use plan_base::Caps;
use std::alloc::Global;
use std::marker::Model;

/// A reader of a map's text, which is fed in pieces of any size.
///
/// It keeps what the lines so far gave, and the bytes of the line that has not ended. Once it has answered a
/// fault it answers that fault at each later call.
#[derive(Drop)]
pub struct Opl {
    reader: Reader,
    fault: Option<OplFault>,
}

impl Model for Opl {
    ghost use Rattle.opl_reader.specs.Readers.{OplState, state_of};

    ghost Value = { OplState };

    ghost view = { λ o. record { state = state_of o.reader; fault = o.fault } };
}

impl Opl {
    /// A reader that has taken nothing, with these limits.
    pub fn new(alloc: Global, caps: Caps) -> Opl
        ensures { HasTaken result caps [] }
    {
        Opl {
            reader: Reader::new(alloc, caps),
            fault: None,
        }
    }

    /// Takes the next bytes of the text, and judges each line as its line feed comes.
    ///
    /// A fault comes exactly where a line that has ended has one, and is the first: [`OplFault::BadLine`], then
    /// [`OplFault::RepeatedObject`], then [`OplFault::TooMany`] on one line. Or it is the fault that was answered
    /// before.
    pub fn feed(&mut self, piece: &[u8]) -> Result<(), OplFault>
        ensures again { IfSome self.old.fault (λ fault. (result ≡ Err fault) × (self.new ≡ self.old)) }
        ensures kept { IfErr result (λ fault. self.new.fault ≡ Some fault) }
        ensures taken { (caps : Caps) (bytes : List ℕ) → HasTaken self.old caps bytes
            → OnOk result (HasTaken self.new caps (bytes ++ piece.now)) }
        ensures faultless { (caps : Caps) (bytes : List ℕ) → HasTaken self.old caps bytes
            → OnOk result (ended_fault caps (bytes ++ piece.now) ≡ None) }
        ensures fault { (caps : Caps) (bytes : List ℕ) → HasTaken self.old caps bytes
            → IfErr result (IsFaultOfEnded caps (bytes ++ piece.now)) }
    {
        if let Some(fault) = self.fault {
            return Err(fault);
        }
        let taken = self.reader.take(piece);
        self.fault = taken.err();
        taken
    }

    /// The objects of the whole text, or its first fault. A last line without a line feed counts as well.
    pub fn finish(self) -> Result<Objects, OplFault>
        ensures again { IfSome self.fault (λ fault. result ≡ Err fault) }
        ensures objects { (caps : Caps) (bytes : List ℕ) → HasTaken self caps bytes
            → IfOk result (λ objects. objects_of caps bytes ≡ Ok objects) }
        ensures sound { (caps : Caps) (bytes : List ℕ) → HasTaken self caps bytes → IfOk result AreObjects }
        ensures fault { (caps : Caps) (bytes : List ℕ) → HasTaken self caps bytes
            → IfErr result (IsFaultOf (objects_of caps bytes)) }
    {
        let Opl { reader, fault } = self;
        match fault {
            Some(fault) => Err(fault),
            None => reader.finish(),
        }
    }
}
