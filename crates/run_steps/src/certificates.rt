//! Verifying the certificate of a file.

ghost use Rattle.std.specs.Prelude.{◌≡◌, ◌++◌, IfOk, IfErr, codes};
ghost use Rattle.plain_texts.specs.Lines.{with_feed};
ghost use Rattle.run_steps.specs.Scene.{scene};
ghost use Rattle.run_steps.specs.Sayings.{end_of};
ghost use Rattle.run_steps.specs.Certificates.{SaysVerified, TellsValid};
ghost use Rattle.run_steps.specs.CertificateCauses.{IsUnverified};

use crate::files::read_file;
use crate::notes::tell;
use crate::outcome::{FileRole, Outcome};
use crate::ports::Ports;
use crate::texts::write_text;
use fault_notes::bad_certificate;
use plan_base::{Shelf, Sink};
use std::alloc::{AllocError, Global};

/// What verifies the certificates of one kind.
pub trait Certificates {
    ghost use Rattle.run_steps.specs.Certificates.{CertificateKind};

    /// When it may be asked.
    ghost may: { Self → Type 0 } = { λ _. Unit {0} };

    /// Which kind it is.
    ghost kind: { Self → CertificateKind };

    /// The block that the bytes of a valid certificate show.
    ///
    /// # Errors
    ///
    /// `BadCertificate` where the bytes are no text of a certificate, `Invalid` where they are that of one which is not valid,
    /// and `OutOfMemory`.
    fn shown(&self, alloc: Global, bytes: &[u8]) -> Result<Vec<u8>, Outcome>
        requires { may self.now }
        ensures ok { IfOk result (λ block. (kind self.now).Shows bytes.now block.items) }
        ensures err { IfErr result (IsUnverified (kind self.now) bytes.now) };

    /// What people are told of the certificate file of this path, for which this clause is the first to fail, and where.
    fn invalid(&self, alloc: Global, path: &str, clause: u8, at: u64) -> Result<String, AllocError>;
}

/// Reads the certificate of the file of this path, and writes `valid` and the block that it shows; or tells `notes` why it
/// shows none.
pub fn write_verified<C: Certificates, F: Shelf, O: Sink, E: Sink>(
    ports: &mut Ports<F, O, E>,
    certificates: &C,
    path: &str,
) -> Result<(), Outcome>
    requires { C.may certificates.now }
    ensures { SaysVerified (C.kind certificates.now) path.now
        (scene (F.meaning ports.old.shelf) (O.meaning ports.old.out))
        (scene (F.meaning ports.new.shelf) (O.meaning ports.new.out)) (end_of result) }
{
    let alloc = ports.alloc;
    let role = FileRole::Certificate;
    let bytes = read_file(alloc, &mut ports.shelf, path, role, &mut ports.notes)?;
    let text = verified(alloc, certificates, path, &bytes, &mut ports.notes)?;
    write_text(&mut ports.out, &text)?;
    Ok(())
}

/// `valid`, and the block that the bytes of a valid certificate show; or why they show none, which `notes` is told too.
fn verified<C: Certificates, E: Sink>(
    alloc: Global,
    certificates: &C,
    path: &str,
    bytes: &[u8],
    notes: &mut E,
) -> Result<Vec<u8>, Outcome>
    requires { C.may certificates.now }
    ensures ok { IfOk result (λ text. TellsValid ((C.kind certificates.now).Shows bytes.now) text.items) }
    ensures err { IfErr result (IsUnverified (C.kind certificates.now) bytes.now) }
{
    match certificates.shown(alloc, bytes) {
        Ok(block) => Ok(behind_valid(alloc, &block)?),
        Err(outcome) => {
            tell_unverified(alloc, certificates, path, bytes, outcome, notes);
            Err(outcome)
        }
    }
}

/// `valid` and a block.
fn behind_valid(alloc: Global, block: &[u8]) -> Result<Vec<u8>, AllocError>
    ensures { IfOk result (λ text. text.items ≡ with_feed (codes "valid") ++ block.now) }
{
    let mut text = Vec::from_slice(alloc, b"valid\n")?;
    text.extend_from_slice(block)?;
    Ok(text)
}

/// Tells why the bytes of the certificate file of this path were not verified, where that is how the run ends.
pub fn tell_unverified<C: Certificates, E: Sink>(
    alloc: Global,
    certificates: &C,
    path: &str,
    bytes: &[u8],
    outcome: Outcome,
    notes: &mut E,
) {
    match outcome {
        Outcome::BadCertificate { line } => {
            tell(alloc, notes, bad_certificate(alloc, path, bytes, line));
        }
        Outcome::Invalid { clause, at } => {
            tell(alloc, notes, certificates.invalid(alloc, path, clause, at));
        }
        _ => {}
    }
}
