//! The command `verify`: what a certificate shows.

ghost use Rattle.std.specs.Prelude.{◌≡◌, IfOk, IfErr, IfSome, option_map};
ghost use Rattle.certificate.specs.Texts.{IsCertText};
ghost use Rattle.certificate.specs.Valid.{IsValid, Proves};
ghost use Rattle.run_steps.specs.CertificateCauses.{IsUnverified};
ghost use Rattle.run_steps.specs.Certificates.{SaysVerified};
ghost use Rattle.hierarchy.specs.Soundness.{IsSound};
ghost use Rattle.journey.specs.Blocks.{IsBlockText, IsPrintableBody};
ghost use Rattle.run_steps.specs.Scene.{scene};
ghost use Rattle.run_steps.specs.Sayings.{end_of};
ghost use Rattle.answer_commands.specs.Commands.{SaysVerify};
ghost use Rattle.answer_commands.specs.Outputs.{best_certificates, body_of};

use crate::reading::read_both;
use certificate::{CertFault, CertVerdict, Certificate, read};
use fault_notes::invalid_certificate;
use hierarchy::Hierarchy;
use journey::{BlockBody, block};
use mode_network::{Journey, Network};
use plan_base::{Caps, Shelf, Sink, Time};
use run_steps::{Certificates, Outcome, Ports, write_verified};
use std::alloc::{AllocError, Global};

/// Certificates of earliest arrival, whose labels are over a hierarchy, if there is one.
#[derive(Drop)]
pub struct BestCertificates<'a> {
    pub network: &'a Network,
    pub hierarchy: Option<&'a Hierarchy>,
}

impl Certificates for BestCertificates<'_> {
    ghost use Rattle.std.specs.Prelude.{IfSome, option_map};
    ghost use Rattle.hierarchy.specs.Soundness.{IsSound};
    ghost use Rattle.answer_commands.specs.Outputs.{best_certificates};

    ghost may = { λ it. IfSome it.hierarchy (λ h. IsSound it.network.now h.now) };

    ghost kind = { λ it. best_certificates it.network.now (option_map (λ h. h.now) it.hierarchy) };

    fn shown(&self, alloc: Global, bytes: &[u8]) -> Result<Vec<u8>, Outcome> {
        self.network.known();
        let certificate = verified(alloc, self.network, self.hierarchy, bytes)?;
        let block = claimed_block(alloc, self.network, certificate)?;
        Ok(block)
    }

    fn invalid(
        &self,
        alloc: Global,
        path: &str,
        clause: u8,
        at: u64,
    ) -> Result<String, AllocError> {
        invalid_certificate(alloc, path, clause, at)
    }
}

/// The certificate that bytes spell, which is valid, over the hierarchy, if there is one.
///
/// # Errors
///
/// `BadCertificate` where the bytes are no text of a certificate, `Invalid` where they are that of one which is not valid,
/// and `OutOfMemory`.
pub fn verified(
    alloc: Global,
    network: &Network,
    hierarchy: Option<&Hierarchy>,
    bytes: &[u8],
) -> Result<Certificate, Outcome>
    requires { IfSome hierarchy (λ h. IsSound network.now h.now) }
    ensures text { IfOk result (IsCertText bytes.now) }
    ensures valid { IfOk result (IsValid network.now (option_map (λ h. h.now) hierarchy.entry)) }
    ensures proves { IfOk result (Proves network.now) }
    ensures err { IfErr result (IsUnverified
        (best_certificates network.now (option_map (λ h. h.now) hierarchy.entry)) bytes.now) }
{
    let certificate = match read(alloc, bytes) {
        Ok(certificate) => certificate,
        Err(CertFault::BadLine { line }) => return Err(Outcome::BadCertificate { line }),
        Err(CertFault::OutOfMemory) => return Err(Outcome::OutOfMemory),
    };
    match certificate::verify(alloc, network, hierarchy, &certificate)? {
        CertVerdict::Valid => Ok(certificate),
        CertVerdict::Invalid { clause, at } => Err(Outcome::Invalid { clause, at }),
    }
}

/// Reads the region of this name, the hierarchy, if one is named, and the certificate file, and writes that it is valid and
/// the block of its line and result.
#[tactic(auto, using(crate::proofs::LentLemmas::lent_sound))]
pub fn verify<F: Shelf, O: Sink, E: Sink>(
    ports: &mut Ports<F, O, E>,
    region: &str,
    certificate: &str,
    hierarchy: Option<&str>,
    caps: &Caps,
) -> Result<(), Outcome>
    ensures { SaysVerify caps.now region.now certificate.now (option_map (λ it. it.now) hierarchy.entry)
        (scene (F.meaning ports.old.shelf) (O.meaning ports.old.out))
        (scene (F.meaning ports.new.shelf) (O.meaning ports.new.out)) (end_of result) }
{
    let alloc = ports.alloc;
    let (shelf, notes) = (&mut ports.shelf, &mut ports.notes);
    let (network, hierarchy) = read_both(alloc, region, hierarchy, shelf, notes, caps)?;
    verify_over(ports, &network, hierarchy.as_ref(), certificate)
}

/// Reads the certificate of the file of this path, whose labels are over the hierarchy, if there is one, and writes that it
/// is valid and the block of its line and result.
fn verify_over<F: Shelf, O: Sink, E: Sink>(
    ports: &mut Ports<F, O, E>,
    network: &Network,
    hierarchy: Option<&Hierarchy>,
    path: &str,
) -> Result<(), Outcome>
    requires { IfSome hierarchy (λ h. IsSound network.now h.now) }
    ensures { SaysVerified (best_certificates network.now (option_map (λ h. h.now) hierarchy.entry)) path.now
        (scene (F.meaning ports.old.shelf) (O.meaning ports.old.out))
        (scene (F.meaning ports.new.shelf) (O.meaning ports.new.out)) (end_of result) }
{
    let best = BestCertificates { network, hierarchy };
    write_verified(ports, &best, path)
}

/// The block of what a certificate claims.
fn claimed_block(
    alloc: Global,
    network: &Network,
    certificate: Certificate,
) -> Result<Vec<u8>, AllocError>
    requires { IsPrintableBody network.now (body_of certificate.result) }
    ensures { IfOk result (λ block. IsBlockText network.now certificate.line (body_of certificate.result)
        block.items) }
{
    let Certificate {
        line,
        phases: _,
        result,
        labels: _,
    } = certificate;
    let body = body_of(result);
    block(alloc, network, line.as_slice(), &body)
}

/// What a certificate claims, as the body of a block.
fn body_of(claimed: Option<(Time, Journey)>) -> BlockBody
    ensures { result ≡ body_of claimed }
{
    match claimed {
        Some((_, journey)) => BlockBody::Journey(journey),
        None => BlockBody::Nothing,
    }
}
