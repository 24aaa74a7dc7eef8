//! The command `verify-latest`: what a late certificate shows.

ghost use Rattle.std.specs.Prelude.{IfOk, IfSome};
ghost use Rattle.journey.specs.Blocks.{IsPrintable};
ghost use Rattle.latest_departure.specs.Blocks.{IsAnswerBlock};
ghost use Rattle.run_steps.specs.Scene.{scene};
ghost use Rattle.run_steps.specs.Sayings.{end_of};
ghost use Rattle.late_commands.specs.Commands.{SaysVerifyLatest};

use fault_notes::invalid_late_certificate;
use late_certificate::{CertFault, CertVerdict, LateCertificate, read_late, verify_late};
use latest_departure::answer_block;
use mode_network::Network;
use plan_base::{Caps, Shelf, Sink};
use run_steps::{Certificates, Outcome, Ports, read_region, write_verified};
use std::alloc::{AllocError, Global};

/// Certificates of the latest departure.
#[derive(Drop)]
struct LateCertificates<'a> {
    network: &'a Network,
}

impl Certificates for LateCertificates<'_> {
    ghost use Rattle.late_commands.specs.Outputs.{late_certificates};

    ghost kind = { λ it. late_certificates it.network.now };

    fn shown(&self, alloc: Global, bytes: &[u8]) -> Result<Vec<u8>, Outcome> {
        self.network.known();
        let certificate = match read_late(alloc, bytes) {
            Ok(certificate) => certificate,
            Err(CertFault::BadLine { line }) => return Err(Outcome::BadCertificate { line }),
            Err(CertFault::OutOfMemory) => return Err(Outcome::OutOfMemory),
        };
        match verify_late(alloc, self.network, &certificate)? {
            CertVerdict::Valid => {}
            CertVerdict::Invalid { clause, at } => return Err(Outcome::Invalid { clause, at }),
        }
        let block = claimed_block(alloc, self.network, certificate)?;
        Ok(block)
    }

    fn invalid(
        &self,
        alloc: Global,
        path: &str,
        clause: u8,
        at: u64,
    ) -> Result<String, AllocError> {
        invalid_late_certificate(alloc, path, clause, at)
    }
}

/// Reads the region and the late certificate's file of these names, and writes that it is valid and the late block of its line
/// and result.
pub fn verify_latest<F: Shelf, O: Sink, E: Sink>(
    ports: &mut Ports<F, O, E>,
    region: &str,
    certificate: &str,
    caps: &Caps,
) -> Result<(), Outcome>
    ensures { SaysVerifyLatest caps.now region.now certificate.now
        (scene (F.meaning ports.old.shelf) (O.meaning ports.old.out))
        (scene (F.meaning ports.new.shelf) (O.meaning ports.new.out)) (end_of result) }
{
    let network = read_region(
        ports.alloc,
        &mut ports.shelf,
        region,
        caps,
        &mut ports.notes,
    )?;
    let late = LateCertificates { network: &network };
    write_verified(ports, &late, certificate)
}

/// The late block of what a certificate claims.
fn claimed_block(
    alloc: Global,
    network: &Network,
    certificate: LateCertificate,
) -> Result<Vec<u8>, AllocError>
    requires { IfSome certificate.result (IsPrintable network.now) }
    ensures { IfOk result (λ block. IsAnswerBlock network.now certificate.line certificate.result
        block.items) }
{
    let LateCertificate {
        line,
        result,
        labels: _,
    } = certificate;
    answer_block(alloc, network, line.as_slice(), &result)
}
