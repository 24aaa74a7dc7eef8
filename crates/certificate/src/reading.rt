//! From bytes to a certificate.

ghost use Rattle.std.specs.Prelude.{IfOk, IfErr, Ok};
ghost use Rattle.certificate.specs.Certificates.{Claim};
ghost use Rattle.certificate.specs.Texts.{IsCertText};
ghost use Rattle.certificate.specs.Making.{Gives};
ghost use Rattle.certificate.specs.Reading.{HasCause, cert_of};

use crate::certificate::Certificate;
use crate::line_by_line::read_lines;
use crate::verdict::CertFault;
use std::alloc::Global;

/// The certificate that these bytes spell.
///
/// The bytes are read as lines: `modeplan certificate 1`; `query ` and the query line; `graph plain` or
/// `graph phases`; `arrive TIME`, `start NODE TIME` and the steps of a journey, or `none`; `labels COUNT` and
/// so many lines `NODE STATE TIME`; and `end`. Each certificate has exactly one text. Other bytes are refused at
/// the first line that may not stand where it does: a line without its line feed may not, nor may one behind
/// `end`, and where lines are missing it is the line behind the last whole one.
#[tactic(auto, unfolding(crate::specs::Reading::cert_of))]
pub fn read(alloc: Global, bytes: &[u8]) -> Result<Certificate, CertFault>
    // What is read is a certificate that is spelled so.
    ensures found { IfOk result (IsCertText bytes.now) }
    // The certificate that is spelled so is read, unless memory runs out.
    ensures only { (c : Claim) → IsCertText bytes.now c → Gives result (Ok c) }
    // Each refusal has its cause.
    ensures cause { IfErr result (HasCause bytes.now) }
    // Which line it names.
    ensures exact { Gives result (cert_of bytes.now) }
{
    read_lines::<Certificate>(alloc, bytes)
}
