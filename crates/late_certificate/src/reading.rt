//! From bytes to a late certificate.

ghost use Rattle.std.specs.Prelude.{IfOk, IfErr, Ok};
ghost use Rattle.latest_departure.specs.ValidLate.{LateClaim};
ghost use Rattle.late_certificate.specs.Texts.{IsLateText};
ghost use Rattle.certificate.specs.Making.{Gives};
ghost use Rattle.late_certificate.specs.Reading.{HasCause, late_of};

use crate::late::LateCertificate;
use certificate::CertFault;
use certificate::line_by_line::read_lines;
use std::alloc::Global;

/// The late certificate that these bytes spell.
///
/// The bytes are read as lines: `modeplan late 1`; `query ` and the query line; `depart TIME`, `start NODE TIME` with the
/// same time and the steps of a journey, or `none`; `labels COUNT` and so many lines `NODE STATE TIME`, whose times are
/// mirrored; and `end`. Each certificate has exactly one text. Other bytes are refused at the first line that may not stand
/// where it does: a line without its line feed may not, nor may one behind `end`, and where lines are missing it is the line
/// behind the last whole one.
#[tactic(auto, unfolding(crate::specs::Reading::late_of))]
pub fn read_late(alloc: Global, bytes: &[u8]) -> Result<LateCertificate, CertFault>
    // What is read is a certificate that is spelled so.
    ensures found { IfOk result (IsLateText bytes.now) }
    // The certificate that is spelled so is read, unless memory runs out.
    ensures only { (c : LateClaim) → IsLateText bytes.now c → Gives result (Ok c) }
    // Each refusal has its cause.
    ensures cause { IfErr result (HasCause bytes.now) }
    // Which line it names.
    ensures exact { Gives result (late_of bytes.now) }
{
    read_lines::<LateCertificate>(alloc, bytes)
}
