//! Which of the certificates that are kept hold in a region.

ghost use Rattle.std.specs.Prelude.{◌≡◌, ◌++◌, OnOk, option_map};
ghost use Rattle.certificate.specs.Valid.{HaveTimes};
ghost use Rattle.journey.specs.Blocks.{AddsText};
ghost use Rattle.journey_book.specs.Reports.{IsJudged, says_valid, verdict_words};
ghost use Rattle.journey_book.specs.Rules.{MayReport};

use crate::reports::Report;
use certificate::{CertVerdict, Certificate, verify};
use plain_texts::push_decimal;
use std::alloc::{AllocError, Global};

/// Says of a certificate whether it is valid in the network, over the hierarchy, if there is one: `valid`, or
/// `invalid CLAUSE AT`.
pub(crate) fn push_judged(
    alloc: Global,
    report: &Report<'_>,
    certificate: &Certificate,
    text: &mut Vec<u8>,
) -> Result<(), AllocError>
    requires may { MayReport report.now }
    requires times { HaveTimes certificate.now }
    ensures { OnOk result (AddsText (IsJudged report.now.network.now
        (option_map (λ h. h.now) report.now.hierarchy) certificate.now) text.old.items text.new.items) }
{
    let verdict = verify(alloc, report.network, report.hierarchy, certificate)?;
    push_verdict(verdict, text)
}

/// Whether a line says `valid`.
pub(crate) fn says_valid(words: &[u8]) -> bool
    ensures { result ≡ says_valid words.now }
{
    words == b"valid".as_slice()
}

/// The words of a verdict.
fn push_verdict(verdict: CertVerdict, text: &mut Vec<u8>) -> Result<(), AllocError>
    ensures { OnOk result (text.new.items ≡ text.old.items ++ verdict_words verdict) }
{
    match verdict {
        CertVerdict::Valid => text.extend_from_slice(b"valid"),
        CertVerdict::Invalid { clause, at } => {
            text.extend_from_slice(b"invalid ")?;
            push_decimal(text, u128::from(clause))?;
            text.push(b' ')?;
            push_decimal(text, u128::from(at))
        }
    }
}
