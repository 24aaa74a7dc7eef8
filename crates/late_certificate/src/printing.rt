//! From a late certificate to its text.

ghost use Rattle.std.specs.Prelude.{◌≡◌, ◌++◌, map, IfOk, OnOk};
ghost use Rattle.std.specs.List.{AllByRecursion};
ghost use Rattle.plain_texts.specs.Lines.{lines_text, with_feed};
ghost use Rattle.late_certificate.specs.declared.lines.Line.TheVariants as line;
ghost use Rattle.late_certificate.specs.Lines.{FitsLine, spelled};
ghost use Rattle.late_certificate.specs.Texts.{FitsLate, FitsLateResult, IsLateText, front_lines, result_lines};

use crate::late::LateCertificate;
use certificate::printing::{push_field, push_query, push_rest, push_start, push_steps};
use mode_network::Journey;
use plain_texts::push_line_feed;
use plan_base::Time;
use std::alloc::{AllocError, Global};

/// The line of a departure.
#[tactic(auto, unfolding(plain_texts::specs::Lines::spaced))]
fn push_departure(out: &mut Vec<u8>, at: Time) -> Result<(), AllocError>
    ensures { OnOk result (out.new.items ≡ out.old.items ++ with_feed (spelled (line.Depart at))) }
{
    out.extend_from_slice(b"depart")?;
    push_field(out, at)?;
    push_line_feed(out)
}

/// The lines of the result: of a departure and a journey that has it, or that none is in time.
#[tactic(auto, unfolding(plain_texts::specs::Lines::spaced))]
fn push_result(out: &mut Vec<u8>, answer: &Option<Journey>) -> Result<(), AllocError>
    requires { FitsLateResult answer.now }
    ensures fit { OnOk result (AllByRecursion FitsLine (result_lines answer.now)) }
    ensures lines { OnOk result (out.new.items ≡ out.old.items ++ lines_text
        (map spelled (result_lines answer.now))) }
{
    match answer {
        Some(journey) => {
            push_departure(out, journey.at)?;
            push_start(out, journey.start, journey.at)?;
            push_steps(out, &journey.steps)?;
        }
        None => out.extend_from_slice(b"none\n")?,
    }
    Ok(())
}

/// The lines before the result: the head and the query line.
fn push_front(out: &mut Vec<u8>, query: &[u8]) -> Result<(), AllocError>
    ensures { OnOk result (out.new.items ≡ out.old.items ++ lines_text
        (map spelled (front_lines query.now))) }
{
    out.extend_from_slice(b"modeplan late 1\n")?;
    push_query(out, query)?;
    Ok(())
}

/// The text of a late certificate whose query line has no line feed and whose times have at most 30 digits.
///
/// This is the certificate's one text, so [`read_late`](crate::read_late) answers the certificate again, unless memory runs
/// out.
pub fn print_late(alloc: Global, certificate: &LateCertificate) -> Result<Vec<u8>, AllocError>
    requires { FitsLate certificate.now }
    ensures { IfOk result (λ text. IsLateText text.items certificate.now) }
{
    let mut out = Vec::new(alloc);
    push_front(&mut out, certificate.line.as_slice())?;
    push_result(&mut out, &certificate.result)?;
    push_rest(&mut out, &certificate.labels)?;
    Ok(out)
}
