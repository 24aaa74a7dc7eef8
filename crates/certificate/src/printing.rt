//! From a certificate to its text.

ghost use Rattle.std.specs.Prelude.{◌≡◌, ◌<◌, ◌^◌, ◌++◌, ◌∷◌, [], decimal, map, All, IfOk, OnOk};
ghost use Rattle.std.specs.List.{AllByRecursion, flat_map};
ghost use Rattle.plain_texts.specs.Lines.{lines_text, spaced, with_feed};
ghost use Rattle.mode_network.specs.declared.steps.Step.TheVariants.{Ride};
ghost use Rattle.certificate.specs.declared.lines.Line.TheVariants as line;
ghost use Rattle.journey.specs.Ends.{HasTime};
ghost use Rattle.certificate.specs.Lines.{FitsLabel, FitsLine, FitsRide, FitsStep, HasLabelTime, IsTime, spelled};
ghost use Rattle.certificate.specs.Texts.{FitsCertificate, FitsResult, IsCertText, front_lines, label_lines, result_lines};

use crate::certificate::Certificate;
use mode_network::{Journey, Step};
use plain_texts::{push_decimal, push_line_feed};
use plan_base::Time;
use product_search::Label;
use std::alloc::{AllocError, Global};

/// A space and a number.
pub fn push_field(out: &mut Vec<u8>, n: u128) -> Result<(), AllocError>
    ensures { OnOk result (out.new.items ≡ out.old.items ++ 32 ∷ decimal n) }
{
    out.push(b' ')?;
    push_decimal(out, n)
}

/// A line of a word and a number.
#[tactic(auto, unfolding(plain_texts::specs::Lines::spaced))]
fn push_numbered(out: &mut Vec<u8>, word: &[u8], n: u128) -> Result<(), AllocError>
    ensures { OnOk result (out.new.items ≡ out.old.items ++ with_feed (spaced (word.now ∷ decimal n ∷ []))) }
{
    out.extend_from_slice(word)?;
    push_field(out, n)?;
    push_line_feed(out)
}

/// The line of a ride.
#[tactic(auto, unfolding(plain_texts::specs::Lines::spaced))]
fn push_ride(
    out: &mut Vec<u8>,
    trip: u32,
    day: u32,
    board: u32,
    alight: u32,
) -> Result<(), AllocError>
    ensures fits { FitsRide trip day board alight }
    ensures line { OnOk result (out.new.items ≡ out.old.items ++ with_feed
        (spelled (line.Step (Ride trip day board alight)))) }
{
    out.extend_from_slice(b"ride")?;
    push_field(out, u128::from(trip))?;
    push_field(out, u128::from(day))?;
    push_field(out, u128::from(board))?;
    push_field(out, u128::from(alight))?;
    push_line_feed(out)
}

/// The line of a step.
#[tactic(auto, unfolding(plain_texts::specs::Lines::spaced))]
fn push_step(out: &mut Vec<u8>, step: Step) -> Result<(), AllocError>
    requires { HasTime step }
    ensures fits { OnOk result (FitsStep step) }
    ensures line { OnOk result (out.new.items ≡ out.old.items ++ with_feed (spelled (line.Step step))) }
{
    match step {
        Step::Wait { until } => push_numbered(out, b"wait", until),
        Step::Road { to } => push_numbered(out, b"road", u128::from(to)),
        Step::Link { to } => push_numbered(out, b"link", u128::from(to)),
        Step::Stand => out.extend_from_slice(b"stand\n"),
        Step::Ride {
            trip,
            day,
            board,
            alight,
        } => push_ride(out, trip, day, board, alight),
    }
}

/// The lines of some steps.
pub fn push_steps(out: &mut Vec<u8>, steps: &[Step]) -> Result<(), AllocError>
    requires { All HasTime steps.now }
    ensures fit { OnOk result (All FitsStep steps.now) }
    ensures lines { OnOk result (out.new.items ≡ out.old.items ++ flat_map
        (λ step. with_feed (spelled (line.Step step))) steps.now) }
{
    for step in steps {
        push_step(out, *step)?;
    }
    Ok(())
}

/// The line of a label.
#[tactic(auto, unfolding(plain_texts::specs::Lines::spaced))]
fn push_label(out: &mut Vec<u8>, label: Label) -> Result<(), AllocError>
    requires { IsTime label.at }
    ensures fits { OnOk result (FitsLabel label) }
    ensures line { OnOk result (out.new.items ≡ out.old.items ++ with_feed (spelled (line.Label label))) }
{
    push_decimal(out, u128::from(label.node))?;
    push_field(out, u128::from(label.state))?;
    push_field(out, label.at)?;
    push_line_feed(out)
}

/// The lines of some labels.
fn push_labels(out: &mut Vec<u8>, labels: &[Label]) -> Result<(), AllocError>
    requires { All HasLabelTime labels.now }
    ensures fit { OnOk result (All FitsLabel labels.now) }
    ensures lines { OnOk result (out.new.items ≡ out.old.items ++ flat_map
        (λ label. with_feed (spelled (line.Label label))) labels.now) }
{
    for label in labels {
        push_label(out, *label)?;
    }
    Ok(())
}

/// The line of an arrival.
#[tactic(auto, unfolding(plain_texts::specs::Lines::spaced))]
fn push_arrival(out: &mut Vec<u8>, at: Time) -> Result<(), AllocError>
    ensures { OnOk result (out.new.items ≡ out.old.items ++ with_feed (spelled (line.Arrive at))) }
{
    push_numbered(out, b"arrive", at)
}

/// The line of a start.
#[tactic(auto, unfolding(plain_texts::specs::Lines::spaced))]
pub fn push_start(out: &mut Vec<u8>, node: u32, at: Time) -> Result<(), AllocError>
    ensures node { node < 2 ^ 32 }
    ensures line { OnOk result (out.new.items ≡ out.old.items ++ with_feed (spelled (line.Start node at))) }
{
    out.extend_from_slice(b"start")?;
    push_field(out, u128::from(node))?;
    push_field(out, at)?;
    push_line_feed(out)
}

/// The lines of the result: of an arrival and a journey that has it, or that no journey answers.
#[tactic(auto, unfolding(plain_texts::specs::Lines::spaced))]
fn push_result(out: &mut Vec<u8>, answer: &Option<(Time, Journey)>) -> Result<(), AllocError>
    requires { FitsResult answer.now }
    ensures fit { OnOk result (AllByRecursion FitsLine (result_lines answer.now)) }
    ensures lines { OnOk result (out.new.items ≡ out.old.items ++ lines_text
        (map spelled (result_lines answer.now))) }
{
    match answer {
        Some((at, journey)) => {
            push_arrival(out, *at)?;
            push_start(out, journey.start, journey.at)?;
            push_steps(out, &journey.steps)?;
        }
        None => out.extend_from_slice(b"none\n")?,
    }
    Ok(())
}

/// The line that says how many labels follow.
#[tactic(auto, unfolding(plain_texts::specs::Lines::spaced))]
fn push_count(out: &mut Vec<u8>, count: u64) -> Result<(), AllocError>
    ensures count { count < 2 ^ 64 }
    ensures line { OnOk result (out.new.items ≡ out.old.items ++ with_feed (spelled (line.Labels count))) }
{
    push_numbered(out, b"labels", u128::from(count))
}

/// The lines behind the result: how many labels there are, these, and the end.
pub fn push_rest(out: &mut Vec<u8>, labels: &[Label]) -> Result<(), AllocError>
    requires { All HasLabelTime labels.now }
    ensures fit { OnOk result (AllByRecursion FitsLine (label_lines labels.now)) }
    ensures lines { OnOk result (out.new.items ≡ out.old.items ++ lines_text
        (map spelled (label_lines labels.now))) }
{
    push_count(out, labels.len() as u64)?;
    push_labels(out, labels)?;
    out.extend_from_slice(b"end\n")?;
    Ok(())
}

/// The query line.
#[tactic(auto, unfolding(plain_texts::specs::Lines::spaced))]
pub fn push_query(out: &mut Vec<u8>, query: &[u8]) -> Result<(), AllocError>
    ensures { OnOk result (out.new.items ≡ out.old.items ++ with_feed (spelled (line.Query query.now))) }
{
    out.extend_from_slice(b"query ")?;
    out.extend_from_slice(query)?;
    push_line_feed(out)
}

/// The line of the graph.
#[tactic(auto, unfolding(plain_texts::specs::Lines::spaced))]
fn push_graph(out: &mut Vec<u8>, phases: bool) -> Result<(), AllocError>
    ensures { OnOk result (out.new.items ≡ out.old.items ++ with_feed (spelled (line.Graph phases))) }
{
    if phases {
        out.extend_from_slice(b"graph phases\n")
    } else {
        out.extend_from_slice(b"graph plain\n")
    }
}

/// The lines before the result: the head, the query line and the graph.
fn push_front(out: &mut Vec<u8>, query: &[u8], phases: bool) -> Result<(), AllocError>
    ensures { OnOk result (out.new.items ≡ out.old.items ++ lines_text
        (map spelled (front_lines query.now phases))) }
{
    out.extend_from_slice(b"modeplan certificate 1\n")?;
    push_query(out, query)?;
    push_graph(out, phases)?;
    Ok(())
}

/// The text of a certificate whose query line has no line feed and whose times have at most 30 digits.
///
/// This is the certificate's one text, so [`read`](crate::read) answers the certificate again, unless memory
/// runs out.
pub fn print(alloc: Global, certificate: &Certificate) -> Result<Vec<u8>, AllocError>
    requires { FitsCertificate certificate.now }
    ensures { IfOk result (λ text. IsCertText text.items certificate.now) }
{
    let mut out = Vec::new(alloc);
    push_front(&mut out, certificate.line.as_slice(), certificate.phases)?;
    push_result(&mut out, &certificate.result)?;
    push_rest(&mut out, &certificate.labels)?;
    Ok(out)
}
