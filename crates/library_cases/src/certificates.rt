//! Certificates, and the journeys that they hold.

ghost use Rattle.std.specs.Prelude.{IsTrue, All};
ghost use Rattle.journey.specs.Ends.{HasTime, HasTimes};
ghost use Rattle.journey.specs.Blocks.{IsPrintable};
ghost use Rattle.journey.specs.Real.{IsReal};

use crate::parts;
use case_script::Answer;
use certificate::{Certificate, print, read, verify};
use journey::{BlockBody, block, ends, first_bad, is_real, word};
use mode_network::{Bytes, Journey, Network, Step};

/// `certificate TEXT`: the first line that may not stand in a certificate, or whether it is printed as the same text.
pub fn certificate(out: &mut Answer, text: &[u8]) {
    match read(out.alloc(), text) {
        Ok(certificate) => {
            let same = parts::is_text(print(out.alloc(), &certificate), text);
            out.shown("a certificate, printed as the same text: ", same);
        }
        Err(fault) => out.debug("", &fault),
    }
}

/// `verdict REGION TEXT`: the verdict on a certificate.
pub fn verdict(out: &mut Answer, network: &Network, text: &[u8]) {
    match read(out.alloc(), text) {
        Ok(certificate) => {
            if let Ok(verdict) = verify(out.alloc(), network, None, &certificate) {
                out.debug("", verdict);
            }
        }
        Err(fault) => out.debug("", &fault),
    }
}

/// `journey REGION TEXT`: the first step of a certificate's journey that is none, or where the journey ends, and its block.
pub fn journey(out: &mut Answer, network: &Network, text: &[u8]) {
    match read(out.alloc(), text) {
        Ok(certificate) => print_claim(out, network, certificate),
        Err(fault) => out.debug("", &fault),
    }
}

fn print_claim(out: &mut Answer, network: &Network, certificate: Certificate) {
    let Certificate {
        line,
        phases: _,
        result,
        labels: _,
    } = certificate;
    match result {
        Some((_, journey)) => print_journey(out, network, journey, &line),
        None => out.text("no journey"),
    }
}

fn has_time(step: Step) -> bool
    ensures { IsTrue result → HasTime step }
{
    match step {
        Step::Wait { until } => until < 1_000_000_000_000_000_000_000_000_000_000,
        Step::Road { .. } | Step::Link { .. } | Step::Stand | Step::Ride { .. } => true,
    }
}

/// Whether the waits are at times that are counted.
fn have_times(steps: &[Step]) -> bool
    ensures { IsTrue result → All HasTime steps.now }
{
    for step in steps {
        if !has_time(*step) {
            return false;
        }
    }
    true
}

fn print_journey(out: &mut Answer, network: &Network, journey: Journey, line: &Bytes) {
    if journey.at >= 1_000_000_000_000_000_000_000_000_000_000 || !have_times(&journey.steps) {
        out.text("a time is too late");
    } else if journey.start >= network.nodes() {
        out.text("no such node");
    } else if !is_real(network, &journey) {
        out.debug("first bad step ", first_bad(network, &journey));
    } else {
        print_ends(out, network, &journey);
        print_block(out, network, journey, line);
    }
}

fn print_ends(out: &mut Answer, network: &Network, journey: &Journey)
    requires times { HasTimes journey.now }
    requires real { IsReal network.now journey.now }
{
    let (node, at) = ends(network, journey);
    out.shown("to ", node);
    out.shown(" at ", at);
    if let Ok(letters) = word(out.alloc(), network, journey) {
        out.debug(", letters ", &letters);
    }
    out.text("\n");
}

fn print_block(out: &mut Answer, network: &Network, journey: Journey, line: &Bytes)
    requires { IsPrintable network.now journey }
{
    let body = BlockBody::Journey(journey);
    if let Ok(block) = block(out.alloc(), network, line.as_slice(), &body) {
        out.bytes(&block);
    }
}
