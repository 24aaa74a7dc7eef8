//! What a certificate holds.

use mode_network::{Bytes, Journey};
use plan_base::Time;
use product_search::Label;
use std::marker::Model;

/// What claims to show that no journey answers a query line better: a journey and when it arrives, or that none
/// answers; and labels that nothing can be added to.
#[derive(Drop)]
pub struct Certificate {
    /// The query line.
    pub line: Bytes,
    /// Whether the labels are of the phases of a hierarchy, and not of the network's own nodes.
    pub phases: bool,
    /// The arrival, in milliseconds of the region clock, and a journey that has it; None claims that no journey answers.
    pub result: Option<(Time, Journey)>,
    /// When each product state of nodes and states of the automaton is reached first, as far as that is before the arrival.
    pub labels: Vec<Label>,
}

impl Model for Certificate {
    ghost use Rattle.certificate.specs.Certificates.{Claim};

    ghost Value = { Claim };

    ghost view = { λ c. record {
      line = c.line;
      phases = c.phases;
      result = c.result;
      labels =
          c.labels.items;
    } };
}
