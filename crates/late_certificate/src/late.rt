//! What a late certificate holds.

use mode_network::{Bytes, Journey};
use product_search::Label;
use std::marker::Model;

/// What claims to show that no journey that is at the destination by the deadline of a query line starts later: a journey,
/// or that none is in time; and labels that nothing can be added to.
#[derive(Drop)]
pub struct LateCertificate {
    /// The query line.
    pub line: Bytes,
    /// A journey that starts at the latest departure; None claims that none is in time.
    pub result: Option<Journey>,
    /// When each product state of nodes and states of the automaton is reached first in mirrored time, where the moment s
    /// stands for the deadline less s, as far as that is before the departure.
    pub labels: Vec<Label>,
}

impl Model for LateCertificate {
    ghost use Rattle.latest_departure.specs.ValidLate.{LateClaim};

    ghost Value = { LateClaim };

    ghost view = { λ c. record { line = c.line; result = c.result; labels = c.labels.items } };
}
