//! What a list of labels is claimed to show.

use crate::label::Label;
use search_laws::Time;

/// The claim that a list of labels is closed: that no accepted walk which leaves a start at the departure, in ms, or later
/// reaches a target before the arrival, or at all where that is None.
#[derive(Clone, Copy)]
pub struct LabelClaim<'a> {
    pub starts: &'a [u32],
    pub targets: &'a [u32],
    pub departure: Time,
    pub arrival: Option<Time>,
    pub list: &'a [Label],
}
