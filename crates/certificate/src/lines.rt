//! The lines of a certificate text.

use mode_network::{Bytes, Step};
use plan_base::Time;
use product_search::Label;

/// A line, which it says by itself: what it means does not hang on the lines around it.
#[derive(Drop)]
pub enum Line {
    /// The first line.
    Head,
    /// The query line, behind the word `query` and a space.
    Query(Bytes),
    /// Whether the labels are of the phases of a hierarchy.
    Graph { phases: bool },
    /// When the journey arrives.
    Arrive(Time),
    /// That no journey answers.
    Nothing,
    /// Where and when the journey starts.
    Start { node: u32, at: Time },
    /// A step of the journey.
    Step(Step),
    /// How many lines of labels follow.
    Labels { count: u64 },
    /// A label.
    Label(Label),
    /// The last line.
    End,
}
