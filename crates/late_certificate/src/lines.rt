//! The lines of a late certificate's text.

use plan_base::Time;

/// A line, which it says by itself: what it means does not hang on the lines around it.
#[derive(Drop)]
pub enum Line {
    /// The first line.
    Head,
    /// When the journey starts.
    Depart(Time),
    /// A line as the text of any certificate has it.
    Usual(certificate::lines::Line),
}
