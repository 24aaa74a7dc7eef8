//! Where a line may stand.

ghost use Rattle.std.specs.Prelude.{◌≡◌};
ghost use Rattle.certificate.specs.Sections.{due_behind, is_last};

use crate::lines::Line;

/// What may stand next in a certificate text.
#[derive(Clone, Copy, Debug, PartialEq, Eq)]
pub enum Due {
    /// The first line.
    Head,
    /// The query line.
    Query,
    /// The graph of the labels.
    Graph,
    /// The arrival, or that no journey answers.
    Result,
    /// The start of the journey.
    Start,
    /// A step of the journey, or the count of the labels.
    Steps,
    /// The count of the labels.
    Count,
    /// So many labels, and then the end.
    Labels(u64),
    /// Nothing.
    Nothing,
}

impl Due {
    /// What is due behind a line; `None` exactly where the line may not stand here.
    pub fn behind(self, line: &Line) -> Option<Due>
        ensures { result ≡ due_behind self line.now }
    {
        match self {
            Due::Head => match line {
                Line::Head => Some(Due::Query),
                _ => None,
            },
            Due::Query => match line {
                Line::Query(_) => Some(Due::Graph),
                _ => None,
            },
            Due::Graph => match line {
                Line::Graph { .. } => Some(Due::Result),
                _ => None,
            },
            Due::Result => match line {
                Line::Arrive(_) => Some(Due::Start),
                Line::Nothing => Some(Due::Count),
                _ => None,
            },
            Due::Start => match line {
                Line::Start { .. } => Some(Due::Steps),
                _ => None,
            },
            Due::Steps => match line {
                Line::Step(_) => Some(Due::Steps),
                Line::Labels { count } => Some(Due::Labels(*count)),
                _ => None,
            },
            Due::Count => match line {
                Line::Labels { count } => Some(Due::Labels(*count)),
                _ => None,
            },
            Due::Labels(more) => match line {
                Line::Label(_) if 0 < more => Some(Due::Labels(more - 1)),
                Line::End if more == 0 => Some(Due::Nothing),
                _ => None,
            },
            Due::Nothing => None,
        }
    }

    /// Whether the line before was the last one.
    pub fn is_last(self) -> bool
        ensures { result ≡ is_last self }
    {
        match self {
            Due::Nothing => true,
            _ => false,
        }
    }
}
