//! Where a line may stand.

ghost use Rattle.std.specs.Prelude.{◌≡◌};
ghost use Rattle.late_certificate.specs.Sections.{due_behind, is_last};

use crate::lines::Line;
use certificate::due::Due as UsualDue;
use certificate::lines::Line as UsualLine;
use plan_base::Time;

/// What may stand next in the text of a late certificate.
#[derive(Clone, Copy, Debug, PartialEq, Eq)]
pub enum Due {
    /// The first line.
    Head,
    /// The query line.
    Query,
    /// The departure, or that no journey is in time.
    Result,
    /// The start of the journey, at this time.
    Start(Time),
    /// What may stand next in any certificate.
    Usual(UsualDue),
}

impl Due {
    /// What is due behind a line; `None` exactly where the line may not stand here.
    pub fn behind(self, line: &Line) -> Option<Due>
        ensures { result ≡ due_behind self line.now }
    {
        match self {
            Due::Head => match line {
                Line::Head => Some(Due::Query),
                _ => None,
            },
            Due::Query => match line {
                Line::Usual(UsualLine::Query(_)) => Some(Due::Result),
                _ => None,
            },
            Due::Result => match line {
                Line::Depart(at) => Some(Due::Start(*at)),
                Line::Usual(UsualLine::Nothing) => Some(Due::Usual(UsualDue::Count)),
                _ => None,
            },
            Due::Start(depart) => match line {
                Line::Usual(UsualLine::Start { at, .. }) if *at == depart => {
                    Some(Due::Usual(UsualDue::Steps))
                }
                _ => None,
            },
            Due::Usual(due) => match line {
                Line::Usual(line) => due.behind(line).map(Due::Usual),
                _ => None,
            },
        }
    }

    /// Whether the line before was the last one.
    pub fn is_last(self) -> bool
        ensures { result ≡ is_last self }
    {
        match self {
            Due::Usual(due) => due.is_last(),
            _ => false,
        }
    }
}
