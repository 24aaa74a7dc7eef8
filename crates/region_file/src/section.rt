//! Where a line may stand.

ghost use Rattle.std.specs.Prelude.{◌≡◌};
ghost use Rattle.region_file.specs.Sections.{behind, behind_days, calls_due_behind, is_due, is_end, may_follow, may_stand, rank, section_of, start};

use crate::lines::Line;

/// The sections of a region text, in their order. `Start` stands before the first line.
#[derive(Clone, Copy)]
pub enum Section {
    Start,
    Days,
    Nodes,
    Stops,
    Switches,
    Arcs,
    Links,
    /// Each trip with its calls behind it.
    Trips,
    End,
}

impl Section {
    /// The section that a line stands in.
    pub fn of(line: &Line) -> Section
        ensures { result ≡ section_of line.now }
    {
        match line {
            Line::Days(_) => Section::Days,
            Line::Road(..) => Section::Nodes,
            Line::Stop(..) => Section::Stops,
            Line::Switch(..) => Section::Switches,
            Line::Arc(_) => Section::Arcs,
            Line::Link(_) => Section::Links,
            Line::Trip { .. } => Section::Trips,
            Line::Call(_) => Section::Trips,
            Line::End => Section::End,
        }
    }

    /// The place of a section in their order.
    fn rank(self) -> u8
        ensures { result ≡ rank self }
    {
        match self {
            Section::Start => 0,
            Section::Days => 1,
            Section::Nodes => 2,
            Section::Stops => 3,
            Section::Switches => 4,
            Section::Arcs => 5,
            Section::Links => 6,
            Section::Trips => 7,
            Section::End => 8,
        }
    }

    /// Whether a line of the section `next` may stand behind one of this section. One line of days comes
    /// first; then the sections stand in their order, and nothing stands behind the end.
    pub fn may_follow(self, next: Section) -> bool
        ensures { result ≡ may_follow self next }
    {
        let (before, after) = (self.rank(), next.rank());
        if before == Section::Start.rank() {
            after == Section::Days.rank()
        } else {
            Section::Days.rank() < after && before <= after && before < Section::End.rank()
        }
    }
}

/// A place between two lines of a region text: the section of the line before, and how many calls of the last
/// trip are still to come.
#[derive(Clone, Copy)]
pub struct Progress {
    pub section: Section,
    pub calls_due: u32,
}

impl Progress {
    /// The place before the first line.
    pub fn start() -> Progress
        ensures { result ≡ start }
    {
        Progress {
            section: Section::Start,
            calls_due: 0,
        }
    }

    /// The place behind the line of the days.
    pub fn behind_days() -> Progress
        ensures { result ≡ behind_days }
    {
        Progress {
            section: Section::Days,
            calls_due: 0,
        }
    }

    /// Whether a line is due here: a call where calls are still to come, and any other line where none is.
    fn is_due(self, line: &Line) -> bool
        ensures { result ≡ is_due self.calls_due line.now }
    {
        match line {
            Line::Call(_) => 0 < self.calls_due,
            _ => self.calls_due == 0,
        }
    }

    /// How many calls are to come behind a line that is due here.
    fn due_behind(self, line: &Line) -> u32
        ensures { result ≡ calls_due_behind self.calls_due line.now }
    {
        match line {
            Line::Trip { calls, .. } => *calls,
            Line::Call(_) => self.calls_due.saturating_sub(1),
            _ => 0,
        }
    }

    /// Whether a line may stand here.
    pub fn may_follow(self, line: &Line) -> bool
        ensures { result ≡ may_stand self line.now }
    {
        self.section.may_follow(Section::of(line)) && self.is_due(line)
    }

    /// The place behind a line that stands here.
    pub fn behind(self, line: &Line) -> Progress
        ensures { result ≡ behind self line.now }
    {
        Progress {
            section: Section::of(line),
            calls_due: self.due_behind(line),
        }
    }

    /// Whether the line before was the last one.
    pub fn is_end(self) -> bool
        ensures { result ≡ is_end self }
    {
        self.section.rank() == Section::End.rank()
    }
}
