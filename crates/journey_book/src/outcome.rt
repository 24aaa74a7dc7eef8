//! How a command of the book ends.

ghost use Rattle.std.specs.Prelude.{◌≡◌};
ghost use Rattle.journey_book.specs.Statuses.{book_status_of};

use run_steps::Outcome;
use std::alloc::AllocError;

/// How a command ends. Each outcome has an exit status.
#[derive(Clone, Copy, Debug)]
pub enum BookOutcome {
    /// It ends as a command of the planner does.
    Common(Outcome),
    /// The keeper failed.
    KeepFault,
    /// Nothing is kept under the name.
    Absent,
    /// The report is written, and a line of it is not well, for which the run was asked to fail.
    NotWell,
}

impl From<Outcome> for BookOutcome {
    ghost use Rattle.journey_book.specs.declared.outcome.BookOutcome.TheVariants.{Common};

    ghost from_gives = { λ outcome book_outcome. book_outcome ≡ Common outcome };

    fn from(outcome: Outcome) -> BookOutcome {
        BookOutcome::Common(outcome)
    }
}

impl From<AllocError> for BookOutcome {
    ghost use Rattle.run_steps.specs.declared.outcome.Outcome.TheVariants.{OutOfMemory};
    ghost use Rattle.journey_book.specs.declared.outcome.BookOutcome.TheVariants.{Common};

    ghost from_gives = { λ _ outcome. outcome ≡ Common OutOfMemory };

    fn from(_: AllocError) -> BookOutcome {
        BookOutcome::Common(Outcome::OutOfMemory)
    }
}

impl BookOutcome {
    /// The exit status of the program.
    pub fn status(self) -> u8
        ensures { result ≡ book_status_of self }
    {
        match self {
            BookOutcome::Common(outcome) => outcome.status(),
            BookOutcome::KeepFault => 14,
            BookOutcome::Absent => 15,
            BookOutcome::NotWell => 16,
        }
    }

    /// What people are told of the outcome at the end of a run. None where all is done; where they have been told, as a keeper
    /// tells why it failed; and where the words ask for nothing, of which there is more to say.
    pub fn note(self) -> Option<&'static str> {
        match self {
            BookOutcome::Common(Outcome::Done) | BookOutcome::KeepFault => None,
            BookOutcome::Common(outcome) => outcome.note(),
            BookOutcome::Absent => Some(
                "nothing is kept under this name; list writes the names that there are",
            ),
            BookOutcome::NotWell => Some("a line says that something does not hold, or is worse"),
        }
    }
}
