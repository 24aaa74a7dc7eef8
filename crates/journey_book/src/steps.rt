//! How the steps of a command end it.

ghost use Rattle.std.specs.Prelude.{◌≡◌};
ghost use Rattle.journey_book.specs.Sayings.{book_end_of};
ghost use Rattle.journey_book.specs.Working.{ended_by, outcome_of_keeper};

use crate::keeper::KeepFault;
use crate::outcome::BookOutcome;
use run_steps::Outcome;

/// How a run ends where the keeper refuses a call.
pub(crate) fn outcome_of_keeper(fault: KeepFault) -> BookOutcome
    ensures { result ≡ outcome_of_keeper fault }
{
    match fault {
        KeepFault::Failed => BookOutcome::KeepFault,
        KeepFault::OutOfMemory => BookOutcome::Common(Outcome::OutOfMemory),
    }
}

/// How a run ends with its last text, which was written, or was not.
pub(crate) fn ended(
    written: Result<(), Outcome>,
    end: Result<(), BookOutcome>,
) -> Result<(), BookOutcome>
    ensures { book_end_of result ≡ ended_by written (book_end_of end) }
{
    match written {
        Ok(()) => end,
        Err(outcome) => Err(BookOutcome::Common(outcome)),
    }
}
