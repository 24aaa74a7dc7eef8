//! The top call: what a command with these words does to a book.

ghost use Rattle.std.specs.Prelude.{List, map, string_bytes};
ghost use Rattle.plan_base.specs.declared.limits.Caps.{Caps};
ghost use Rattle.run_steps.specs.Regions.{AreFull};
ghost use Rattle.run_steps.specs.Scene.{scene_of};
ghost use Rattle.journey_book.specs.Commands.{book_says};
ghost use Rattle.journey_book.specs.Outcomes.{IsBookComplete, IsBookOutcome};
ghost use Rattle.journey_book.specs.Requests.{book_request_of};
ghost use Rattle.journey_book.specs.Sayings.{book_end_of};

use crate::keeper::Keeper;
use crate::keeping::{drop_name, keep};
use crate::outcome::BookOutcome;
use crate::showing::{list, report, show};
use crate::words::{BookCommand, read_words};
use book_help::help;
use plan_base::{Caps, Shelf, Sink, write_all};
use run_steps::{Outcome, Ports, seen_words, tell};
use std::alloc::{AllocError, Global};

/// Does what a command asks for.
fn carry_out<F: Shelf, K: Keeper, O: Sink, E: Sink>(
    ports: &mut Ports<F, O, E>,
    command: BookCommand<'_>,
    keeper: &mut K,
    caps: &Caps,
) -> Result<(), BookOutcome>
    ensures { book_says caps.now (book_request_of command.entry)
        (scene_of (F.meaning ports.old.shelf) (O.meaning ports.old.out) (K.meaning keeper.old))
        (scene_of (F.meaning ports.new.shelf) (O.meaning ports.new.out) (K.meaning keeper.new))
        (book_end_of result) }
{
    match command {
        BookCommand::Keep(what) => keep(ports, what, keeper, caps),
        BookCommand::Drop { name } => drop_name(name, keeper, caps),
        BookCommand::List => list(ports.alloc, keeper, &mut ports.out, caps),
        BookCommand::Show { name } => show(name, keeper, &mut ports.out, caps),
        BookCommand::Report(asked) => report(ports, asked, keeper, caps),
    }
}

/// Does what a command with these words asks for, within these limits.
fn run_book_within<F: Shelf, K: Keeper, O: Sink, E: Sink>(
    ports: &mut Ports<F, O, E>,
    words: &[String],
    keeper: &mut K,
    caps: &Caps,
) -> BookOutcome
    ensures outcome { IsBookOutcome caps.now (map string_bytes words.now)
        (scene_of (F.meaning ports.old.shelf) (O.meaning ports.old.out) (K.meaning keeper.old))
        (scene_of (F.meaning ports.new.shelf) (O.meaning ports.new.out) (K.meaning keeper.new)) result }
    ensures complete { IsBookComplete caps.now (map string_bytes words.now)
        (scene_of (F.meaning ports.old.shelf) (O.meaning ports.old.out) (K.meaning keeper.old))
        (scene_of (F.meaning ports.new.shelf) (O.meaning ports.new.out) (K.meaning keeper.new)) result }
{
    let Some(command) = read_words(words) else {
        return BookOutcome::Common(Outcome::Usage);
    };
    match carry_out(ports, command, keeper, caps) {
        Ok(()) => BookOutcome::Common(Outcome::Done),
        Err(outcome) => outcome,
    }
}

/// Does what a command with these words asks for: the program's name, the book's, which is not looked at, the
/// command's, and what it works on.
///
/// `keep` keeps a certificate's bytes under a name, where it is valid in a region; `drop` removes a name; `list` writes
/// all names and `show` what is kept under one; `recheck` writes which of the certificates that are kept hold in a
/// region, and `review` what it does to their journeys; with `--fail` these two end as `NotWell` where one does not
/// hold, or is worse. Certificates are those over a hierarchy, if one is named. The outcome says how the run ended.
/// Where the shelf tells that all files are there, they are without fault, and no count of faults rose, all of the work
/// is done, unless nothing is kept under the name or memory ran out. `notes` is told why a run did not end with its
/// work done, and where the words ask for nothing, what they may be; a fault of `notes` changes nothing.
pub fn run_book<F: Shelf, K: Keeper, O: Sink, E: Sink>(
    ports: &mut Ports<F, O, E>,
    words: &[String],
    keeper: &mut K,
) -> BookOutcome
    ensures outcome { (caps : Caps) × AreFull caps × IsBookOutcome caps (map string_bytes words.now)
        (scene_of (F.meaning ports.old.shelf) (O.meaning ports.old.out) (K.meaning keeper.old))
        (scene_of (F.meaning ports.new.shelf) (O.meaning ports.new.out) (K.meaning keeper.new)) result }
    ensures complete { (caps : Caps) × AreFull caps × IsBookComplete caps (map string_bytes words.now)
        (scene_of (F.meaning ports.old.shelf) (O.meaning ports.old.out) (K.meaning keeper.old))
        (scene_of (F.meaning ports.new.shelf) (O.meaning ports.new.out) (K.meaning keeper.new)) result }
{
    let outcome = run_book_within(ports, words, keeper, &Caps::FULL);
    tell_end(ports.alloc, words, outcome, &mut ports.notes);
    outcome
}

/// Tells people how a run with these words ended; where they ask for nothing, what they may be.
fn tell_end<E: Sink>(alloc: Global, words: &[String], outcome: BookOutcome, notes: &mut E) {
    match outcome {
        BookOutcome::Common(Outcome::Usage) => {
            if let Ok(text) = help_on(alloc, words) {
                let _ = write_all(notes, text.as_bytes());
            }
        }
        _ => {
            if let Some(note) = outcome.note() {
                tell(alloc, notes, String::from_str(alloc, note));
            }
        }
    }
}

/// Help, or which word is wrong, with the words as they can be shown.
fn help_on(alloc: Global, words: &[String]) -> Result<String, AllocError> {
    let words = seen_words(alloc, words)?;
    help(alloc, &words)
}
