//! The top call: what a command with these words does.

ghost use Rattle.std.specs.Prelude.{◌≡◌, map, string_bytes};
ghost use Rattle.plan_base.specs.declared.limits.Caps.{Caps};
ghost use Rattle.command_words.specs.Requests.{AsksFor, IsPlainForm, Request, request_of};
ghost use Rattle.run_steps.specs.Regions.{AreFull};
ghost use Rattle.run_steps.specs.Scene.{scene};
ghost use Rattle.run_steps.specs.Sayings.{end_of};
ghost use Rattle.planner_core.specs.Commands.{says};
ghost use Rattle.planner_core.specs.Outcomes.{IsOutcome};
ghost use Rattle.planner_core.specs.Complete.{IsComplete};
ghost use Rattle.planner_core.specs.inside.Working.{HasSize};

use answer_commands::{answer, certify, verify};
use command_help::help;
use command_words::{Command, Over, QueryLimits, TimesAsked, WordsFault, read_words};
use compile_commands::{compile, migrate};
use hierarchy_commands::{check, contract};
use late_commands::{certify_latest, few, latest, profile, verify_latest};
use matrix_commands::{Asking, TableFiles, matrix};
use plan_base::{Caps, Shelf, Sink, write_all};
use request_commands::requests;
use run_steps::{Limits, Outcome, Ports, seen_words, tell};
use sample_command::sample;
use std::alloc::{AllocError, Global};

/// Does what a command asks for.
fn carry_out<F: Shelf, O: Sink, E: Sink>(
    ports: &mut Ports<F, O, E>,
    command: Command<'_>,
    caps: &Caps,
) -> Result<(), Outcome>
    requires { HasSize (request_of command) }
    ensures { says caps.now (request_of command.entry)
        (scene (F.meaning ports.old.shelf) (O.meaning ports.old.out))
        (scene (F.meaning ports.new.shelf) (O.meaning ports.new.out)) (end_of result) }
{
    match command {
        Command::Compile {
            map,
            feed,
            days,
            format,
        } => compile(ports, map, feed, days, format, caps),
        Command::Migrate { region, format } => { migrate(ports, region, format, caps) }
        Command::Contract { region, keep } => { contract(ports, region, keep, caps) }
        Command::Answer(Over { region, subject }, hierarchy, limits) => {
            answer(ports, region, subject, hierarchy, limits_of(limits), caps)
        }
        Command::Certify(Over { region, subject }, hierarchy, limits) => {
            certify(ports, region, subject, hierarchy, limits_of(limits), caps)
        }
        Command::Verify(Over { region, subject }, hierarchy) => {
            verify(ports, region, subject, hierarchy, caps)
        }
        Command::Check(Over { region, subject }) => check(ports, region, subject, caps),
        Command::Sample { size } => {
            sample(ports.alloc, size, &mut ports.out, &mut ports.notes, caps)
        }
        Command::Latest(Over { region, subject }, limits) => {
            latest(ports, region, subject, limits_of(limits), caps)
        }
        Command::CertifyLatest(Over { region, subject }, limits) => {
            certify_latest(ports, region, subject, limits_of(limits), caps)
        }
        Command::VerifyLatest(Over { region, subject }) => {
            verify_latest(ports, region, subject, caps)
        }
        Command::Few(Over { region, subject }, places) => few(ports, region, subject, places, caps),
        Command::Profile(Over { region, subject }, window, places) => {
            profile(ports, region, subject, window, places, caps)
        }
        Command::Matrix(times) => matrix(ports, &files_of(&times), &asking_of(&times), caps),
        Command::Requests(Over { region, subject }, hierarchy, limits) => {
            requests(ports, region, subject, hierarchy, limits_of(limits), caps)
        }
    }
}

/// The limits of a query, as commands take them.
fn limits_of(limits: QueryLimits) -> Limits
    ensures { result ≡ record { places = limits.places; labels = limits.labels } }
{
    Limits {
        places: limits.places,
        labels: limits.labels,
    }
}

/// The files of a table of travel times.
fn files_of<'a>(times: &TimesAsked<'a>) -> TableFiles<'a>
    ensures { result ≡ record {
      region = times.now.region;
      origins = times.now.origins;
      destinations = times.now.destinations;
      hierarchy = times.now.hierarchy;
    } }
{
    TableFiles {
        region: times.region,
        origins: times.origins,
        destinations: times.destinations,
        hierarchy: times.hierarchy,
    }
}

/// When its journeys depart, and how they travel.
fn asking_of<'a>(times: &TimesAsked<'a>) -> Asking<'a>
    ensures { result ≡ record {
      date = times.now.date;
      time = times.now.time;
      expr = times.now.expr;
      places = times.now.places;
    } }
{
    Asking {
        date: times.date,
        time: times.time,
        expr: times.expr,
        places: times.places,
    }
}

/// Does what a command with these words asks for, within these limits.
fn run_within<F: Shelf, O: Sink, E: Sink>(
    ports: &mut Ports<F, O, E>,
    words: &[String],
    caps: &Caps,
) -> Outcome
    ensures outcome { IsOutcome caps.now (map string_bytes words.now)
        (scene (F.meaning ports.old.shelf) (O.meaning ports.old.out))
        (scene (F.meaning ports.new.shelf) (O.meaning ports.new.out)) result }
    ensures complete { IsComplete caps.now (map string_bytes words.now)
        (scene (F.meaning ports.old.shelf) (O.meaning ports.old.out))
        (scene (F.meaning ports.new.shelf) (O.meaning ports.new.out)) result }
{
    let command = match read_words(ports.alloc, words) {
        Ok(command) => command,
        Err(WordsFault::Refused) => return Outcome::Usage,
        Err(WordsFault::OutOfMemory) => return Outcome::OutOfMemory,
    };
    match carry_out(ports, command, caps) {
        Ok(()) => Outcome::Done,
        Err(outcome) => outcome,
    }
}

/// Does what a command with these words asks for. The first word is the program's name, and each command but `compile` and
/// `sample` reads the region file that the command's first word names. Words ask for what `clap` finds in them, and those of the plain
/// form, whose options stand last, for what they say.
///
/// `compile` with a map and the folder of a timetable feed writes the region of both over some days, and `migrate` writes a
/// region anew, in the other format. `contract` writes a hierarchy of the region's road layers, which `check` accepts.
/// `answer` with a queries file writes the right block of each query line, in order. `certify` with a query line writes a
/// certificate for it, or its block where it is refused. `verify` with a certificate file writes `valid` and the block of
/// the certificate's line and result, which is the right block of that line. `check` with a hierarchy file writes `sound`
/// where the hierarchy is sound for the region. With the option `--hierarchy` the commands `answer`, `certify`, `verify`,
/// `matrix` and `requests` go over a hierarchy, which is checked at once; `answer` then tells behind the blocks how many labels its searches had.
/// `sample` with a size writes the summary of a made city. `few` with a queries file writes for each line the journeys that are
/// worth their boardings, and `latest` the journey that departs last; `requests` writes a reply to each line of a file, by the
/// command that it begins with; `certify-latest` and `verify-latest` do for it what
/// `certify` and `verify` do for the earliest arrival. `profile` with a queries file and a window writes for each line the
/// departures of the window that are worth taking. `matrix` with a file of origins, a file of destinations, a date, a time and an
/// expression writes how long it takes from each origin to each destination.
///
/// The outcome says how the run ended. Where the shelf tells that all files are there, they are without fault, and no count
/// of faults rose, all of the work is done, unless memory ran out. `notes` is told the outcome, for people, and
/// where the words ask for nothing, what they may be. A fault of `notes` changes nothing.
pub fn run<F: Shelf, O: Sink, E: Sink>(ports: &mut Ports<F, O, E>, words: &[String]) -> Outcome
    ensures outcome { (caps : Caps) × AreFull caps × IsOutcome caps (map string_bytes words.now)
        (scene (F.meaning ports.old.shelf) (O.meaning ports.old.out))
        (scene (F.meaning ports.new.shelf) (O.meaning ports.new.out)) result }
    ensures complete { (caps : Caps) × AreFull caps × IsComplete caps (map string_bytes words.now)
        (scene (F.meaning ports.old.shelf) (O.meaning ports.old.out))
        (scene (F.meaning ports.new.shelf) (O.meaning ports.new.out)) result }
    ensures plain { (r : Request) → IsPlainForm (map string_bytes words.now) r
        → AsksFor (map string_bytes words.now) r }
{
    let outcome = run_within(ports, words, &Caps::FULL);
    tell_end(ports.alloc, words, outcome, &mut ports.notes);
    outcome
}

/// Tells people how a run with these words ended; where they ask for nothing, what they may be.
fn tell_end<E: Sink>(alloc: Global, words: &[String], outcome: Outcome, notes: &mut E) {
    match outcome {
        Outcome::Usage => {
            if let Ok(text) = help_on(alloc, words) {
                let _ = write_all(notes, text.as_bytes());
            }
        }
        _ => {
            if let Some(note) = outcome.note() {
                tell(alloc, notes, String::from_str(alloc, note));
            }
        }
    }
}

/// Help, or which word is wrong, with the words as they can be shown.
fn help_on(alloc: Global, words: &[String]) -> Result<String, AllocError> {
    let words = seen_words(alloc, words)?;
    help(alloc, &words)
}
