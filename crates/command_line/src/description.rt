//! The command line of `modeplan`, as `clap` and people are told of it.

ghost use Rattle.std.specs.Prelude.{◌≡◌, ◌++◌, ◌∷◌, [], IfOk, codes, false, fold, map};
ghost use Rattle.clap.specs.Words.{Shape, app_of, new_app, rule_of, with_subcommand};
ghost use Rattle.command_line.specs.Description.{IsToldToClap, command_of, earliest_commands, four, latest_commands, limits, many_commands, modeplan, option, region_commands, single_word, six, two, word};

use clap::{Arg, ArgAction, Command};
use std::alloc::{AllocError, Global};

/// The name of a command's first word among its matches.
pub const FIRST: &str = "first";
/// The name of its second word.
pub const SECOND: &str = "second";
/// The name of its third word.
pub const THIRD: &str = "third";
/// The name of its fourth word.
pub const FOURTH: &str = "fourth";
/// The name of its fifth word.
pub const FIFTH: &str = "fifth";
/// The name of its sixth word.
pub const SIXTH: &str = "sixth";
/// The option that says in which format a region is written.
pub const FORMAT: &str = "format";
/// The option that says by which rule local time goes.
pub const ZONE: &str = "zone";
/// The option that says how many nodes are kept.
pub const KEEP: &str = "keep";
/// The option that names the file of a hierarchy.
pub const HIERARCHY: &str = "hierarchy";
/// The option that says how many labels a search may have.
pub const LABELS: &str = "labels";
/// The option that says how many places for letters an expression may have.
pub const PLACES: &str = "places";
/// The option that says how long a window is.
pub const WINDOW: &str = "window";

const REGION: &str = "The region file, in either format";

const QUERIES: &str = "The file of query lines, each \"FROM TO DATE TIME EXPR\"";

const FORMAT_1: &str = "How the region is written: 1, lines of text, or 2, bytes [default: 1]";

const FORMAT_2: &str = "How the region is written: 1, lines of text, or 2, bytes [default: 2]";

/// What people read of a date.
pub const DATE: &str = "The first day: 8 digits, as 20240304, of the years 1900 to 2199";

/// What they read of a number of days.
pub const DAYS: &str = "How many days, from 1 to 60";

/// What they read of a zone rule.
pub const RULE: &str = "The rule of local time, a POSIX TZ text [default: each day has 24 hours]";

/// What they read of a number of nodes to be kept.
pub const KEPT: &str =
    "How many road nodes to keep in the core besides those that must be there, from 0 to 16777216 [default: 0]";

/// What they read of the size of a sample city.
pub const SIZE: &str = "How many rows and columns the city has, from 1 to 300";

/// What they read of the length of a window.
pub const LENGTH: &str = "How long the window is, from 00:00:01 to 24:00:00 [default: 02:00:00]";

/// What they read of a number of labels.
pub const LABEL_COUNT: &str =
    "How many labels a search may have, from 1 to 1000000000000; where it has more, it is stopped [default: any number]";

/// What they read of a number of places.
pub const PLACE_COUNT: &str =
    "How many places for letters an expression may have, from 1 to 200 [default: 200]";

const FROMS: &str = "The file of origins, one a line, as a query line has its FROM";

const TOS: &str = "The file of destinations, one a line, as a query line has its TO";

const DEPARTURE_DATE: &str = "The date of the departure, one of the region's, as 20240304";

const DEPARTURE_TIME: &str = "The time of the departure, as 08:00:00";

const EXPRESSION: &str = "How to travel, an expression as a query line has it";

const CLAIM: &str = "The certificate file";

const REQUESTS: &str = "The file of lines, each a command's name, a space, and its words";

const QUERY: &str = "The query line, as one word: \"FROM TO DATE TIME EXPR\"";

/// What is said at the end of the help on all commands.
const MORE: &str = "\
Example: modeplan answer town queries > journeys

Standard output has what a command writes, standard error the notes. The exit status is 0 where all is written, and 2
where the words are not those of a command. `modeplan COMMAND --help` says more of a command, `modeplan --version`
which version this is, and docs/COMMANDS.md all of it: what is written, and each exit status.";

/// A command with no words yet. `example` is said at the end of its help.
fn named<'a>(alloc: Global, name: &'a str, about: &'a str, example: &'a str) -> Command<'a>
    ensures { IsToldToClap result (new_app name.entry.now).top }
{
    Command::new(alloc, name).about(about).after_help(example)
}

/// A word that must be given. People read of it as `name`.
fn word<'a>(alloc: Global, id: &'a str, name: &'a str, help: &'a str) -> Arg<'a>
    ensures rule { rule_of result ≡ word id.entry.now }
    ensures local { result.global ≡ false }
{
    Arg::new(alloc, id)
        .value_name(name)
        .help(help)
        .required(true)
        .action(ArgAction::Set)
}

/// An option, which has one value. People read of that as `value`.
fn option<'a>(alloc: Global, name: &'a str, value: &'a str, help: &'a str) -> Arg<'a>
    ensures rule { rule_of result ≡ option name.entry.now }
    ensures local { result.global ≡ false }
{
    Arg::new(alloc, name)
        .long(name)
        .value_name(value)
        .help(help)
        .action(ArgAction::Set)
}

/// The command with one more word, which must be given. People read of it as `name`.
fn with_word<'a>(
    alloc: Global,
    command: Command<'a>,
    id: &'a str,
    name: &'a str,
    help: &'a str,
) -> Result<Command<'a>, AllocError>
    ensures { (s : Shape) → IsToldToClap command.entry s → IfOk result
        (λ c. IsToldToClap c (record s { rules = s.rules ++ word id.entry.now ∷ [] })) }
{
    command.arg(word(alloc, id, name, help))
}

/// The command with one more option, which has one value. People read of that as `value`.
fn with_option<'a>(
    alloc: Global,
    command: Command<'a>,
    name: &'a str,
    value: &'a str,
    help: &'a str,
) -> Result<Command<'a>, AllocError>
    ensures { (s : Shape) → IsToldToClap command.entry s → IfOk result
        (λ c. IsToldToClap c (record s { rules = s.rules ++ option name.entry.now ∷ [] })) }
{
    command.arg(option(alloc, name, value, help))
}

/// A command on one thing. People read of that as `first`.
fn over_one<'a>(
    alloc: Global,
    name: &'a str,
    about: &'a str,
    example: &'a str,
    first: &'a str,
    help: &'a str,
) -> Result<Command<'a>, AllocError>
    ensures { IfOk result (λ c. IsToldToClap c (command_of name.entry.now single_word [])) }
{
    with_word(
        alloc,
        named(alloc, name, about, example),
        FIRST,
        first,
        help,
    )
}

/// The command with the option `--hierarchy`.
fn with_hierarchy<'a>(alloc: Global, command: Command<'a>) -> Result<Command<'a>, AllocError>
    ensures { (s : Shape) → IsToldToClap command.entry s → IfOk result
        (λ c. IsToldToClap c (record s { rules = s.rules ++ option (codes "hierarchy") ∷ [] })) }
{
    let help =
        "A hierarchy of the region's roads, as `contract` writes it; it is checked before it is used [default: none]";
    with_option(alloc, command, HIERARCHY, "FILE", help)
}

/// The command with the option `--places`.
fn with_places<'a>(alloc: Global, command: Command<'a>) -> Result<Command<'a>, AllocError>
    ensures { (s : Shape) → IsToldToClap command.entry s → IfOk result
        (λ c. IsToldToClap c (record s { rules = s.rules ++ option (codes "places") ∷ [] })) }
{
    with_option(alloc, command, PLACES, "N", PLACE_COUNT)
}

/// The command with the options that limit a search, and what is asked of it.
fn with_limits<'a>(alloc: Global, command: Command<'a>) -> Result<Command<'a>, AllocError>
    ensures { (s : Shape) → IsToldToClap command.entry s → IfOk result
        (λ c. IsToldToClap c (record s { rules = s.rules ++ map option limits })) }
{
    let command = with_option(alloc, command, LABELS, "N", LABEL_COUNT)?;
    with_places(alloc, command)
}

/// A command on a region and one thing more.
fn over_two<'a>(
    alloc: Global,
    name: &'a str,
    about: &'a str,
    example: &'a str,
    second: &'a str,
    help: &'a str,
) -> Result<Command<'a>, AllocError>
    ensures { IfOk result (λ c. IsToldToClap c (command_of name.entry.now two [])) }
{
    let command = over_one(alloc, name, about, example, "REGION", REGION)?;
    with_word(alloc, command, SECOND, second, help)
}

/// The command that compiles a region.
fn compile<'a>(alloc: Global) -> Result<Command<'a>, AllocError>
    ensures { IfOk result (λ c. IsToldToClap c (command_of (codes "compile") four
        (codes "format" ∷ codes "zone" ∷ []))) }
{
    let about = "Make the region of a map and a timetable feed, over some days";
    let example =
        "Example: modeplan compile town.opl feed 20240304 7 --zone CET-1CEST,M3.5.0,M10.5.0/3 > town";
    let command = named(alloc, "compile", about, example);
    let command = with_word(
        alloc,
        command,
        FIRST,
        "OPL",
        "The map: a file of OpenStreetMap objects as OPL text",
    )?;
    let command = with_word(
        alloc,
        command,
        SECOND,
        "FEED",
        "The timetable feed: a folder of GTFS tables",
    )?;
    let command = with_word(alloc, command, THIRD, "DATE", DATE)?;
    let command = with_word(alloc, command, FOURTH, "DAYS", DAYS)?;
    let command = with_option(alloc, command, FORMAT, "K", FORMAT_1)?;
    with_option(alloc, command, ZONE, "RULE", RULE)
}

/// The command that writes a region in another format.
fn migrate<'a>(alloc: Global) -> Result<Command<'a>, AllocError>
    ensures { IfOk result (λ c. IsToldToClap c (command_of (codes "migrate") single_word
        (codes "format" ∷ []))) }
{
    let about = "Write a region anew, in another format";
    let example = "Example: modeplan migrate town --format 1 > town.txt";
    let command = over_one(alloc, "migrate", about, example, "REGION", REGION)?;
    with_option(alloc, command, FORMAT, "K", FORMAT_2)
}

/// The command that makes a hierarchy.
fn contract<'a>(alloc: Global) -> Result<Command<'a>, AllocError>
    ensures { IfOk result (λ c. IsToldToClap c (command_of (codes "contract") single_word
        (codes "keep" ∷ []))) }
{
    let about = "Make a hierarchy of a region's roads, with which answers come quicker";
    let example = "Example: modeplan contract town --keep 2000 > town.h";
    let command = over_one(alloc, "contract", about, example, "REGION", REGION)?;
    with_option(alloc, command, KEEP, "N", KEPT)
}

/// The command that checks a hierarchy.
fn check<'a>(alloc: Global) -> Result<Command<'a>, AllocError>
    ensures { IfOk result (λ c. IsToldToClap c (command_of (codes "check") two [])) }
{
    let about = "Check that a hierarchy is sound for a region";
    over_two(
        alloc,
        "check",
        about,
        "Example: modeplan check town town.h",
        "HIERARCHY",
        "The hierarchy file",
    )
}

/// The command that makes a sample city.
fn sample<'a>(alloc: Global) -> Result<Command<'a>, AllocError>
    ensures { IfOk result (λ c. IsToldToClap c (command_of (codes "sample") single_word [])) }
{
    let about = "Make a sample city, answer fifty queries in it, and print a summary";
    over_one(
        alloc,
        "sample",
        about,
        "Example: modeplan sample 7",
        "N",
        SIZE,
    )
}

/// The command that answers query lines.
fn answer<'a>(alloc: Global) -> Result<Command<'a>, AllocError>
    ensures { IfOk result (λ c. IsToldToClap c (command_of (codes "answer") two
        (codes "hierarchy" ∷ limits))) }
{
    let about = "Find a best journey for each query line of a file";
    let example = "Example: modeplan answer town queries --hierarchy town.h > journeys";
    let command = over_two(alloc, "answer", about, example, "QUERIES", QUERIES)?;
    let command = with_hierarchy(alloc, command)?;
    with_limits(alloc, command)
}

/// The command that writes a certificate.
fn certify<'a>(alloc: Global) -> Result<Command<'a>, AllocError>
    ensures { IfOk result (λ c. IsToldToClap c (command_of (codes "certify") two
        (codes "hierarchy" ∷ limits))) }
{
    let about = "Print a certificate of a best journey for a query line";
    let example =
        "Example: modeplan certify town \"n101 n103 20240304 08:00:00 foot (transit foot)*\" > claim";
    let command = over_two(alloc, "certify", about, example, "QUERY", QUERY)?;
    let command = with_hierarchy(alloc, command)?;
    with_limits(alloc, command)
}

/// The command that checks a certificate.
fn verify<'a>(alloc: Global) -> Result<Command<'a>, AllocError>
    ensures { IfOk result (λ c. IsToldToClap c (command_of (codes "verify") two (codes "hierarchy" ∷ []))) }
{
    let about = "Check a certificate, and print the journey that it proves best";
    with_hierarchy(
        alloc,
        over_two(
            alloc,
            "verify",
            about,
            "Example: modeplan verify town claim",
            "CERTIFICATE",
            CLAIM,
        )?,
    )
}

/// The command that finds the earliest arrival by the number of rides.
fn few<'a>(alloc: Global) -> Result<Command<'a>, AllocError>
    ensures { IfOk result (λ c. IsToldToClap c (command_of (codes "few") two (codes "places" ∷ []))) }
{
    let about =
        "Find, for each query line, the journeys that more rides, up to 8, make arrive earlier";
    let example = "Example: modeplan few town queries > journeys";
    let command = over_two(alloc, "few", about, example, "QUERIES", QUERIES)?;
    with_places(alloc, command)
}

/// The command that finds the latest departures of query lines.
fn latest<'a>(alloc: Global) -> Result<Command<'a>, AllocError>
    ensures { IfOk result (λ c. IsToldToClap c (command_of (codes "latest") two limits)) }
{
    let about =
        "Find the latest departure for each query line, whose date and time are the latest arrival";
    let example = "Example: modeplan latest town queries > journeys";
    let command = over_two(alloc, "latest", about, example, "QUERIES", QUERIES)?;
    with_limits(alloc, command)
}

/// The command that writes a certificate of a latest departure.
fn certify_latest<'a>(alloc: Global) -> Result<Command<'a>, AllocError>
    ensures { IfOk result (λ c. IsToldToClap c (command_of (codes "certify-latest") two limits)) }
{
    let about = "Print a certificate of the latest departure for a query line";
    let example =
        "Example: modeplan certify-latest town \"n101 n103 20240304 09:00:00 foot (transit foot)*\" > claim";
    let command = over_two(alloc, "certify-latest", about, example, "QUERY", QUERY)?;
    with_limits(alloc, command)
}

/// The command that checks a certificate of a latest departure.
fn verify_latest<'a>(alloc: Global) -> Result<Command<'a>, AllocError>
    ensures { IfOk result (λ c. IsToldToClap c (command_of (codes "verify-latest") two [])) }
{
    let about = "Check a certificate of a latest departure, and print its journey";
    over_two(
        alloc,
        "verify-latest",
        about,
        "Example: modeplan verify-latest town claim",
        "CERTIFICATE",
        CLAIM,
    )
}

/// The command that answers lines which begin with a command's name.
fn requests<'a>(alloc: Global) -> Result<Command<'a>, AllocError>
    ensures { IfOk result (λ c. IsToldToClap c (command_of (codes "requests") two
        (codes "hierarchy" ∷ limits))) }
{
    let about =
        "Answer each line of a file or a pipe as it comes, by the command that the line begins with";
    let example =
        "Example: echo \"answer n101 n103 20240304 08:00:00 foot\" | modeplan requests town /dev/stdin";
    let command = over_two(alloc, "requests", about, example, "FILE", REQUESTS)?;
    let command = with_hierarchy(alloc, command)?;
    with_limits(alloc, command)
}

/// The command that lists the departures of windows.
fn profile<'a>(alloc: Global) -> Result<Command<'a>, AllocError>
    ensures { IfOk result (λ c. IsToldToClap c (command_of (codes "profile") two
        (codes "window" ∷ codes "places" ∷ []))) }
{
    let about =
        "List, for each query line, the journeys worth taking of a window, which its date and time open";
    let example = "Example: modeplan profile town queries --window 00:30:00 > departures";
    let command = over_two(alloc, "profile", about, example, "QUERIES", QUERIES)?;
    let command = with_option(alloc, command, WINDOW, "HH:MM:SS", LENGTH)?;
    with_places(alloc, command)
}

/// The command that writes a table of travel times.
fn matrix<'a>(alloc: Global) -> Result<Command<'a>, AllocError>
    ensures { IfOk result (λ c. IsToldToClap c (command_of (codes "matrix") six
        (codes "hierarchy" ∷ codes "places" ∷ []))) }
{
    let about =
        "Write a table of the milliseconds that it takes from each endpoint of a file to each one of another";
    let example =
        "Example: modeplan matrix town homes schools 20240304 08:00:00 \"foot (transit foot)*\" > table";
    let command = over_two(alloc, "matrix", about, example, "FROMS", FROMS)?;
    let command = with_word(alloc, command, THIRD, "TOS", TOS)?;
    let command = with_word(alloc, command, FOURTH, "DATE", DEPARTURE_DATE)?;
    let command = with_word(alloc, command, FIFTH, "TIME", DEPARTURE_TIME)?;
    let command = with_word(alloc, command, SIXTH, "EXPR", EXPRESSION)?;
    let command = with_hierarchy(alloc, command)?;
    with_places(alloc, command)
}

/// The program with one more command, if memory sufficed for that.
fn with_command<'a>(
    program: Command<'a>,
    command: Result<Command<'a>, AllocError>,
) -> Result<Command<'a>, AllocError>
    ensures { (s : Shape) → IfOk command.entry (λ c. IsToldToClap c s)
        → IfOk result (λ p. app_of p ≡ with_subcommand (app_of program.entry) s) }
{
    program.subcommand(command?)
}

/// The program with the commands that work on a map, a region as a whole, or a sample.
fn with_region_commands<'a>(alloc: Global, program: Command<'a>) -> Result<Command<'a>, AllocError>
    ensures { IfOk result (λ p. app_of p ≡ fold with_subcommand (app_of program.entry) region_commands) }
{
    let program = with_command(program, compile(alloc))?;
    let program = with_command(program, migrate(alloc))?;
    let program = with_command(program, contract(alloc))?;
    let program = with_command(program, check(alloc))?;
    with_command(program, sample(alloc))
}

/// The program with the commands that ask for journeys that arrive earliest.
fn with_earliest_commands<'a>(
    alloc: Global,
    program: Command<'a>,
) -> Result<Command<'a>, AllocError>
    ensures { IfOk result (λ p. app_of p ≡ fold with_subcommand (app_of program.entry) earliest_commands) }
{
    let program = with_command(program, answer(alloc))?;
    let program = with_command(program, certify(alloc))?;
    let program = with_command(program, verify(alloc))?;
    with_command(program, few(alloc))
}

/// The program with the commands that ask for journeys that depart latest.
fn with_latest_commands<'a>(alloc: Global, program: Command<'a>) -> Result<Command<'a>, AllocError>
    ensures { IfOk result (λ p. app_of p ≡ fold with_subcommand (app_of program.entry) latest_commands) }
{
    let program = with_command(program, latest(alloc))?;
    let program = with_command(program, certify_latest(alloc))?;
    with_command(program, verify_latest(alloc))
}

/// The program with the commands that ask for many journeys at once, or for many kinds of answers.
fn with_many_commands<'a>(alloc: Global, program: Command<'a>) -> Result<Command<'a>, AllocError>
    ensures { IfOk result (λ p. app_of p ≡ fold with_subcommand (app_of program.entry) many_commands) }
{
    let program = with_command(program, profile(alloc))?;
    let program = with_command(program, matrix(alloc))?;
    with_command(program, requests(alloc))
}

/// The program.
pub fn modeplan<'a>(alloc: Global) -> Result<Command<'a>, AllocError>
    ensures { IfOk result (λ p. app_of p ≡ modeplan) }
{
    let about =
        "Plans journeys from door to door, by a regular expression over the means of transport";
    let program = named(alloc, "modeplan", about, MORE).bin_name("modeplan")?;
    let program = with_region_commands(alloc, program)?;
    let program = with_earliest_commands(alloc, program)?;
    let program = with_latest_commands(alloc, program)?;
    with_many_commands(alloc, program)
}
