//! The command line of `planbook` behind the book, as `clap` and people are told of it.

use clap::{Arg, ArgAction, Command};
use std::alloc::{AllocError, Global};

/// The name of a command's name among its matches.
pub const NAME: &str = "name";

/// What a name is.
pub const NAMES: &str =
    "The name: 1 to 64 small letters, digits, '-' and '_', the first a letter or a digit";

const REGION: &str = "The region file, in either format";

const HIERARCHY: &str =
    "A hierarchy of the region's roads, as `modeplan contract` writes it, which certificates are over; it is checked before it is used [default: none]";

/// What is said at the end of the help on all commands.
const MORE: &str = "\
BOOK is the file of the book, a database, which keep makes where there is none; or - for a book in memory.

Example: planbook walks keep to-school town claim

Standard output has what a command writes, standard error the notes. The exit status is 0 where all is done, and 2 where
the words are not those of a command. `planbook BOOK COMMAND --help` says more of a command, `planbook --version` which
version this is, and docs/BOOK.md all of it: what is kept, and each exit status.";

/// What is said at the end of the help on `review`.
const REVIEW: &str = "\
A line says: same, earlier CLOCK, later CLOCK, none (there is no journey any more), found CLOCK (there was none), or
refused and why.

Example: planbook walks review town --fail > changes";

/// A command with no words yet. `example` is said at the end of its help.
fn named<'a>(alloc: Global, name: &'a str, about: &'a str, example: &'a str) -> Command<'a> {
    Command::new(alloc, name).about(about).after_help(example)
}

/// The command with one more word, which must be given. People read of it as `name`.
fn with_word<'a>(
    alloc: Global,
    command: Command<'a>,
    id: &'a str,
    name: &'a str,
    help: &'a str,
) -> Result<Command<'a>, AllocError> {
    let word = Arg::new(alloc, id)
        .value_name(name)
        .help(help)
        .required(true)
        .action(ArgAction::Set);
    command.arg(word)
}

/// The command with the option `--hierarchy`.
fn with_hierarchy<'a>(alloc: Global, command: Command<'a>) -> Result<Command<'a>, AllocError> {
    let option = Arg::new(alloc, "hierarchy")
        .long("hierarchy")
        .value_name("FILE")
        .help(HIERARCHY)
        .action(ArgAction::Set);
    command.arg(option)
}

/// The command that keeps a certificate.
fn keep<'a>(alloc: Global) -> Result<Command<'a>, AllocError> {
    let about = "Keep a certificate under a name, if it is valid in a region";
    let command = named(
        alloc,
        "keep",
        about,
        "Example: planbook walks keep to-school town claim",
    );
    let command = with_word(alloc, command, NAME, "NAME", NAMES)?;
    let command = with_word(alloc, command, "region", "REGION", REGION)?;
    let command = with_word(
        alloc,
        command,
        "certificate",
        "CERTIFICATE",
        "The certificate file, as `modeplan certify` writes it",
    )?;
    with_hierarchy(alloc, command)
}

/// A command on a name.
fn over_name<'a>(
    alloc: Global,
    name: &'a str,
    about: &'a str,
    example: &'a str,
) -> Result<Command<'a>, AllocError> {
    with_word(
        alloc,
        named(alloc, name, about, example),
        NAME,
        "NAME",
        NAMES,
    )
}

/// A command on a region, which writes a report.
fn over_region<'a>(
    alloc: Global,
    name: &'a str,
    about: &'a str,
    fail: &'a str,
    example: &'a str,
) -> Result<Command<'a>, AllocError> {
    let command = named(alloc, name, about, example);
    let command = with_word(alloc, command, "region", "REGION", REGION)?;
    let command = with_hierarchy(alloc, command)?;
    let flag = Arg::new(alloc, "fail")
        .long("fail")
        .help(fail)
        .action(ArgAction::SetTrue);
    command.arg(flag)
}

/// The program with one more command.
fn with_command<'a>(
    program: Command<'a>,
    command: Result<Command<'a>, AllocError>,
) -> Result<Command<'a>, AllocError> {
    program.subcommand(command?)
}

/// The program with its commands.
pub fn planbook<'a>(alloc: Global) -> Result<Command<'a>, AllocError> {
    let about =
        "Keeps certificates of journeys by name, and says what another region does to them.";
    let program = named(alloc, "planbook BOOK", about, MORE);
    let program = with_command(program, keep(alloc))?;
    let remove = over_name(
        alloc,
        "drop",
        "Remove a name",
        "Example: planbook walks drop to-school",
    );
    let program = with_command(program, remove)?;
    let list = named(
        alloc,
        "list",
        "Write all names, ascending by bytes",
        "Example: planbook walks list",
    );
    let program = program.subcommand(list)?;
    let show = over_name(
        alloc,
        "show",
        "Write what is kept under a name",
        "Example: planbook walks show to-school > claim",
    );
    let program = with_command(program, show)?;
    let recheck = over_region(
        alloc,
        "recheck",
        "Write for each name whether what is kept under it is valid in a region",
        "End with the exit status 16 where a line is not valid",
        "Example: planbook walks recheck town",
    );
    let program = with_command(program, recheck)?;
    let review = over_region(
        alloc,
        "review",
        "Answer each query anew in a region, and write for each name what became of its journey",
        "End with the exit status 16 where a line says later, none, refused or bad",
        REVIEW,
    );
    with_command(program, review)
}
