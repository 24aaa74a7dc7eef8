//! Reading the words of a command line.

ghost use Rattle.std.specs.Prelude.{◌≡◌, [], Err, IfErr, IfOk, map, option_map, string_bytes};
ghost use Rattle.clap.specs.Words.{fault_of, found_of, rows_of, subcommand_of, subcommand_rows_of};
ghost use Rattle.command_line.specs.Description.{modeplan};
ghost use Rattle.command_words.specs.Requests.{AreRefused, AsksFor, IsPlainForm, Request, request_of};
ghost use Rattle.command_words.specs.declared.fault.WordsFault.TheVariants.{OutOfMemory, Refused};

use crate::command::Command;
use crate::fault::WordsFault;
use crate::found::named;
use clap::ArgMatches;
use clap::error::ErrorKind;
use command_line::match_words;
use std::alloc::Global;

/// The command that the words ask for, which is the only one. The first word is the program's name. Words of the plain form
/// ask for what they say.
pub fn read_words<'a>(alloc: Global, words: &'a [String]) -> Result<Command<'a>, WordsFault>
    ensures ok { IfOk result (λ command. AsksFor (map string_bytes words.now) (request_of command)) }
    ensures refused { result ≡ Err Refused → AreRefused (map string_bytes words.now) }
    ensures only { (r : Request) → AsksFor (map string_bytes words.now) r
        → IfOk result (λ command. request_of command ≡ r) × IfErr result (λ fault. fault ≡ OutOfMemory) }
    ensures plain { (r : Request) → IsPlainForm (map string_bytes words.now) r
        → AsksFor (map string_bytes words.now) r }
{
    let matches = matched(alloc, words)?;
    match found(&matches) {
        Some((name, given)) => named(alloc, name, given),
        None => Err(WordsFault::Refused),
    }
}

/// What `clap` finds in the words; refused only where it does not take them.
fn matched<'a>(alloc: Global, words: &'a [String]) -> Result<ArgMatches<'a>, WordsFault>
    ensures taken { IfOk result (λ _. fault_of modeplan (map string_bytes words.now) ≡ []) }
    ensures found { IfOk result (λ m. subcommand_rows_of m ≡ subcommand_of modeplan
        (map string_bytes words.now)) }
    ensures refused { result ≡ Err Refused → fault_of modeplan (map string_bytes words.now) ≡ [] → ⊥ }
{
    match match_words(alloc, words) {
        Ok(matches) => Ok(matches),
        Err(error) if error.kind() == ErrorKind::OutOfMemory => Err(WordsFault::OutOfMemory),
        Err(_) => Err(WordsFault::Refused),
    }
}

/// The command's name, and what was found for its words and options.
fn found<'m, 'a>(matches: &'m ArgMatches<'a>) -> Option<(&'a str, &'m ArgMatches<'a>)>
    ensures { option_map (λ it. (it.0.now, rows_of (found_of it.1.now))) result ≡ subcommand_rows_of
        matches.now }
{
    matches.subcommand()
}
