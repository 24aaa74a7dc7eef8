//! What `clap` finds in the words of a command line.

ghost use Rattle.std.specs.Prelude.{◌≡◌, [], IfErr, IfOk, map, string_bytes};
ghost use Rattle.clap.specs.Words.{HasKind, fault_of, subcommand_of, subcommand_rows_of};
ghost use Rattle.command_line.specs.Description.{modeplan};

use crate::description::modeplan;
use clap::{ArgMatches, Error};
use std::alloc::Global;

/// What is found in the words, of which the first is the program's name; an error where they are not those of a command.
pub fn match_words<'a>(alloc: Global, words: &'a [String]) -> Result<ArgMatches<'a>, Error>
    ensures taken { IfOk result (λ _. fault_of modeplan (map string_bytes words.now) ≡ []) }
    ensures found { IfOk result (λ m. subcommand_rows_of m ≡ subcommand_of modeplan
        (map string_bytes words.now)) }
    ensures refused { IfErr result (HasKind (fault_of modeplan (map string_bytes words.now))) }
{
    let program = modeplan(alloc)?;
    program.try_get_matches_from(words)
}
