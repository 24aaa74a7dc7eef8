//! Runs the program on the cases of the files in `cases`, over files in memory, and on the worked examples, which are folders
//! beside them; and plays the stories of journey books in `stories`. Prints what answers otherwise than is wanted.
//!
//! A case is a line: the name of a call and its words. The texts that it names stand before it, and the wanted answer behind it;
//! `case_script` says how.
#![tactic(auto)]

mod books;
mod comparisons;
mod drawn;
mod examples;
mod failing;
mod pieces;
mod runs;

use books::Books;
use case_script::{Answer, Calls, Script, play};
use std::io;

fn main(rt: HostRuntime) -> io::Result<()> {
    play(&rt, "cases", &mut Commands { rt: &rt })?;
    play(&rt, "stories", &mut Books::new(rt.alloc()))
}

/// Runs of the program.
#[derive(Drop)]
struct Commands<'a> {
    rt: &'a HostRuntime,
}

impl Calls for Commands<'_> {
    fn answer(
        &mut self,
        script: &Script,
        call: &str,
        words: &[u8],
        out: &mut Answer,
    ) -> io::Result<()> {
        match call {
            "run" => runs::run(out, script, words)?,
            "notes" => runs::notes(out, script, words)?,
            "bytes" => runs::bytes(out, script, words)?,
            "files" => runs::files(self.rt, out, words)?,
            "fill" => failing::fill(out, script, words)?,
            "sweep" => failing::sweep(out, script, words)?,
            "cuts" => failing::cuts(out, script, words)?,
            "equal" => comparisons::equal(out, words)?,
            "example" => examples::example(self.rt, out, words)?,
            _ => out.break_off("no such call"),
        }
        Ok(())
    }
}
