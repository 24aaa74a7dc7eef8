//! `modeplan`: runs a command over the file system, standard output and standard error.
#![tactic(auto)]

use plan_base::{FolderShelf, StreamSink};
use planner_core::{Outcome, Ports, run};
use run_steps::tell_no_text;
use std::env;
use std::io::{self, ErrorKind};
use std::process::ExitCode;

fn main(rt: HostRuntime) -> ExitCode {
    let outcome = match words(&rt) {
        Ok(words) => {
            let mut ports = Ports {
                alloc: rt.alloc(),
                shelf: FolderShelf::new(&rt),
                out: StreamSink::new(rt.stdout()),
                notes: StreamSink::new(rt.stderr()),
            };
            run(&mut ports, words.as_slice())
        }
        Err(error) if error.kind() == ErrorKind::OutOfMemory => Outcome::OutOfMemory,
        Err(_) => {
            tell_no_text(rt.alloc(), &mut StreamSink::new(rt.stderr()));
            Outcome::Usage
        }
    };
    ExitCode::from(outcome.status())
}

/// The words that the program was called with; a word that is no text is an error.
fn words(rt: &HostRuntime) -> io::Result<Vec<String>> {
    let mut words = Vec::new(rt.alloc());
    for word in env::args(rt)? {
        words.push(word)?;
    }
    Ok(words)
}
