//! How many lines were answered, told to people. Nothing is proved of it.

use crate::notes::tell;
use plain_texts::split_line;
use plan_base::Sink;
use std::alloc::{AllocError, Global};

/// How many query lines have a journey, have none and are refused; and the first that is refused: its line in the file,
/// counted from 1, and its refusal.
#[derive(Drop)]
pub(crate) struct Tally {
    line: u64,
    answered: u64,
    without: u64,
    refused: u64,
    first: Option<(u64, Vec<u8>)>,
}

impl Tally {
    pub(crate) fn new() -> Tally {
        Tally {
            line: 0,
            answered: 0,
            without: 0,
            refused: 0,
            first: None,
        }
    }

    /// The next line of the file is looked at.
    pub(crate) fn next_line(&mut self) {
        self.line = self.line.saturating_add(1);
    }

    /// The block of this line was written.
    pub(crate) fn note(&mut self, alloc: Global, block: &[u8]) {
        let Some((_, body)) = split_line(block) else {
            return;
        };
        if body.starts_with(b"no journey") {
            self.without = self.without.saturating_add(1);
        } else if body.starts_with(b"refused ") {
            self.refused = self.refused.saturating_add(1);
            self.note_refusal(alloc, body);
        } else {
            self.answered = self.answered.saturating_add(1);
        }
    }

    /// Keeps the first refusal.
    fn note_refusal(&mut self, alloc: Global, body: &[u8]) {
        if self.first.is_some() {
            return;
        }
        if let Some((refusal, _)) = split_line(body) {
            if let Ok(refusal) = Vec::from_slice(alloc, refusal) {
                self.first = Some((self.line, refusal));
            }
        }
    }

    /// How many lines of the file were looked at.
    pub(crate) fn lines(&self) -> u64 {
        self.line
    }

    /// Tells people what was counted: how many lines have what is called so, or else how many have a journey, and which line
    /// of the file of this path is the first that was refused.
    pub(crate) fn tell<E: Sink>(
        &self,
        alloc: Global,
        path: &str,
        called: Option<&str>,
        notes: &mut E,
    ) {
        let sums = match called {
            Some(called) => self.sum_of(alloc, called),
            None => self.sums(alloc),
        };
        tell(alloc, notes, sums);
        if let Some((line, refusal)) = &self.first {
            tell(alloc, notes, first_refused(alloc, path, *line, refusal));
        }
    }

    fn sum_of(&self, alloc: Global, called: &str) -> Result<String, AllocError> {
        let lines = self
            .answered
            .saturating_add(self.without)
            .saturating_add(self.refused);
        format!(in alloc; "{lines} lines were answered with {called}")
    }

    fn sums(&self, alloc: Global) -> Result<String, AllocError> {
        let (answered, without, refused) = (self.answered, self.without, self.refused);
        format!(in alloc;
            "{answered} lines were answered with a journey, {without} have none, and {refused} were refused"
        )
    }
}

/// Which line is the first that was refused, and why.
fn first_refused(
    alloc: Global,
    path: &str,
    line: u64,
    refusal: &[u8],
) -> Result<String, AllocError> {
    let said = String::from_utf8_lossy(alloc, refusal)?;
    let reason = reason(refusal);
    format!(in alloc;
        "{path}:{line}: this line is the first that was refused, with {said}: {reason}"
    )
}

/// What a refusal means, to people.
fn reason(refusal: &[u8]) -> &'static str {
    if refusal.starts_with(b"refused shape") {
        "a query is FROM TO DATE TIME EXPRESSION with one space between them, where FROM and TO are n and an id, s and a stop's name, or @LAT,LON, also behind foot, bike or car"
    } else if refusal.starts_with(b"refused clock") {
        "DATE is a date of 8 digits, such as 20240304, and TIME is HH:MM:SS or HH:MM:SS.mmm"
    } else if refusal.starts_with(b"refused range") {
        "DATE is none of the region's days"
    } else if refusal.starts_with(b"refused from") {
        "the region has no such FROM"
    } else if refusal.starts_with(b"refused to") {
        "the region has no such TO"
    } else if refusal.starts_with(b"refused far") {
        "the place is too far from the region's nodes; the number is how far, in millimetres"
    } else if refusal.starts_with(b"refused long") {
        "an expression has at most 4096 bytes; the number is how many this one has"
    } else if refusal.starts_with(b"refused deep") {
        "parentheses are at most 64 deep; the number is the byte of the expression, from 0, at which one is deeper"
    } else if refusal.starts_with(b"refused syntax") {
        "no expression goes on like this; the number is the byte of the expression, from 0, at which it should go on otherwise, as docs/EXPRESSIONS.md tells"
    } else {
        "the expression has so many places for letters; at most 200 are allowed, or as many as --places says"
    }
}
