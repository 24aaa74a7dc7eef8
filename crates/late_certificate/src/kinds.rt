//! What a line says, by its words.

ghost use Rattle.std.specs.Prelude.{◌≡◌, map, IfOk};
ghost use Rattle.late_certificate.specs.Kinds as spec;

use crate::lines::Line;
use certificate::kinds::{line_of as usual_line, time_of};
use plain_texts::words_of;
use std::alloc::{AllocError, Global};

/// Whether these words say a late certificate, in the first format.
fn is_head(program: &[u8], what: &[u8], version: &[u8]) -> bool
    ensures { result ≡ spec.is_head program.now what.now version.now }
{
    program == b"modeplan".as_slice() && what == b"late".as_slice() && version == b"1".as_slice()
}

/// The line of a departure, of which these are the words.
fn depart_of(kind: &[u8], at: &[u8]) -> Option<Line>
    ensures { result ≡ spec.depart_of_words kind.now at.now }
{
    if kind == b"depart".as_slice() {
        Some(Line::Depart(time_of(at)?))
    } else {
        None
    }
}

/// The line of these words that only a late certificate has.
#[tactic(auto, unfolding(crate::specs::Kinds::own_of_words))]
fn own_of(words: &[&[u8]]) -> Option<Line>
    ensures { result ≡ spec.own_of_words (map (λ w. w.now) words.now) }
{
    match words {
        [program, what, version] if is_head(program, what, version) => Some(Line::Head),
        [kind, at] => depart_of(kind, at),
        _ => None,
    }
}

/// The line that a text spells; `None` exactly where it spells none.
#[tactic(auto, unfolding(crate::specs::Kinds::line_of))]
pub(crate) fn line_of(alloc: Global, text: &[u8]) -> Result<Option<Line>, AllocError>
    ensures { IfOk result (λ read. read ≡ spec.line_of text.now) }
{
    if let Some(line) = usual_line(alloc, text)? {
        return Ok(Some(Line::Usual(line)));
    }
    let words = words_of(alloc, text)?;
    Ok(own_of(&words))
}
