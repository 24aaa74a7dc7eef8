//! How the texts of all kinds of certificates are read, line by line.

ghost use Rattle.std.specs.Prelude.{◌≡◌, IfOk, OnOk};
ghost use Rattle.certificate.specs.Making.{Gives, LinedMeaning, line_at, reading};

use crate::verdict::CertFault;
use plain_texts::next_line;
use std::alloc::{AllocError, Global};

/// A kind of certificates, whose texts say one thing a line.
pub trait Lined: Drop {
    /// What a line says.
    type Line: Drop;
    /// What may stand next.
    type Due: Copy;

    /// What its texts are read by.
    ghost meaning: { LinedMeaning Self.Line Self.Due Self };

    /// The line that a text spells; `None` exactly where it spells none.
    fn line_of(alloc: Global, text: &[u8]) -> Result<Option<Self::Line>, AllocError>
        ensures { IfOk result (λ read. read ≡ meaning.line_of text.now) };

    /// What is due first.
    fn first() -> Self::Due
        ensures { result ≡ meaning.first };

    /// What is due behind a line; `None` exactly where the line may not stand here.
    fn behind(place: Self::Due, line: &Self::Line) -> Option<Self::Due>
        ensures { result ≡ meaning.due_behind place line.now };

    /// Whether the line before was the last one.
    fn is_last(place: Self::Due) -> bool
        ensures { result ≡ meaning.is_last place };

    /// A certificate that says nothing yet.
    fn nothing(alloc: Global) -> Self
        ensures { result ≡ meaning.nothing };

    /// Puts what a line says.
    fn put(&mut self, alloc: Global, said: Self::Line) -> Result<(), AllocError>
        ensures { OnOk result (self.new ≡ meaning.put self.old said) };
}

/// The line that a text spells, if it may stand here, and what is due behind it.
#[tactic(auto, unfolding(crate::specs::Making::line_at))]
fn line_behind<K: Lined>(
    alloc: Global,
    place: K::Due,
    text: &[u8],
) -> Result<Option<(K::Line, K::Due)>, AllocError>
    ensures { IfOk result (λ read. read ≡ line_at K.meaning place text.now) }
{
    let Some(line) = K::line_of(alloc, text)? else {
        return Ok(None);
    };
    match K::behind(place, &line) {
        Some(next) => Ok(Some((line, next))),
        None => Ok(None),
    }
}

/// The certificate that the lines of a text make.
pub fn read_lines<K: Lined>(alloc: Global, text: &[u8]) -> Result<K, CertFault>
    ensures { Gives result (reading K.meaning text.now) }
{
    let mut certificate = K::nothing(alloc);
    let mut place = K::first();
    let mut rest = text;
    let mut at = 1;
    loop {
        let Some((line, behind)) = next_line(rest) else {
            return Err(CertFault::BadLine { line: at });
        };
        let Some((line, next)) = line_behind::<K>(alloc, place, line)? else {
            return Err(CertFault::BadLine { line: at });
        };
        certificate.put(alloc, line)?;
        rest = behind;
        place = next;
        at += 1;
        if K::is_last(place) {
            if !rest.is_empty() {
                return Err(CertFault::BadLine { line: at });
            }
            return Ok(certificate);
        }
    }
}
