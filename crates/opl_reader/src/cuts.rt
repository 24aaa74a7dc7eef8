//! How a line is cut: at a byte, at its commas and at its blanks.

ghost use Rattle.std.specs.Prelude.{◌≡◌, ◌<◌, length, map, position, option_map, IfOk, IfSome};
ghost use Rattle.opl_reader.specs.Cuts.{at_blanks, at_commas, cut_of, is_byte};

use memchr::memchr;
use std::alloc::{AllocError, Global};

fn place_of_byte(byte: u8, text: &[u8]) -> Option<usize>
    ensures { result ≡ position (is_byte byte) text.now }
{
    memchr(byte, text)
}

/// What stands before the first such byte and what stands behind it; `None` exactly where there is none.
#[tactic(auto, unfolding(crate::specs::Cuts::cut_of))]
pub(crate) fn cut(text: &[u8], byte: u8) -> Option<(&[u8], &[u8])>
    ensures parts { option_map (λ x. (x.0.now, x.1.now)) result ≡ cut_of byte text.now }
    ensures shorter { IfSome result (λ x. length x.1.now < length text.now) }
{
    let at = place_of_byte(byte, text)?;
    let (before, _) = text.split_at(at);
    let (_, behind) = text.split_at(at + 1);
    Some((before, behind))
}

/// What stands before, between and behind the commas.
pub(crate) fn parts(alloc: Global, text: &[u8]) -> Result<Vec<&[u8]>, AllocError>
    ensures { IfOk result (λ v. map (λ part. part.now) v.items ≡ at_commas text.now) }
{
    text.split(|byte| *byte == b',').collect(alloc)
}

/// What stands before, between and behind the blanks, which are spaces and tabs.
pub(crate) fn words(alloc: Global, text: &[u8]) -> Result<Vec<&[u8]>, AllocError>
    ensures { IfOk result (λ v. map (λ word. word.now) v.items ≡ at_blanks text.now) }
{
    text.split(|byte| *byte == b' ' || *byte == b'\t')
        .collect(alloc)
}
