ghost use Rattle.std.specs.Prelude.{◌≡◌, map, IfOk, OnOk};
ghost use Rattle.plain_texts.specs.Lines as spec;

use std::alloc::{AllocError, Global};

/// Puts the words of a line, parted by one space each, in the place of those in the list. Two spaces side by side
/// have an empty word between them.
pub fn words_into<'a>(words: &mut Vec<&'a [u8]>, line: &'a [u8]) -> Result<(), AllocError>
    ensures words { OnOk result (map (λ w. w.now) words.new.items ≡ spec.words_of line.now) }
{
    words.clear();
    let mut start = 0;
    for (at, byte) in line.iter().enumerate() {
        if *byte == b' ' {
            words.push(&line[start..at])?;
            start = at + 1;
        }
    }
    words.push(&line[start..])?;
    Ok(())
}

/// The words of a line, in a list of their own. They are the line, if they are joined by one space each.
pub fn words_of(alloc: Global, line: &[u8]) -> Result<Vec<&[u8]>, AllocError>
    ensures words { IfOk result (λ v. map (λ w. w.now) v.items ≡ spec.words_of line.now) }
    ensures joined { IfOk result (λ v. spec.spaced (map (λ w. w.now) v.items) ≡ line.now) }
{
    split(alloc, line)
}

fn split(alloc: Global, line: &[u8]) -> Result<Vec<&[u8]>, AllocError>
    ensures { IfOk result (λ v. map (λ w. w.now) v.items ≡ spec.words_of line.now) }
{
    let mut words = Vec::new(alloc);
    words_into(&mut words, line)?;
    Ok(words)
}
