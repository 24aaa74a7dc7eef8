ghost use Rattle.std.specs.Prelude.{◌≡◌, ◌+◌, ◌<◌, ◌∷◌, ◌++◌, [], length, position, option_map, IfSome, MatchOption, OnOk};
ghost use Rattle.plain_texts.specs.Lines.{IsLine, is_feed, lines_of, next_line_of, split_line_of};

use memchr::memchr;
use std::alloc::AllocError;

fn feed_at(text: &[u8]) -> Option<usize>
    ensures { result ≡ position is_feed text.now }
{
    memchr(b'\n', text)
}

#[tactic(auto, unfolding(crate::specs::Lines::next_line_of))]
fn cut_line(text: &[u8]) -> Option<(&[u8], &[u8])>
    ensures line { option_map (λ x. (x.0.now, x.1.now)) result ≡ next_line_of text.now }
    ensures shorter { IfSome result (λ x. length x.1.now < length text.now) }
{
    let end = feed_at(text)?;
    let (line, _) = text.split_at(end);
    let (_, rest) = text.split_at(end + 1);
    Some((line, rest))
}

/// The first line of a text without its line feed, and what stands behind the line feed.
///
/// `None` exactly where the text has no line feed.
pub fn next_line(text: &[u8]) -> Option<(&[u8], &[u8])>
    ensures line { option_map (λ x. (x.0.now, x.1.now)) result ≡ next_line_of text.now }
    ensures exact { MatchOption result (IsLine text.now) (λ x. IsLine x.0.now
        × (text.now ≡ x.0.now ++ 10 ∷ x.1.now)) }
    ensures shorter { IfSome result (λ x. length x.1.now < length text.now) }
{
    cut_line(text)
}

#[tactic(auto, unfolding(crate::specs::Lines::split_line_of))]
fn cut_any_line(text: &[u8]) -> Option<(&[u8], &[u8])>
    ensures line { option_map (λ x. (x.0.now, x.1.now)) result ≡ split_line_of text.now }
    ensures shorter { IfSome result (λ x. length x.1.now < length text.now) }
{
    if text.is_empty() {
        return None;
    }
    match next_line(text) {
        Some(parts) => Some(parts),
        None => Some((text, &text[text.len()..])),
    }
}

/// The first line of a text, which ends in a line feed or with the text, and what stands behind it.
///
/// `None` exactly where the text is empty. Taken again and again, these are the lines of the text.
pub fn split_line(text: &[u8]) -> Option<(&[u8], &[u8])>
    ensures line { option_map (λ x. (x.0.now, x.1.now)) result ≡ split_line_of text.now }
    ensures exact { MatchOption result (lines_of text.now ≡ [])
        (λ x. lines_of text.now ≡ x.0.now ∷ lines_of x.1.now) }
    ensures shorter { IfSome result (λ x. length x.1.now < length text.now) }
{
    cut_any_line(text)
}

/// Writes a line feed at the end.
pub fn push_line_feed(out: &mut Vec<u8>) -> Result<(), AllocError>
    ensures { OnOk result (out.new.items ≡ out.old.items ++ 10 ∷ []) }
{
    out.push(b'\n')?;
    Ok(())
}
