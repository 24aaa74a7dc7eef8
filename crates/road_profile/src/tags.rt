//! Tags of ways.

ghost use Rattle.std.specs.Prelude.{◌≡◌, bytes_eq, map, option_map};
ghost use Rattle.std.specs.List.{list_any};
ghost use Rattle.road_profile.specs.Tags.{is_among, value_of};

use opl_reader::Bytes;

/// The value of a key; `None` where no tag has it.
#[tactic(auto, unfolding(crate::specs::Tags::value_of))]
pub fn value_of<'a>(tags: &'a [(Bytes, Bytes)], key: &str) -> Option<&'a [u8]>
    ensures { option_map (λ value. value.now) result ≡ value_of tags.now key.now }
{
    for tag in tags {
        if tag.0.as_slice() == key.as_bytes() {
            return Some(tag.1.as_slice());
        }
    }
    None
}

fn is_one_of(value: &[u8], words: &[&str]) -> bool
    ensures { result ≡ list_any (λ word. bytes_eq value.now word.now) words.now }
{
    words.iter().any(|word| value == word.as_bytes())
}

/// Whether there is a value, and it is one of these words.
pub fn is_among(value: Option<&[u8]>, words: &[&str]) -> bool
    ensures { result ≡ is_among (map (λ word. word.now) words.now)
        (option_map (λ value. value.now) value.entry) }
{
    match value {
        Some(value) => is_one_of(value, words),
        None => false,
    }
}
