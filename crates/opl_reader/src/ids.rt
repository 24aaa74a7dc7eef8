//! Ids in a map's text.

ghost use Rattle.std.specs.Prelude.{◌≡◌, ◌^◌, ◌<◌, IfSome};
ghost use Rattle.plain_texts.specs.Digits.{digit_of};
ghost use Rattle.opl_reader.specs.Ids.{osm_id_at, up_to_eighteen_digits_at};
ghost use Rattle.opl_reader.specs.ObjectLists.{IsOsmId};

fn digit(byte: u8) -> Option<u64>
    ensures value { result ≡ digit_of byte }
    ensures within { IfSome result (λ d. d < 10) }
{
    match byte {
        b'0'..=b'9' => Some(u64::from(byte - b'0')),
        _ => None,
    }
}

/// The number that 1 to 18 digits spell.
#[tactic(auto, unfolding(crate::specs::Ids::up_to_eighteen_digits_at))]
fn number(digits: &[u8]) -> Option<u64>
    ensures value { result ≡ up_to_eighteen_digits_at digits.now }
    ensures within { IfSome result (λ n. n < 10 ^ 18) }
{
    if digits.is_empty() || digits.len() > 18 {
        return None;
    }
    let mut n = 0;
    for byte in digits {
        n = n * 10 + digit(*byte)?;
    }
    Some(n)
}

/// The id that `text` spells: an optional minus and 1 to 18 digits, which may begin with zeros.
///
/// `None` exactly where the text is not of this form.
#[tactic(auto, unfolding(crate::specs::Ids::osm_id_at))]
pub(crate) fn read_id(text: &[u8]) -> Option<i64>
    ensures value { result ≡ osm_id_at text.now }
    ensures within { IfSome result IsOsmId }
{
    match text {
        [] => None,
        [b'-', digits @ ..] => Some(-(number(digits)? as i64)),
        digits => Some(number(digits)? as i64),
    }
}
