//! The forms of fields.

ghost use Rattle.std.specs.Prelude.{◌≡◌, ◌<◌, ◌≤◌, length, reverse, option_map, IfSome};
ghost use Rattle.std.specs.Str.{is_utf8};
ghost use Rattle.plain_texts.specs.FixedDecimal.{fixed_at};
ghost use Rattle.gtfs_tables.specs.Forms as spec;

use plain_texts::read_fixed;
use service_days::below_sixty;

/// Whether a field is an id, or the name of a time zone: at least one byte and fewer than 2^30, in UTF-8.
#[tactic(auto, unfolding(crate::specs::Forms::is_id))]
fn is_id(text: &[u8]) -> bool
    ensures { result ≡ spec.is_id text.now }
{
    !text.is_empty() && text.len() < 1 << 30 && is_utf8(text)
}

fn is_utf8(text: &[u8]) -> bool
    ensures { result ≡ is_utf8 text.now }
{
    str::from_utf8(text).is_ok()
}

/// The id that a field is, as it stands.
pub(crate) fn read_id(text: &[u8]) -> Option<&[u8]>
    ensures { option_map (λ id. id.now) result ≡ spec.feed_id_at text.now }
{
    if is_id(text) { Some(text) } else { None }
}

fn front_spaces(text: &[u8]) -> usize
    ensures { result ≡ spec.front_spaces text.now }
{
    text.iter().take_while(|byte| **byte == b' ').count()
}

fn end_spaces(text: &[u8]) -> usize
    ensures { result ≡ spec.front_spaces (reverse text.now) }
{
    text.iter().rev().take_while(|byte| **byte == b' ').count()
}

fn without_front_spaces(text: &[u8]) -> &[u8]
    ensures { result.now ≡ spec.without_front_spaces text.now }
{
    &text[front_spaces(text)..]
}

fn without_end_spaces(text: &[u8]) -> &[u8]
    ensures { result.now ≡ spec.without_end_spaces text.now }
{
    &text[..text.len() - end_spaces(text)]
}

/// A field without the spaces at both ends.
#[tactic(auto, unfolding(crate::specs::Forms::trimmed))]
pub(crate) fn trimmed(text: &[u8]) -> &[u8]
    ensures { result.now ≡ spec.trimmed text.now }
{
    without_end_spaces(without_front_spaces(text))
}

/// The number that 1 to 9 digits spell.
#[tactic(auto, unfolding(crate::specs::Forms::up_to_nine_digits_at))]
pub(crate) fn read_digits(text: &[u8]) -> Option<u32>
    ensures { result ≡ spec.up_to_nine_digits_at text.now }
{
    if text.is_empty() || text.len() > 9 {
        return None;
    }
    read_fixed(text)
}

/// The number that 1 to 9 digits spell, which is not 0.
pub(crate) fn read_headway(text: &[u8]) -> Option<u32>
    ensures { result ≡ spec.headway_at text.now }
{
    let headway = read_digits(text)?;
    if headway > 0 { Some(headway) } else { None }
}

/// 0 or 1.
pub(crate) fn read_flag(text: &[u8]) -> Option<bool>
    ensures { result ≡ spec.flag_at text.now }
{
    if text == b"0".as_slice() {
        Some(false)
    } else if text == b"1".as_slice() {
        Some(true)
    } else {
        None
    }
}

/// 1 for a date that is added, or 2 for one that is removed.
pub(crate) fn read_added(text: &[u8]) -> Option<bool>
    ensures { result ≡ spec.added_at text.now }
{
    if text == b"1".as_slice() {
        Some(true)
    } else if text == b"2".as_slice() {
        Some(false)
    } else {
        None
    }
}

/// One digit up to `most`, or nothing, which stands for 0.
fn read_choice(text: &[u8], most: u8) -> Option<u8>
    requires { most ≤ 9 }
    ensures { result ≡ spec.choice_at most text.now }
{
    match text {
        [] => Some(0),
        [digit] if b'0' <= *digit && *digit <= b'0' + most => Some(*digit - b'0'),
        _ => None,
    }
}

/// Whether one digit up to `most` is 0, for which nothing may stand.
pub(crate) fn read_is_usual(text: &[u8], most: u8) -> Option<bool>
    requires { most ≤ 9 }
    ensures { result ≡ spec.is_usual_at most text.now }
{
    let choice = read_choice(text, most)?;
    Some(choice == 0)
}

/// The letter of a route's type.
pub(crate) fn letter_of(type_: u32) -> u8
    ensures { result ≡ spec.letter_of_type type_ }
{
    match type_ {
        0..=7 => type_ as u8 + 3,
        11 | 12 => type_ as u8,
        _ => 13,
    }
}

/// The seconds of `:MM:SS`.
fn read_part(text: &[u8]) -> Option<u32>
    ensures value { result ≡ spec.minutes_and_seconds_at text.now }
    ensures within { IfSome result (λ n. n < 3600) }
{
    match text {
        [b':', m1, m2, b':', s1, s2] => {
            let minutes = below_sixty(read_fixed(&[*m1, *m2])?)?;
            let seconds = below_sixty(read_fixed(&[*s1, *s2])?)?;
            Some(minutes * 60 + seconds)
        }
        _ => None,
    }
}

/// A number of up to three digits.
fn read_hours(text: &[u8]) -> Option<u32>
    requires { length text.now ≤ 3 }
    ensures value { result ≡ fixed_at text.now }
    ensures within { IfSome result (λ n. n < 1000) }
{
    read_fixed(text)
}

/// The seconds of a time, up to 167:59:59.
#[tactic(auto, unfolding(crate::specs::Forms::service_time_at))]
pub(crate) fn read_time(text: &[u8]) -> Option<u32>
    ensures { result ≡ spec.service_time_at text.now }
{
    if text.len() < 7 || text.len() > 9 {
        return None;
    }
    let (hours, part) = text.split_at(text.len() - 6);
    let seconds = read_hours(hours)? * 3_600 + read_part(part)?;
    if seconds <= 604_799 {
        Some(seconds)
    } else {
        None
    }
}

/// The seconds of a time, up to 167:59:59, or nothing.
pub(crate) fn read_optional_time(text: &[u8]) -> Option<Option<u32>>
    ensures { result ≡ spec.optional_time_at text.now }
{
    if text.is_empty() {
        Some(None)
    } else {
        Some(Some(read_time(text)?))
    }
}
