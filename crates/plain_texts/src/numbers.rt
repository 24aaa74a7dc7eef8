ghost use Rattle.std.specs.Prelude.{◌≡◌, ◌++◌, ◌^◌, ◌<◌, ◌≤◌, unsigned_abs, ◌≢◌, decimal, length, slice_index, IfSome, MatchBool, OnOk};
ghost use Rattle.std.specs.Fmt.{signed_decimal};
ghost use Rattle.plain_texts.specs.Digits.{digit_of, more};
ghost use Rattle.plain_texts.specs.Numbers.{IsId, id_at, number_at, number_step, signed_at, value_at};
ghost use Rattle.plain_texts.specs.Reading.{IsReadBy};

use std::alloc::AllocError;

fn digit(byte: u8) -> Option<u128>
    ensures { result ≡ digit_of byte }
{
    match byte {
        b'0'..=b'9' => Some(u128::from(byte - b'0')),
        _ => None,
    }
}

fn with_digit(below: u128, value: Option<u128>, byte: u8) -> Option<u128>
    requires { below ≤ 10 ^ 30 }
    ensures { result ≡ more (number_step below) value byte }
{
    let value = value?;
    let digit = digit(byte)?;
    if value == 0 || below <= value {
        None
    } else {
        Some(value * 10 + digit)
    }
}

#[tactic(auto, unfolding(crate::specs::Numbers::number_at))]
fn number(text: &[u8], below: u128) -> Option<u128>
    requires { below ≤ 10 ^ 30 }
    ensures { result ≡ number_at below text.now }
{
    match text {
        [] => None,
        [first, rest @ ..] => {
            let n = rest.iter().fold(digit(*first), |value, byte| with_digit(below, value, *byte))?;
            if n < below { Some(n) } else { None }
        }
    }
}

/// The number below `below` that `text` spells: decimal digits, without a sign and without a leading zero.
///
/// `None` exactly where no such number is spelled so.
pub fn read_number(text: &[u8], below: u128) -> Option<u128>
    requires { below ≤ 10 ^ 30 }
    ensures value { result ≡ number_at below text.now }
    ensures within { IfSome result (λ n. n < below) }
    ensures exact { IsReadBy decimal (λ n. n < below) text.now result }
{
    number(text, below)
}

#[tactic(auto, unfolding(crate::specs::Numbers::value_at))]
#[inline]
fn digits_value(digits: &[u8]) -> Option<u64>
    requires { length digits.now ≤ 18 }
    ensures { result ≡ value_at digits.now }
{
    let mut value = 0u64;
    for byte in digits {
        let digit = u64::from(*byte).wrapping_sub(u64::from(b'0'));
        if digit > 9 {
            return None;
        }
        value = value * 10 + digit;
    }
    Some(value)
}

/// Whether a zero stands before other bytes.
#[inline]
fn is_padded(text: &[u8]) -> bool
    ensures { MatchBool result ((1 < length text.now) × (slice_index text.now 0 ≡ 48))
        (1 < length text.now → slice_index text.now 0 ≢ 48) }
{
    text.len() > 1 && text[0] == b'0'
}

#[inline]
fn short_number(text: &[u8], below: u64) -> Option<u64>
    requires { below ≤ 10 ^ 18 }
    ensures { result ≡ number_at below text.now }
{
    if text.is_empty() || text.len() > 18 || is_padded(text) {
        return None;
    }
    let whole = digits_value(text)?;
    if whole < below { Some(whole) } else { None }
}

/// The number below `below` that `text` spells, as [`read_number`] reads it, where 18 digits are enough. This
/// takes a third of the time.
#[inline]
pub fn read_short_number(text: &[u8], below: u64) -> Option<u64>
    requires { below ≤ 10 ^ 18 }
    ensures value { result ≡ number_at below text.now }
    ensures within { IfSome result (λ n. n < below) }
    ensures exact { IsReadBy decimal (λ n. n < below) text.now result }
{
    short_number(text, below)
}

#[tactic(auto, unfolding(crate::specs::Numbers::signed_at))]
fn signed(text: &[u8], below: u64) -> Option<i64>
    requires { below ≤ 10 ^ 18 }
    ensures { result ≡ signed_at below text.now }
{
    match text {
        [] => None,
        [b'-', digits @ ..] => {
            let size = read_short_number(digits, below)?;
            if size == 0 {
                None
            } else {
                Some(-(size as i64))
            }
        }
        digits => Some(read_short_number(digits, below)? as i64),
    }
}

/// The signed number of a size below `below` that `text` spells: a decimal number, or `-` and a decimal
/// number other than `0`.
///
/// `None` exactly where no such number is spelled so.
pub fn read_signed(text: &[u8], below: u64) -> Option<i64>
    requires { below ≤ 10 ^ 18 }
    ensures value { result ≡ signed_at below text.now }
    ensures within { IfSome result (λ z. unsigned_abs z < below) }
    ensures exact { IsReadBy signed_decimal (λ z. unsigned_abs z < below) text.now result }
{
    signed(text, below)
}

/// The id that `text` spells: a signed number of at most 18 digits.
///
/// `None` exactly where no id is spelled so.
pub fn read_id(text: &[u8]) -> Option<i64>
    ensures value { result ≡ id_at text.now }
    ensures within { IfSome result IsId }
    ensures exact { IsReadBy signed_decimal IsId text.now result }
{
    read_signed(text, 1_000_000_000_000_000_000)
}

/// Writes a number at the end, in decimal.
pub fn push_decimal(out: &mut Vec<u8>, n: u128) -> Result<(), AllocError>
    ensures { OnOk result (out.new.items ≡ out.old.items ++ decimal n) }
{
    let text = n.to_string(*out.allocator())?;
    out.extend_from_slice(text.as_bytes())
}

/// Writes a signed number at the end, in decimal.
pub fn push_signed(out: &mut Vec<u8>, z: i64) -> Result<(), AllocError>
    ensures { OnOk result (out.new.items ≡ out.old.items ++ signed_decimal z) }
{
    let text = z.to_string(*out.allocator())?;
    out.extend_from_slice(text.as_bytes())
}
