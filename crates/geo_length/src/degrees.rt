//! Degrees in texts.

ghost use Rattle.std.specs.Prelude.{◌≡◌, ◌*◌, ◌^◌, ◌<◌, ◌≤◌, unsigned_abs, IfSome, position};
ghost use Rattle.std.specs.Char.{is_ascii_digit};
ghost use Rattle.std.specs.List.{list_all};
ghost use Rattle.geo_length.specs.Degrees.{are_digits, degree, degrees_of, is_point, part_of, size_of, units_of, whole_of};

use plain_texts::read_fixed;

const DEGREE: u64 = 10_000_000;

fn has_digits_alone(text: &[u8]) -> bool
    ensures { result ≡ list_all is_ascii_digit text.now }
{
    text.iter().all(|byte| byte.is_ascii_digit())
}

fn are_digits(text: &[u8], most: usize) -> bool
    ensures { result ≡ are_digits most text.now }
{
    !text.is_empty() && text.len() <= most && has_digits_alone(text)
}

fn whole_degrees(digits: &[u8]) -> Option<u64>
    ensures value { result ≡ whole_of digits.now }
    ensures within { IfSome result (λ n. n < 10 ^ 16) }
{
    if !are_digits(digits, 3) {
        return None;
    }
    let number = read_fixed(digits)?;
    Some(u64::from(number) * DEGREE)
}

fn power_of_ten(exponent: u32) -> u64
    requires { exponent ≤ 7 }
    ensures value { result ≡ 10 ^ exponent }
    ensures within { result ≤ 10 ^ 7 }
{
    10_u64.pow(exponent)
}

fn part_of_degree(digits: &[u8]) -> Option<u64>
    ensures value { result ≡ part_of digits.now }
    ensures within { IfSome result (λ n. n < 10 ^ 16) }
{
    if !are_digits(digits, 18) {
        return None;
    }
    let kept = digits.len().min(7);
    let number = read_fixed(&digits[..kept])?;
    Some(u64::from(number) * power_of_ten(7 - kept as u32))
}

fn point_at(text: &[u8]) -> Option<usize>
    ensures { result ≡ position is_point text.now }
{
    text.iter().position(|byte| *byte == b'.')
}

fn units(text: &[u8]) -> Option<u64>
    ensures value { result ≡ units_of text.now }
    ensures within { IfSome result (λ n. n < 10 ^ 17) }
{
    match point_at(text) {
        None => whole_degrees(text),
        Some(point) => {
            let whole = whole_degrees(&text[..point])?;
            let part = part_of_degree(&text[point + 1..])?;
            Some(whole + part)
        }
    }
}

fn size(text: &[u8], most: u32) -> Option<u64>
    requires { most ≤ 180 }
    ensures value { result ≡ size_of most text.now }
    ensures within { IfSome result (λ n. n ≤ most * degree) }
{
    let n = units(text)?;
    if n <= u64::from(most) * DEGREE {
        Some(n)
    } else {
        None
    }
}

/// The degrees that `text` spells, in units of 10^-7 degree: an optional minus, 1 to 3 digits, and optionally
/// a point and 1 to 18 digits. Digits past the seventh behind the point are dropped.
///
/// `None` exactly where the text is not of this form, or the value, after the dropping, is above `most`
/// degrees in size.
#[tactic(auto, unfolding(crate::specs::Degrees::degrees_of))]
pub fn read_degrees(text: &[u8], most: u32) -> Option<i64>
    requires { most ≤ 180 }
    ensures value { result ≡ degrees_of most text.now }
    ensures within { IfSome result (λ z. unsigned_abs z ≤ most * 10 ^ 7) }
{
    match text {
        [] => None,
        [b'-', rest @ ..] => Some(-(size(rest, most)? as i64)),
        text => Some(size(text, most)? as i64),
    }
}
