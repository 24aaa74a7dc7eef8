ghost use Rattle.std.specs.Prelude.{◌≡◌, ◌++◌, length, IfSome, OnOk};
ghost use Rattle.plain_texts.specs.Digits.{digit_of, more};
ghost use Rattle.plain_texts.specs.FixedDecimal.{IsFixed, fixed_at, fixed_decimal, fixed_step};
ghost use Rattle.plain_texts.specs.Reading.{IsReadBy};

use std::alloc::AllocError;

fn digit(byte: u8) -> Option<u32>
    ensures { result ≡ digit_of byte }
{
    match byte {
        b'0'..=b'9' => Some(u32::from(byte - b'0')),
        _ => None,
    }
}

fn with_digit(value: Option<u32>, byte: u8) -> Option<u32>
    ensures { result ≡ more fixed_step value byte }
{
    let value = value?;
    let digit = digit(byte)?;
    if value < 100_000_000 {
        Some(value * 10 + digit)
    } else {
        None
    }
}

#[tactic(auto, unfolding(crate::specs::FixedDecimal::fixed_at))]
fn number(text: &[u8]) -> Option<u32>
    ensures { result ≡ fixed_at text.now }
{
    text.iter()
        .fold(Some(0), |value, byte| with_digit(value, *byte))
}

/// The number that a field of digits spells, where leading zeros fill the field: 2 digits of an hour, a
/// minute or a second, 3 of a millisecond, 8 of a date.
///
/// `None` exactly where some byte is no digit, or the number has more than 9 digits.
pub fn read_fixed(text: &[u8]) -> Option<u32>
    ensures value { result ≡ fixed_at text.now }
    ensures within { IfSome result (IsFixed (length text.now)) }
    ensures exact { IsReadBy (fixed_decimal (length text.now)) (IsFixed (length text.now)) text.now result }
{
    number(text)
}

/// Writes the last `width` digits of a number at the end, with leading zeros.
pub fn push_fixed(out: &mut Vec<u8>, width: u32, n: u32) -> Result<(), AllocError>
    ensures { OnOk result (out.new.items ≡ out.old.items ++ fixed_decimal width n) }
{
    if width == 0 {
        return Ok(());
    }
    push_fixed(out, width - 1, n / 10)?;
    out.push(b'0' + (n % 10) as u8)?;
    Ok(())
}
