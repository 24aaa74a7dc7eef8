ghost use Rattle.std.specs.Prelude.{◌≡◌, ◌++◌, ◌<◌, IfSome, OnOk};
ghost use Rattle.plain_texts.specs.Hexadecimal.{IsHexadecimal, first_hexadecimal, glyph, hexadecimal, hexadecimal_at, hexadecimal_digit_of, hexadecimal_step};
ghost use Rattle.plain_texts.specs.Digits.{more};
ghost use Rattle.plain_texts.specs.Reading.{IsReadBy};

use std::alloc::AllocError;

fn digit(byte: u8) -> Option<u128>
    ensures { result ≡ hexadecimal_digit_of byte }
{
    match byte {
        b'0'..=b'9' => Some(u128::from(byte - b'0')),
        b'a'..=b'f' => Some(u128::from(byte - b'a') + 10),
        _ => None,
    }
}

fn first_digit(byte: u8) -> Option<u128>
    ensures { result ≡ first_hexadecimal byte }
{
    if byte == b'0' { None } else { digit(byte) }
}

fn with_digit(value: Option<u128>, byte: u8) -> Option<u128>
    ensures { result ≡ more hexadecimal_step value byte }
{
    let value = value?;
    let digit = digit(byte)?;
    if value < 1 << 124 {
        Some(value * 16 + digit)
    } else {
        None
    }
}

#[tactic(auto, unfolding(crate::specs::Hexadecimal::hexadecimal_at))]
fn number(text: &[u8]) -> Option<u128>
    ensures { result ≡ hexadecimal_at text.now }
{
    match text {
        [] => None,
        [first, rest @ ..] => rest.iter().fold(
            first_digit(*first),
            |value, byte| with_digit(value, *byte),
        ),
    }
}

/// The number that `text` spells with 1 to 32 lower-case hexadecimal digits, the first of them not `0`: a
/// set of days, where bit k stands for day k.
///
/// `None` exactly where no number is spelled so.
pub fn read_hexadecimal(text: &[u8]) -> Option<u128>
    ensures value { result ≡ hexadecimal_at text.now }
    ensures within { IfSome result IsHexadecimal }
    ensures exact { IsReadBy hexadecimal IsHexadecimal text.now result }
{
    number(text)
}

fn glyph_of(digit: u8) -> u8
    requires { digit < 16 }
    ensures { result ≡ glyph digit }
{
    if digit < 10 {
        b'0' + digit
    } else {
        b'a' + (digit - 10)
    }
}

/// Writes a number at the end, in lower-case hexadecimal digits without leading zeros. 0 has no digits.
pub fn push_hexadecimal(out: &mut Vec<u8>, n: u128) -> Result<(), AllocError>
    ensures { OnOk result (out.new.items ≡ out.old.items ++ hexadecimal n) }
{
    if n == 0 {
        return Ok(());
    }
    push_hexadecimal(out, n / 16)?;
    out.push(glyph_of((n % 16) as u8))?;
    Ok(())
}
