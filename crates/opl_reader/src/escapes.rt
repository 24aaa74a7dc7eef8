//! Keys and values, and the escapes in them.

ghost use Rattle.std.specs.Prelude.{◌≡◌, ◌<◌, ◌++◌, encode_utf8, IfOk, IfSome, OnOk};
ghost use Rattle.opl_reader.specs.Escapes.{character_at, either_case_digit_of, hexadecimal_scalar_at, scalar_of, unescaped};

use crate::cuts::cut;
use crate::objects::Bytes;
use std::alloc::{AllocError, Global};

/// The value of a hexadecimal digit of either case.
fn digit(byte: u8) -> Option<u32>
    ensures value { result ≡ either_case_digit_of byte }
    ensures within { IfSome result (λ d. d < 16) }
{
    match byte {
        b'0'..=b'9' => Some(u32::from(byte - b'0')),
        b'A'..=b'F' => Some(u32::from(byte - b'A') + 10),
        b'a'..=b'f' => Some(u32::from(byte - b'a') + 10),
        _ => None,
    }
}

/// The number that 1 to 6 hexadecimal digits spell.
#[tactic(auto, unfolding(crate::specs::Escapes::hexadecimal_scalar_at))]
fn hexadecimal(digits: &[u8]) -> Option<u32>
    ensures { result ≡ hexadecimal_scalar_at digits.now }
{
    if digits.is_empty() || digits.len() > 6 {
        return None;
    }
    let mut n = 0;
    for byte in digits {
        n = n * 16 + digit(*byte)?;
    }
    Some(n)
}

fn scalar(n: u32) -> Option<char>
    ensures { result ≡ scalar_of n }
{
    char::from_u32(n)
}

/// The character that stands between two percent signs.
#[tactic(auto, unfolding(crate::specs::Escapes::character_at))]
fn character(digits: &[u8]) -> Option<char>
    ensures { result ≡ character_at digits.now }
{
    scalar(hexadecimal(digits)?)
}

/// Puts the UTF-8 of a character behind other bytes.
fn push_character(bytes: &mut Vec<u8>, character: char) -> Result<(), AllocError>
    ensures { OnOk result (bytes.new.items ≡ bytes.old.items ++ encode_utf8 character) }
{
    let mut room = [0; 4];
    bytes.extend_from_slice(character.encode_utf8(&mut room).as_bytes())
}

/// The bytes that a key or a value stands for: `%hex%`, with 1 to 6 hexadecimal digits, is a character, and
/// other bytes stand for themselves.
///
/// `None` exactly where a percent sign is not one of two around the digits of a Unicode scalar value.
pub(crate) fn unescape(alloc: Global, text: &[u8]) -> Result<Option<Bytes>, AllocError>
    ensures { IfOk result (λ bytes. bytes ≡ unescaped text.now) }
{
    let mut bytes = Vec::new(alloc);
    let mut rest = text;
    while let Some((plain, behind)) = cut(rest, b'%') {
        bytes.extend_from_slice(plain)?;
        let Some((digits, after)) = cut(behind, b'%') else {
            return Ok(None);
        };
        let Some(character) = character(digits) else {
            return Ok(None);
        };
        push_character(&mut bytes, character)?;
        rest = after;
    }
    bytes.extend_from_slice(rest)?;
    Ok(Some(Bytes::from(bytes)))
}
