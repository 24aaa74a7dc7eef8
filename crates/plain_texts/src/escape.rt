//! The escape by which an id of a timetable feed becomes a name.

ghost use Rattle.std.specs.Prelude.{◌≡◌, ℕ, ◌*◌, ◌<◌, ◌≤◌, ◌^◌, ◌++◌, List, length, IfOk, OnOk, true};
ghost use Rattle.plain_texts.specs.Escape as spec;
ghost use Rattle.plain_texts.specs.Names.{is_name};

use crate::hexadecimals::push_hexadecimal;
use crate::names::Name;
use std::alloc::{AllocError, Global};

fn is_plain(byte: u8) -> bool
    ensures { result ≡ spec.is_plain byte }
{
    byte > b' ' && byte != b'%' && byte != 0x7f
}

fn push_code(out: &mut Vec<u8>, byte: u8) -> Result<(), AllocError>
    ensures { OnOk result (out.new.items ≡ out.old.items ++ spec.code_of byte) }
{
    if byte == 0 {
        out.push(b'0')?;
        Ok(())
    } else {
        push_hexadecimal(out, u128::from(byte))
    }
}

fn push_escaped(out: &mut Vec<u8>, byte: u8) -> Result<(), AllocError>
    ensures { OnOk result (out.new.items ≡ out.old.items ++ spec.escaped_byte byte) }
{
    if is_plain(byte) {
        out.push(byte)?;
    } else {
        out.push(b'%')?;
        push_code(out, byte)?;
        out.push(b'%')?;
    }
    Ok(())
}

#[tactic(auto, unfolding(crate::specs::Escape::escaped))]
fn escaped(alloc: Global, id: &[u8]) -> Result<Vec<u8>, AllocError>
    ensures { IfOk result (λ bytes. bytes.items ≡ spec.escaped id.now) }
{
    let mut bytes = Vec::new(alloc);
    for byte in id {
        push_escaped(&mut bytes, *byte)?;
    }
    Ok(bytes)
}

/// The name of an id of a feed: the characters from U+0000 to U+0020, `%` and U+007F are written as `%hex%`, with
/// lower-case hexadecimal digits without leading zeros, and all other bytes stand for themselves. So `Main St` has
/// the name `Main%20%St`, and `5%` has `5%25%`.
pub fn name_of_id(alloc: Global, id: &[u8]) -> Result<Name, AllocError>
    requires some { 0 < length id.now }
    requires short { length id.now < 2 ^ 30 }
    ensures { IfOk result (λ name. name ≡ spec.escaped id.now) }
{
    let bytes = escaped(alloc, id)?;
    match Name::new(bytes) {
        Some(name) => Ok(name),
        None => unreachable!(),
    }
}

/// What is true of the escape: no two ids have one name, each id that has a byte and fewer than 2^30 bytes has a name,
/// and that has at most four times its length.
pub fn escape_facts()
    ensures injective { (a b : List ℕ) → spec.escaped a ≡ spec.escaped b → a ≡ b }
    ensures name { (id : List ℕ) → 0 < length id → length id < 2 ^ 30 → is_name (spec.escaped id) ≡ true }
    ensures length { (id : List ℕ) → length (spec.escaped id) ≤ 4 * length id }
{}
