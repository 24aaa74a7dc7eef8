//! Names of stops and trips: one or more bytes, fewer than 2^32, none of them a control character, a space
//! or the delete character.

ghost use Rattle.std.specs.Prelude.{◌≡◌, List, ℕ, IfOk, true};
ghost use Rattle.std.specs.List.{list_all};
ghost use Rattle.plain_texts.specs.Names as spec;

use std::alloc::{AllocError, Global};
use std::marker::Model;

fn are_name_bytes(bytes: &[u8]) -> bool
    ensures { result ≡ list_all spec.is_name_byte bytes.now }
{
    bytes.iter().all(|byte| *byte > b' ' && *byte != 0x7f)
}

/// Whether the bytes are a name.
#[tactic(auto, unfolding(crate::specs::Names::is_name))]
pub fn is_name(bytes: &[u8]) -> bool
    ensures { result ≡ spec.is_name bytes.now }
{
    !bytes.is_empty() && bytes.len() < 1 << 32 && are_name_bytes(bytes)
}

/// A name. A contract sees it as its bytes.
#[derive(Debug, Drop)]
pub struct Name {
    bytes: Vec<u8>,
}

impl Model for Name {
    ghost Value = { List ℕ };

    ghost view = { λ n. n.bytes.items };

    ghost invariant = { λ n. spec.is_name n.bytes.items ≡ true };
}

impl Name {
    /// The name with these bytes; `None` exactly where they are no name.
    pub fn new(bytes: Vec<u8>) -> Option<Name>
        ensures { result ≡ spec.name_of bytes.items }
    {
        if is_name(&bytes) {
            Some(Name { bytes })
        } else {
            None
        }
    }

    /// A copy of these bytes as a name; `None` exactly where they are no name.
    pub fn from_slice(alloc: Global, bytes: &[u8]) -> Result<Option<Name>, AllocError>
        ensures { IfOk result (λ name. name ≡ spec.name_of bytes.now) }
    {
        let bytes = Vec::from_slice(alloc, bytes)?;
        Ok(Name::new(bytes))
    }

    /// The bytes of the name.
    pub fn as_bytes(&self) -> &[u8]
        ensures value { result.now ≡ self.now }
        ensures name { spec.is_name self.now ≡ true }
    {
        self.bytes.as_slice()
    }
}
