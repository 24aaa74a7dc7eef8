//! Files that have a hierarchy alone, or one and behind it a hierarchy of its core.

ghost use Rattle.std.specs.Prelude.{◌≡◌, ◌+◌, ◌-◌, ◌<◌, ◌≤◌, ◌^◌, List, ℕ, Some, length, IfOk, IfErr, IfSome, option_map};
ghost use Rattle.core_file.specs.Files.{core_head, behind, HasParts, SpellFile, SpellBoth, IsRefusedFile};
ghost use Rattle.core_file.specs.inside.Parts.{behind_core_magic, parts_of, IsPlacedBy};

use file_records::{push_u64, u64_front};
use hierarchy::Lists;
use hierarchy_file::{HFileFault, decode_lists, encode};
use std::alloc::{AllocError, Global};

/// What the bytes of a file with two hierarchies begin with.
const CORE_MAGIC: &[u8] = b"MPHIER02";
/// How many bytes stand before its first part: the magic, and how long this part is.
const CORE_HEAD: u64 = 16;

/// The formats that a file of a hierarchy may have.
#[derive(Clone, Copy, Debug, PartialEq, Eq)]
pub enum FileFormat {
    /// Format 1, a hierarchy alone.
    Alone,
    /// Format 2, a hierarchy and behind it one of its core.
    WithCore,
}

/// The lists of a file: those of a hierarchy, and where the file has one, those of a hierarchy of its core.
#[derive(Drop)]
pub struct FileLists {
    pub hierarchy: Lists,
    pub core: Option<Lists>,
}

/// The bytes behind the magic.
#[tactic(auto, unfolding(crate::specs::inside::Parts::behind_core_magic))]
fn behind_magic(bytes: &[u8]) -> Option<&[u8]>
    ensures { option_map (λ rest. rest.now) result ≡ behind_core_magic bytes.now }
{
    bytes.strip_prefix(CORE_MAGIC)
}

/// The first part and the rest of bytes that have two.
#[tactic(auto, unfolding(crate::specs::inside::Parts::parts_of))]
fn parts_of(bytes: &[u8]) -> Option<(&[u8], &[u8])>
    ensures { option_map (λ x. (x.0.now, x.1.now)) result ≡ parts_of bytes.now }
{
    let behind = behind_magic(bytes)?;
    let (long, rest) = u64_front(behind)?;
    if long <= rest.len() as u64 {
        Some(rest.split_at(long as usize))
    } else {
        None
    }
}

/// The lists of the hierarchies that the bytes of a file spell, or the first fault of the bytes.
///
/// A file in format 1 is the spelling of a hierarchy, as `decode` of `hierarchy_file` tells. One in format 2 begins with the magic
/// `MPHIER02` and a number of eight bytes, the highest first, which says how many bytes its first part has; this and the rest are the
/// spellings of a hierarchy and of one of its core. The place of a fault is counted from the begin of the file.
pub fn decode_file(alloc: Global, bytes: &[u8]) -> Result<FileLists, HFileFault>
    ensures found { IfOk result (λ file. SpellFile bytes.now file.hierarchy file.core) }
    ensures none { IfErr result (IsRefusedFile bytes.now) }
{
    match parts_of(bytes) {
        None => match decode_lists(alloc, bytes) {
            Ok(hierarchy) => Ok(FileLists {
                hierarchy,
                core: None,
            }),
            Err(fault) => Err(fault),
        },
        Some((first, rest)) => both_of(alloc, bytes.len() as u64, first, rest),
    }
}

/// The lists of the hierarchies that two parts of a file with so many bytes spell, or the first fault.
fn both_of(alloc: Global, bytes: u64, first: &[u8], rest: &[u8]) -> Result<FileLists, HFileFault>
    requires { core_head + length first.now + length rest.now ≤ bytes }
    ensures found { IfOk result (λ file. (text : List ℕ) → HasParts text first.now rest.now
        → SpellFile text file.hierarchy file.core) }
    ensures none { IfErr result (λ fault. (text : List ℕ) → HasParts text first.now rest.now
        → IsRefusedFile text fault) }
{
    let _ = bytes;
    let hierarchy = match decode_lists(alloc, first) {
        Ok(hierarchy) => hierarchy,
        Err(fault) => return Err(behind(CORE_HEAD, fault)),
    };
    let core = match decode_lists(alloc, rest) {
        Ok(core) => core,
        Err(fault) => return Err(behind(CORE_HEAD + first.len() as u64, fault)),
    };
    Ok(FileLists {
        hierarchy,
        core: Some(core),
    })
}

/// A fault of a part that begins behind so many bytes, as one of the whole.
fn behind(before: u64, fault: HFileFault) -> HFileFault
    requires { IsPlacedBy (2 ^ 64 - 1 - before) fault }
    ensures { result ≡ behind before fault }
{
    match fault {
        HFileFault::BadHead => HFileFault::BadRecord { at: before },
        HFileFault::BadRecord { at } => HFileFault::BadRecord { at: before + at },
        HFileFault::Trailing { at } => HFileFault::Trailing { at: before + at },
        HFileFault::OutOfMemory => HFileFault::OutOfMemory,
    }
}

/// The one spelling of a hierarchy, with that of one of its core or without, which [`decode_file`] reads again: in format 2 or 1.
pub fn encode_file(
    alloc: Global,
    hierarchy: Lists,
    core: Option<Lists>,
) -> Result<Vec<u8>, AllocError>
    ensures { IfOk result (λ bytes. SpellFile bytes.items hierarchy core) }
{
    match core {
        None => encode(alloc, hierarchy),
        Some(core) => encode_both(alloc, hierarchy, core),
    }
}

/// The spelling of both. It takes as much room as each of them, and that of each is free again when it is spelled.
fn encode_both(alloc: Global, hierarchy: Lists, core: Lists) -> Result<Vec<u8>, AllocError>
    ensures { IfOk result (λ bytes. SpellBoth bytes.items hierarchy core) }
{
    let first = encode(alloc, hierarchy)?;
    let rest = encode(alloc, core)?;
    let mut out = Vec::with_capacity(alloc, first.len())?;
    out.extend_from_slice(CORE_MAGIC)?;
    push_u64(&mut out, first.len() as u64)?;
    out.extend_from_slice(&first)?;
    drop(first);
    out.extend_from_slice(&rest)?;
    Ok(out)
}
