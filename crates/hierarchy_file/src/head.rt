//! The head of a file: what it begins with, and how many records follow.

ghost use Rattle.std.specs.Prelude.{◌≡◌, ◌++◌, option_map, OnOk};
ghost use Rattle.hierarchy_file.specs.Spelling.{magic, counts_text};
ghost use Rattle.hierarchy_file.specs.Reading.{behind_magic, counts_at, head_at};

use file_records::{push_u64, u64_front};
use std::alloc::AllocError;

/// What the bytes of a hierarchy begin with.
const MAGIC: &[u8] = b"MPHIER01";

/// How many records of each kind there are.
#[derive(Clone, Copy)]
pub struct Counts {
    pub order: u64,
    pub entries: u64,
    pub witnesses: u64,
}

/// The bytes behind the magic.
#[tactic(auto, unfolding(crate::specs::Reading::behind_magic))]
fn behind_magic(bytes: &[u8]) -> Option<&[u8]>
    ensures { option_map (λ rest. rest.now) result ≡ behind_magic bytes.now }
{
    bytes.strip_prefix(MAGIC)
}

/// How many records of each kind follow.
#[tactic(auto, unfolding(crate::specs::Reading::counts_at))]
fn counts_at(bytes: &[u8]) -> Option<(Counts, &[u8])>
    ensures { option_map (λ x. (x.0, x.1.now)) result ≡ counts_at bytes.now }
{
    let (order, rest) = u64_front(bytes)?;
    let (entries, rest) = u64_front(rest)?;
    let (witnesses, rest) = u64_front(rest)?;
    Some((
        Counts {
            order,
            entries,
            witnesses,
        },
        rest,
    ))
}

/// The counts that the head tells, and the bytes behind it.
#[tactic(auto, unfolding(crate::specs::Reading::head_at))]
pub(crate) fn head_at(bytes: &[u8]) -> Option<(Counts, &[u8])>
    ensures { option_map (λ x. (x.0, x.1.now)) result ≡ head_at bytes.now }
{
    let rest = behind_magic(bytes)?;
    counts_at(rest)
}

/// The head: the magic, and how many records of each kind follow.
pub(crate) fn push_head(out: &mut Vec<u8>, counts: Counts) -> Result<(), AllocError>
    ensures { OnOk result (out.new.items ≡ out.old.items ++ (magic ++ counts_text counts)) }
{
    out.extend_from_slice(MAGIC)?;
    push_u64(out, counts.order)?;
    push_u64(out, counts.entries)?;
    push_u64(out, counts.witnesses)
}
