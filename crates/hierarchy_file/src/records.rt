//! The records of a hierarchy, read one after the other.

ghost use Rattle.std.specs.Prelude.{◌≡◌, ℕ, option_map, IfOk};
ghost use Rattle.file_records.specs.Reading.{GivesRead};
ghost use Rattle.hierarchy_file.specs.Spelling.{key_of_entry, key_of_witness, pair_cmp, three_cmp};
ghost use Rattle.hierarchy_file.specs.Reading.{node_at, next_node, middle_of, entry_front, witness_at, many_ascending, is_after};

use file_records::{Halt, u32_front, u64_front};
use hierarchy::{Entry, Witness, Witnesses};
use std::alloc::{AllocError, Global};

/// Nodes have lower numbers than this.
const NODES: u32 = 1 << 24;

/// What stands for no middle node.
pub(crate) const NO_MIDDLE: u32 = 0xffff_ffff;

/// The node number at the front of the bytes.
#[tactic(auto, unfolding(crate::specs::Reading::node_at))]
fn node_at(bytes: &[u8]) -> Option<(u32, &[u8])>
    ensures { option_map (λ x. (x.0, x.1.now)) result ≡ node_at bytes.now }
{
    let (node, rest) = u32_front(bytes)?;
    if node < NODES {
        Some((node, rest))
    } else {
        None
    }
}

/// The middle node of an entry, if the number may stand there: that of a node, or the one that stands for none.
#[tactic(auto, unfolding(crate::specs::Reading::middle_of))]
fn middle_of(number: u32) -> Option<Option<u32>>
    ensures { result ≡ middle_of number }
{
    if number == NO_MIDDLE {
        Some(None)
    } else if number < NODES {
        Some(Some(number))
    } else {
        None
    }
}

/// Whether an entry with these ends may stand after the one with those before it, if any.
fn pair_is_after(before: Option<(u32, u32)>, ends: (u32, u32)) -> bool
    ensures { result ≡ is_after pair_cmp before ends }
{
    match before {
        Some(before) => before.cmp(&ends).is_lt(),
        None => true,
    }
}

/// Whether a witness for this node with these ends may stand after the one before it, if any.
fn three_is_after(before: Option<(u32, u32, u32)>, key: (u32, u32, u32)) -> bool
    ensures { result ≡ is_after three_cmp before key }
{
    match before {
        Some(before) => before.cmp(&key).is_lt(),
        None => true,
    }
}

/// The entry at the front of the bytes.
#[tactic(auto, unfolding(crate::specs::Reading::entry_front))]
fn entry_at(before: Option<(u32, u32)>, bytes: &[u8]) -> Option<(Entry, &[u8])>
    ensures { option_map (λ x. (x.0, x.1.now)) result ≡ entry_front before bytes.now }
{
    let (from, rest) = node_at(bytes)?;
    let (to, rest) = node_at(rest)?;
    let (weight, rest) = u64_front(rest)?;
    let (middle, rest) = u32_front(rest)?;
    let via = middle_of(middle)?;
    if pair_is_after(before, (from, to)) {
        Some((
            Entry {
                from,
                to,
                weight,
                via,
            },
            rest,
        ))
    } else {
        None
    }
}

/// Reads so many nodes into a list, in the place of what it held; and the bytes behind them.
pub(crate) fn read_nodes<'a>(
    nodes: &mut Vec<u32>,
    count: u64,
    bytes: &'a [u8],
) -> Result<&'a [u8], Halt>
    ensures { GivesRead (λ rest. (nodes.new.items, rest.now)) result (many_ascending next_node (λ (v : ℕ). v) count
        None bytes.now) }
{
    nodes.clear();
    let mut rest = bytes;
    for _ in 0..count {
        let Some((node, after)) = node_at(rest) else {
            return Err(Halt::Left(rest.len() as u64));
        };
        nodes.push(node)?;
        rest = after;
    }
    Ok(rest)
}

/// So many entries, in order.
pub(crate) fn entries_of(
    alloc: Global,
    count: u64,
    bytes: &[u8],
) -> Result<(Vec<Entry>, &[u8]), Halt>
    ensures { GivesRead (λ x. (x.0.items, x.1.now)) result (many_ascending entry_front key_of_entry count None
        bytes.now) }
{
    let mut entries = Vec::new(alloc);
    let mut before = None;
    let mut rest = bytes;
    for _ in 0..count {
        let Some((entry, after)) = entry_at(before, rest) else {
            return Err(Halt::Left(rest.len() as u64));
        };
        entries.push(entry)?;
        before = Some((entry.from, entry.to));
        rest = after;
    }
    Ok((entries, rest))
}

/// What a witness at the front of the bytes is listed for, and the bytes behind it. Its nodes are read into the list.
#[tactic(auto, unfolding(crate::specs::Reading::witness_at))]
fn witness_at<'a>(
    nodes: &mut Vec<u32>,
    before: Option<(u32, u32, u32)>,
    bytes: &'a [u8],
) -> Result<Option<(u32, &'a [u8])>, AllocError>
    ensures { IfOk result (λ read. witness_at before bytes.now
        ≡ option_map (λ x. (record { below = x.0; nodes = nodes.new.items }, x.1.now)) read) }
{
    let Some((below, rest)) = node_at(bytes) else {
        return Ok(None);
    };
    let Some((count, rest)) = u64_front(rest) else {
        return Ok(None);
    };
    match read_nodes(nodes, count, rest) {
        Err(Halt::Memory) => Err(AllocError),
        Err(Halt::Left(_)) => Ok(None),
        Ok(rest) => {
            let witness = Witness { below, nodes };
            if 1 < count && three_is_after(before, witness.key()) {
                Ok(Some((below, rest)))
            } else {
                Ok(None)
            }
        }
    }
}

/// So many witnesses, in order.
pub(crate) fn witnesses_of(
    alloc: Global,
    count: u64,
    bytes: &[u8],
) -> Result<(Witnesses, &[u8]), Halt>
    ensures { GivesRead (λ x. (x.0, x.1.now)) result (many_ascending witness_at key_of_witness count None
        bytes.now) }
{
    let mut witnesses = Witnesses::new(alloc);
    let mut nodes = Vec::new(alloc);
    let mut before = None;
    let mut rest = bytes;
    for _ in 0..count {
        let Some((below, after)) = witness_at(&mut nodes, before, rest)? else {
            return Err(Halt::Left(rest.len() as u64));
        };
        let witness = Witness {
            below,
            nodes: &nodes,
        };
        before = Some(witness.key());
        witnesses.push(below, &nodes)?;
        rest = after;
    }
    Ok((witnesses, rest))
}
