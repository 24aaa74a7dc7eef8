//! From the lists of a hierarchy to bytes.

ghost use Rattle.std.specs.Prelude.{◌≡◌, ◌++◌, ◌<◌, ◌^◌, All, IfOk, OnOk, length};
ghost use Rattle.std.specs.List.{flat_map};
ghost use Rattle.hierarchy_file.specs.Spelling.{node_in_bytes, entry_text, witness_text, middle_number};
ghost use Rattle.hierarchy_file.specs.Causes.{SpellHierarchy};

use crate::head::{Counts, push_head};
use crate::records::NO_MIDDLE;
use file_records::{push_u32, push_u64};
use hierarchy::{Entry, Lists, Sizes, Witness, Witnesses};
use std::alloc::{AllocError, Global};

/// The numbers of nodes, one behind the other.
fn push_nodes(out: &mut Vec<u8>, nodes: &[u32]) -> Result<(), AllocError>
    ensures { OnOk result (out.new.items ≡ out.old.items ++ flat_map node_in_bytes nodes.now) }
{
    for node in nodes {
        push_u32(out, *node)?;
    }
    Ok(())
}

/// The number that stands for the middle node of an entry, or for none.
fn middle_number(via: Option<u32>) -> u32
    ensures { result ≡ middle_number via }
{
    match via {
        Some(middle) => middle,
        None => NO_MIDDLE,
    }
}

/// The record of an entry.
fn push_entry(out: &mut Vec<u8>, entry: Entry) -> Result<(), AllocError>
    ensures text { OnOk result (out.new.items ≡ out.old.items ++ entry_text entry) }
    ensures fit { OnOk result (entry.weight < 2 ^ 64) }
{
    push_u32(out, entry.from)?;
    push_u32(out, entry.to)?;
    push_u64(out, entry.weight)?;
    push_u32(out, middle_number(entry.via))
}

/// The records of the entries.
fn push_entries(out: &mut Vec<u8>, entries: &[Entry]) -> Result<(), AllocError>
    ensures text { OnOk result (out.new.items ≡ out.old.items ++ flat_map entry_text entries.now) }
    ensures fit { OnOk result (All (λ entry. entry.weight < 2 ^ 64) entries.now) }
{
    for entry in entries {
        push_entry(out, *entry)?;
    }
    Ok(())
}

/// The record of a witness, which counts its nodes before them.
fn push_witness(out: &mut Vec<u8>, witness: &Witness<'_>) -> Result<(), AllocError>
    ensures text { OnOk result (out.new.items ≡ out.old.items ++ witness_text witness.now) }
    ensures fit { OnOk result (length witness.now.nodes < 2 ^ 64) }
{
    push_u32(out, witness.below)?;
    push_u64(out, witness.nodes.len() as u64)?;
    push_nodes(out, witness.nodes)?;
    Ok(())
}

/// The records of the witnesses.
fn push_witnesses(out: &mut Vec<u8>, witnesses: &Witnesses) -> Result<(), AllocError>
    ensures text { OnOk result (out.new.items ≡ out.old.items ++ flat_map witness_text witnesses.now) }
    ensures fit { OnOk result (All (λ witness. length witness.nodes < 2 ^ 64) witnesses.now) }
{
    for place in 0..witnesses.len() {
        push_witness(out, &witnesses.get(place))?;
    }
    Ok(())
}

/// How many bytes the spelling of lists has that are so long, or the greatest number if it has more. No contract speaks of
/// it.
pub fn file_len(sizes: Sizes) -> u64 {
    let nodes = sizes.order.saturating_add(sizes.witness_nodes);
    32u64
        .saturating_add(nodes.saturating_mul(4))
        .saturating_add(sizes.entries.saturating_mul(20))
        .saturating_add(sizes.witnesses.saturating_mul(12))
}

/// The one spelling of a hierarchy with these lists, which [`decode`](crate::decode) reads again. Room for it is made at once,
/// and the memory of each list is free again as soon as it is spelled.
pub fn encode(alloc: Global, lists: Lists) -> Result<Vec<u8>, AllocError>
    ensures { IfOk result (λ bytes. SpellHierarchy bytes.items lists) }
{
    lists.known();
    let mut out = Vec::with_capacity(alloc, file_len(lists.sizes()) as usize)?;
    let (order, entries, witnesses) = lists.into_parts();
    let counts = Counts {
        order: order.len() as u64,
        entries: entries.len() as u64,
        witnesses: witnesses.len() as u64,
    };
    push_head(&mut out, counts)?;
    push_nodes(&mut out, &order)?;
    drop(order);
    push_entries(&mut out, &entries)?;
    drop(entries);
    push_witnesses(&mut out, &witnesses)?;
    Ok(out)
}
