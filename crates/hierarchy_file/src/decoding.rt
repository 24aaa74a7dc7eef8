//! From bytes to a hierarchy.

ghost use Rattle.std.specs.Prelude.{Ok, IfOk, IfErr};
ghost use Rattle.file_records.specs.Reading.{GivesRead};
ghost use Rattle.hierarchy.specs.Lists.{HierarchyLists};
ghost use Rattle.hierarchy_file.specs.Causes.{HasCause, IsRefusedHierarchy, SpellHierarchy};
ghost use Rattle.hierarchy_file.specs.Reading.{GivesHierarchy, hierarchy_records, hierarchy_of};

use crate::fault::HFileFault;
use crate::head::{Counts, head_at};
use crate::records::{entries_of, read_nodes, witnesses_of};
use file_records::Halt;
use hierarchy::{Hierarchy, Lists};
use std::alloc::Global;

/// All records, and the bytes behind them.
#[tactic(auto, unfolding(crate::specs::Reading::hierarchy_records))]
fn records_of(alloc: Global, counts: Counts, bytes: &[u8]) -> Result<(Lists, &[u8]), Halt>
    ensures { GivesRead (λ x. (x.0, x.1.now)) result (hierarchy_records counts bytes.now) }
{
    let mut order = Vec::new(alloc);
    let rest = read_nodes(&mut order, counts.order, bytes)?;
    let (entries, rest) = entries_of(alloc, counts.entries, rest)?;
    let (witnesses, rest) = witnesses_of(alloc, counts.witnesses, rest)?;
    Ok((Lists::new(order, entries, witnesses), rest))
}

/// The lists that the bytes spell.
#[tactic(auto, unfolding(crate::specs::Reading::hierarchy_of))]
fn lists_of(alloc: Global, bytes: &[u8]) -> Result<Lists, HFileFault>
    ensures { GivesHierarchy result (hierarchy_of bytes.now) }
{
    let Some((counts, rest)) = head_at(bytes) else {
        return Err(HFileFault::BadHead);
    };
    match records_of(alloc, counts, rest) {
        Err(Halt::Memory) => Err(HFileFault::OutOfMemory),
        Err(Halt::Left(left)) => Err(HFileFault::BadRecord {
            at: (bytes.len() as u64).saturating_sub(left),
        }),
        Ok((lists, rest)) => {
            if rest.is_empty() {
                Ok(lists)
            } else {
                Err(HFileFault::Trailing {
                    at: (bytes.len() as u64).saturating_sub(rest.len() as u64),
                })
            }
        }
    }
}

/// The hierarchy that the bytes spell, with its tables.
fn read(alloc: Global, bytes: &[u8]) -> Result<Hierarchy, HFileFault>
    ensures { GivesHierarchy result (hierarchy_of bytes.now) }
{
    let lists = decode_lists(alloc, bytes)?;
    Ok(lists.into_hierarchy(alloc)?)
}

/// The lists of the hierarchy that the bytes spell, or the first fault of the bytes, as [`decode`] finds them. They take
/// no more room than the records need that are there.
pub fn decode_lists(alloc: Global, bytes: &[u8]) -> Result<Lists, HFileFault>
    ensures found { IfOk result (SpellHierarchy bytes.now) }
    ensures none { IfErr result (IsRefusedHierarchy bytes.now) }
    ensures exact { GivesHierarchy result (hierarchy_of bytes.now) }
{
    lists_of(alloc, bytes)
}

/// The hierarchy that the bytes spell.
///
/// They begin with the magic `MPHIER01` and the counts of order nodes, entries and witnesses. Each order node, each
/// entry and each witness is a record; a witness has the count of its nodes before them. All numbers are big-endian:
/// counts and weights have eight bytes, and nodes four, where 2^32 - 1 stands for no middle node. Each hierarchy has
/// exactly one spelling, and other bytes are refused: first where the head is not there, then at the first record that
/// is cut short or breaks a rule of [`Lists::new`], and at last where bytes follow the records. The lists take no
/// more room than the records need that are there; the tables of a hierarchy go with the greatest number of a node, so
/// whoever does not trust the bytes reads the lists alone first, by [`decode_lists`].
pub fn decode(alloc: Global, bytes: &[u8]) -> Result<Hierarchy, HFileFault>
    // What is read keeps the rules of a hierarchy, and is spelled so.
    ensures found { IfOk result (SpellHierarchy bytes.now) }
    // The hierarchy that is spelled so is read, unless memory runs out.
    ensures only { (h : HierarchyLists) → SpellHierarchy bytes.now h → GivesHierarchy result (Ok h) }
    // Each refusal has its cause.
    ensures cause { IfErr result (HasCause bytes.now) }
    // Which one comes first.
    ensures exact { GivesHierarchy result (hierarchy_of bytes.now) }
{
    read(alloc, bytes)
}
