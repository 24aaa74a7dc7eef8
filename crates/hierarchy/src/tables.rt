//! The tables that a hierarchy keeps beside its lists.

ghost use Rattle.std.specs.Prelude.{All, IfOk};
ghost use Rattle.std.specs.List.Sorted.{IsNonDecreasingBy};
ghost use Rattle.hierarchy.specs.Rules.{IsNode, FitsEntry};
ghost use Rattle.hierarchy.specs.Lookups.{from_of};
ghost use Rattle.hierarchy.specs.inside.Tables.{AreTablesOf};

use crate::entry::Entry;
use crate::falls::{Fall, fall_tables};
use crate::heights::{HeightTable, heights, past_entries, past_order};
use crate::rises::{legs, rows};
use search_laws::Leg;
use std::alloc::{AllocError, Global};

/// What is kept of a node: how many entries, and how many of those that lead up or along the core, begin at lower nodes.
#[derive(Clone, Copy)]
pub(crate) struct NodeRow {
    pub entries: u32,
    pub rises: u32,
}

/// What finds the height of a node, and the entries at a node.
#[derive(Drop)]
pub(crate) struct Tables {
    pub nodes: u32,
    pub heights: Vec<u32>,
    /// One for each node number, and one past the last.
    pub rows: Vec<NodeRow>,
    /// The places of the entries that lead up or along the core.
    pub rises: Vec<u32>,
    /// Where these lead; empty if one of them takes 2^32 ms or longer.
    pub legs: Vec<Leg>,
    /// For each node number and one past the last, how many of `falls` end at lower nodes.
    pub fall_offsets: Vec<u32>,
    /// The entries that lead down, by their ends.
    pub falls: Vec<Fall>,
}

impl Tables {
    /// The tables of an order and of entries. That there are too many for numbers of 32 bits counts as want of memory.
    pub(crate) fn new(alloc: Global, order: &[u32], entries: &[Entry]) -> Result<Tables, AllocError>
        requires order { All IsNode order.now }
        requires fit { All FitsEntry entries.now }
        requires rising { IsNonDecreasingBy from_of entries.now }
        ensures { IfOk result (λ tables. AreTablesOf order.now entries.now tables) }
    {
        if order.len().max(entries.len()) > 0xffff_ffff {
            return Err(AllocError);
        }
        let nodes = past_entries(entries, past_order(order));
        let table = heights(alloc, nodes, order)?;
        let heights = HeightTable {
            order,
            nodes,
            of: &table,
        };
        let (fall_offsets, falls) = fall_tables(alloc, &heights, entries)?;
        let (rows, rises) = rows(alloc, &heights, entries)?;
        let legs = legs(alloc, entries, &rises)?;
        Ok(Tables {
            nodes,
            heights: table,
            rows,
            rises,
            legs,
            fall_offsets,
            falls,
        })
    }
}
