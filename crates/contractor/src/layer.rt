//! What contraction keeps: the hierarchy so far, and what is left of the layers.

ghost use Rattle.std.specs.Prelude.{◌≡◌, ◌≢◌, ◌+◌, ◌<◌, [], ◌∷◌, ◌++◌, not, ◌==◌, filter, length, All, OnOk, IfOk, MatchOption};
ghost use Rattle.hierarchy.specs.Lists.{IsCore};
ghost use Rattle.witness.specs.inside.Searching.{IsEdgePut};
ghost use Rattle.contractor.specs.inside.Partway.{IsPut, shortcut_of};
ghost use Rattle.contractor.specs.inside.Layers.{IsLayer, CanPut, HasNumber, IsEntered, IsNodeAdded, IsEdgeListed, IsPlaceable, IsEntryPlaced};

use crate::way::Way;
use hierarchy::{Entry, Sizes, Witnesses};
use std::alloc::{AllocError, Global};
use witness::Edge;

/// The order, all entries and the witnesses so far; and by node the entries among what is left, in and out.
#[derive(Drop)]
pub struct Layer {
    pub order: Vec<u32>,
    pub entries: Vec<Entry>,
    pub witnesses: Witnesses,
    /// For each node the entries from it, where both ends are left.
    pub rows: Vec<Vec<Edge>>,
    /// For each node those that are left and have an entry to it.
    pub into: Vec<Vec<u32>>,
}

impl Layer {
    /// How long the lists of the hierarchy are so far.
    pub(crate) fn sizes(&self) -> Sizes {
        Sizes::of(&self.order, &self.entries, &self.witnesses)
    }
}

/// Puts in the shortcut of a way by `x`, in the place of the entry with its ends, if there is one.
pub(crate) fn put(layer: &mut Layer, x: u32, way: Way) -> Result<(), AllocError>
    requires layer { IsLayer (layer.old.order.items ++ x ∷ []) layer.old }
    requires from { IsCore (layer.old.order.items ++ x ∷ []) way.from }
    requires to { IsCore (layer.old.order.items ++ x ∷ []) way.to }
    requires fits { CanPut (length layer.old.rows.items) way }
    ensures layer { OnOk result (IsLayer (layer.old.order.items ++ x ∷ []) layer.new) }
    ensures put { OnOk result (IsPut layer.old.entries.items layer.new.entries.items (shortcut_of x way)) }
    ensures rows { OnOk result (IsEdgePut layer.old.rows.items layer.new.rows.items way.from way.to way.sum) }
    ensures order { OnOk result (layer.new.order.items ≡ layer.old.order.items) }
    ensures witnesses { OnOk result (layer.new.witnesses ≡ layer.old.witnesses) }
    ensures count { OnOk result (length layer.new.rows.items ≡ length layer.old.rows.items) }
{
    let entry = Entry {
        from: way.from,
        to: way.to,
        weight: way.sum,
        via: Some(x),
    };
    place(layer, entry)?;
    Ok(())
}

/// Puts in an entry, in the place of the one with its ends, if the rows have one.
pub(crate) fn place(layer: &mut Layer, entry: Entry) -> Result<(), AllocError>
    requires { IsPlaceable layer.old entry }
    ensures { OnOk result (IsEntryPlaced layer.old layer.new entry) }
{
    let number = enter(
        &mut layer.entries,
        &mut layer.into,
        &layer.rows[entry.from as usize],
        entry,
    )?;
    let edge = Edge {
        to: entry.to,
        entry: number,
        weight: entry.weight,
    };
    list(&mut layer.rows, entry.from, edge)?;
    Ok(())
}

/// Enters an entry in the place of the one that the row of its start has to its end, or at the end.
fn enter(
    entries: &mut Vec<Entry>,
    into: &mut Vec<Vec<u32>>,
    row: &[Edge],
    entry: Entry,
) -> Result<u32, AllocError>
    requires row { All (λ edge. edge.entry < length entries.old.items) row.now }
    requires to { entry.to < length into.old.items }
    ensures { IfOk result (λ number. IsEntered row.now entry number entries.old.items entries.new.items
        into.old.items into.new.items) }
{
    match number_between(row, entry.to) {
        Some(number) => {
            entries[number as usize] = entry;
            Ok(number)
        }
        None => {
            let number = number_of(entries.len())?;
            entries.push(entry)?;
            add_node(into, entry.to, entry.from)?;
            Ok(number)
        }
    }
}

/// Appends a node to the list of those that lead to another.
fn add_node(into: &mut Vec<Vec<u32>>, to: u32, from: u32) -> Result<(), AllocError>
    requires { to < length into.old.items }
    ensures { OnOk result (IsNodeAdded to from into.old.items into.new.items) }
{
    into[to as usize].push(from)?;
    Ok(())
}

/// Lists a way in the row of a node, as the only one to its end.
fn list(rows: &mut Vec<Vec<Edge>>, from: u32, edge: Edge) -> Result<(), AllocError>
    requires { from < length rows.old.items }
    ensures { OnOk result (IsEdgeListed from edge rows.old.items rows.new.items) }
{
    let row = &mut rows[from as usize];
    leave_out(row, edge.to);
    row.push(edge)?;
    Ok(())
}

/// The number of the entry of a row that leads to a node.
fn number_between(row: &[Edge], to: u32) -> Option<u32>
    ensures { MatchOption result (All (λ edge. edge.to ≢ to) row.now)
        (λ number. HasNumber row.now to number) }
{
    for edge in row {
        if edge.to == to {
            return Some(edge.entry);
        }
    }
    None
}

/// Leaves out of a row what leads to a node.
pub(crate) fn leave_out(row: &mut Vec<Edge>, to: u32)
    ensures { row.new.items ≡ filter (λ edge. not (edge.to == to)) row.old.items }
{
    row.retain(|edge| edge.to != to);
}

/// A count as a number of 32 bits; fails where it has more.
pub(crate) fn number_of(count: usize) -> Result<u32, AllocError>
    ensures { IfOk result (λ n. n ≡ count) }
{
    if count <= 0xffff_ffff {
        Ok(count as u32)
    } else {
        Err(AllocError)
    }
}
