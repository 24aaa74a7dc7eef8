//! A node taken out of what is left.

ghost use Rattle.std.specs.Prelude.{◌≡◌, ◌+◌, ◌<◌, [], ◌∷◌, ◌++◌, not, ◌==◌, filter, length, All, OnOk, IfOk};
ghost use Rattle.hierarchy.specs.Lists.{IsCore};
ghost use Rattle.contractor.specs.inside.Layers.{IsLayer, IsCut, IsLessInto, AreSides, AreSidesOf, AreFirst, AreSecond, IsRowTaken, AreNodesTaken};

use crate::layer::{Layer, leave_out};
use crate::way::Side;
use std::alloc::{AllocError, Global};
use std::mem;
use witness::Edge;

/// What leads to a node that was taken out, and what led from it.
#[derive(Drop)]
pub(crate) struct Sides {
    pub first: Vec<Side>,
    pub second: Vec<Edge>,
}

/// Takes a node out of what is left.
pub(crate) fn cut(alloc: Global, layer: &mut Layer, x: u32) -> Result<Sides, AllocError>
    requires layer { IsLayer layer.old.order.items layer.old }
    requires core { IsCore layer.old.order.items x }
    requires node { x < length layer.old.rows.items }
    ensures layer { OnOk result (IsLayer (layer.old.order.items ++ x ∷ []) layer.new) }
    ensures first { IfOk result (λ sides. AreFirst layer.old.order.items layer.old.entries.items x
        sides.first.items) }
    ensures second { IfOk result (λ sides. AreSecond layer.old.order.items layer.old.entries.items x
        sides.second.items) }
    ensures order { OnOk result (layer.new.order.items ≡ layer.old.order.items) }
    ensures entries { OnOk result (layer.new.entries.items ≡ layer.old.entries.items) }
    ensures witnesses { OnOk result (layer.new.witnesses ≡ layer.old.witnesses) }
    ensures count { OnOk result (length layer.new.rows.items ≡ length layer.old.rows.items) }
{
    let before = take_nodes(alloc, &mut layer.into, x);
    let first = sides_of(alloc, &layer.rows, x, &before)?;
    cut_rows(&mut layer.rows, x, &before);
    let second = take_row(alloc, &mut layer.rows, x);
    cut_into(&mut layer.into, x, &second);
    Ok(Sides { first, second })
}

/// Takes the row of a node, and leaves an empty one.
fn take_row(alloc: Global, rows: &mut Vec<Vec<Edge>>, x: u32) -> Vec<Edge>
    requires { x < length rows.old.items }
    ensures { IsRowTaken x rows.old.items rows.new.items result.items }
{
    mem::replace(&mut rows[x as usize], Vec::new(alloc))
}

/// Takes the list of those that lead to a node, and leaves an empty one.
fn take_nodes(alloc: Global, into: &mut Vec<Vec<u32>>, x: u32) -> Vec<u32>
    requires { x < length into.old.items }
    ensures { AreNodesTaken x into.old.items into.new.items result.items }
{
    mem::replace(&mut into[x as usize], Vec::new(alloc))
}

/// The entries to a node from some others.
fn sides_of(
    alloc: Global,
    rows: &[Vec<Edge>],
    x: u32,
    before: &[u32],
) -> Result<Vec<Side>, AllocError>
    requires { All (λ u. u < length rows.now) before.now }
    ensures { IfOk result (λ sides. AreSides rows.now x before.now sides.items) }
{
    let mut sides = Vec::new(alloc);
    'nodes: for u in before {
        push_sides(&mut sides, *u, x, &rows[*u as usize])?;
    }
    Ok(sides)
}

/// Appends those that a row has.
fn push_sides(sides: &mut Vec<Side>, u: u32, x: u32, row: &[Edge]) -> Result<(), AllocError>
    ensures { OnOk result (AreSidesOf u x row.now sides.old.items sides.new.items) }
{
    'edges: for edge in row {
        if edge.to == x {
            sides.push(Side {
                node: u,
                weight: edge.weight,
            })?;
        }
    }
    Ok(())
}

/// Takes all entries to a node out of the rows of those that may have one.
fn cut_rows(rows: &mut Vec<Vec<Edge>>, x: u32, before: &[u32])
    requires { All (λ u. u < length rows.old.items) before.now }
    ensures { IsCut x before.now rows.old.items rows.new.items }
{
    'nodes: for u in before {
        leave_out(&mut rows[*u as usize], x);
    }
}

/// Takes a node out of the lists of those that it has an entry to.
fn cut_into(into: &mut Vec<Vec<u32>>, x: u32, after: &[Edge])
    requires { All (λ edge. edge.to < length into.old.items) after.now }
    ensures { IsLessInto x into.old.items into.new.items }
{
    'after: for edge in after {
        leave_out_node(&mut into[edge.to as usize], x);
    }
}

/// Leaves a node out of a list.
fn leave_out_node(nodes: &mut Vec<u32>, x: u32)
    ensures { nodes.new.items ≡ filter (λ u. not (u == x)) nodes.old.items }
{
    nodes.retain(|u| *u != x);
}
