//! A tree of boxes around points.

ghost use Rattle.std.specs.Prelude.{◌≡◌, IfOk};
ghost use Rattle.geo_length.specs.Trees.{AreBounded, bounds_of};

use crate::boxes::Bounds;
use plan_base::Place;
use std::alloc::{AllocError, Global};

/// Boxes around points, which are halved again and again: one around them all, and those of each half. The
/// points stand in a list of their own.
#[derive(Drop)]
pub enum Tree {
    Leaf(Bounds),
    Fork(Bounds, Box<Tree>, Box<Tree>),
}

/// The most points that are not halved.
const LEAF: usize = 16;

/// The box around all points of a tree.
pub fn bounds_of(tree: &Tree) -> Bounds
    ensures { result ≡ bounds_of tree.now }
{
    match tree {
        Tree::Leaf(bounds) => *bounds,
        Tree::Fork(bounds, _, _) => *bounds,
    }
}

/// The tree of these points, in their order. Points that follow one another are to be near one another: then a
/// search looks at few of them.
pub fn tree_of(alloc: Global, points: &[(i64, Place)]) -> Result<Tree, AllocError>
    ensures { IfOk result (λ tree. AreBounded tree points.now) }
{
    if points.len() <= LEAF {
        return Ok(Tree::Leaf(Bounds::of(points)));
    }
    let (front, back) = points.split_at(points.len() / 2);
    let left = tree_of(alloc, front)?;
    let right = tree_of(alloc, back)?;
    let bounds = bounds_of(&left).around(bounds_of(&right));
    let left = Box::new(alloc, left)?;
    let right = Box::new(alloc, right)?;
    Ok(Tree::Fork(bounds, left, right))
}
