//! The search for a walk.

ghost use Rattle.std.specs.Prelude.{◌≡◌, ◌<◌, ◌≤◌, ◌^◌, length, Contains, IfOk, IfNone, OnOk};
ghost use Rattle.witness.specs.Rows.{AreEdgeRows, IsFoundWithin, NoWalkWithin, row_at};
ghost use Rattle.witness.specs.inside.Searching.{IsSearch, IsSameRound, IsBusy, NobodyBusy, Reaches};
ghost use Rattle.witness.specs.inside.Searching.{IsNoMoreWork, IsEdgeClosed, AreLower};

use crate::edge::Edge;
use crate::retrace::retrace;
use crate::workspace::Workspace;
use std::alloc::{AllocError, Global};

/// A walk from `u` to `v` that weighs at most `limit`, by its nodes, both ends among them; None exactly where there is
/// none. `rows` has a row for each node, with the ways out of it. Fails where memory runs out.
pub fn find(
    alloc: Global,
    workspace: &mut Workspace,
    rows: &[Vec<Edge>],
    u: u32,
    v: u32,
    limit: u64,
) -> Result<Option<Vec<u32>>, AllocError>
    requires rows { AreEdgeRows rows.now }
    requires start { u < length rows.now }
    requires end { v < length rows.now }
    requires limit { limit < 2 ^ 57 }
    ensures found { IfOk result (λ walk. IsFoundWithin rows.now u v limit walk) }
    ensures none { IfOk result (λ walk. IfNone walk (NoWalkWithin rows.now u v limit)) }
{
    begin(alloc, workspace, rows, u, limit)?;
    walk_to(alloc, workspace, rows, v, limit)
}

/// Begins a search from `u` for walks that weigh at most `most`. The tables of `workspace` are used again: a search
/// takes time for what it reaches, whatever the number of the nodes. Fails where memory runs out.
pub fn begin(
    alloc: Global,
    workspace: &mut Workspace,
    rows: &[Vec<Edge>],
    u: u32,
    most: u64,
) -> Result<(), AllocError>
    requires { u < length rows.now }
    ensures search { OnOk result (IsSearch rows.now most NobodyBusy workspace.new) }
    ensures start { OnOk result (workspace.new.start ≡ u) }
    ensures most { OnOk result (workspace.new.most ≡ most) }
{
    workspace.clear(alloc, rows.len(), u, most)?;
    workspace.offer(u, 0, u)?;
    Ok(())
}

/// A walk from where the search began to `v` that weighs at most `limit`, by its nodes, both ends among them; None
/// exactly where there is none.
///
/// Dijkstra's method, up to the first walk within the limit: the next call goes on from there. So many ends of one
/// start take one search, where those that are near are asked for first. A way out of the start that is put into the
/// rows between two calls, because there was no walk within its weight, is told by `Workspace::offer`. Fails where
/// memory runs out.
pub fn walk_to(
    alloc: Global,
    workspace: &mut Workspace,
    rows: &[Vec<Edge>],
    v: u32,
    limit: u64,
) -> Result<Option<Vec<u32>>, AllocError>
    requires rows { AreEdgeRows rows.now }
    requires end { v < length rows.now }
    requires limit { limit ≤ workspace.old.most }
    requires most { workspace.old.most < 2 ^ 57 }
    requires search { IsSearch rows.now workspace.old.most NobodyBusy workspace.old }
    ensures found { IfOk result (λ walk. IsFoundWithin rows.now workspace.old.start v limit walk) }
    ensures none { IfOk result (λ walk. IfNone walk (NoWalkWithin rows.now workspace.old.start v limit)) }
    ensures unreached { IfOk result (λ walk. IfNone walk (Reaches workspace.new v limit → ⊥)) }
    ensures search { OnOk result (IsSearch rows.now workspace.old.most NobodyBusy workspace.new) }
    ensures same { OnOk result (IsSameRound workspace.old workspace.new) }
{
    'turns: while !workspace.is_within(v, limit) {
        match workspace.next(limit) {
            Some((at, node)) => {
                if workspace.is_known_at(node, at) {
                    relax(workspace, rows, node, at)?;
                }
            }
            None => return Ok(None),
        }
    }
    Ok(Some(retrace(alloc, workspace, rows, v, limit)?))
}

/// Offers what each way out of a node leads to within the search.
fn relax(
    workspace: &mut Workspace,
    rows: &[Vec<Edge>],
    node: u32,
    at: u64,
) -> Result<(), AllocError>
    requires rows { AreEdgeRows rows.now }
    requires most { workspace.old.most < 2 ^ 57 }
    requires node { node < length rows.now }
    requires at { at ≤ workspace.old.most }
    requires reached { Reaches workspace.old node at }
    requires search { IsSearch rows.now workspace.old.most (IsBusy node at) workspace.old }
    ensures search { OnOk result (IsSearch rows.now workspace.old.most NobodyBusy workspace.new) }
    ensures same { OnOk result (IsSameRound workspace.old workspace.new) }
    ensures work { OnOk result (IsNoMoreWork workspace.old workspace.new) }
{
    'edges: for edge in &rows[node as usize] {
        relax_edge(workspace, rows, node, at, *edge)?;
    }
    Ok(())
}

/// Offers what a way out of a node leads to, if it is within the search.
fn relax_edge(
    workspace: &mut Workspace,
    rows: &[Vec<Edge>],
    node: u32,
    at: u64,
    edge: Edge,
) -> Result<(), AllocError>
    requires rows { AreEdgeRows rows.now }
    requires most { workspace.old.most < 2 ^ 57 }
    requires edge { Contains (row_at rows.now node) edge }
    requires at { at ≤ workspace.old.most }
    requires reached { Reaches workspace.old node at }
    requires search { IsSearch rows.now workspace.old.most (IsBusy node at) workspace.old }
    ensures search { OnOk result (IsSearch rows.now workspace.old.most (IsBusy node at) workspace.new) }
    ensures same { OnOk result (IsSameRound workspace.old workspace.new) }
    ensures work { OnOk result (IsNoMoreWork workspace.old workspace.new) }
    ensures lower { OnOk result (AreLower workspace.old workspace.new) }
    ensures closed { OnOk result (IsEdgeClosed workspace.old.most workspace.new at edge) }
{
    let sum = at + edge.weight;
    if sum <= workspace.most {
        workspace.offer(edge.to, sum, node)?;
    }
    Ok(())
}
