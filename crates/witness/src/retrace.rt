//! The way back to the start of a search.

ghost use Rattle.std.specs.Prelude.{◌<◌, IfOk};
ghost use Rattle.witness.specs.Rows.{AreEdgeRows, IsWalkWithin};
ghost use Rattle.witness.specs.inside.Searching.{IsSearch, Reaches, NobodyBusy};

use crate::edge::Edge;
use crate::workspace::Workspace;
use std::alloc::{AllocError, Global};

/// The nodes of the walk by which a node is reached, from the start of the search on.
pub(crate) fn retrace(
    alloc: Global,
    workspace: &Workspace,
    rows: &[Vec<Edge>],
    v: u32,
    limit: u64,
) -> Result<Vec<u32>, AllocError>
    requires rows { AreEdgeRows rows.now }
    requires reached { Reaches workspace.now v limit }
    requires search { IsSearch rows.now workspace.now.most NobodyBusy workspace.now }
    ensures { IfOk result (λ nodes. IsWalkWithin rows.now workspace.now.start v limit nodes.items) }
{
    let mut nodes = Vec::new(alloc);
    nodes.push(v)?;
    let mut node = v;
    'back: while node != workspace.start {
        node = workspace.places[node as usize].parent;
        nodes.push(node)?;
    }
    nodes.reverse();
    Ok(nodes)
}
