//! What searches forward keep from query to query.

use crate::forward::Forward;
use crate::kept::Kept;
use phase_graph::MarkTable;
use product_search::Workspace;
use std::alloc::Global;

/// What searches forward keep from query to query: a workspace, numbers for the marks of a phase graph, and the automaton
/// of the expression that was asked for last. So a file of queries with one expression makes its automaton once.
#[derive(Drop)]
pub struct Room {
    pub workspace: Workspace,
    pub marks: MarkTable,
    pub kept: Kept<Forward>,
}

impl Room {
    /// Takes no memory.
    pub fn new(alloc: Global) -> Room {
        Room {
            workspace: Workspace::new(alloc),
            marks: MarkTable::new(alloc),
            kept: Kept::new(alloc),
        }
    }
}
