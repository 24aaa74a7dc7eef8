//! Walks over what is left of a road layer while it is contracted.
#![tactic(auto)]

pub mod edge;
pub mod place;
mod retrace;
pub mod search;
pub mod workspace;

pub use edge::Edge;
pub use search::{begin, find, walk_to};
pub use workspace::Workspace;
