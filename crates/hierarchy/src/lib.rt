//! Contraction hierarchies over the road layers of a network: their order, entries and witnesses, and when they
//! are sound.
#![tactic(auto)]

pub mod entry;
pub mod falls;
mod heights;
pub mod hierarchy;
pub mod laws;
pub mod lists;
mod rises;
pub mod sizes;
mod tables;
pub mod verdict;
pub mod witnesses;

pub use entry::Entry;
pub use falls::Fall;
pub use hierarchy::Hierarchy;
pub use laws::{contractions_keep_soundness, cores_keep_distances, entries_are_roads};
pub use lists::Lists;
pub use sizes::Sizes;
pub use verdict::Verdict;
pub use witnesses::{Witness, Witnesses};
