//! When nodes all over a network are reached over a hierarchy: by one search that goes up and along the core, or
//! rounds over it, and one sweep down.
#![tactic(auto)]

mod above;
mod delays;
pub mod descents;

pub use descents::Descents;
