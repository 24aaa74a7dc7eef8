//! A network as a graph that can be searched.
#![tactic(auto)]

pub mod plain;

pub use plain::{Plain, PlainArc};
