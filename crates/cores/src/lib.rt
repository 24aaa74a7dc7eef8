//! The core of a hierarchy as a network of its own, which can be contracted once more.
#![tactic(auto)]

mod building;

pub use building::core_network;
