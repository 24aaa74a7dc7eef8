//! The network of a region: its nodes, road arcs and links, the rules that they keep, and what a
//! journey over them is.
#![tactic(auto)]

mod bases;
pub mod endpoints;
pub mod faults;
mod indexes;
mod layers;
pub mod network;
pub mod nodes;
mod order;
pub mod parts;
mod points;
mod rules;
pub mod steps;

pub use endpoints::{Bytes, Endpoint};
pub use faults::NetFault;
pub use network::Network;
pub use nodes::{Arc, Node, NodeKey};
pub use parts::Parts;
pub use steps::{Journey, Step};
