//! When product states are reached from the core of a hierarchy that is contracted once more: by rounds of walks all over the road
//! layers of the core, which are sweeps, of links, and of rides between them, pattern by pattern.
#![tactic(auto)]

mod asked;
mod beginning;
pub mod climb;
pub mod core_layer;
mod delays;
mod firsts;
pub mod lines;
mod listing;
mod riding;
pub mod rounds;
mod turning;
mod visiting;
mod walking;

pub use climb::{Climb, climbs_from};
pub use core_layer::{CoreLayer, Gate};
pub use lines::Line;
pub use rounds::Rounds;
