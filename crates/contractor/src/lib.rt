//! The contraction of the road layers of a network to a hierarchy.
#![tactic(auto)]

mod beginning;
mod bridging;
mod choosing;
pub mod contracting;
mod cutting;
mod finishing;
pub mod layer;
mod places;
mod trials;
pub mod way;
mod ways;

pub use contracting::{Progress, contract};
