//! Geography in whole numbers: degrees in units of 10^-7, lengths in millimetres, durations in milliseconds,
//! and the nearest of many points.
#![tactic(auto)]

mod boxes;
mod degrees;
mod durations;
mod gaps;
mod grid;
mod lengths;
mod search;
mod tree;
mod wanted;
mod widths;

pub use degrees::read_degrees;
pub use durations::duration_ms;
pub use grid::Grid;
pub use lengths::length_mm;
pub use wanted::PointFilter;
