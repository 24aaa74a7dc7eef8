//! The sample city: a network of any size to try a planner on.
#![tactic(auto)]

mod city;
mod corners;
mod roads;
mod stops;
mod streets;
mod trips;

pub use city::sample;
