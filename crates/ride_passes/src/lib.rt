//! Where rides lead that one can take along a pattern, found by one pass along its calls.
#![tactic(auto)]

pub mod pass;

pub use pass::arrivals_along;
