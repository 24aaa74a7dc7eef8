//! The planner: what a command writes.
#![tactic(auto)]

mod running;

pub use run_steps::{Outcome, Ports};
pub use running::run;
