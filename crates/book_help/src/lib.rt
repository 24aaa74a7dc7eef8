//! Help on the command line of `planbook`, for people: what its commands are, or which word is wrong. Nothing is proved of
//! what it says.
#![tactic(auto)]

mod description;
mod usage;

pub use usage::help;
