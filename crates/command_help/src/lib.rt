//! Help on the command line of `modeplan`, for people: what its commands are, or which word is wrong. Nothing is proved of
//! what it says.
#![tactic(auto)]

mod usage;

pub use usage::help;
