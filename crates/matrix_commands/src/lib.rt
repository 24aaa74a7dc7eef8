//! The command `matrix`: a table of times, with a row for each origin and each destination.
//!
//! Each line is read once, as a query from itself to itself. Where two lines that are one field each ask so, their
//! query line asks the same from the one to the other; so one search for an origin tells its rows, and no pair is read
//! again. The few other pairs are read and searched each by itself.
#![tactic(auto)]

pub mod asking;
mod cell;
mod laws;
mod table;
mod tabulating;

pub use asking::Asking;
pub use laws::matrix_completes;
pub use tabulating::{TableFiles, matrix};
