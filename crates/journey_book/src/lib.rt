//! The journey book: certificates of journeys that are kept by name, and what a new region makes of them.
//!
//! A keeper is a trait whose ghost member is the book that it keeps, as far as it tells it. What the commands do is proved once over
//! any keeper. [`MemoryKeeper`] tells its book; [`SqliteKeeper`], over a real database, tells nothing and counts its refusals.
#![tactic(auto)]

mod given;
pub mod keeper;
mod keeping;
mod laws;
pub mod memory_keeper;
pub mod outcome;
mod rechecking;
mod reports;
mod reviewing;
mod running;
mod showing;
pub mod sqlite_keeper;
mod steps;
pub mod words;

pub use keeper::{KeepFault, Keeper};
pub use laws::{reports_are_fixed, runs_fold, valid_is_same};
pub use memory_keeper::MemoryKeeper;
pub use outcome::BookOutcome;
pub use running::run_book;
pub use sqlite_keeper::{Refusal, SqliteKeeper};
