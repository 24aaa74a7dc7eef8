//! What all commands are made of: how a run ends, and what is said of it by its outcome; reading files and regions, writing
//! texts, and telling people; answering a file in turn, line by line; and what the certificate of a file shows.
//!
//! Commands differ in which block of a line is right, and kinds of certificates in their text, their clauses and what they show.
//! These are ghost members of the traits `LineBlocks` and `Certificates`; writing is proved once, over any of them.
#![tactic(auto)]

mod blocks;
mod certificates;
mod files;
mod in_turn;
pub mod limits;
mod lines;
mod notes;
pub mod outcome;
pub mod ports;
mod tally;
mod texts;

pub use blocks::LineBlocks;
pub use certificates::{Certificates, tell_unverified, write_verified};
pub use files::{MOST_BYTES, most_of, read_file, read_file_if_there, read_region, refused};
pub use in_turn::{answer_file, write_in_turn};
pub use limits::Limits;
pub use lines::{as_query, without_return};
pub use notes::{seen_words, tell, tell_no_text};
pub use outcome::{FileRole, Outcome, SourceFault};
pub use ports::Ports;
pub use texts::write_text;
