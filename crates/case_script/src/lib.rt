//! Cases as data: files of calls by topics, the texts that the calls name, and the answer that is wanted of each.
#![tactic(auto)]

mod answer;
mod escapes;
mod files;
mod script;
mod topics;
pub mod words;

pub use answer::Answer;
pub use files::{Given, words_and_files};
pub use script::{Script, Text};
pub use topics::{Calls, play};
