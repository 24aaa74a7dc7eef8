//! The plain texts that every reader and printer of the planner shares: numbers, ids, names, and the lines
//! and words of a text.
//!
//! Each kind of text has one definition, one reader and one printer. A value has exactly one spelling, so
//! a reader answers a value where the text is its spelling, and nothing where no value is spelled so.
#![tactic(auto)]

mod escape;
mod fixed;
mod hexadecimals;
mod lines;
mod names;
mod numbers;
mod words;

pub use escape::{escape_facts, name_of_id};
pub use fixed::{push_fixed, read_fixed};
pub use hexadecimals::{push_hexadecimal, read_hexadecimal};
pub use lines::{next_line, push_line_feed, split_line};
pub use names::{Name, is_name};
pub use numbers::{
    push_decimal, push_signed, read_id, read_number, read_short_number, read_signed,
};
pub use words::{words_into, words_of};
