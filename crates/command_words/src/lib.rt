//! What the words of a command line ask for.
#![tactic(auto)]

pub mod command;
mod fault;
mod found;
mod reading;
mod values;

pub use command::{Command, Over, QueryLimits, TimesAsked};
pub use fault::WordsFault;
pub use reading::read_words;
pub use values::{
    format_of, read_eight, read_keep, read_labels, read_number, read_places, read_size, read_window,
};
