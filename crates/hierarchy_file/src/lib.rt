//! Hierarchies as bytes: an order, entries and witnesses in records, with exactly one spelling.
#![tactic(auto)]

mod decoding;
mod encoding;
pub mod fault;
pub mod head;
mod records;

pub use decoding::{decode, decode_lists};
pub use encoding::{encode, file_len};
pub use fault::HFileFault;
