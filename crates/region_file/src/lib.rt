//! Regions as files: a network in lines of text, or in records of bytes, with exactly one spelling in each format.
#![tactic(auto)]

pub mod counts;
mod decoding;
mod encoding;
pub mod fault;
pub mod format;
mod formatting;
mod fronts;
mod kinds;
mod letters;
pub mod lines;
mod printing;
mod reading;
mod records;
pub mod section;
mod writing;

pub use counts::counts_of;
pub use decoding::decode;
pub use encoding::encode;
pub use fault::RegionFault;
pub use format::Format;
