//! Files that have a hierarchy alone, or one and behind it a hierarchy of its core, with exactly one spelling.
#![tactic(auto)]

pub mod files;

pub use files::{FileFormat, FileLists, decode_file, encode_file};
