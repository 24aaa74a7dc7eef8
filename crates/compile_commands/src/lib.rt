//! The commands `compile` and `migrate`, and what compiling is made of: reading a map piece by piece, reading the files of a
//! timetable feed, and building the region of both; and what is said of each by how the run ends.
#![tactic(auto)]

mod builds;
mod closing;
mod compiling;
mod feeds;
mod maps;
mod parts;

pub use compiling::{compile, migrate};
