//! The command `sample`: the sample city, made and read back, contracted and checked, and its fifty queries answered without a
//! hierarchy and over one.
#![tactic(auto)]

mod city;
mod counts;
mod queries;
mod summary;
mod texts;
mod times;

pub use summary::sample;
