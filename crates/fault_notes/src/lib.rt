//! What is wrong with a file, told to people in one line: the file by its path, the place, what stands there, and what
//! would be right. Nothing is proved of these texts.
#![tactic(auto)]

mod certificates;
mod feeds;
mod hierarchies;
mod maps;
mod pieces;
mod regions;

pub use certificates::{bad_certificate, invalid_certificate, invalid_late_certificate};
pub use feeds::{bad_build, bad_feed};
pub use hierarchies::bad_hierarchy;
pub use maps::bad_map;
pub use pieces::seen;
pub use regions::bad_region;
