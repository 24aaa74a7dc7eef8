//! The latest departure for a deadline, by a search through the network in mirrored time, and the journey that leaves then and
//! arrives first.
#![tactic(auto)]

mod backward;
mod backwards;
mod blocks;
mod departing;
mod forward;
mod laws;
mod mirror;
mod reversed;
mod room;
mod search;
mod source;

pub use backwards::Backwards;
pub use blocks::{answer_block, late_block_within, push_late};
pub use departing::{Late, latest_within};
pub use laws::valid_late_proves;
pub use room::LateRoom;
pub use search::LateSearch;
