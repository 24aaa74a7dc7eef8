//! The command `requests`: each line of a file is a command and its words, and is replied to as soon as it has been read whole.
#![tactic(auto)]

mod asked;
mod laws;
mod replies;
mod requesting;

pub use laws::requests_completes;
pub use requesting::requests;
