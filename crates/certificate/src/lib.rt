//! Certificates of earliest arrival: their text, and the check of one.
#![tactic(auto)]

pub mod certificate;
pub mod claimed;
pub mod due;
pub mod kinds;
mod laws;
pub mod line_by_line;
pub mod lines;
pub mod printing;
mod reading;
mod records;
pub mod state_sets;
pub mod verdict;
pub mod verifying;
pub mod walked;

pub use certificate::Certificate;
pub use laws::{valid_proves, verdict_is_unique};
pub use printing::print;
pub use reading::read;
pub use verdict::{CertFault, CertVerdict};
pub use verifying::verify;
