//! Certificates of the latest departure for a deadline: their text, and the check of one.
#![tactic(auto)]

mod certifying;
pub mod due;
mod kinds;
pub mod late;
mod laws;
pub mod lines;
mod printing;
mod reading;
mod records;
mod verifying;

pub use certificate::{CertFault, CertVerdict};
pub use certifying::certify_late_within;
pub use late::LateCertificate;
pub use laws::late_verdict_is_unique;
pub use printing::print_late;
pub use reading::read_late;
pub use verifying::verify_late;
