//! The commands `answer`, `certify` and `verify`, without a hierarchy and over one.
#![tactic(auto)]

mod answering;
mod certifying;
mod laws;
mod reading;
mod verifying;

pub use answering::answer;
pub use certifying::{certified_within, certify};
pub use laws::{answer_completes, certify_completes, verify_completes};
pub use reading::read_both;
pub use verifying::{BestCertificates, verified, verify};
