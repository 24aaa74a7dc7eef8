//! The commands `few`, `latest`, `profile`, `certify-latest` and `verify-latest`.
#![tactic(auto)]

mod answering;
mod certifying;
mod laws;
mod verifying;

pub use answering::{few, latest, profile};
pub use certifying::{certified_late_within, certify_latest};
pub use laws::{
    certify_latest_completes, few_completes, latest_completes, profile_completes,
    verify_latest_completes,
};
pub use verifying::verify_latest;
