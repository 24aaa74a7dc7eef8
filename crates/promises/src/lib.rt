//! Laws that follow from what the commands promise.
#![tactic(auto)]

mod accepted;
mod answered;
mod samples;
mod unique;

pub use accepted::{
    what_certify_latest_prints_verify_latest_accepts, what_certify_prints_verify_accepts,
    what_contract_writes_check_accepts,
};
pub use answered::{answer_prints_right_blocks, runs_are_as_asked};
pub use samples::{sample_city_is_faultless, sample_city_is_unique, summaries_are_alike};
pub use unique::{
    check_verdict_is_unique, compiled_is_unique, labels_are_unique, settled_is_unique,
};
