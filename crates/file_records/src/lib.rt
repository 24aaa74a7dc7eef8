//! What readers and writers of files of records share: numbers at the front of bytes, highest byte first, and why the
//! reading of records stops.
#![tactic(auto)]

pub mod halt;
mod numbers;

pub use halt::Halt;
pub use numbers::{
    i32_front, i64_front, push_i32, push_i64, push_u32, push_u64, u32_front, u64_front,
};
