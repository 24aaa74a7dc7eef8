//! What a run works on.

use std::alloc::Global;

/// What a run works on: where its memory is from, the shelf that it reads from, the output that it writes to, and the notes for
/// people.
#[derive(Drop)]
pub struct Ports<F, O, N> {
    pub alloc: Global,
    pub shelf: F,
    pub out: O,
    pub notes: N,
}
