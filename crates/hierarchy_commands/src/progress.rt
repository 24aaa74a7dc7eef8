//! What people are told while a contraction goes on.

use contractor::Progress;
use hierarchy::Sizes;
use hierarchy_file::file_len;
use plan_base::Sink;
use run_steps::{FileRole, most_of, tell};
use std::alloc::{AllocError, Global};

/// Tells how far a contraction is: at each twentieth of the nodes, and each time that what is left has halved, since the
/// last nodes take longest. And once, as soon as it is so, that the hierarchy's file will be too long to be read.
#[derive(Drop)]
pub struct ContractionNotes<'a, E: Sink> {
    alloc: Global,
    notes: &'a mut E,
    left: u64,
    twentieths: u64,
    too_long: bool,
}

impl<'a, E: Sink> ContractionNotes<'a, E> {
    /// Notes of a contraction that begins.
    pub fn new(alloc: Global, notes: &'a mut E) -> ContractionNotes<'a, E> {
        ContractionNotes {
            alloc,
            notes,
            left: u64::MAX,
            twentieths: 0,
            too_long: false,
        }
    }

    /// Whether it is time to tell how far it is. What was told last is then this.
    fn is_due(&mut self, contracted: u64, of: u64) -> bool {
        let left = of.saturating_sub(contracted);
        let twentieths = contracted.saturating_mul(20) / of.max(1);
        let is_due = twentieths != self.twentieths || left.saturating_mul(2) <= self.left;
        if is_due {
            self.twentieths = twentieths;
            self.left = left;
        }
        is_due
    }
}

impl<E: Sink> Progress for ContractionNotes<'_, E> {
    fn told(&mut self, sizes: Sizes, of: u64) {
        if self.is_due(sizes.order, of) {
            tell(self.alloc, self.notes, so_far(self.alloc, sizes, of));
        }
        if !self.too_long && is_too_long(file_len(sizes)) {
            self.too_long = true;
            tell(self.alloc, self.notes, too_long(self.alloc));
        }
    }
}

/// How many nodes are contracted, of so many.
fn so_far(alloc: Global, sizes: Sizes, of: u64) -> Result<String, AllocError> {
    let contracted = sizes.order;
    let entries = sizes.entries;
    format!(in alloc; "{contracted} of {of} nodes are contracted; {entries} entries so far")
}

/// That the file of what there is so far is longer than any that is read.
fn too_long(alloc: Global) -> Result<String, AllocError> {
    let most = most_of(FileRole::Hierarchy);
    format!(in alloc;
        "the file will have more than {most} bytes, which is more than any command reads; keep more nodes"
    )
}

/// Whether a hierarchy's file of so many bytes is longer than any that is read.
pub(crate) fn is_too_long(bytes: u64) -> bool {
    bytes > most_of(FileRole::Hierarchy)
}
