//! Faults of hierarchy files.

use hierarchy_file::HFileFault;
use std::alloc::{AllocError, Global};

/// What is wrong with the bytes of the hierarchy file of this path.
pub fn bad_hierarchy(alloc: Global, path: &str, fault: HFileFault) -> Result<String, AllocError> {
    match fault {
        HFileFault::BadHead => {
            format!(in alloc;
                "{path}: a hierarchy begins with \"MPHIER01\" and three counts, and this file does not"
            )
        }
        HFileFault::BadRecord { at } => format!(in alloc;
            "{path}, byte {at}: the record that begins here is cut short, or does not come after the one before it, or names a node that no network has, or is a witness of fewer than two nodes"
        ),
        HFileFault::Trailing { at } => {
            format!(in alloc; "{path}, byte {at}: bytes follow the last record of the hierarchy")
        }
        HFileFault::OutOfMemory => format!(in alloc; "memory ran out"),
    }
}
