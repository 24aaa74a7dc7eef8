//! Why words name no command.

/// Why words name no command.
#[derive(Clone, Copy, Debug, PartialEq, Eq)]
pub enum WordsFault {
    /// They are not those of a command.
    Refused,
    /// Memory ran out.
    OutOfMemory,
}
