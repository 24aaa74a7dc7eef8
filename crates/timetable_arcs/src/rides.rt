//! Where rides begin and end.

/// A call of a pattern at which travellers may board.
#[derive(Clone, Copy, Debug, PartialEq, Eq)]
pub struct Board {
    pub pattern: u32,
    /// The place of the call among those of the pattern.
    pub call: u32,
    /// How many rides begin at the boards before this one, at the same stop.
    pub before: u64,
}

/// A ride along a pattern, between two of its calls.
#[derive(Clone, Copy, Debug, PartialEq, Eq)]
pub struct Ride {
    pub pattern: u32,
    /// The call at which it begins.
    pub board: u32,
    /// The later call at which it ends.
    pub alight: u32,
}
