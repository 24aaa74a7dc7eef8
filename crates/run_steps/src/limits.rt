//! What a run allows for a query.

/// What a run allows for a query. An answer that keeps within both limits is the one that is given without them.
#[derive(Clone, Copy, Debug, PartialEq, Eq)]
pub struct Limits {
    /// The most places that an expression may have; where no number is given, as many as any expression has, which are 200.
    pub places: Option<u32>,
    /// The most labels that a search may have; where no number is given, as many as it comes to.
    pub labels: Option<u64>,
}
