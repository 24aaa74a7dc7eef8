//! Product states that are reached, and the ways that were taken to them.

/// A way to a product state: when it arrives, and by which arc, behind which way.
#[derive(Clone, Copy)]
pub(crate) struct Reached {
    /// How long after the departure it arrives, in ms.
    pub delay: u64,
    /// The place of its last arc among those of the node that this leaves. At a start it says nothing.
    pub arc: u64,
    /// The number of the way that it goes on from, and 1; or 0 at a start.
    pub parent: u32,
}

/// A way that was taken, as it was then the best one to its product state.
#[derive(Clone, Copy)]
pub(crate) struct Taken {
    /// How long after the departure it arrives, in ms.
    pub delay: u64,
    /// The place of its last arc among those of the node that this leaves. At a start it says nothing.
    pub arc: u64,
    /// The number of the way that it goes on from, and 1; or 0 at a start.
    pub parent: u32,
    /// The number of the row of its product state.
    pub row: u32,
}

/// A product state with the best way to it so far.
#[derive(Clone, Copy)]
pub(crate) struct Row {
    pub node: u32,
    pub state: u32,
    /// The number of the row before this one in its chain, and 1; or 0.
    pub next: u32,
    /// The number of the last way that was taken to it.
    pub way: u32,
    /// How long after the departure that arrives, in ms.
    pub delay: u64,
}
