//! What the check of a hierarchy answers.

/// The verdict on a hierarchy for a network.
///
/// The clauses are these, in the order in which they are tried. 1: the order lists distinct road nodes that have no
/// link in or out. 5: the ends of each entry are different road nodes of one layer, and its weight is below 2^56.
/// 2: each road arc has an entry with its ends that is no heavier. 3: each entry without a middle is a road arc with
/// its weight; an entry with a middle has both ends above it, and weighs the sum of the entries to it and from it,
/// which exist. 4: for each contracted node x, and entries from u to x and from x to v with different u and v above
/// x, an entry from u to v weighs at most their sum, or a witness that is listed for x leads from u to v over entries
/// among nodes above x and weighs at most their sum.
#[derive(Clone, Copy, PartialEq, Eq, Debug)]
pub enum Verdict {
    /// All clauses hold.
    Sound,
    /// The first clause that fails, at the least place where it does: of a node in the order for clause 1, of a road
    /// arc for clause 2, else of an entry. For clause 4 these are the least places for the first node in the order:
    /// `at` that of the entry to it, and `by` that of the entry from it. In all other clauses `by` is 0.
    Broken { clause: u8, at: u64, by: u64 },
}
