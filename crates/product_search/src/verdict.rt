//! What the check of a list of labels answers.

/// The verdict on a list of labels.
///
/// The clauses are these. 6: the labels ascend strictly by node and then by state, are in range, and lie before the
/// arrival, if there is one. 7: each start is listed by the departure in each start state, if the departure is
/// before the arrival. 8: no label stands at a target in an accepting state. 9: each product state that an arc out
/// of a label leads to before the arrival is listed, and no later than the arc arrives.
#[derive(Clone, Copy, PartialEq, Eq, Debug)]
pub enum LabelVerdict {
    /// All clauses hold.
    Closed,
    /// The least clause that fails, and the least place where it does: of a label, or for clause 7 of a pair of a
    /// start and a start state, which are counted by place in the starts and then by state.
    Open { clause: u8, at: u64 },
}
