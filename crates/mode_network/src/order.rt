//! The order in which the rows of a network stand.

ghost use Rattle.std.specs.Prelude.{◌≡◌};
ghost use Rattle.std.specs.Ordering.{is_lt};
ghost use Rattle.std.specs.declared.cmp.Ordering.{Ordering};
ghost use Rattle.mode_network.specs.Rules.{rank_of, node_cmp, name_cmp, arc_cmp, first_unsorted};

use crate::nodes::{Arc, Node, NodeKey};
use plain_texts::Name;

/// Rows that a list holds in strictly ascending order.
pub(crate) trait Ranked {
    ghost order: { Self → Self → Ordering };

    fn is_below(&self, other: &Self) -> bool
        ensures { result ≡ is_lt (order self.now other.now) };
}

/// What nodes are ordered by: the id, and then the mode of a road node.
pub(crate) fn rank(key: NodeKey) -> (i64, u32)
    ensures { result ≡ rank_of key }
{
    match key {
        NodeKey::Road(mode, id) => (id, u32::from(mode.number())),
        NodeKey::Stop(stop) => (0, stop),
        NodeKey::Switch(id) => (id, 0),
    }
}

impl Ranked for Node {
    ghost order = { node_cmp };

    fn is_below(&self, other: &Self) -> bool {
        rank(self.key).cmp(&rank(other.key)).is_lt()
    }
}

impl Ranked for Name {
    ghost order = { name_cmp };

    fn is_below(&self, other: &Self) -> bool {
        self.as_bytes().cmp(other.as_bytes()).is_lt()
    }
}

impl Ranked for Arc {
    ghost order = { arc_cmp };

    fn is_below(&self, other: &Self) -> bool {
        (self.from, self.to).cmp(&(other.from, other.to)).is_lt()
    }
}

/// The first row that is not above the row before it.
pub(crate) fn first_unsorted<T: Ranked>(rows: &[T]) -> Option<u64>
    ensures { result ≡ first_unsorted T.order 0 rows.now }
{
    let mut row = 0;
    let mut rest = rows;
    while let [before, after @ ..] = rest {
        let [next, ..] = after else {
            return None;
        };
        if !before.is_below(next) {
            return Some(row + 1);
        }
        row += 1;
        rest = after;
    }
    None
}
