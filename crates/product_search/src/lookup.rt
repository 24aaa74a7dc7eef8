//! Labels found in a list by halving.

ghost use Rattle.std.specs.Prelude.{◌↔◌, IsTrue};
ghost use Rattle.product_search.specs.Listed.{AreAscendingLabels};
ghost use Rattle.product_search.specs.Closed.{IsListedBy};

use crate::label::Label;
use search_laws::Time;
use std::cmp::Ordering::{Equal, Greater, Less};

/// Whether a product state has a label that is no later than `at`.
pub(crate) fn is_listed(list: &[Label], node: u32, state: u32, at: Time) -> bool
    requires { AreAscendingLabels list.now }
    ensures { IsTrue result ↔ IsListedBy list.now node state at }
{
    let mut low = 0;
    let mut high = list.len();
    while low < high {
        let middle = low + (high - low) / 2;
        let label = list[middle];
        match (label.node, label.state).cmp(&(node, state)) {
            Less => low = middle + 1,
            Equal => return label.at <= at,
            Greater => high = middle,
        }
    }
    false
}
