//! Clause 8: no label stands at a target in an accepting state.

ghost use Rattle.std.specs.Prelude.{◌<◌, ◌↔◌, All, IsTrue, MatchOption, length};
ghost use Rattle.search_laws.specs.Firsts.{HoldsBelow, FailsFirstAt};
ghost use Rattle.product_search.specs.Closed.{IsNoEnd, IsNoEndAt};

use crate::label::Label;
use search_laws::Labels;

/// The first label at a target in an accepting state.
pub(crate) fn first_end<L: Labels>(labels: &L, targets: &[u32], list: &[Label]) -> Option<usize>
    requires { All (λ x. x.state < (L.automaton labels.now).states) list.now }
    ensures { MatchOption result
        (HoldsBelow (length list.now) (IsNoEndAt (L.automaton labels.now) targets.now list.now))
        (FailsFirstAt (length list.now) (IsNoEndAt (L.automaton labels.now) targets.now list.now)) }
{
    for k in 0..list.len() {
        if !is_no_end(labels, targets, list[k]) {
            return Some(k);
        }
    }
    None
}

/// Whether a label is not at a target in an accepting state.
fn is_no_end<L: Labels>(labels: &L, targets: &[u32], label: Label) -> bool
    requires { label.state < (L.automaton labels.now).states }
    ensures { IsTrue result ↔ IsNoEnd (L.automaton labels.now) targets.now label }
{
    !(labels.accepts(label.state) && targets.contains(&label.node))
}
