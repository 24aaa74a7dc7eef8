//! Walks of witnesses, weighed against what is left of a limit.

ghost use Rattle.std.specs.Prelude.{◌≡◌, ◌-◌, ◌<◌, ◌≤◌, ◌↔◌, ℕ, IsTrue, IfSome, IfNone, MatchOption};
ghost use Rattle.hierarchy.specs.Lookups.{IsWitnessFor};
ghost use Rattle.hierarchy.specs.Soundness.{HasWitness};
ghost use Rattle.hierarchy_check.specs.inside.Light.{CanStep, CanWalk};

use hierarchy::{Hierarchy, Witness};

/// Whether a witness that is listed for `x` leads from `u` to `v` and weighs at most the limit.
pub(crate) fn has_witness(h: &Hierarchy, x: u32, u: u32, v: u32, limit: u64) -> bool
    ensures { IsTrue result ↔ HasWitness h.now x u v limit }
{
    match h.witness_for(x, u, v) {
        Some(witness) => is_light(h, x, u, v, limit, &witness),
        None => false,
    }
}

/// Whether the witness at a place is listed for `x`, leads from `u` to `v` and weighs at most the limit.
pub(crate) fn is_witness_at(h: &Hierarchy, place: usize, x: u32, u: u32, v: u32, limit: u64) -> bool
    ensures { IsTrue result → HasWitness h.now x u v limit }
{
    let witnesses = h.witnesses();
    if place >= witnesses.len() {
        return false;
    }
    let witness = witnesses.get(place);
    witness.key() == (x, u, v) && is_light(h, x, u, v, limit, &witness)
}

/// Whether the witness that is listed for `x` from `u` to `v` weighs at most the limit.
fn is_light(h: &Hierarchy, x: u32, u: u32, v: u32, limit: u64, witness: &Witness<'_>) -> bool
    requires { IsWitnessFor h.now.witnesses x u v witness.now }
    ensures { IsTrue result ↔ HasWitness h.now x u v limit }
{
    h.known();
    match witness.nodes {
        [first, rest @ ..] => can_walk(h, x, *first, rest, limit),
        [] => false,
    }
}

/// Whether entries lead from `u` to these nodes in turn, which are above `x`, and weigh at most the limit.
fn can_walk(h: &Hierarchy, x: u32, u: u32, nodes: &[u32], limit: u64) -> bool
    ensures { IsTrue result ↔ CanWalk h.now x u nodes.now limit }
{
    h.known();
    let mut at = u;
    let mut left = limit;
    for y in nodes {
        let Some(less) = after_step(h, x, at, *y, left) else {
            return false;
        };
        at = *y;
        left = less;
    }
    true
}

/// What is left after a step from `u` to `y`; None exactly where there is no such step.
fn after_step(h: &Hierarchy, x: u32, u: u32, y: u32, have: u64) -> Option<u64>
    ensures { MatchOption result
        ((left : ℕ) → CanStep h.now x u y have left → ⊥)
        (CanStep h.now x u y have) }
{
    h.known();
    if !h.above(y, x) {
        return None;
    }
    match h.entry(u, y) {
        Some(entry) => rest_of(have, entry.weight),
        None => None,
    }
}

/// What is left of a number.
fn rest_of(have: u64, weight: u64) -> Option<u64>
    ensures some { IfSome result (λ left. (weight ≤ have) × (left ≡ have - weight)) }
    ensures none { IfNone result (have < weight) }
{
    if weight <= have {
        Some(have - weight)
    } else {
        None
    }
}
