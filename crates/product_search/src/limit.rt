//! A limit on the labels of a search, by which it may be given up.

ghost use Rattle.std.specs.Prelude.{◌≡◌, ◌<◌, ◌≤◌, Some, IfSome, IfNone};
ghost use Rattle.product_search.specs.declared.limit.Limited.TheVariants.{Ended};
ghost use Rattle.product_search.specs.inside.Searching.{HasMoreBefore};
ghost use Rattle.product_search.specs.inside.Waiting.{IsFrontier};
ghost use Rattle.product_search.specs.Limits.{HasEnded, StopsAreDue};

use crate::frontier::Frontier;
use crate::listing::count_labels;

/// What a search comes to that may be given up.
#[derive(Drop)]
pub enum Limited<T> {
    /// Its answer.
    Ended(T),
    /// It was given up: it has more labels than this limit.
    Stopped(u64),
}

impl<T> Limited<T> {
    /// The answer of a search that was not given up.
    pub fn into_answer(self) -> T
        requires { HasEnded self }
        ensures { self ≡ Ended result }
    {
        match self {
            Limited::Ended(answer) => answer,
            Limited::Stopped(_) => unreachable!(),
        }
    }
}

/// How many product states were explored since the labels were counted last.
#[derive(Clone, Copy)]
pub(crate) struct Pace {
    explored: usize,
}

impl Pace {
    pub fn new() -> Pace {
        Pace { explored: 0 }
    }

    /// Counts one more. Tells whether the labels are to be counted, which takes as long as many of these: so where half as many
    /// were explored as are reached.
    pub fn is_due(&mut self, reached: usize) -> bool {
        self.explored = self.explored.saturating_add(1);
        if self.explored <= reached / 2 {
            return false;
        }
        self.explored = 0;
        true
    }
}

/// The limit, if there is one and a count is above it.
pub(crate) fn passed(limit: Option<u64>, count: u64) -> Option<u64>
    ensures more { IfSome result (λ most. (limit ≡ Some most) × (most < count)) }
    ensures within { IfNone result (IfSome limit (λ most. count ≤ most)) }
{
    match limit {
        Some(most) if most < count => Some(most),
        _ => None,
    }
}

/// The limit, if there is one and more product states than that are reached before all that wait. It is looked for from time to
/// time, and without a limit never.
#[inline(always)]
pub(crate) fn passed_before(limit: Option<u64>, pace: &mut Pace, frontier: &Frontier) -> Option<u64>
    requires { IsFrontier frontier.now }
    ensures { IfSome result (λ most. (limit ≡ Some most) × HasMoreBefore frontier.now most) }
{
    limit?;
    if !pace.is_due(frontier.rows.len()) {
        return None;
    }
    passed(
        limit,
        count_labels(frontier, frontier.floor().min(frontier.until)),
    )
}

/// A search has more labels than a limit exactly where the labels of its answer are more.
pub fn stops_are_due()
    ensures { StopsAreDue }
{}
