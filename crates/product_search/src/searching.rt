//! The search for the least arrival.

ghost use Rattle.std.specs.Prelude.{◌≡◌, ◌≤◌, IfOk, IfSome, None, Some, length};
ghost use Rattle.product_search.specs.Answer.{IsByLastTime, last_time};
ghost use Rattle.product_search.specs.Questions.{question_of, FindsArrival, FindsWalk, ListsLabels, CountsLabels, ListsClosed, HasMore};
ghost use Rattle.product_search.specs.Limits.{IfEnded, IfStopped};
ghost use Rattle.product_search.specs.inside.Searching.{IsAnsweredWithin};

use crate::correcting::{Explored, arrival_of, explore_all};
use crate::frontier::Frontier;
use crate::label::{Best, Found, FoundWithCount};
use crate::limit::{Limited, passed};
use crate::listing::{count_labels, list_labels};
use crate::question::Question;
use crate::retrace::walk_to;
use crate::workspace::Workspace;
use search_laws::{Graph, Labels};
use std::alloc::{AllocError, Global};

/// Finds the least arrival that a question asks for.
///
/// A walk leaves its start in a start state and may wait anywhere. The answer has the arrival, a walk without waits that has it, and the least arrivals of all
/// product states that are reached before, or where no walk counts, of all that are reached within the bound.
/// Without a bound the labels are closed, as `check_labels` looks for it. No time in the answer is above `dep + 2^98`.
/// Fails where memory runs out, where 2^32 - 1 product states are reached or ways taken to them, and where without a bound a
/// time would be 2^64 - 1 ms after the departure or later.
///
/// The search goes over pairs of a node and a state, as Barrett, Jacob and Marathe do for languages. Their labels are corrected:
/// it explores the arcs of all that are reached within half a minute in any order, and again where a better way is found.
pub fn search<G: Graph, L: Labels>(
    alloc: Global,
    question: &Question<'_, G, L>,
) -> Result<Found, AllocError>
    ensures arrival { IfOk result (λ f. FindsArrival (question_of question.now) f.arrival) }
    ensures walk { IfOk result (λ f. FindsWalk (question_of question.now) f.arrival f.walk) }
    ensures labels { IfOk result (λ f. ListsLabels (question_of question.now) f.arrival f.labels.items) }
    ensures closed { question.now.bound ≡ None → IfOk result
        (λ f. ListsClosed (question_of question.now) f.arrival f.labels.items) }
    ensures times { IfOk result (IsByLastTime question.now.dep) }
{
    let found = search_within(alloc, question, None)?;
    Ok(found.into_answer())
}

/// The same as [`search`], but given up where there are more labels than the limit, if there is one, and there alone. That is
/// looked for again and again, each time when it has explored half as many product states as it has reached.
pub fn search_within<G: Graph, L: Labels>(
    alloc: Global,
    question: &Question<'_, G, L>,
    limit: Option<u64>,
) -> Result<Limited<Found>, AllocError>
    ensures arrival { IfEnded result (λ f. FindsArrival (question_of question.now) f.arrival) }
    ensures walk { IfEnded result (λ f. FindsWalk (question_of question.now) f.arrival f.walk) }
    ensures labels { IfEnded result (λ f. ListsLabels (question_of question.now) f.arrival f.labels.items) }
    ensures closed { question.now.bound ≡ None → IfEnded result
        (λ f. ListsClosed (question_of question.now) f.arrival f.labels.items) }
    ensures times { IfEnded result (IsByLastTime question.now.dep) }
    ensures few { IfEnded result (λ f. IfSome limit (λ most. length f.labels.items ≤ most)) }
    ensures stopped { IfStopped result
        (λ most. (limit ≡ Some most) × HasMore (question_of question.now) most) }
{
    let workspace = Workspace::new(alloc);
    let answered = answer(alloc, workspace, question, limit)?;
    let Answered {
        frontier,
        best,
        read: _read,
    } = answered;
    let best = match best {
        Limited::Ended(best) => best,
        Limited::Stopped(most) => return Ok(Limited::Stopped(most)),
    };
    let labels = list_labels(alloc, &frontier, frontier.until)?;
    if let Some(most) = passed(limit, labels.len() as u64) {
        return Ok(Limited::Stopped(most));
    }
    Ok(Limited::Ended(Found {
        arrival: best.arrival,
        labels,
        walk: best.walk,
    }))
}

/// The same as [`search_within`] with the count of the labels in place of these, with lists and a table that are kept for the
/// next search. Where a search fails, the next one makes new ones.
pub fn search_counted_within<G: Graph, L: Labels>(
    alloc: Global,
    workspace: &mut Workspace,
    question: &Question<'_, G, L>,
    limit: Option<u64>,
) -> Result<Limited<FoundWithCount>, AllocError>
    ensures arrival { IfEnded result (λ f. FindsArrival (question_of question.now) f.arrival) }
    ensures walk { IfEnded result (λ f. FindsWalk (question_of question.now) f.arrival f.walk) }
    ensures labels { IfEnded result (λ f. CountsLabels (question_of question.now) f.arrival f.labels) }
    ensures time { IfEnded result (λ f. IfSome f.arrival (λ t. t ≤ last_time question.now.dep)) }
    ensures few { IfEnded result (λ f. IfSome limit (λ most. f.labels ≤ most)) }
    ensures stopped { IfStopped result
        (λ most. (limit ≡ Some most) × HasMore (question_of question.now) most) }
{
    let kept = workspace.take(alloc);
    let answered = answer(alloc, kept, question, limit)?;
    let Answered {
        frontier,
        best,
        read,
    } = answered;
    let best = match best {
        Limited::Ended(best) => best,
        Limited::Stopped(most) => {
            workspace.put(frontier, read);
            return Ok(Limited::Stopped(most));
        }
    };
    let labels = count_labels(&frontier, frontier.until);
    workspace.put(frontier, read);
    if let Some(most) = passed(limit, labels) {
        return Ok(Limited::Stopped(most));
    }
    Ok(Limited::Ended(FoundWithCount {
        arrival: best.arrival,
        labels,
        walk: best.walk,
    }))
}

/// The same as [`search`] without the labels, with lists and a table that are kept for the next search. Where a search fails,
/// the next one makes new ones.
pub fn search_best_with<G: Graph, L: Labels>(
    alloc: Global,
    workspace: &mut Workspace,
    question: &Question<'_, G, L>,
) -> Result<Best, AllocError>
    ensures arrival { IfOk result (λ f. FindsArrival (question_of question.now) f.arrival) }
    ensures walk { IfOk result (λ f. FindsWalk (question_of question.now) f.arrival f.walk) }
    ensures time { IfOk result (λ f. IfSome f.arrival (λ t. t ≤ last_time question.now.dep)) }
{
    let kept = workspace.take(alloc);
    let answered = answer(alloc, kept, question, None)?;
    let Answered {
        frontier,
        best,
        read,
    } = answered;
    workspace.put(frontier, read);
    Ok(best.into_answer())
}

/// What a search has reached, and the best that it came to, unless it was given up.
#[derive(Drop)]
pub(crate) struct Answered {
    pub frontier: Frontier,
    pub best: Limited<Best>,
    /// What was read ahead.
    pub read: u32,
}

/// Explores product states up to the best end, and tells its arrival and the walk to it, or is given up on the way.
fn answer<G: Graph, L: Labels>(
    alloc: Global,
    workspace: Workspace,
    question: &Question<'_, G, L>,
    limit: Option<u64>,
) -> Result<Answered, AllocError>
    ensures { IfOk result (λ a. IsAnsweredWithin (question_of question.now) limit a.frontier a.best) }
{
    let explored = explore_all(alloc, workspace, question, limit)?;
    let Explored {
        frontier,
        end,
        read,
    } = explored;
    match end {
        Limited::Ended(end) => {
            let arrival = arrival_of(&frontier, end);
            let walk = walk_to(alloc, &frontier, end)?;
            Ok(Answered {
                frontier,
                best: Limited::Ended(Best { arrival, walk }),
                read,
            })
        }
        Limited::Stopped(most) => Ok(Answered {
            frontier,
            best: Limited::Stopped(most),
            read,
        }),
    }
}
