//! The latest departure.

ghost use Rattle.std.specs.Prelude.{◌≡◌, ◌<◌, ◌≤◌, Some, All, IfOk, IfSome, length};
ghost use Rattle.search_laws.specs.Times.{time_bound};
ghost use Rattle.mode_expression.specs.Form.{form_of, IsUsable};
ghost use Rattle.product_search.specs.Answer.{IsArrival};
ghost use Rattle.product_search.specs.Limits.{IfEnded, IfStopped};
ghost use Rattle.automaton.specs.Collapsed.{collapsed};
ghost use Rattle.journey.specs.Best.{asked_by};
ghost use Rattle.journey.specs.Queries.{IsQuery};
ghost use Rattle.kept_automata.specs.Texts.{IsSpelledIn};
ghost use Rattle.latest_departure.specs.BackLists.{mirrored};
ghost use Rattle.latest_departure.specs.Latest.{IsLate, AreLateLabels, span};
ghost use Rattle.latest_departure.specs.Limits.{LateSearchHasAtMost, LateSearchHasMore};
ghost use Rattle.latest_departure.specs.Meanings.{reversed_meaning};
ghost use Rattle.latest_departure.specs.Searches.{IsSearchFor};

use crate::backwards::Backwards;
use crate::forward::first_from;
use crate::room::LateRoom;
use crate::search::LateSearch;
use journey::Query;
use kept_automata::Room;
use mode_network::Journey;
use product_search::{
    Best, Found, FoundWithCount, Label, Limited, Question, Workspace, search_best_with,
    search_counted_within, search_within,
};
use search_laws::Time;
use std::alloc::{AllocError, Global};

/// What is answered for a deadline: the best journey, if any journey is in time, and the labels of the search.
#[derive(Drop)]
pub struct Late {
    pub journey: Option<Journey>,
    pub labels: Vec<Label>,
}

/// The best journey for a deadline, if there is a least mirrored moment within the span: the one that leaves then and arrives
/// first. The search for it uses the room.
fn best_at(
    alloc: Global,
    room: &mut Room,
    backwards: &Backwards<'_>,
    query: &Query,
    search: &LateSearch<'_>,
    moment: Option<Time>,
) -> Result<Option<Journey>, AllocError>
    requires usable { IsUsable (form_of query.now.expr) }
    requires spelled { IsSpelledIn query.now.line (form_of query.now.expr) }
    requires search { IsSearchFor backwards.now (asked_by query.now) search.now }
    requires moment { IsArrival (mirrored backwards.now query.now.depart)
        (collapsed (reversed_meaning search.now.expressed.made.machine.labels.inner)) search.now.starts.items
        search.now.targets.items 0 (Some (span backwards.now.network (asked_by query.now))) moment }
    ensures { IfOk result (IsLate backwards.now.network (asked_by query.now)) }
{
    backwards.known();
    match moment {
        Some(moment) => {
            let at = query.depart - moment;
            first_from(alloc, room, backwards.network(), query, search, at)
        }
        None => Ok(None),
    }
}

/// The least mirrored moment within the span at which the origin is reached, if there is one. The search is stopped where it
/// has more labels than the limit, if there is one, and there alone; without a limit they are not counted.
fn least_moment(
    alloc: Global,
    workspace: &mut Workspace,
    backwards: &Backwards<'_>,
    query: &Query,
    search: &LateSearch<'_>,
    limit: Option<u64>,
) -> Result<Limited<Option<Time>>, AllocError>
    requires { IsSearchFor backwards.now (asked_by query.now) search.now }
    ensures moment { IfEnded result (IsArrival (mirrored backwards.now query.now.depart)
        (collapsed (reversed_meaning search.now.expressed.made.machine.labels.inner)) search.now.starts.items
        search.now.targets.items 0 (Some (span backwards.now.network (asked_by query.now)))) }
    ensures few { IfEnded result (λ _. IfSome limit (LateSearchHasAtMost backwards.now.network
        (asked_by query.now))) }
    ensures stopped { IfStopped result (λ most. (limit ≡ Some most)
        × LateSearchHasMore backwards.now.network (asked_by query.now) most) }
{
    backwards.known();
    let question = Question {
        graph: &search.mirror,
        machine: &search.expressed.made.machine,
        starts: &search.starts,
        targets: &search.targets,
        dep: 0,
        bound: Some(search.span),
        meets_few: false,
    };
    if limit.is_none() {
        let found = search_best_with(alloc, workspace, &question)?;
        let Best { arrival, walk: _ } = found;
        return Ok(Limited::Ended(arrival));
    }
    let found = search_counted_within(alloc, workspace, &question, limit)?;
    let found = match found {
        Limited::Ended(found) => found,
        Limited::Stopped(most) => return Ok(Limited::Stopped(most)),
    };
    let FoundWithCount {
        arrival,
        labels: _,
        walk: _,
    } = found;
    Ok(Limited::Ended(arrival))
}

/// A journey that is at the destination by the deadline and starts as late as any that is, and of those that start then
/// arrives first; None exactly where none is in time.
///
/// The time of a query is the deadline. The departure is found by a search through mirrored time, and the journey by one from
/// there on. The first search is stopped where it has more labels than the limit, if there is one, and there alone. The table
/// of what leads to each node and the room serve many queries.
pub(crate) fn find_latest(
    alloc: Global,
    room: &mut LateRoom,
    backwards: &Backwards<'_>,
    query: &Query,
    limit: Option<u64>,
) -> Result<Limited<Option<Journey>>, AllocError>
    requires asks { IsQuery backwards.now.network query.now.line query.now.from query.now.to query.now.depart
        (form_of query.now.expr) }
    requires usable { IsUsable (form_of query.now.expr) }
    ensures journey { IfEnded result (IsLate backwards.now.network (asked_by query.now)) }
    ensures few { IfEnded result (λ _. IfSome limit (LateSearchHasAtMost backwards.now.network
        (asked_by query.now))) }
    ensures stopped { IfStopped result (λ most. (limit ≡ Some most)
        × LateSearchHasMore backwards.now.network (asked_by query.now) most) }
{
    let search = LateSearch::new(alloc, &mut room.backward, backwards, query)?;
    let workspace = &mut room.forward.workspace;
    let moment = match least_moment(alloc, workspace, backwards, query, &search, limit)? {
        Limited::Ended(moment) => moment,
        Limited::Stopped(most) => {
            room.backward.put(search.expressed)?;
            return Ok(Limited::Stopped(most));
        }
    };
    let journey = best_at(alloc, &mut room.forward, backwards, query, &search, moment)?;
    room.backward.put(search.expressed)?;
    Ok(Limited::Ended(journey))
}

/// What is answered for a deadline: such a journey, and exactly the labels of the search through mirrored time, up to the
/// region's first date. It is stopped where there are more than the limit, if there is one, and there alone. The table of
/// what leads to each node and the room serve many queries.
pub fn latest_within(
    alloc: Global,
    room: &mut LateRoom,
    backwards: &Backwards<'_>,
    query: &Query,
    limit: Option<u64>,
) -> Result<Limited<Late>, AllocError>
    requires asks { IsQuery backwards.now.network query.now.line query.now.from query.now.to query.now.depart
        (form_of query.now.expr) }
    requires usable { IsUsable (form_of query.now.expr) }
    ensures journey { IfEnded result (λ late. IsLate backwards.now.network (asked_by query.now)
        late.journey) }
    ensures labels { IfEnded result (λ late. AreLateLabels backwards.now.network (asked_by query.now)
        late.labels.items) }
    ensures times { IfEnded result (λ late. All (λ x. x.at < time_bound) late.labels.items) }
    ensures few { IfEnded result (λ late. IfSome limit (λ most. length late.labels.items ≤ most)) }
    ensures stopped { IfStopped result (λ most. (limit ≡ Some most)
        × LateSearchHasMore backwards.now.network (asked_by query.now) most) }
{
    let search = LateSearch::new(alloc, &mut room.backward, backwards, query)?;
    let late = late_over(alloc, &mut room.forward, backwards, query, &search, limit)?;
    room.backward.put(search.expressed)?;
    Ok(late)
}

/// What is answered for a deadline by this search, unless it is stopped. The search from the departure uses the room.
fn late_over(
    alloc: Global,
    room: &mut Room,
    backwards: &Backwards<'_>,
    query: &Query,
    search: &LateSearch<'_>,
    limit: Option<u64>,
) -> Result<Limited<Late>, AllocError>
    requires usable { IsUsable (form_of query.now.expr) }
    requires spelled { IsSpelledIn query.now.line (form_of query.now.expr) }
    requires search { IsSearchFor backwards.now (asked_by query.now) search.now }
    ensures journey { IfEnded result (λ late. IsLate backwards.now.network (asked_by query.now)
        late.journey) }
    ensures labels { IfEnded result (λ late. AreLateLabels backwards.now.network (asked_by query.now)
        late.labels.items) }
    ensures times { IfEnded result (λ late. All (λ x. x.at < time_bound) late.labels.items) }
    ensures few { IfEnded result (λ late. IfSome limit (λ most. length late.labels.items ≤ most)) }
    ensures stopped { IfStopped result (λ most. (limit ≡ Some most)
        × LateSearchHasMore backwards.now.network (asked_by query.now) most) }
{
    backwards.known();
    let question = Question {
        graph: &search.mirror,
        machine: &search.expressed.made.machine,
        starts: &search.starts,
        targets: &search.targets,
        dep: 0,
        bound: Some(search.span),
        meets_few: false,
    };
    let found = search_within(alloc, &question, limit)?;
    let found = match found {
        Limited::Ended(found) => found,
        Limited::Stopped(most) => return Ok(Limited::Stopped(most)),
    };
    let Found {
        arrival,
        labels,
        walk: _,
    } = found;
    let journey = best_at(alloc, room, backwards, query, search, arrival)?;
    Ok(Limited::Ended(Late { journey, labels }))
}
