//! The journey that leaves at a time and arrives first.

ghost use Rattle.std.specs.Prelude.{◌<◌, ◌^◌, IfOk};
ghost use Rattle.mode_expression.specs.Form.{form_of, IsUsable};
ghost use Rattle.journey.specs.Best.{asked_by};
ghost use Rattle.unpack.specs.Taken.{IsPlainWalk};
ghost use Rattle.kept_automata.specs.Texts.{IsSpelledIn};
ghost use Rattle.latest_departure.specs.inside.Forward.{IsFirstIfAny, IsJourneyUnpacked, leaving};
ghost use Rattle.latest_departure.specs.Latest.{AreSwappedEnds};

use crate::search::LateSearch;
use automaton::positions_accept;
use journey::Query;
use kept_automata::{Forward, Room};
use mode_network::{Journey, Network};
use plain_graph::Plain;
use product_search::{Best, Question, Walk, search_best_with};
use search_laws::Time;
use std::alloc::{AllocError, Global};
use unpack::from_plain;

/// The journey of a walk that was found, if one was.
fn unpacked(
    alloc: Global,
    plain: &Plain<'_>,
    walk: &Option<Walk>,
) -> Result<Option<Journey>, AllocError>
    requires { IsPlainWalk plain.now.network.now plain.now.timetable.now walk.now }
    ensures { IfOk result (IsJourneyUnpacked plain.now.network.now plain.now.timetable.now walk.now) }
{
    match walk {
        Some(walk) => {
            let journey = from_plain(alloc, plain, walk)?;
            Ok(Some(journey))
        }
        None => Ok(None),
    }
}

/// Of the journeys that do what a query asks and leave at this time or later, one that leaves then and arrives first; None
/// exactly where there is none. The search goes between the ends of the other search, and uses the room.
pub(crate) fn first_from(
    alloc: Global,
    room: &mut Room,
    network: &Network,
    query: &Query,
    search: &LateSearch<'_>,
    at: Time,
) -> Result<Option<Journey>, AllocError>
    requires usable { IsUsable (form_of query.now.expr) }
    requires spelled { IsSpelledIn query.now.line (form_of query.now.expr) }
    requires ends { AreSwappedEnds network.now (asked_by query.now) search.now.starts.items
        search.now.targets.items }
    requires soon { at < 2 ^ 64 }
    ensures { IfOk result (IsFirstIfAny network.now (leaving (asked_by query.now) at)) }
{
    network.known();
    let plain = Plain::new(network);
    positions_accept();
    let expressed = room.kept.take(alloc, Forward, query)?;
    let question = Question {
        graph: &plain,
        machine: &expressed.made,
        starts: &search.targets,
        targets: &search.starts,
        dep: at,
        bound: None,
        meets_few: false,
    };
    let best = search_best_with(alloc, &mut room.workspace, &question)?;
    room.kept.put(expressed)?;
    let Best { arrival: _, walk } = best;
    unpacked(alloc, &plain, &walk)
}
