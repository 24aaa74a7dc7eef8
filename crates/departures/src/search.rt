//! The search for a journey with a ride that arrives first.

ghost use Rattle.std.specs.Prelude.{◌≡◌, ◌<◌, ◌≤◌, ◌^◌, IfOk, IfSome};
ghost use Rattle.mode_expression.specs.Form.{form_of, IsUsable};
ghost use Rattle.unpack.specs.Taken.{IsPlainWalk};
ghost use Rattle.kept_automata.specs.Texts.{IsSpelledIn};
ghost use Rattle.departures.specs.inside.Searching.{IsRowUnpacked};

use crate::least::LeastTimes;
use crate::row::{Pair, Row};
use crate::setting_off::set_off;
use crate::transit::reads_transit;
use automaton::positions_accept;
use few_boardings::{Counting, Side};
use journey::{Query, copies};
use kept_automata::{Expressed, Kept};
use mode_network::Network;
use plain_graph::Plain;
use product_search::{Best, Question, Walk, Workspace, search_best_with};
use search_laws::Time;
use std::alloc::{AllocError, Global};
use unpack::from_plain;

/// What journeys with a ride are searched over: the network, the automaton that reads the words of the query's
/// expression that have a transit letter, and the copies of both ends.
#[derive(Drop)]
pub struct RideSearch<'a> {
    pub query: &'a Query,
    pub plain: Plain<'a>,
    pub expressed: Expressed<Counting>,
    /// Whether the expression has a letter of transit; else no journey with a ride does what it says.
    pub reads_transit: bool,
    pub origins: Vec<u32>,
    pub destinations: Vec<u32>,
}

/// The row of a walk that was found, with its arrival, if one was.
fn unpacked(
    alloc: Global,
    plain: &Plain<'_>,
    arrival: Option<Time>,
    walk: &Option<Walk>,
) -> Result<Option<Row>, AllocError>
    requires walk { IsPlainWalk plain.now.network.now plain.now.timetable.now walk.now }
    requires soon { IfSome walk.now (λ w. w.at < 2 ^ 64) }
    ensures { IfOk result (IsRowUnpacked plain.now.network.now plain.now.timetable.now arrival walk.now) }
{
    match (arrival, walk) {
        (Some(arrive), Some(walk)) => {
            let taken = from_plain(alloc, plain, walk)?;
            let journey = set_off(alloc, plain.network(), &taken)?;
            let pair = Pair {
                depart: journey.at,
                arrive,
            };
            Ok(Some(Row { pair, journey }))
        }
        _ => Ok(None),
    }
}

impl<'a> RideSearch<'a> {
    ghost use Rattle.std.specs.Prelude.{false};
    ghost use Rattle.departures.specs.inside.Searching.{searched_network, asked_of, IsRideSearch, IsFirstRowFrom, NoneTakesLess};

    /// The search for what a query asks. It takes its automaton out of what is kept.
    pub fn new(
        alloc: Global,
        kept: &mut Kept<Counting>,
        network: &'a Network,
        query: &'a Query,
    ) -> Result<RideSearch<'a>, AllocError>
        requires usable { IsUsable (form_of query.now.expr) }
        requires spelled { IsSpelledIn query.now.line (form_of query.now.expr) }
        ensures search { IfOk result IsRideSearch }
        ensures network { IfOk result (λ search. search.plain.network.now ≡ network.now) }
        ensures query { IfOk result (λ search. search.query.now ≡ query.now) }
    {
        let plain = Plain::new(network);
        let origins = copies(alloc, network, &query.from)?;
        let destinations = copies(alloc, network, &query.to)?;
        positions_accept();
        let counting = Counting {
            side: Side::AtLeast,
            limit: 1,
        };
        let expressed = kept.take(alloc, counting, query)?;
        let reads_transit = reads_transit(&expressed.made.labels.inner);
        Ok(RideSearch {
            query,
            plain,
            expressed,
            reads_transit,
            origins,
            destinations,
        })
    }

    /// Of the journeys with a ride that do what the query asks and leave at this time or later, one that arrives first,
    /// and that waits nowhere before its first ride; None exactly where there is none.
    pub fn first_from(
        &self,
        alloc: Global,
        workspace: &mut Workspace,
        at: Time,
    ) -> Result<Option<Row>, AllocError>
        requires search { IsRideSearch self.now }
        requires late { self.now.query.now.depart ≤ at }
        requires soon { at < 2 ^ 64 }
        ensures { IfOk result (IsFirstRowFrom (searched_network self.now) (asked_of self.now) at) }
    {
        if !self.reads_transit {
            return Ok(None);
        }
        let question = Question {
            graph: &self.plain,
            machine: &self.expressed.made,
            starts: &self.origins,
            targets: &self.destinations,
            dep: at,
            bound: None,
            meets_few: false,
        };
        let best = search_best_with(alloc, workspace, &question)?;
        let Best { arrival, walk } = best;
        unpacked(alloc, &self.plain, arrival, &walk)
    }

    /// Whether a journey with a ride may take less than `c`: whether a walk by least times does. If none does, no journey does,
    /// whenever it leaves.
    pub fn may_take_less(
        &self,
        alloc: Global,
        workspace: &mut Workspace,
        least: &LeastTimes<'_>,
        c: Time,
    ) -> Result<bool, AllocError>
        requires search { IsRideSearch self.now }
        requires same { least.now.plain.network.now ≡ searched_network self.now }
        requires soon { self.now.query.now.depart < 2 ^ 64 }
        ensures { IfOk result (λ may. may ≡ false → NoneTakesLess (searched_network self.now)
            (asked_of self.now) c) }
    {
        least.known();
        if !self.reads_transit {
            return Ok(false);
        }
        if c == 0 {
            return Ok(false);
        }
        let Some(last) = self.query.depart.checked_add(c - 1) else {
            return Ok(true);
        };
        let question = Question {
            graph: least,
            machine: &self.expressed.made,
            starts: &self.origins,
            targets: &self.destinations,
            dep: self.query.depart,
            bound: Some(last),
            meets_few: false,
        };
        let best = search_best_with(alloc, workspace, &question)?;
        Ok(best.arrival.is_some())
    }
}
