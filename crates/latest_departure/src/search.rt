//! The search that answers a query with a deadline.

ghost use Rattle.std.specs.Prelude.{IfOk};
ghost use Rattle.mode_expression.specs.Form.{form_of, IsUsable};
ghost use Rattle.journey.specs.Best.{asked_by};
ghost use Rattle.journey.specs.Queries.{IsQuery};

use crate::backward::Backward;
use crate::backwards::Backwards;
use crate::mirror::Mirror;
use journey::{Query, copies};
use kept_automata::{Expressed, Kept};
use search_laws::Time;
use std::alloc::{AllocError, Global};

/// What a query with a deadline is answered over: the network in mirrored time, from the copies of the destination at the
/// deadline back to those of the origin, and the automaton that reads the words of the expression from their ends.
#[derive(Drop)]
pub struct LateSearch<'a> {
    pub mirror: Mirror<'a>,
    pub expressed: Expressed<Backward>,
    /// The copies of the destination, at which the search starts.
    pub starts: Vec<u32>,
    /// The copies of the origin.
    pub targets: Vec<u32>,
    /// The time before the deadline, in milliseconds, back to the region's first date.
    pub span: Time,
}

impl<'a> LateSearch<'a> {
    ghost use Rattle.latest_departure.specs.Searches.{IsSearchFor};

    /// The search for a query whose time is the deadline. It takes its automaton out of what is kept.
    pub fn new(
        alloc: Global,
        kept: &mut Kept<Backward>,
        backwards: &'a Backwards<'a>,
        query: &Query,
    ) -> Result<LateSearch<'a>, AllocError>
        requires asks { IsQuery backwards.now.network query.now.line query.now.from query.now.to
            query.now.depart (form_of query.now.expr) }
        requires usable { IsUsable (form_of query.now.expr) }
        ensures { IfOk result (IsSearchFor backwards.now (asked_by query.now)) }
    {
        let network = backwards.network();
        let days = network.days();
        days.known();
        let span = query.depart - Time::from(days.base(7));
        let mirror = Mirror::of(backwards, query.depart);
        let starts = copies(alloc, network, &query.to)?;
        let targets = copies(alloc, network, &query.from)?;
        let expressed = kept.take(alloc, Backward, query)?;
        Ok(LateSearch {
            mirror,
            expressed,
            starts,
            targets,
            span,
        })
    }
}
