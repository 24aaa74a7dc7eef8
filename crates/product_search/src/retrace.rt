//! The way back from an end to a start.

ghost use Rattle.std.specs.Prelude.{IfOk, IfSome};
ghost use Rattle.product_search.specs.inside.Trail.{HasParents, IsTrailIfAny, IsTrailTo, IsWayTo};

use crate::frontier::{Frontier, Scan};
use crate::label::{Hop, Walk};
use std::alloc::{AllocError, Global};

/// The walk by which an end was reached, if one was.
pub(crate) fn walk_to(
    alloc: Global,
    frontier: &Frontier,
    end: Option<Scan>,
) -> Result<Option<Walk>, AllocError>
    requires parents { HasParents frontier.now }
    requires link { IfSome end (λ s. IsWayTo frontier.now s.link) }
    ensures { IfOk result (IsTrailIfAny frontier.now end) }
{
    match end {
        Some(end) => Ok(Some(retrace(alloc, frontier, end)?)),
        None => Ok(None),
    }
}

/// The walk by which an end was reached.
fn retrace(alloc: Global, frontier: &Frontier, end: Scan) -> Result<Walk, AllocError>
    requires parents { HasParents frontier.now }
    requires link { IsWayTo frontier.now end.link }
    ensures { IfOk result (IsTrailTo frontier.now end.link) }
{
    let mut hops = Vec::new(alloc);
    let mut way = frontier.ways[(end.link - 1) as usize];
    'back: while way.parent != 0 {
        let row = frontier.rows[way.row as usize];
        hops.push(Hop {
            arc: way.arc,
            to: row.node,
            state: row.state,
            at: frontier.time(way.delay),
        })?;
        way = frontier.ways[(way.parent - 1) as usize];
    }
    hops.reverse();
    let row = frontier.rows[way.row as usize];
    Ok(Walk {
        node: row.node,
        state: row.state,
        at: frontier.time(way.delay),
        hops,
    })
}
