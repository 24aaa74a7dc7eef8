//! Queries.

ghost use Rattle.std.specs.Prelude.{◌≡◌, ◌<◌, ◌^◌, IfOk, IfErr};
ghost use Rattle.plain_texts.specs.Lines.{IsLine};
ghost use Rattle.mode_expression.specs.Form.{form_of, IsUsable};
ghost use Rattle.journey.specs.Queries.{IsQuery, IsRefusal};

use crate::endpoints::lack_of;
use crate::fault::QueryFault;
use crate::shape::{Shape, departs_at, read_shape};
use mode_expression::{Expr, parse};
use mode_network::{Bytes, Endpoint, Network};
use plan_base::Time;
use std::alloc::{AllocError, Global};

/// A query: for journeys from a copy of one endpoint to a copy of another, at the departure or later, with a
/// word that the expression denotes.
#[derive(Drop)]
pub struct Query {
    /// The line that says it.
    pub line: Bytes,
    pub from: Endpoint,
    pub to: Endpoint,
    /// The departure, in milliseconds of the region clock.
    pub depart: Time,
    pub expr: Expr,
}

/// Reads a query line, or answers its first fault: of its shape, its clock, its date, its origin, its destination,
/// and then its expression. A line that is a query has no line feed in it.
pub fn read_query(alloc: Global, network: &Network, line: &[u8]) -> Result<Query, QueryFault>
    ensures query { IfOk result (λ q. IsQuery network.now line.now q.from q.to q.depart (form_of q.expr)) }
    ensures usable { IfOk result (λ q. IsUsable (form_of q.expr)) }
    ensures soon { IfOk result (λ q. q.depart < 2 ^ 64) }
    ensures line { IfOk result (λ q. q.line ≡ line.now) }
    ensures plain { IfOk result (λ _. IsLine line.now) }
    ensures fault { IfErr result (IsRefusal network.now line.now) }
{
    let Some(shape) = read_shape(alloc, line)? else {
        return Err(QueryFault::Shape);
    };
    let depart = departs_at(network.days(), &shape)?;
    if let Some(lack) = lack_of(network, &shape.from) {
        return Err(lack.at_origin());
    }
    if let Some(lack) = lack_of(network, &shape.to) {
        return Err(lack.at_destination());
    }
    let expr = parse(alloc, shape.expr)?;
    network.known();
    let line = Bytes::from(Vec::from_slice(alloc, line)?);
    Ok(Query {
        line,
        from: shape.from,
        to: shape.to,
        depart,
        expr,
    })
}
