//! What is asked of each origin and each destination, and their query lines.

ghost use Rattle.std.specs.Prelude.{◌≡◌, ◌∷◌, ◌++◌, ◌==◌, ◌↔◌, IfOk, IsTrue, OnOk, map, position};
ghost use Rattle.matrix_commands.specs.Cells.{query_line_of};
ghost use Rattle.matrix_commands.specs.inside.Working.{AreEndQueries, IsEndIfAny, IsField};

use journey::{Query, QueryFault, large_places, read_query};
use mode_network::Network;
use std::alloc::{AllocError, Global};

/// What is asked of each origin and each destination: the last three fields of their query line, and how many places the
/// expression may have, where that is limited.
#[derive(Clone, Copy)]
pub struct Asking<'a> {
    pub date: &'a str,
    pub time: &'a str,
    pub expr: &'a str,
    pub places: Option<u32>,
}

impl Asking<'_> {
    ghost use Rattle.std.specs.Prelude.{◌≡◌, ◌↔◌, IfOk, IsTrue};
    ghost use Rattle.matrix_commands.specs.Cells.{query_line_of};
    ghost use Rattle.matrix_commands.specs.inside.Working.{IsField};

    /// The query line of an origin and a destination.
    pub(crate) fn line_of(
        &self,
        alloc: Global,
        from: &[u8],
        to: &[u8],
    ) -> Result<Vec<u8>, AllocError>
        ensures { IfOk result (λ line. line.items ≡
            query_line_of self.now.date.now self.now.time.now self.now.expr.now from.now to.now) }
    {
        let mut line = Vec::from_slice(alloc, from)?;
        push_field(&mut line, to)?;
        push_field(&mut line, self.date.as_bytes())?;
        push_field(&mut line, self.time.as_bytes())?;
        push_field(&mut line, self.expr.as_bytes())?;
        Ok(line)
    }

    /// Whether a line, the date and the time are one field each.
    fn is_apart(&self, line: &[u8]) -> bool
        ensures { IsTrue result ↔ (IsField line.now × IsField self.now.date.now × IsField self.now.time.now) }
    {
        is_field(line) && is_field(self.date.as_bytes()) && is_field(self.time.as_bytes())
    }
}

/// Appends a space and a field.
fn push_field(line: &mut Vec<u8>, field: &[u8]) -> Result<(), AllocError>
    ensures { OnOk result (line.new.items ≡ line.old.items ++ 32 ∷ field.now) }
{
    line.push(b' ')?;
    line.extend_from_slice(field)
}

/// Whether no space stands in a text.
fn is_field(text: &[u8]) -> bool
    ensures { IsTrue result ↔ IsField text.now }
{
    space_at(text).is_none()
}

/// Where the first space of a text stands.
fn space_at(text: &[u8]) -> Option<usize>
    ensures { result ≡ position (λ b. b == 32) text.now }
{
    text.iter().position(|byte| *byte == b' ')
}

/// The query of the line that has this line at both ends, if it is one, and if this line, the date and the time are one
/// field each and the expression has no more places than are allowed. Then the query line of two such lines asks what theirs ask: from the one, to the other.
pub(crate) fn read_end(
    alloc: Global,
    network: &Network,
    asking: &Asking<'_>,
    line: &[u8],
) -> Result<Option<Query>, AllocError>
    ensures { IfOk result (IsEndIfAny network.now asking.now.places asking.now.date.now asking.now.time.now
        asking.now.expr.now line.now) }
{
    if !asking.is_apart(line) {
        return Ok(None);
    }
    let both = asking.line_of(alloc, line, line)?;
    if large_places(alloc, network, asking.places, &both)?.is_some() {
        return Ok(None);
    }
    match read_query(alloc, network, &both) {
        Ok(query) => Ok(Some(query)),
        Err(QueryFault::OutOfMemory) => Err(AllocError),
        Err(_) => Ok(None),
    }
}

/// The queries of such lines.
pub(crate) fn read_ends(
    alloc: Global,
    network: &Network,
    asking: &Asking<'_>,
    lines: &[&[u8]],
) -> Result<Vec<Option<Query>>, AllocError>
    ensures { IfOk result (λ queries. AreEndQueries network.now asking.now.places asking.now.date.now
        asking.now.time.now asking.now.expr.now (map (λ line. line.now) lines.now) queries.items) }
{
    let mut queries = Vec::new(alloc);
    for line in lines {
        queries.push(read_end(alloc, network, asking, line)?)?;
    }
    Ok(queries)
}
