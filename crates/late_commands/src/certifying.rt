//! The command `certify-latest`: a certificate of the latest departure for a query line.

ghost use Rattle.std.specs.Prelude.{◌≡◌, ◌<◌, ◌^◌, IfOk};
ghost use Rattle.plain_texts.specs.Lines.{IsLine};
ghost use Rattle.mode_expression.specs.Form.{form_of, IsUsable};
ghost use Rattle.journey.specs.Queries.{IsQuery};
ghost use Rattle.plan_base.specs.Shelves.{ShelfMeaning};
ghost use Rattle.run_steps.specs.Scene.{scene};
ghost use Rattle.run_steps.specs.Sayings.{WritesText, end_of};
ghost use Rattle.late_commands.specs.Outputs.{IsLateCertified, IsLateCertifiedWithin};
ghost use Rattle.late_commands.specs.Commands.{SaysCertifyLatest};

use journey::{Query, large_block, read_query, refused_block, stopped_block};
use late_certificate::{certify_late_within, print_late};
use latest_departure::{Backwards, LateRoom};
use mode_network::Network;
use plan_base::{Caps, Shelf, Sink};
use product_search::Limited;
use run_steps::{Limits, Outcome, Ports, read_region, write_text};
use std::alloc::{AllocError, Global};

/// Reads the region of this name, and writes the late certificate of a query line, or its block where the line is refused or
/// passes the limits.
pub fn certify_latest<F: Shelf, O: Sink, E: Sink>(
    ports: &mut Ports<F, O, E>,
    region: &str,
    query: &str,
    limits: Limits,
    caps: &Caps,
) -> Result<(), Outcome>
    ensures { SaysCertifyLatest caps.now limits region.now query.now
        (scene (F.meaning ports.old.shelf) (O.meaning ports.old.out))
        (scene (F.meaning ports.new.shelf) (O.meaning ports.new.out)) (end_of result) }
{
    let alloc = ports.alloc;
    let network = read_region(alloc, &mut ports.shelf, region, caps, &mut ports.notes)?;
    write_certified(alloc, &network, limits, query.as_bytes(), &mut ports.out)
}

/// Writes the late certificate of a query line, or its block where the line is refused or passes the limits.
fn write_certified<O: Sink>(
    alloc: Global,
    network: &Network,
    limits: Limits,
    line: &[u8],
    out: &mut O,
) -> Result<(), Outcome>
    ensures { (old new : ShelfMeaning) → WritesText (IsLateCertified network.now limits line.now)
        (scene old (O.meaning out.old)) (scene new (O.meaning out.new)) (end_of result) }
{
    let text = certified_late(alloc, network, limits, line)?;
    write_text(out, &text)
}

/// The text of the late certificate of a query line, or its block where the line is refused or passes the limits.
fn certified_late(
    alloc: Global,
    network: &Network,
    limits: Limits,
    line: &[u8],
) -> Result<Vec<u8>, AllocError>
    ensures { IfOk result (λ text. IsLateCertified network.now limits line.now text.items) }
{
    if let Some(block) = large_block(alloc, network, limits.places, line)? {
        return Ok(block);
    }
    let backwards = Backwards::new(alloc, network)?;
    let mut room = LateRoom::new(alloc);
    certified_late_within(alloc, &mut room, &backwards, limits.labels, line)
}

/// The text of the late certificate of a query line whose search may have so many labels, or its block where the line is
/// refused or the search has more. The table of what leads to each node and the room serve many lines.
pub fn certified_late_within(
    alloc: Global,
    room: &mut LateRoom,
    backwards: &Backwards<'_>,
    limit: Option<u64>,
    line: &[u8],
) -> Result<Vec<u8>, AllocError>
    ensures { IfOk result (λ text. IsLateCertifiedWithin backwards.now.network limit line.now text.items) }
{
    let network = backwards.network();
    match read_query(alloc, network, line) {
        Ok(query) => certificate_text(alloc, room, backwards, limit, line, query),
        Err(fault) => refused_block(alloc, network, line, fault),
    }
}

/// The text of a late certificate for a line that is this query, or the block of the line where the search has more labels than the limit.
fn certificate_text(
    alloc: Global,
    room: &mut LateRoom,
    backwards: &Backwards<'_>,
    limit: Option<u64>,
    line: &[u8],
    query: Query,
) -> Result<Vec<u8>, AllocError>
    requires asks { IsQuery backwards.now.network query.line query.from query.to query.depart
        (form_of query.expr) }
    requires usable { IsUsable (form_of query.expr) }
    requires soon { query.depart < 2 ^ 64 }
    requires line { query.line ≡ line.now }
    requires plain { IsLine line.now }
    ensures { IfOk result (λ text. IsLateCertifiedWithin backwards.now.network limit line.now text.items) }
{
    match certify_late_within(alloc, room, backwards, query, limit)? {
        Limited::Ended(certificate) => print_late(alloc, &certificate),
        Limited::Stopped(most) => stopped_block(alloc, line, most),
    }
}
