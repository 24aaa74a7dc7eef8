//! The command `certify`: a certificate for a query line.

ghost use Rattle.std.specs.Prelude.{IfOk, IfSome, option_map};
ghost use Rattle.plain_texts.specs.Lines.{IsLine};
ghost use Rattle.hierarchy.specs.Soundness.{IsSound};
ghost use Rattle.planning.specs.Plans.{IsRead};
ghost use Rattle.plan_base.specs.Shelves.{ShelfMeaning};
ghost use Rattle.run_steps.specs.Scene.{scene};
ghost use Rattle.run_steps.specs.Sayings.{WritesText, end_of};
ghost use Rattle.answer_commands.specs.Commands.{SaysCertify};
ghost use Rattle.answer_commands.specs.Outputs.{IsCertified, IsCertifiedWithin};

use crate::reading::read_both;
use certificate::{Certificate, print};
use hierarchy::Hierarchy;
use journey::{Query, large_block, read_query, refused_block, stopped_block};
use mode_network::Network;
use plan_base::{Caps, Shelf, Sink};
use planning::{FoundPlan, Room, find_plan_within};
use product_search::Limited;
use run_steps::{Limits, Outcome, Ports, write_text};
use std::alloc::{AllocError, Global};

/// Reads the region of this name, and the hierarchy, if one is named, and writes the certificate of a query line, or its
/// block where the line is refused or passes the limits.
#[tactic(auto, using(crate::proofs::LentLemmas::lent_sound))]
pub fn certify<F: Shelf, O: Sink, E: Sink>(
    ports: &mut Ports<F, O, E>,
    region: &str,
    query: &str,
    hierarchy: Option<&str>,
    limits: Limits,
    caps: &Caps,
) -> Result<(), Outcome>
    ensures { SaysCertify caps.now limits region.now query.now (option_map (λ it. it.now) hierarchy.entry)
        (scene (F.meaning ports.old.shelf) (O.meaning ports.old.out))
        (scene (F.meaning ports.new.shelf) (O.meaning ports.new.out)) (end_of result) }
{
    let alloc = ports.alloc;
    let (shelf, notes) = (&mut ports.shelf, &mut ports.notes);
    let (network, hierarchy) = read_both(alloc, region, hierarchy, shelf, notes, caps)?;
    let line = query.as_bytes();
    write_certified(
        alloc,
        &network,
        hierarchy.as_ref(),
        limits,
        line,
        &mut ports.out,
    )
}

/// Writes the certificate of a query line, or its block where the line is refused or passes the limits.
fn write_certified<O: Sink>(
    alloc: Global,
    network: &Network,
    hierarchy: Option<&Hierarchy>,
    limits: Limits,
    line: &[u8],
    out: &mut O,
) -> Result<(), Outcome>
    requires { IfSome hierarchy (λ h. IsSound network.now h.now) }
    ensures { (old new : ShelfMeaning)
        → WritesText (IsCertified network.now (option_map (λ h. h.now) hierarchy.entry) limits line.now)
        (scene old (O.meaning out.old)) (scene new (O.meaning out.new)) (end_of result) }
{
    let text = certified(alloc, network, hierarchy, limits, line)?;
    write_text(out, &text)
}

/// The text of the certificate of a query line, or its block where the line is refused or passes the limits.
fn certified(
    alloc: Global,
    network: &Network,
    hierarchy: Option<&Hierarchy>,
    limits: Limits,
    line: &[u8],
) -> Result<Vec<u8>, AllocError>
    requires { IfSome hierarchy (λ h. IsSound network.now h.now) }
    ensures { IfOk result (λ text. IsCertified network.now (option_map (λ h. h.now) hierarchy.entry) limits
        line.now text.items) }
{
    if let Some(block) = large_block(alloc, network, limits.places, line)? {
        return Ok(block);
    }
    let mut room = Room::new(alloc);
    certified_within(alloc, &mut room, network, hierarchy, limits.labels, line)
}

/// The text of the certificate of a query line whose search may have so many labels, or its block where the line is refused
/// or the search has more. The search uses what the room keeps.
pub fn certified_within(
    alloc: Global,
    room: &mut Room,
    network: &Network,
    hierarchy: Option<&Hierarchy>,
    limit: Option<u64>,
    line: &[u8],
) -> Result<Vec<u8>, AllocError>
    requires { IfSome hierarchy (λ h. IsSound network.now h.now) }
    ensures { IfOk result (λ text. IsCertifiedWithin network.now (option_map (λ h. h.now) hierarchy.entry)
        limit line.now text.items) }
{
    match read_query(alloc, network, line) {
        Ok(query) => certificate_text(alloc, room, network, hierarchy, limit, query),
        Err(fault) => refused_block(alloc, network, line, fault),
    }
}

/// The text of a query's certificate, or the block of its line where the search has more labels than the limit.
fn certificate_text(
    alloc: Global,
    room: &mut Room,
    network: &Network,
    hierarchy: Option<&Hierarchy>,
    limit: Option<u64>,
    query: Query,
) -> Result<Vec<u8>, AllocError>
    requires sound { IfSome hierarchy (λ h. IsSound network.now h.now) }
    requires read { IsRead network.now query }
    requires line { IsLine query.line }
    ensures { IfOk result (λ text. IsCertifiedWithin network.now (option_map (λ h. h.now) hierarchy.entry)
        limit query.line text.items) }
{
    network.known();
    let found = find_plan_within(alloc, room, network, hierarchy, &query, limit)?;
    let FoundPlan { best, labels } = match found {
        Limited::Ended(found) => found,
        Limited::Stopped(most) => return stopped_block(alloc, query.line.as_slice(), most),
    };
    let certificate = Certificate {
        line: query.line,
        phases: hierarchy.is_some(),
        result: best,
        labels,
    };
    print(alloc, &certificate)
}
