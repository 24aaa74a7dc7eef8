//! The block of a query line that asks for the latest departure.

ghost use Rattle.std.specs.Prelude.{◌≡◌, ◌++◌, IfOk, IfSome, OnOk, codes};
ghost use Rattle.plain_texts.specs.Lines.{with_feed};
ghost use Rattle.mode_expression.specs.Form.{form_of, IsUsable};
ghost use Rattle.service_days.specs.Clock.{clock_text_of};
ghost use Rattle.journey.specs.Blocks.{AddsText, IsPrintable};
ghost use Rattle.journey.specs.Queries.{IsQuery};
ghost use Rattle.latest_departure.specs.Blocks.{IsLateJourneyText, IsResultText, IsAnswerBlock};
ghost use Rattle.latest_departure.specs.Limits.{IsLateBlockWithin};

use crate::backwards::Backwards;
use crate::departing::find_latest;
use crate::room::LateRoom;
use journey::{Query, framed, push_journey, read_query, refused_block, stopped_block};
use mode_network::{Journey, Network};
use plain_texts::push_line_feed;
use product_search::Limited;
use search_laws::Time;
use std::alloc::{AllocError, Global};

/// The line of a departure.
fn push_departure(out: &mut Vec<u8>, network: &Network, t: Time) -> Result<(), AllocError>
    ensures { OnOk result (out.new.items ≡ out.old.items ++ with_feed
        (codes "depart " ++ clock_text_of network.now.days t)) }
{
    out.extend_from_slice(b"depart ")?;
    network.days().push_clock(out, t)?;
    push_line_feed(out)
}

/// Appends when a journey departs, as the line `depart`, and then what any block prints of it.
pub fn push_late(
    alloc: Global,
    out: &mut Vec<u8>,
    network: &Network,
    journey: &Journey,
) -> Result<(), AllocError>
    requires { IsPrintable network.now journey.now }
    ensures { OnOk result (AddsText (IsLateJourneyText network.now journey.now) out.old.items out.new.items) }
{
    push_departure(out, network, journey.at)?;
    push_journey(alloc, out, network, journey)?;
    Ok(())
}

/// Appends what is printed of a journey, or of the answer that there is none.
fn push_answer(
    alloc: Global,
    out: &mut Vec<u8>,
    network: &Network,
    answer: &Option<Journey>,
) -> Result<(), AllocError>
    requires { IfSome answer.now (IsPrintable network.now) }
    ensures { OnOk result (AddsText (IsResultText network.now answer.now) out.old.items out.new.items) }
{
    match answer {
        Some(journey) => push_late(alloc, out, network, journey)?,
        None => out.extend_from_slice(b"no journey\n")?,
    }
    Ok(())
}

/// The block of a line with a journey, or with the answer that there is none.
pub fn answer_block(
    alloc: Global,
    network: &Network,
    line: &[u8],
    answer: &Option<Journey>,
) -> Result<Vec<u8>, AllocError>
    requires { IfSome answer.now (IsPrintable network.now) }
    ensures { IfOk result (λ block. IsAnswerBlock network.now line.now answer.now block.items) }
{
    let mut text = Vec::new(alloc);
    push_answer(alloc, &mut text, network, answer)?;
    framed(alloc, line, &text)
}

/// The right late block of the line that is this query, within the limit, if there is one.
fn query_block(
    alloc: Global,
    room: &mut LateRoom,
    backwards: &Backwards<'_>,
    query: &Query,
    limit: Option<u64>,
) -> Result<Vec<u8>, AllocError>
    requires asks { IsQuery backwards.now.network query.now.line query.now.from query.now.to query.now.depart
        (form_of query.now.expr) }
    requires usable { IsUsable (form_of query.now.expr) }
    ensures { IfOk result (λ block. IsLateBlockWithin backwards.now.network limit query.now.line
        block.items) }
{
    let line = query.line.as_slice();
    let found = find_latest(alloc, room, backwards, query, limit)?;
    let journey = match found {
        Limited::Ended(journey) => journey,
        Limited::Stopped(most) => return stopped_block(alloc, line, most),
    };
    answer_block(alloc, backwards.network(), line, &journey)
}

/// The right late block of a query line: that of its refusal, of the best journey for its deadline, or of the answer that
/// there is none. But where the search through mirrored time has more labels than the limit, if there is one, it is stopped,
/// and the block says so.
///
/// The table of what leads to each node and the room serve many lines.
pub fn late_block_within(
    alloc: Global,
    room: &mut LateRoom,
    backwards: &Backwards<'_>,
    line: &[u8],
    limit: Option<u64>,
) -> Result<Vec<u8>, AllocError>
    ensures { IfOk result (λ block. IsLateBlockWithin backwards.now.network limit line.now block.items) }
{
    let network = backwards.network();
    match read_query(alloc, network, line) {
        Ok(query) => query_block(alloc, room, backwards, &query, limit),
        Err(fault) => refused_block(alloc, network, line, fault),
    }
}
