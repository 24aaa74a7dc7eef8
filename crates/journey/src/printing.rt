//! How blocks are printed.

ghost use Rattle.std.specs.Prelude.{◌≡◌, ◌≢◌, IfOk, OnOk};
ghost use Rattle.journey.specs.declared.answer.BlockBody.TheVariants.{Refused};
ghost use Rattle.journey.specs.declared.fault.QueryFault.TheVariants.{OutOfMemory};
ghost use Rattle.journey.specs.Texts.{IsJourneyText, block_text};
ghost use Rattle.journey.specs.Blocks.{IsPrintable, IsPrintableBody, IsBodyText, IsBlockText, AddsText};

use crate::answer::BlockBody;
use crate::fault::QueryFault;
use crate::telling::tell;
use crate::texts::{push_clock_line, push_place_line, push_refusal, push_word};
use mode_network::{Journey, Network, Step};
use plain_texts::push_line_feed;
use plan_base::Time;
use std::alloc::{AllocError, Global};

/// What is printed of a journey: when it arrives, its word, where and when it starts, and its steps.
fn push_steps(
    alloc: Global,
    out: &mut Vec<u8>,
    network: &Network,
    start: u32,
    at: Time,
    steps: &[Step],
) -> Result<(), AllocError>
    requires { IsPrintable network.now (record { start = start; at = at; steps = steps.now }) }
    ensures { OnOk result (AddsText (IsJourneyText network.now
        (record { start = start; at = at; steps = steps.now })) out.old.items out.new.items) }
{
    let told = tell(alloc, network, start, at, steps)?;
    push_clock_line(out, network, b"arrive ", told.at)?;
    push_word(out, &told.word)?;
    push_place_line(out, network, b"from ", start, at)?;
    out.extend_from_slice(&told.lines)?;
    Ok(())
}

/// Appends what a block prints of a journey.
pub fn push_journey(
    alloc: Global,
    out: &mut Vec<u8>,
    network: &Network,
    journey: &Journey,
) -> Result<(), AllocError>
    requires { IsPrintable network.now journey.now }
    ensures { OnOk result (AddsText (IsJourneyText network.now journey.now) out.old.items out.new.items) }
{
    push_steps(
        alloc,
        out,
        network,
        journey.start,
        journey.at,
        &journey.steps,
    )
}

fn push_body(
    alloc: Global,
    out: &mut Vec<u8>,
    network: &Network,
    body: &BlockBody,
) -> Result<(), AllocError>
    requires { IsPrintableBody network.now body.now }
    ensures { OnOk result (AddsText (IsBodyText network.now body.now) out.old.items out.new.items) }
{
    match body {
        BlockBody::Journey(journey) => push_journey(alloc, out, network, journey)?,
        BlockBody::Nothing => out.extend_from_slice(b"no journey\n")?,
        BlockBody::Refused(fault) => {
            push_refusal(out, *fault)?;
            push_line_feed(out)?;
        }
    }
    Ok(())
}

/// The block of a query line: the line, a body, and the line `end`.
pub fn framed(alloc: Global, line: &[u8], body: &[u8]) -> Result<Vec<u8>, AllocError>
    ensures { IfOk result (λ block. block.items ≡ block_text line.now body.now) }
{
    let mut out = Vec::new(alloc);
    out.extend_from_slice(b"query ")?;
    out.extend_from_slice(line)?;
    push_line_feed(&mut out)?;
    out.extend_from_slice(body)?;
    out.extend_from_slice(b"end\n")?;
    Ok(out)
}

/// The block of a query line with what is answered.
pub fn block(
    alloc: Global,
    network: &Network,
    line: &[u8],
    body: &BlockBody,
) -> Result<Vec<u8>, AllocError>
    requires { IsPrintableBody network.now body.now }
    ensures { IfOk result (λ block. IsBlockText network.now line.now body.now block.items) }
{
    let mut text = Vec::new(alloc);
    push_body(alloc, &mut text, network, body)?;
    framed(alloc, line, &text)
}

/// The block of a line that is refused with this fault. A line that was not read, for want of memory, has none.
pub fn refused_block(
    alloc: Global,
    network: &Network,
    line: &[u8],
    fault: QueryFault,
) -> Result<Vec<u8>, AllocError>
    ensures { IfOk result (λ block. (fault ≢ OutOfMemory) × IsBlockText network.now line.now (Refused fault)
        block.items) }
{
    match fault {
        QueryFault::OutOfMemory => Err(AllocError),
        _ => block(alloc, network, line, &BlockBody::Refused(fault)),
    }
}
