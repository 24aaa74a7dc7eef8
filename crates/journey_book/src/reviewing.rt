//! What a region does to the journeys that are kept.

ghost use Rattle.std.specs.Prelude.{◌≡◌, ◌^◌, ◌<◌, ◌++◌, IfSome, OnOk};
ghost use Rattle.service_days.specs.Clock.{clock_text_of};
ghost use Rattle.search_laws.specs.Times.{time_bound};
ghost use Rattle.journey.specs.Best.{Asked, IsBest, asked_by};
ghost use Rattle.journey.specs.Blocks.{AddsText, IsPrintable};
ghost use Rattle.journey.specs.Ends.{HasTimes};
ghost use Rattle.certificate.specs.Valid.{HaveTimes};
ghost use Rattle.planning.specs.Plans.{IsRead};
ghost use Rattle.journey_book.specs.Reviews.{IsAnswered, IsReviewed, arrival_words, beside, is_no_later, nothing_words};
ghost use Rattle.journey_book.specs.Rules.{MayReport};

use crate::reports::Report;
use certificate::Certificate;
use journey::{Query, QueryFault, ends, push_refusal, read_query};
use mode_network::{Journey, Network};
use plan_base::Time;
use planning::{BestPlan, Room, find_best};
use std::alloc::{AllocError, Global};

/// Answers the query of a certificate anew in the network, over the hierarchy, if there is one, and says whether its journey
/// arrives as is kept: `same`, `earlier CLOCK`, `later CLOCK`, `none` where there is none any more, `found CLOCK` where there was none; or how the query
/// is refused.
pub(crate) fn push_reviewed(
    alloc: Global,
    room: &mut Room,
    report: &Report<'_>,
    certificate: &Certificate,
    text: &mut Vec<u8>,
) -> Result<(), AllocError>
    requires may { MayReport report.now }
    requires times { HaveTimes certificate.now }
    ensures { OnOk result (AddsText (IsReviewed report.now.network.now certificate.now)
        text.old.items text.new.items) }
{
    match read_query(alloc, report.network, certificate.line.as_slice()) {
        Ok(query) => push_answer(alloc, room, report, &query, &certificate.result, text),
        Err(QueryFault::OutOfMemory) => Err(AllocError),
        Err(fault) => push_refusal(text, fault),
    }
}

/// Whether a line says `same`, `earlier` or `found`.
pub(crate) fn is_no_later(words: &[u8]) -> bool
    ensures { result ≡ is_no_later words.now }
{
    words == b"same".as_slice() || words.starts_with(b"earlier ") || words.starts_with(b"found ")
}

/// What is said of a kept result whose query asks this.
fn push_answer(
    alloc: Global,
    room: &mut Room,
    report: &Report<'_>,
    query: &Query,
    kept: &Option<(Time, Journey)>,
    text: &mut Vec<u8>,
) -> Result<(), AllocError>
    requires may { MayReport report.now }
    requires read { IsRead report.now.network.now query.now }
    requires times { IfSome kept.now (λ kept. (kept.0 < time_bound) × HasTimes kept.1) }
    ensures { OnOk result (AddsText (IsAnswered report.now.network.now kept.now (asked_by query.now))
        text.old.items text.new.items) }
{
    let network = report.network;
    let BestPlan { journey, .. } = find_best(alloc, room, network, report.hierarchy, query)?;
    match journey {
        Some(journey) => {
            let arrival = arrival_of(network, &journey);
            push_arrival(network, query.depart, arrival, kept, text)
        }
        None => push_nothing(kept, text),
    }
}

/// When a journey arrives.
fn arrival_of(network: &Network, journey: &Journey) -> Time
    requires { IsPrintable network.now journey.now }
    ensures { (q : Asked) (best : IsBest network.now q journey.now) → best.arrival ≡ result }
{
    network.known();
    let (_, arrival) = ends(network, journey);
    arrival
}

/// What is said where no journey answers.
fn push_nothing(kept: &Option<(Time, Journey)>, text: &mut Vec<u8>) -> Result<(), AllocError>
    ensures { OnOk result (text.new.items ≡ text.old.items ++ nothing_words kept.now) }
{
    match kept {
        Some(_) => text.extend_from_slice(b"none"),
        None => text.extend_from_slice(b"same"),
    }
}

/// What is said where a best journey arrives then.
fn push_arrival(
    network: &Network,
    depart: Time,
    arrival: Time,
    kept: &Option<(Time, Journey)>,
    text: &mut Vec<u8>,
) -> Result<(), AllocError>
    requires depart { depart < 2 ^ 64 }
    requires times { IfSome kept.now (λ kept. (kept.0 < time_bound) × HasTimes kept.1) }
    ensures { OnOk result (text.new.items ≡ text.old.items ++ arrival_words network.now depart arrival
        kept.now) }
{
    match kept {
        Some((at, journey)) => {
            let kept = depart + at.saturating_sub(journey.at);
            push_beside(network, arrival, kept, text)
        }
        None => push_clock(network, b"found ", arrival, text),
    }
}

/// An arrival beside the one that is kept.
fn push_beside(
    network: &Network,
    arrival: Time,
    kept: Time,
    text: &mut Vec<u8>,
) -> Result<(), AllocError>
    ensures { OnOk result (text.new.items ≡ text.old.items ++ beside network.now arrival kept) }
{
    if arrival == kept {
        text.extend_from_slice(b"same")
    } else if arrival < kept {
        push_clock(network, b"earlier ", arrival, text)
    } else {
        push_clock(network, b"later ", arrival, text)
    }
}

/// A word and a clock text.
fn push_clock(
    network: &Network,
    word: &[u8],
    at: Time,
    text: &mut Vec<u8>,
) -> Result<(), AllocError>
    ensures { OnOk result (text.new.items ≡ text.old.items ++
        (word.now ++ clock_text_of network.now.days at)) }
{
    text.extend_from_slice(word)?;
    network.days().push_clock(text, at)
}
