//! The check of a late certificate.

ghost use Rattle.std.specs.Prelude.{◌≡◌, ◌<◌, ◌≤◌, ◌^◌, IfOk, IfSome};
ghost use Rattle.mode_expression.specs.Form.{form_of, IsUsable};
ghost use Rattle.journey.specs.Best.{Asked, Asks, asked_by};
ghost use Rattle.certificate.specs.declared.verdict.CertVerdict.TheVariants.{Valid};
ghost use Rattle.journey.specs.Ends.{HasTimes};
ghost use Rattle.certificate.specs.Checks.{IsSetUp};
ghost use Rattle.latest_departure.specs.Late.{first_moment};
ghost use Rattle.latest_departure.specs.Latest as late;
ghost use Rattle.latest_departure.specs.ValidLate.{ProvesLate, late_bound};
ghost use Rattle.mode_network.specs.NetworkLists.{NetworkLists};
ghost use Rattle.late_certificate.specs.Verdicts.{claim_on, HaveTimes, IsLateVerdict, IsResultVerdict};

use crate::late::LateCertificate;
use automaton::{Collapsed, Positions};
use certificate::CertVerdict;
use certificate::claimed::{Arrival, Goal, JourneyCheck};
use certificate::state_sets::StateSets;
use certificate::verifying::{as_verdict, refused};
use journey::{Query, read_query};
use kept_automata::Kept;
use latest_departure::{Backwards, LateSearch};
use mode_network::{Journey, Network};
use plan_base::Time;
use product_search::{Label, LabelClaim, check_labels};
use search_laws::Labels;
use std::alloc::{AllocError, Global};

/// Decides whether a late certificate is valid: the clauses are tried in turn, and the first that fails is answered at the
/// first place where it does.
///
/// Clause 1: the line is a query; at the number of its fault. There is no clause 2. Where a journey is claimed, 3: it starts
/// at a copy of the origin, not before the region's first date; at 0. 4: each step is one of the network; at the step. 5: its
/// last node is a copy of the destination, it arrives by the deadline, and the expression denotes its word; at 0, 1 and 2. 6 to
/// 9: those of [`LabelVerdict`](product_search::LabelVerdict), over the network in mirrored time and the automaton that reads
/// words from their ends, from the destination's copies at 0 back to those of the origin, before the moment of the departure,
/// or, where none is claimed, up to the region's first date.
///
/// Where it is valid, no journey of the network that is in time starts later than the one that is claimed, or none is in time.
/// Who made the certificate is not asked. All memory is taken before clause 3 is tried. All times of the certificate are below
/// 10^30.
///
/// # Errors
///
/// Where memory is refused.
pub fn verify_late(
    alloc: Global,
    network: &Network,
    certificate: &LateCertificate,
) -> Result<CertVerdict, AllocError>
    requires { HaveTimes certificate.now }
    ensures verdict { IfOk result (IsLateVerdict network.now certificate.now) }
    ensures proves { IfOk result (λ verdict. verdict ≡ Valid → ProvesLate network.now certificate.now) }
{
    match read_query(alloc, network, certificate.line.as_slice()) {
        Ok(query) => verify_claim(
            alloc,
            network,
            &query,
            &certificate.result,
            &certificate.labels,
        ),
        Err(fault) => refused(fault),
    }
}

/// The verdict on what is claimed of a query, by clauses 3 to 9.
fn verify_claim(
    alloc: Global,
    network: &Network,
    query: &Query,
    claimed: &Option<Journey>,
    labels: &[Label],
) -> Result<CertVerdict, AllocError>
    requires asks { Asks network.now query.now.line (asked_by query.now) }
    requires usable { IsUsable (form_of query.now.expr) }
    requires times { HaveTimes (claim_on query.now claimed.now labels.now) }
    ensures verdict { IfOk result (IsLateVerdict network.now (claim_on query.now claimed.now labels.now)) }
    ensures proves { IfOk result (λ verdict. verdict ≡ Valid
        → ProvesLate network.now (claim_on query.now claimed.now labels.now)) }
{
    network.known();
    network.days().known();
    let backwards = Backwards::new(alloc, network)?;
    let mut kept = Kept::new(alloc);
    let search = LateSearch::new(alloc, &mut kept, &backwards, query)?;
    let automaton = Collapsed::new(Positions::of(alloc, &query.expr)?);
    let check = JourneyCheck {
        network,
        query,
        labels: &automaton,
        origins: &search.targets,
        destinations: &search.starts,
        states: StateSets::start(alloc, &automaton)?,
    };
    if let CertVerdict::Invalid { clause, at } = result_verdict(check, claimed) {
        return Ok(CertVerdict::Invalid { clause, at });
    }
    backwards.known();
    let bound = late_bound(query.depart, search.span, claimed);
    let ends: &[u32] = &search.targets;
    let claim = LabelClaim {
        starts: &search.starts,
        targets: ends,
        departure: 0,
        arrival: Some(bound),
        list: labels,
    };
    let verdict = check_labels(
        &search.mirror,
        &search.expressed.made.machine.labels,
        &claim,
    );
    Ok(as_verdict(verdict))
}

/// Before which mirrored moment the labels are to tell all: that of the departure, or one past the region's first date.
fn late_bound(deadline: Time, span: Time, claimed: &Option<Journey>) -> Time
    requires span { span < 2 ^ 57 }
    requires in_time { IfSome claimed.now (λ j. j.at ≤ deadline) }
    ensures { (n : NetworkLists) (q : Asked) → q.depart ≡ deadline → late.span n q ≡ span
        → result ≡ late_bound n q claimed.now }
{
    match claimed {
        Some(journey) => deadline - journey.at,
        None => span + 1,
    }
}

/// The verdict by clauses 3 to 5; they are skipped where it is claimed that none is in time.
fn result_verdict<L: Labels>(check: JourneyCheck<'_, L>, claimed: &Option<Journey>) -> CertVerdict
    requires set_up { IsSetUp (L.automaton check.labels.now) check }
    requires times { IfSome claimed.now HasTimes }
    ensures { IsResultVerdict check.entry.network.now (asked_by check.entry.query.now) claimed.now result }
{
    match claimed {
        Some(journey) => {
            let goal = Goal {
                earliest: first_moment(check.network),
                arrival: Arrival::By(check.query.depart),
            };
            check.verdict(goal, journey)
        }
        None => CertVerdict::Valid,
    }
}

/// When the first date of a region begins: seven lead days stand before it.
fn first_moment(network: &Network) -> Time
    ensures { result ≡ first_moment network.now }
{
    let days = network.days();
    days.known();
    Time::from(days.base(7))
}
