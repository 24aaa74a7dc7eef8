//! The check of a certificate.

ghost use Rattle.std.specs.Prelude.{◌≡◌, ◌↔◌, ℕ, Some, IfOk, IfSome, IsTrue, is_some, option_map};
ghost use Rattle.mode_expression.specs.Form.{form_of, IsUsable};
ghost use Rattle.hierarchy.specs.Soundness.{IsSound};
ghost use Rattle.journey.specs.Best.{Asks, asked_by};
ghost use Rattle.certificate.specs.declared.verdict.CertVerdict.TheVariants.{Valid, Invalid};
ghost use Rattle.journey.specs.Ends.{HasTimes};
ghost use Rattle.journey.specs.Faults.{number_of};
ghost use Rattle.certificate.specs.Valid.{HaveTimes, Proves, claimed_arrival};
ghost use Rattle.certificate.specs.Verdicts.{claim_on, IsCertVerdict, IsResultVerdict, as_verdict};
ghost use Rattle.certificate.specs.Checks.{IsSetUp};

use crate::certificate::Certificate;
use crate::claimed::{Arrival, Goal, JourneyCheck};
use crate::state_sets::StateSets;
use crate::verdict::CertVerdict;
use automaton::{Collapsed, Positions};
use hierarchy::Hierarchy;
use journey::{Query, QueryFault, copies, read_query};
use mode_network::{Journey, Network};
use phase_graph::{GraphInUse, MarkTable, ends_in, starts_in};
use plan_base::Time;
use product_search::{Label, LabelClaim, LabelVerdict, check_labels};
use search_laws::Labels;
use std::alloc::{AllocError, Global};

/// Decides whether a certificate is valid: the clauses are tried in turn, and the first that fails is answered at the
/// first place where it does.
///
/// Clause 1: the line is a query; at the number of its fault. 2: the labels are of phases exactly where a hierarchy is
/// given; at 0. Where a journey is claimed, 3: it starts at a copy of the origin, at the departure or later; at 0. 4: each step is one of the
/// network; at the step. 5: its last node is a copy of the destination, it arrives as is claimed, and the expression
/// denotes its word; at 0, 1 and 2. 6 to 9: those of [`LabelVerdict`], over the network's graph, or, where a hierarchy is
/// given, over its phase graph for the copies of the destination.
///
/// Where it is valid, no journey of the network answers the query better than the one that is claimed, or at all where none
/// is. Who made the certificate, or the hierarchy, is not asked. All memory is taken before clause 3 is tried.
///
/// The hierarchy is sound for the network, and all times of the certificate are below 10^30.
///
/// # Errors
///
/// Where memory is refused.
pub fn verify(
    alloc: Global,
    network: &Network,
    hierarchy: Option<&Hierarchy>,
    certificate: &Certificate,
) -> Result<CertVerdict, AllocError>
    requires sound { IfSome hierarchy (λ h. IsSound network.now h.now) }
    requires times { HaveTimes certificate.now }
    ensures verdict { IfOk result (λ verdict. IsCertVerdict network.now
        (option_map (λ h. h.now) hierarchy.entry) certificate.now verdict) }
    ensures proves { IfOk result (λ verdict. verdict ≡ Valid → Proves network.now certificate.now) }
{
    match read_query(alloc, network, certificate.line.as_slice()) {
        Ok(_) if !names_graph(certificate.phases, hierarchy) => {
            Ok(CertVerdict::Invalid { clause: 2, at: 0 })
        }
        Ok(query) => verify_claim(
            alloc,
            network,
            hierarchy,
            &query,
            &certificate.result,
            &certificate.labels,
        ),
        Err(fault) => refused(fault),
    }
}

/// Whether labels are of phases exactly where a hierarchy is given.
fn names_graph(phases: bool, hierarchy: Option<&Hierarchy>) -> bool
    ensures { IsTrue result ↔ (phases ≡ is_some (option_map (λ h. h.now) hierarchy.entry)) }
{
    match hierarchy {
        None => !phases,
        Some(_) => phases,
    }
}

/// The verdict on a line that is refused with this fault, unless that is want of memory.
pub fn refused(fault: QueryFault) -> Result<CertVerdict, AllocError>
    ensures { IfOk result (λ verdict. (at : ℕ) × (number_of fault ≡ Some at) × (verdict ≡ Invalid 1 at)) }
{
    match fault.number() {
        Some(at) => Ok(CertVerdict::Invalid { clause: 1, at }),
        None => Err(AllocError),
    }
}

/// The verdict on what is claimed of a query, by clauses 3 to 9.
fn verify_claim(
    alloc: Global,
    network: &Network,
    hierarchy: Option<&Hierarchy>,
    query: &Query,
    claimed: &Option<(Time, Journey)>,
    labels: &[Label],
) -> Result<CertVerdict, AllocError>
    requires sound { IfSome hierarchy (λ h. IsSound network.now h.now) }
    requires asks { Asks network.now query.now.line (asked_by query.now) }
    requires usable { IsUsable (form_of query.now.expr) }
    requires times { HaveTimes (claim_on query.now (option_map (λ h. h.now) hierarchy) claimed.now
        labels.now) }
    ensures verdict { IfOk result (λ verdict. IsCertVerdict network.now
        (option_map (λ h. h.now) hierarchy.entry) (claim_on query.now
        (option_map (λ h. h.now) hierarchy.entry) claimed.now labels.now) verdict) }
    ensures proves { IfOk result (λ verdict. verdict ≡ Valid
        → Proves network.now (claim_on query.now (option_map (λ h. h.now) hierarchy.entry) claimed.now
        labels.now)) }
{
    network.known();
    let automaton = Collapsed::new(Positions::of(alloc, &query.expr)?);
    let origins = copies(alloc, network, &query.from)?;
    let targets = copies(alloc, network, &query.to)?;
    let mut marks = MarkTable::new(alloc);
    let graph = GraphInUse::new(alloc, &mut marks, network, hierarchy, &targets)?;
    let starts = starts_in(alloc, hierarchy, &origins)?;
    let ends = ends_in(alloc, hierarchy, &targets)?;
    let check = JourneyCheck {
        network,
        query,
        labels: &automaton,
        origins: &origins,
        destinations: &targets,
        states: StateSets::start(alloc, &automaton)?,
    };
    if let CertVerdict::Invalid { clause, at } = result_verdict(check, claimed) {
        return Ok(CertVerdict::Invalid { clause, at });
    }
    let claim = LabelClaim {
        starts: &starts,
        targets: &ends,
        departure: query.depart,
        arrival: claimed_arrival(claimed),
        list: labels,
    };
    let verdict = check_labels(&graph, &automaton, &claim);
    Ok(as_verdict(verdict))
}

/// The verdict by clauses 3 to 5; they are skipped where it is claimed that no journey answers.
fn result_verdict<L: Labels>(
    check: JourneyCheck<'_, L>,
    claimed: &Option<(Time, Journey)>,
) -> CertVerdict
    requires set_up { IsSetUp (L.automaton check.labels.now) check }
    requires times { IfSome claimed.now (λ claimed. HasTimes claimed.1) }
    ensures { IsResultVerdict check.entry.network.now (asked_by check.entry.query.now) claimed.now result }
{
    match claimed {
        Some((arrival, journey)) => {
            let goal = Goal {
                earliest: check.query.depart,
                arrival: Arrival::At(*arrival),
            };
            check.verdict(goal, journey)
        }
        None => CertVerdict::Valid,
    }
}

/// The arrival that is claimed, if a journey is.
fn claimed_arrival(claimed: &Option<(Time, Journey)>) -> Option<Time>
    ensures { result ≡ claimed_arrival claimed.now }
{
    match claimed {
        Some((arrival, _)) => Some(*arrival),
        None => None,
    }
}

/// A verdict on labels as one on their certificate.
pub fn as_verdict(verdict: LabelVerdict) -> CertVerdict
    ensures { result ≡ as_verdict verdict }
{
    match verdict {
        LabelVerdict::Closed => CertVerdict::Valid,
        LabelVerdict::Open { clause, at } => CertVerdict::Invalid { clause, at },
    }
}
