//! The check of a journey that is claimed.

ghost use Rattle.std.specs.Prelude.{◌≤◌, ◌↔◌, ℕ, List, Contains, IsTrue};
ghost use Rattle.search_laws.specs.LabelLaws.{Accepts};
ghost use Rattle.journey.specs.Best.{asked_by};
ghost use Rattle.journey.specs.Ends.{HasTimes};
ghost use Rattle.certificate.specs.Claimed.{IsClaimVerdict, IsFirstFailing, IsTimely};
ghost use Rattle.certificate.specs.Checks.{IsSetUp};
ghost use Rattle.certificate.specs.StateSets.{AreAfter};

use crate::state_sets::StateSets;
use crate::verdict::CertVerdict;
use crate::walked::{Walked, walk};
use journey::Query;
use mode_network::{Journey, Network};
use plan_base::Time;
use search_laws::Labels;

/// When a journey is claimed to arrive.
#[derive(Clone, Copy, Debug, PartialEq, Eq)]
pub enum Arrival {
    /// At this time.
    At(Time),
    /// By this time.
    By(Time),
}

/// When a journey is claimed to start, at the earliest, and to arrive.
#[derive(Clone, Copy, Debug, PartialEq, Eq)]
pub struct Goal {
    pub earliest: Time,
    pub arrival: Arrival,
}

/// What a journey that is claimed of a query is checked by.
#[derive(Drop)]
pub struct JourneyCheck<'a, L: Labels> {
    pub network: &'a Network,
    pub query: &'a Query,
    /// The automaton of the query's expression.
    pub labels: &'a L,
    /// The copies of the query's origin.
    pub origins: &'a [u32],
    /// The copies of its destination.
    pub destinations: &'a [u32],
    /// The states in which the automaton starts.
    pub states: StateSets,
}

impl<'a, L: Labels> JourneyCheck<'a, L> {
    /// The verdict on a journey that is claimed, by clauses 3 to 5: it starts at one of the origins, no earlier than is
    /// claimed; each step is one of the network; it ends at one of the destinations, arrives as is claimed, and has a
    /// word that is denoted.
    pub fn verdict(self, goal: Goal, journey: &Journey) -> CertVerdict
        requires set_up { IsSetUp (L.automaton self.labels.now) self }
        requires times { HasTimes journey.now }
        ensures { IsClaimVerdict self.entry.network.now (asked_by self.entry.query.now) goal
            journey.now result }
    {
        if !starts_well(goal.earliest, self.origins, journey) {
            return CertVerdict::Invalid { clause: 3, at: 0 };
        }
        match walk(self.network, self.labels, journey, self.states) {
            Ok(walked) => {
                match first_bad_end(self.labels, self.destinations, goal.arrival, &walked) {
                    Some(at) => CertVerdict::Invalid { clause: 5, at },
                    None => CertVerdict::Valid,
                }
            }
            Err(at) => CertVerdict::Invalid { clause: 4, at },
        }
    }
}

/// Whether a journey starts at one of the nodes, no earlier than this.
fn starts_well(earliest: Time, origins: &[u32], journey: &Journey) -> bool
    ensures { IsTrue result ↔ (Contains origins.now journey.now.start × (earliest ≤ journey.now.at)) }
{
    contains(origins, journey.start) && earliest <= journey.at
}

/// Whether one who arrives then arrives as is claimed.
fn is_timely(arrival: Arrival, at: Time) -> bool
    ensures { IsTrue result ↔ IsTimely arrival at }
{
    match arrival {
        Arrival::At(arrival) => at == arrival,
        Arrival::By(deadline) => at <= deadline,
    }
}

/// The place of the first that fails of a journey that was walked: it ends at a destination, it arrives as is claimed, and the
/// automaton accepts its letters.
fn first_bad_end<L: Labels>(
    labels: &L,
    destinations: &[u32],
    arrival: Arrival,
    walked: &Walked,
) -> Option<u64>
    requires { (letters : List ℕ) × AreAfter (L.automaton labels.now) letters walked.now.states }
    ensures { (letters : List ℕ) → AreAfter (L.automaton labels.now) letters walked.now.states
        → IsFirstFailing (Contains destinations.now walked.now.node) (IsTimely arrival walked.now.at)
        (Accepts (L.automaton labels.now) letters) result }
{
    if !contains(destinations, walked.node) {
        Some(0)
    } else if !is_timely(arrival, walked.at) {
        Some(1)
    } else if !walked.states.accepts(labels) {
        Some(2)
    } else {
        None
    }
}

/// Whether a list of nodes has the node.
fn contains(nodes: &[u32], node: u32) -> bool
    ensures { IsTrue result ↔ Contains nodes.now node }
{
    nodes.contains(&node)
}
