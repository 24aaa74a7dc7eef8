//! A network in which nobody waits for a ride, and each ride takes as long as it does at least.

ghost use Rattle.std.specs.Prelude.{◌≡◌, ◌&&◌, nat_lt, IfOk};
ghost use Rattle.search_laws.specs.GraphLaws.{IsLawfulGraph};
ghost use Rattle.plain_graph.specs.Lawful.{IsLawfulGraph-prop};
ghost use Rattle.departures.specs.Fastest.{NoneIsFaster};
ghost use Rattle.departures.specs.inside.LeastLaws.{NoneIsFaster-prop};
ghost use Rattle.departures.specs.LeastArcs.{least_meaning};

use crate::fastest::{FastestCall, FastestRun, fastest_call, fastest_runs, ms_to};
use mode_network::Network;
use plain_graph::{Plain, PlainArc};
use search_laws::{GivenRuns, Graph, GraphArc, Steady, Time, Visit, Way, is_open, moving_letters};
use std::alloc::{AllocError, Global};
use timetable_arcs::{Call, Ride};

/// The network as a graph whose walks take no longer than journeys do: its arcs are those of [`Plain`], but a ride begins at once and
/// takes as long as the fastest run of its pattern. What it needs is found once for all lines.
#[derive(Drop)]
pub struct LeastTimes<'a> {
    pub(crate) plain: Plain<'a>,
    runs: Vec<FastestRun>,
    ghost fastest: { NoneIsFaster plain.timetable.now runs.items } by { NoneIsFaster-prop plain.timetable.now runs.items },
    ghost lawful: { IsLawfulGraph (least_meaning plain.network.now plain.timetable.now runs.items) } by { IsLawfulGraph-prop _ },
}

impl<'a> LeastTimes<'a> {
    ghost use Rattle.std.specs.Prelude.{◌≡◌, ◌<◌, ◌≤◌, ◌-◌, ◌^◌, ◌++◌, ◌+◌, [], ℕ, length, slice_index_or, Some, IfOk, OnOk};
    ghost use Rattle.search_laws.specs.Ways.{ways_from};
    ghost use Rattle.timetable_arcs.specs.Table.{IsTable};
    ghost use Rattle.plain_graph.specs.PlainArcs.{graph_arc, plain_arc};
    ghost use Rattle.plain_graph.specs.declared.plain.PlainArc.TheVariants as plain_arcs;
    ghost use Rattle.plain_graph.specs.Rides.{IsRideOf, IsKnownRide};
    ghost use Rattle.departures.specs.Fastest.{least_ms};
    ghost use Rattle.mode_network.specs.NetworkLists.{stop_node};
    ghost use Rattle.departures.specs.LeastArcs.{least_meaning};
    ghost use Rattle.departures.specs.inside.BoardRides.{AddsAlike, ends_from, least_ways};

    /// How long the rides of a network take at least. Fails where memory runs out.
    pub fn new(alloc: Global, network: &'a Network) -> Result<LeastTimes<'a>, AllocError>
        ensures { IfOk result (λ least. least.plain.network.now ≡ network.now) }
    {
        let plain = Plain::new(network);
        let runs = fastest_runs(alloc, plain.timetable())?;
        Ok(LeastTimes { plain, runs })
    }

    /// Its timetable keeps the rules.
    pub(crate) fn known(&self)
        ensures { IsTable self.now.plain.timetable.now }
    {
        self.plain.timetable();
    }

    /// The network.
    pub fn network(&self) -> &'a Network
        ensures { result.now ≡ self.now.plain.network.now }
    {
        self.plain.network()
    }

    /// How many milliseconds a ride takes at least.
    fn ride_ms(&self, ride: Ride) -> u64
        ensures value { result ≡ least_ms self.now.runs.items ride }
        ensures small { result < 2 ^ 42 }
    {
        match self.runs.get(ride.pattern as usize) {
            Some(run) => run.ride_ms(ride.board, ride.alight),
            None => 0,
        }
    }

    /// Where a ride leads, and its letter.
    fn ride_arc(&self, ride: Ride) -> GraphArc
        requires { IsRideOf self.now.plain.timetable.now ride }
        ensures { result ≡ graph_arc self.now.plain.network.now self.now.plain.timetable.now 0
            (plain_arcs.Ride ride) }
    {
        let timetable = self.plain.timetable();
        let stop = timetable.pattern_calls(ride.pattern)[ride.alight as usize].stop;
        GraphArc {
            to: self.plain.network().stop_node(stop),
            letter: Some(timetable.pattern_letter(ride.pattern)),
        }
    }

    /// This arc, which is the one at a place of `v`, and when it arrives.
    fn way(&self, v: u32, place: u64, arc: PlainArc, t: Time) -> Way
        requires arc { arc ≡ plain_arc self.now.plain.network.now self.now.plain.timetable.now v place }
        requires ride { IsKnownRide self.now.plain.timetable.now arc }
        requires time { t < 2 ^ 127 }
        ensures place { result.place ≡ place }
        ensures arc { result.arc ≡ (least_meaning self.now.plain.network.now self.now.plain.timetable.now
            self.now.runs.items).arc_at v place }
        ensures arrives { Some result.at ≡ (least_meaning self.now.plain.network.now
            self.now.plain.timetable.now self.now.runs.items).arrive v place t }
    {
        let mode = self.plain.network().letter(v);
        let (to, letter, at) = match arc {
            PlainArc::Road(arc) => (arc.to, mode, t + Time::from(arc.ms)),
            PlainArc::Link(link) => (link.to, None, t + Time::from(link.ms)),
            PlainArc::Stand => (v, mode, t),
            PlainArc::Ride(ride) => {
                let arc = self.ride_arc(ride);
                (arc.to, arc.letter, t + Time::from(self.ride_ms(ride)))
            }
        };
        Way {
            place,
            arc: GraphArc { to, letter },
            at,
        }
    }

    /// Appends the arcs from a place of the node of a visit up to another, which have one letter, or none, if the visit asks for
    /// that.
    fn push_alike(
        &self,
        visit: Visit,
        first: u64,
        past: u64,
        ways: &mut Vec<Way>,
    ) -> Result<(), AllocError>
        requires node { visit.node < (least_meaning self.now.plain.network.now self.now.plain.timetable.now
            self.now.runs.items).nodes }
        requires some { first < past }
        requires within { past ≤ (least_meaning self.now.plain.network.now self.now.plain.timetable.now
            self.now.runs.items).arcs visit.node }
        requires time { visit.at < 2 ^ 127 }
        requires alike { (k : ℕ) → first ≤ k → k < past → ((least_meaning self.now.plain.network.now
            self.now.plain.timetable.now self.now.runs.items).arc_at visit.node k).letter
            ≡ ((least_meaning self.now.plain.network.now self.now.plain.timetable.now
            self.now.runs.items).arc_at visit.node first).letter }
        ensures { OnOk result (ways.new.items ≡ ways.old.items ++ ways_from
            (least_meaning self.now.plain.network.now self.now.plain.timetable.now self.now.runs.items)
            visit.node visit.at visit.letters first (past - first)) }
    {
        if is_open(visit.letters, self.plain.arc_at(visit.node, first).letter) {
            let mut place = first;
            while place < past {
                place = self.push_next(visit.node, place, past, visit.at, ways)?;
            }
        }
        Ok(())
    }

    /// Appends the arc at a place of `v`, or where that is a ride, those from the same board that stand from there
    /// on before the place `past`. Answers the place of the next arc.
    fn push_next(
        &self,
        v: u32,
        place: u64,
        past: u64,
        t: Time,
        ways: &mut Vec<Way>,
    ) -> Result<u64, AllocError>
        requires node { v < (least_meaning self.now.plain.network.now self.now.plain.timetable.now
            self.now.runs.items).nodes }
        requires some { place < past }
        requires within { past ≤ (least_meaning self.now.plain.network.now self.now.plain.timetable.now
            self.now.runs.items).arcs v }
        requires time { t < 2 ^ 127 }
        ensures later { IfOk result (λ next. place < next) }
        ensures within { IfOk result (λ next. next ≤ past) }
        ensures ways { IfOk result (λ next. AddsAlike
            (least_meaning self.now.plain.network.now self.now.plain.timetable.now self.now.runs.items)
            v t place next ways.old.items ways.new.items) }
    {
        self.known();
        match self.plain.plain_arc(v, place) {
            PlainArc::Ride(ride) => self.push_rides(ride, place, past, t, ways),
            arc => {
                ways.push(self.way(v, place, arc, t))?;
                Ok(place + 1)
            }
        }
    }

    /// Appends the rides from where this one begins to where it ends and to each later call at which one may
    /// alight, as the arcs from a place on before the place `past`. Answers the place of the next arc.
    fn push_rides(
        &self,
        ride: Ride,
        first: u64,
        past: u64,
        t: Time,
        ways: &mut Vec<Way>,
    ) -> Result<u64, AllocError>
        requires ride { IsRideOf self.now.plain.timetable.now ride }
        requires some { first < past }
        requires time { t < 2 ^ 127 }
        ensures next { IfOk result (λ next. next ≡ first
            + length (ends_from self.now.plain.timetable.now ride.pattern ride.alight (past - first))) }
        ensures ways { OnOk result (ways.new.items ≡ ways.old.items
            ++ least_ways self.now.plain.network.now self.now.plain.timetable.now self.now.runs.items
            t ride first (ends_from self.now.plain.timetable.now ride.pattern ride.alight (past - first))) }
    {
        let timetable = self.plain.timetable();
        let calls = timetable.pattern_calls(ride.pattern);
        let letter = timetable.pattern_letter(ride.pattern);
        let run = self.fastest(ride.pattern);
        let depart = fastest_call(run, ride.board).depart;
        let mut place = first;
        for alight in ride.alight as usize..calls.len() {
            if ends_before(&calls[alight], place, past) {
                let to = Ride {
                    pattern: ride.pattern,
                    board: ride.board,
                    alight: alight as u32,
                };
                let at = t + Time::from(ms_to(run, depart, to.alight));
                ways.push(self.ride_way(calls[alight].stop, letter, place, at))?;
                place += 1;
            }
        }
        Ok(place)
    }

    /// A ride to this stop that arrives then, as the arc at a place.
    fn ride_way(&self, stop: u32, letter: u8, place: u64, at: Time) -> Way
        requires { stop < length self.now.plain.network.now.stop_names }
        ensures { result ≡ record {
          place = place;
          arc = record { to = stop_node self.now.plain.network.now stop; letter = Some letter };
          at = at;
        } }
    {
        Way {
            place,
            arc: GraphArc {
                to: self.plain.network().stop_node(stop),
                letter: Some(letter),
            },
            at,
        }
    }

    /// The calls of the fastest run of a pattern; none where there is no such pattern.
    fn fastest(&self, pattern: u32) -> &[FastestCall]
        ensures { result.now ≡ slice_index_or self.now.runs.items pattern [] }
    {
        match self.runs.get(pattern as usize) {
            Some(run) => run.calls(),
            None => &[],
        }
    }
}

/// Whether one may alight at a call, and the ride to it is an arc at a place before `past`.
fn ends_before(call: &Call, place: u64, past: u64) -> bool
    ensures { result ≡ call.now.alight && nat_lt place past }
{
    call.alight && place < past
}

impl Graph for LeastTimes<'_> {
    ghost use Rattle.plain_graph.specs.PlainArcs.{count_from};
    ghost use Rattle.departures.specs.LeastArcs.{least_meaning};

    ghost meaning = { λ g. least_meaning g.plain.network.now g.plain.timetable.now g.runs.items };

    fn nodes(&self) -> u32 {
        self.plain.nodes()
    }

    fn arcs(&self, v: u32) -> u64 {
        self.plain.arcs(v)
    }

    fn arc_at(&self, v: u32, i: u64) -> GraphArc {
        self.plain.arc_at(v, i)
    }

    fn arrive(&self, v: u32, i: u64, t: Time) -> Option<Time> {
        match self.plain.plain_arc(v, i) {
            PlainArc::Road(arc) | PlainArc::Link(arc) => Some(t + Time::from(arc.ms)),
            PlainArc::Stand => Some(t),
            PlainArc::Ride(ride) => Some(t + Time::from(self.ride_ms(ride))),
        }
    }

    ghost steady_count = { λ g v. count_from g.plain.network.now.arcs v };

    #[inline(always)]
    fn steady(&self, v: u32) -> Steady<'_> {
        self.plain.steady(v)
    }

    fn fresh_ways(
        &self,
        visit: Visit,
        given: &mut GivenRuns,
        ways: &mut Vec<Way>,
    ) -> Result<(), AllocError> {
        let _ = given.cells.len();
        let letter = self.plain.network().letter(visit.node);
        let letters = moving_letters(visit.letters, visit.leaving, letter);
        let moving = Visit { letters, ..visit };
        let arcs = self.plain.arcs(visit.node);
        let mut first = self.plain.steady(visit.node).legs.len() as u64;
        while first < arcs {
            let past = self.plain.past_letter(visit.node, first);
            self.push_alike(moving, first, past, ways)?;
            first = past;
        }
        Ok(())
    }

    ghost lawful = { λ g. g.lawful };
}
