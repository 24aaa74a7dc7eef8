//! A network as a graph.

ghost use Rattle.std.specs.Prelude.{◌≡◌, ◌<◌, ◌+◌, ◌^◌, ◌++◌, ◌∷◌, OnOk, IfOk, length};
ghost use Rattle.timetable_arcs.specs.Rides.{rides_at};
ghost use Rattle.timetable_arcs.specs.RideTables.{rides_end};
ghost use Rattle.search_laws.specs.GraphLaws.{IsLawfulGraph};
ghost use Rattle.mode_network.specs.NetworkLists.{nodes_of};
ghost use Rattle.mode_network.specs.Rules.{IsNetwork, IsNetwork-prop};
ghost use Rattle.mode_network.specs.Timetables.{IsTimetableOf, IsTimetableOf-prop};
ghost use Rattle.plain_graph.specs.PlainArcs.{plain_meaning};
ghost use Rattle.plain_graph.specs.Rides.{IsPastBoard};
ghost use Rattle.plain_graph.specs.Lawful.{IsLawfulGraph-prop};

use mode_network::{Arc, Network};
use search_laws::{
    GivenRun, GivenRuns, Graph, GraphArc, Steady, Time, Visit, Way, is_open, moving_letters,
};
use std::alloc::AllocError;
use timetable_arcs::{Board, Call, PlacedRun, Ride, Timetable};

/// An arc out of a node of the graph.
#[derive(Clone, Copy, Debug, PartialEq, Eq)]
pub enum PlainArc {
    /// A road arc, in the mode of its layer.
    Road(Arc),
    /// A link, which has no letter.
    Link(Arc),
    /// A leg of length zero at a road node, in the mode of its layer.
    Stand,
    /// A ride from a stop, on the next run of its pattern.
    Ride(Ride),
}

/// The network as a graph: its road arcs, its links, at each road node an arc that stands, and at each stop the
/// rides that begin there.
#[derive(Clone, Copy)]
pub struct Plain<'a> {
    network: &'a Network,
    timetable: &'a Timetable,
    pub ghost kept: { IsNetwork network.now } by { IsNetwork-prop network.now },
    pub ghost of: { IsTimetableOf network.now timetable.now } by { IsTimetableOf-prop _ _ },
    pub ghost lawful: { IsLawfulGraph (plain_meaning network.now timetable.now) } by { IsLawfulGraph-prop _ },
}

/// A board of a stop, and the place of its first ride among the arcs out of the stop.
#[derive(Clone, Copy)]
struct PlacedBoard {
    board: Board,
    first: u64,
}

impl<'a> Plain<'a> {
    ghost use Rattle.std.specs.Prelude.{◌≡◌, ℕ, ◌<◌, ◌+◌, ◌^◌, ◌++◌, ◌∷◌, [], All, OnOk, IfOk, IfSome, IsTrue, length, Some, option_map, slice_get, if◌then◌else◌};
    ghost use Rattle.timetable_arcs.specs.Rides.{boards_at};
    ghost use Rattle.timetable_arcs.proofs.RideLemmas.{IsBoardOf};
    ghost use Rattle.search_laws.specs.Ways.{ways_from};
    ghost use Rattle.search_laws.specs.Fresh.{AddsFresh};
    ghost use Rattle.plain_graph.specs.BoardWays.{call_way, day_ways, run_ways, open_run, board_ways, boards_ways, plain_rides};
    ghost use Rattle.timetable_arcs.specs.Patterns.{runs_of, pattern_trip, arrives};
    ghost use Rattle.timetable_arcs.specs.Table.{IsTable};
    ghost use Rattle.plain_graph.specs.Rides.{IsRideOf, IsKnownRide};
    ghost use Rattle.mode_network.specs.NetworkLists.{nodes_of, stop_node, letter_at};
    ghost use Rattle.mode_network.specs.Timetables.{IsTimetableOf};
    ghost use Rattle.plain_graph.specs.PlainArcs.{plain_meaning, count_from, plain_arc, inner_arc, arcs_at, inner_arcs_at, rides_of, ride_of, run_at, pattern_call};
    ghost use Rattle.plain_graph.specs.Simulation.{WalksAreJourneys, JourneysAreWalks, ArcsAreSteps, StepsAreArcs};

    /// The graph of a network. Its walks are the network's journeys, and conversely, with the same ends, times
    /// and letters. An arc that is taken arrives when some step does that is taken then, and for each step but a wait
    /// an arc that is taken then or earlier arrives no later.
    pub fn new(network: &'a Network) -> Plain<'a>
        ensures network { result.network.now ≡ network.now }
        ensures of { IsTimetableOf network.now result.timetable.now }
        ensures keeps { IsTable result.timetable.now }
        ensures walks { WalksAreJourneys network.now result.timetable.now }
        ensures journeys { JourneysAreWalks network.now result.timetable.now }
        ensures arcs { ArcsAreSteps network.now result.timetable.now }
        ensures steps { StepsAreArcs network.now result.timetable.now }
    {
        network.known();
        let timetable = network.timetable();
        Plain { network, timetable }
    }

    /// The network.
    pub fn network(&self) -> &'a Network
        ensures { result.now ≡ self.now.network.now }
    {
        self.network
    }

    /// The network's timetable.
    pub fn timetable(&self) -> &'a Timetable
        ensures same { result.now ≡ self.now.timetable.now }
        ensures keeps { IsTable result.now }
    {
        self.timetable.known();
        self.timetable
    }

    /// The arc at this place of those out of `v`: first come the road arcs and then the links, in the
    /// network's order, and then the one that stands, or the rides in the timetable's order.
    pub fn plain_arc(&self, v: u32, i: u64) -> PlainArc
        requires node { v < length (nodes_of self.now.network.now) }
        requires arc { i < arcs_at self.now.network.now self.now.timetable.now v }
        ensures value { result ≡ plain_arc self.now.network.now self.now.timetable.now v i }
        ensures ride { IsKnownRide self.now.timetable.now result }
    {
        let (first_arc, past_arc) = self.network.arcs_from(v);
        let (first_link, past_link) = self.network.links_from(v);
        let arcs = (past_arc - first_arc) as u64;
        let links = (past_link - first_link) as u64;
        if i < arcs {
            PlainArc::Road(self.network.arcs()[first_arc as usize + i as usize])
        } else if i - arcs < links {
            PlainArc::Link(self.network.links()[first_link as usize + (i - arcs) as usize])
        } else {
            self.inner_arc(v, i - arcs - links)
        }
    }

    /// The arc at this place of those out of `v` that are neither road arcs nor links.
    fn inner_arc(&self, v: u32, i: u64) -> PlainArc
        requires node { v < length (nodes_of self.now.network.now) }
        requires arc { i < inner_arcs_at self.now.network.now self.now.timetable.now v }
        ensures value { result ≡ inner_arc self.now.network.now self.now.timetable.now v i }
        ensures ride { IsKnownRide self.now.timetable.now result }
    {
        self.timetable.known();
        match (self.network.letter(v), self.network.stop_at(v)) {
            (None, Some(stop)) => PlainArc::Ride(self.timetable.ride(stop, i)),
            _ => PlainArc::Stand,
        }
    }

    /// The pattern of a ride, and its calls at which the ride begins and ends; None exactly where the arc is no ride.
    pub fn ride(&self, v: u32, i: u64) -> Option<(u32, u32, u32)>
        requires node { v < length (nodes_of self.now.network.now) }
        requires arc { i < arcs_at self.now.network.now self.now.timetable.now v }
        ensures { result ≡ ride_of (plain_arc self.now.network.now self.now.timetable.now v i) }
    {
        match self.plain_arc(v, i) {
            PlainArc::Ride(ride) => Some((ride.pattern, ride.board, ride.alight)),
            _ => None,
        }
    }

    /// How many rides begin at `v`.
    fn rides(&self, v: u32) -> u64
        ensures value { result ≡ length (rides_of self.now.network.now self.now.timetable.now v) }
        ensures few { result < 2 ^ 63 }
    {
        match self.network.stop_at(v) {
            Some(stop) => rides_at(self.timetable, stop),
            None => 0,
        }
    }

    /// Where a ride leads, and its letter.
    fn ride_arc(&self, ride: Ride) -> GraphArc
        requires { IsRideOf self.now.timetable.now ride }
        ensures to { result.to ≡ stop_node self.now.network.now
            (pattern_call self.now.timetable.now ride.pattern ride.alight).stop }
        ensures letter { result.letter ≡ Some (pattern_trip self.now.timetable.now ride.pattern).letter }
    {
        self.timetable.known();
        let stop = self.timetable.pattern_calls(ride.pattern)[ride.alight as usize].stop;
        GraphArc {
            to: self.network.stop_node(stop),
            letter: Some(self.timetable.pattern_letter(ride.pattern)),
        }
    }

    /// When a ride arrives that is taken at `t`.
    fn ride_arrival(&self, ride: Ride, t: Time) -> Option<Time>
        requires { IsRideOf self.now.timetable.now ride }
        ensures { result ≡ option_map (λ run. arrives self.now.timetable.now run ride.alight)
            (run_at self.now.timetable.now t ride) }
    {
        self.timetable.known();
        let run = self.timetable.next(ride.pattern, ride.board, t)?;
        let (arrival, _) = self.timetable.at(run.trip, run.day, ride.alight);
        Some(arrival)
    }

    /// Appends the ride to a call of a run, if one may alight there, and answers the place of the next ride.
    fn push_call(
        &self,
        call: Call,
        letter: u8,
        base: Time,
        place: u64,
        ways: &mut Vec<Way>,
    ) -> Result<u64, AllocError>
        requires stop { call.stop < length self.now.network.now.stop_names }
        requires base { base < 2 ^ 40 }
        requires place { place + 1 < 2 ^ 64 }
        ensures next { IfOk result (λ next. next ≡ (if call.alight then place + 1 else place)) }
        ensures ways { OnOk result (ways.new.items ≡ ways.old.items
            ++ (if call.alight then call_way self.now.network.now base letter place call ∷ [] else [])) }
    {
        if !call.alight {
            return Ok(place);
        }
        ways.push(Way {
            place,
            arc: GraphArc {
                to: self.network.stop_node(call.stop),
                letter: Some(letter),
            },
            at: base + 1000 * Time::from(call.arr),
        })?;
        Ok(place + 1)
    }

    /// Appends the rides from a board to the later ones of these calls of a run on this day, the first of which is the arc at
    /// this place.
    fn push_rides(
        &self,
        board: Board,
        day: u32,
        calls: &[Call],
        first: u64,
        ways: &mut Vec<Way>,
    ) -> Result<(), AllocError>
        requires pattern { board.pattern < length self.now.timetable.now.patterns }
        requires day { day < length self.now.timetable.now.bases }
        requires stops { All (λ call. call.stop < length self.now.network.now.stop_names) calls.now }
        requires few { length calls.now < 2 ^ 32 }
        requires place { first < 2 ^ 63 + 2 ^ 34 }
        ensures { OnOk result (ways.new.items ≡ ways.old.items
            ++ day_ways self.now.network.now self.now.timetable.now board day first calls.now) }
    {
        self.timetable.known();
        let letter = self.timetable.pattern_letter(board.pattern);
        let base = self.timetable.base(day);
        let mut place = first;
        for later in board.call as usize + 1..calls.len() {
            place = self.push_call(calls[later], letter, base, place, ways)?;
        }
        Ok(())
    }

    /// Appends the rides of a run from a board, but for those that the state was given by that run or one before it in the
    /// pattern, and notes the run.
    fn push_fresh_run(
        &self,
        visit: Visit,
        placed: PlacedBoard,
        next: PlacedRun,
        given: &mut GivenRuns,
        ways: &mut Vec<Way>,
    ) -> Result<(), AllocError>
        requires board { IsBoardOf self.now.timetable.now placed.board }
        requires run { slice_get (runs_of self.now.timetable.now placed.board.pattern) next.place
            ≡ Some next.run }
        requires place { placed.first < 2 ^ 63 + 2 ^ 34 }
        ensures { OnOk result (AddsFresh (plain_rides self.now.network.now self.now.timetable.now) visit.state
            given.old given.new (run_ways self.now.network.now self.now.timetable.now placed.first
            placed.board (Some next.run)) ways.old.items ways.new.items) }
    {
        self.timetable.known();
        let PlacedBoard { board, first } = placed;
        let calls = self.timetable.run_calls(next.run);
        let past = match given.call(visit.state, board.pattern, next.place as u64) {
            Some(call) if call <= board.call => return Ok(()),
            Some(call) => calls.len().min(call as usize + 1),
            None => calls.len(),
        };
        self.push_rides(board, next.run.day, &calls[..past], first, ways)?;
        given.note(GivenRun {
            state: visit.state,
            line: board.pattern,
            run: next.place as u64,
            call: board.call,
        })?;
        Ok(())
    }

    /// The run that one boards at a visit: the next one, if the visit asks for the letter of its pattern.
    fn open_run(&self, visit: Visit, board: Board) -> Option<PlacedRun>
        requires { IsBoardOf self.now.timetable.now board }
        ensures value { option_map (λ next. next.run) result ≡ open_run self.now.timetable.now visit.at
            visit.letters board }
        ensures place { IfSome result (λ next. slice_get (runs_of self.now.timetable.now board.pattern)
            next.place ≡ Some next.run) }
    {
        self.timetable.known();
        let letter = self.timetable.pattern_letter(board.pattern);
        if is_open(visit.letters, Some(letter)) {
            self.timetable
                .next_placed(board.pattern, board.call, visit.at)
        } else {
            None
        }
    }

    /// Appends the rides from a board that can be taken, but for those that the state was given.
    fn push_fresh_board(
        &self,
        visit: Visit,
        placed: PlacedBoard,
        given: &mut GivenRuns,
        ways: &mut Vec<Way>,
    ) -> Result<(), AllocError>
        requires board { IsBoardOf self.now.timetable.now placed.board }
        requires place { placed.first < 2 ^ 63 + 2 ^ 34 }
        ensures { OnOk result (AddsFresh (plain_rides self.now.network.now self.now.timetable.now) visit.state
            given.old given.new (board_ways self.now.network.now self.now.timetable.now visit.at visit.letters
            placed.first placed.board) ways.old.items ways.new.items) }
    {
        if let Some(next) = self.open_run(visit, placed.board) {
            self.push_fresh_run(visit, placed, next, given, ways)?;
        }
        Ok(())
    }

    /// Appends the rides from a stop that can be taken, the first of which is the arc at this place, but for those that the
    /// state was given.
    fn push_fresh_boards(
        &self,
        visit: Visit,
        stop: u32,
        first: u64,
        given: &mut GivenRuns,
        ways: &mut Vec<Way>,
    ) -> Result<(), AllocError>
        requires stop { stop < self.now.timetable.now.stops }
        requires place { first < 2 ^ 34 }
        ensures { OnOk result (AddsFresh (plain_rides self.now.network.now self.now.timetable.now) visit.state
            given.old given.new (boards_ways self.now.network.now self.now.timetable.now visit.at
            visit.letters first (boards_at self.now.timetable.now stop)) ways.old.items ways.new.items) }
    {
        self.timetable.known();
        for board in self.timetable.boards(stop) {
            let placed = PlacedBoard {
                board: *board,
                first: first + board.before,
            };
            self.push_fresh_board(visit, placed, given, ways)?;
        }
        Ok(())
    }

    /// Whether nothing but road arcs leaves a node by a letter of a set or by none: it is a road node without links, and where one
    /// stands there, that is by another letter. So it is with most nodes that a search comes to.
    #[inline(always)]
    pub fn has_none_past_roads(&self, v: u32, letters: u32) -> bool
        requires { v < length (nodes_of self.now.network.now) }
        ensures { IsTrue result → (t : ℕ) → ways_from
            (plain_meaning self.now.network.now self.now.timetable.now) v t letters
            (count_from self.now.network.now.arcs v) (count_from self.now.network.now.links v +
            inner_arcs_at self.now.network.now self.now.timetable.now v) ≡ [] }
    {
        let (first, past) = self.network.links_from(v);
        match self.network.letter(v) {
            Some(letter) => first == past && !is_open(letters, Some(letter)),
            None => false,
        }
    }

    /// Appends the arcs of the node of a visit but its road arcs that arrive if they are taken then, by a letter that the visit
    /// asks for or by none, in order; but it may leave out rides where the state was given rides as good, and it notes the runs
    /// whose rides it appends. They stand behind the road arcs. Fails where memory runs out.
    pub fn push_fresh_past_roads(
        &self,
        visit: Visit,
        given: &mut GivenRuns,
        ways: &mut Vec<Way>,
    ) -> Result<(), AllocError>
        requires node { visit.node < length (nodes_of self.now.network.now) }
        requires time { visit.at < 2 ^ 127 }
        ensures { OnOk result (AddsFresh (plain_rides self.now.network.now self.now.timetable.now) visit.state
            given.old given.new (ways_from (plain_meaning self.now.network.now self.now.timetable.now)
            visit.node visit.at visit.letters (count_from self.now.network.now.arcs visit.node)
            (count_from self.now.network.now.links visit.node +
            inner_arcs_at self.now.network.now self.now.timetable.now visit.node)) ways.old.items
            ways.new.items) }
    {
        let (first_arc, past_arc) = self.network.arcs_from(visit.node);
        let (first_link, past_link) = self.network.links_from(visit.node);
        let arcs = (past_arc - first_arc) as u64;
        let links = (past_link - first_link) as u64;
        self.push_links(visit, arcs, ways)?;
        self.push_fresh_inner(visit, arcs + links, given, ways)?;
        Ok(())
    }

    /// Appends the links out of the node of a visit, the first of which is the arc at this place.
    fn push_links(
        &self,
        visit: Visit,
        first_place: u64,
        ways: &mut Vec<Way>,
    ) -> Result<(), AllocError>
        requires node { visit.node < length (nodes_of self.now.network.now) }
        requires place { first_place ≡ count_from self.now.network.now.arcs visit.node }
        requires time { visit.at < 2 ^ 127 }
        ensures { OnOk result (ways.new.items ≡ ways.old.items ++ ways_from
            (plain_meaning self.now.network.now self.now.timetable.now) visit.node visit.at visit.letters
            first_place (count_from self.now.network.now.links visit.node)) }
    {
        let (first, past) = self.network.links_from(visit.node);
        for i in 0..past - first {
            let link = self.network.links()[(first + i) as usize];
            ways.push(Way {
                place: first_place + u64::from(i),
                arc: with_letter(link, None),
                at: visit.at + Time::from(link.ms),
            })?;
        }
        Ok(())
    }

    /// Appends the arc that stands at the road node of a visit, if the visit asks for its letter, as the arc at this place.
    fn push_stand(
        &self,
        visit: Visit,
        letter: u8,
        place: u64,
        ways: &mut Vec<Way>,
    ) -> Result<(), AllocError>
        requires node { visit.node < length (nodes_of self.now.network.now) }
        requires letter { letter_at self.now.network.now.roads visit.node ≡ Some letter }
        requires place { place ≡ count_from self.now.network.now.arcs visit.node + count_from
            self.now.network.now.links visit.node }
        ensures { OnOk result (ways.new.items ≡ ways.old.items ++ ways_from
            (plain_meaning self.now.network.now self.now.timetable.now) visit.node visit.at visit.letters
            place (inner_arcs_at self.now.network.now self.now.timetable.now visit.node)) }
    {
        if is_open(visit.letters, Some(letter)) {
            ways.push(Way {
                place,
                arc: GraphArc {
                    to: visit.node,
                    letter: Some(letter),
                },
                at: visit.at,
            })?;
        }
        Ok(())
    }

    /// Appends the arc that stands at the node of a visit, or the rides that begin there, but for those that the state was
    /// given. The first of them is the arc at this place.
    fn push_fresh_inner(
        &self,
        visit: Visit,
        first: u64,
        given: &mut GivenRuns,
        ways: &mut Vec<Way>,
    ) -> Result<(), AllocError>
        requires node { visit.node < length (nodes_of self.now.network.now) }
        requires place { first ≡ count_from self.now.network.now.arcs visit.node + count_from
            self.now.network.now.links visit.node }
        requires few { first < 2 ^ 34 }
        ensures { OnOk result (AddsFresh (plain_rides self.now.network.now self.now.timetable.now) visit.state
            given.old given.new (ways_from (plain_meaning self.now.network.now self.now.timetable.now)
            visit.node visit.at visit.letters first
            (inner_arcs_at self.now.network.now self.now.timetable.now visit.node)) ways.old.items
            ways.new.items) }
    {
        match (
            self.network.letter(visit.node),
            self.network.stop_at(visit.node),
        ) {
            (Some(letter), _) => self.push_stand(visit, letter, first, ways)?,
            (None, Some(stop)) => self.push_fresh_boards(visit, stop, first, given, ways)?,
            (None, None) => {}
        }
        Ok(())
    }
}

/// A road arc or a link with its letter.
fn with_letter(arc: Arc, letter: Option<u8>) -> GraphArc
    ensures { result ≡ record { to = arc.to; letter = letter } }
{
    GraphArc { to: arc.to, letter }
}

/// How many rides begin at a stop.
fn rides_at(timetable: &Timetable, stop: u32) -> u64
    requires { stop < timetable.now.stops }
    ensures value { result ≡ length (rides_at timetable.now stop) }
    ensures few { result < 2 ^ 63 }
{
    timetable.known();
    timetable.rides(stop)
}

/// How many rides from a stop begin at the boards before this place.
fn rides_before(boards: &[Board], rides: u64, place: usize) -> u64
    ensures { result ≡ rides_end boards.now rides place }
{
    match boards.get(place) {
        Some(board) => board.before,
        None => rides,
    }
}

/// The place behind the last ride from a stop that begins at the same board as the one at this place.
fn past_board(timetable: &Timetable, stop: u32, i: u64) -> u64
    requires stop { stop < timetable.now.stops }
    requires ride { i < length (rides_at timetable.now stop) }
    ensures { IsPastBoard timetable.now stop i result }
{
    let boards = timetable.boards(stop);
    let place = boards.partition_point(|board| board.before <= i);
    rides_before(boards, timetable.rides(stop), place)
}

impl Graph for Plain<'_> {
    ghost use Rattle.plain_graph.specs.PlainArcs.{plain_meaning, count_from};
    ghost use Rattle.plain_graph.specs.BoardWays.{plain_rides};

    ghost meaning = { λ g. plain_meaning g.network.now g.timetable.now };

    fn nodes(&self) -> u32 {
        self.network.nodes()
    }

    fn arcs(&self, v: u32) -> u64 {
        let (first_arc, past_arc) = self.network.arcs_from(v);
        let (first_link, past_link) = self.network.links_from(v);
        let stands = if self.network.letter(v).is_some() {
            1
        } else {
            0
        };
        (past_arc - first_arc) as u64 + (past_link - first_link) as u64 + stands + self.rides(v)
    }

    fn arc_at(&self, v: u32, i: u64) -> GraphArc {
        match self.plain_arc(v, i) {
            PlainArc::Road(arc) => with_letter(arc, self.network.letter(v)),
            PlainArc::Link(link) => with_letter(link, None),
            PlainArc::Stand => GraphArc {
                to: v,
                letter: self.network.letter(v),
            },
            PlainArc::Ride(ride) => self.ride_arc(ride),
        }
    }

    fn arrive(&self, v: u32, i: u64, t: Time) -> Option<Time> {
        match self.plain_arc(v, i) {
            PlainArc::Road(arc) | PlainArc::Link(arc) => Some(t + Time::from(arc.ms)),
            PlainArc::Stand => Some(t),
            PlainArc::Ride(ride) => self.ride_arrival(ride, t),
        }
    }

    fn past_letter(&self, v: u32, i: u64) -> u64 {
        self.timetable.known();
        let (first_arc, past_arc) = self.network.arcs_from(v);
        let (first_link, past_link) = self.network.links_from(v);
        let outer = (past_arc - first_arc) as u64 + (past_link - first_link) as u64;
        match (self.network.letter(v), self.network.stop_at(v)) {
            (None, Some(stop)) if outer <= i => {
                outer + past_board(self.timetable, stop, i - outer)
            }
            _ => self.arcs(v).min(i + 1),
        }
    }

    ghost steady_count = { λ g v. count_from g.network.now.arcs v };

    #[inline(always)]
    fn steady(&self, v: u32) -> Steady<'_> {
        Steady {
            legs: self.network.legs_from(v),
            letter: self.network.letter(v),
        }
    }

    ghost rides = { λ g. plain_rides g.network.now g.timetable.now };

    #[inline(always)]
    #[inline(always)]
    fn may_have_fresh(&self, v: u32, letters: u32, leaving: u32) -> bool {
        let letters = moving_letters(letters, leaving, self.network.letter(v));
        !self.has_none_past_roads(v, letters)
    }

    fn fresh_ways(
        &self,
        visit: Visit,
        given: &mut GivenRuns,
        ways: &mut Vec<Way>,
    ) -> Result<(), AllocError> {
        let letter = self.network.letter(visit.node);
        let letters = moving_letters(visit.letters, visit.leaving, letter);
        self.push_fresh_past_roads(Visit { letters, ..visit }, given, ways)
    }

    ghost lawful = { λ g. g.lawful };
}
