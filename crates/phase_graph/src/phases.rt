//! The phase graph of a hierarchy, as a graph that can be searched.

ghost use Rattle.std.specs.Prelude.{◌≡◌, ◌<◌, ◌+◌, ◌*◌, ◌^◌, ◌++◌, ◌≤◌, All, IfOk, OnOk, length, map, take, drop};
ghost use Rattle.std.proofs.Props.{props};
ghost use Rattle.search_laws.specs.GraphLaws.{IsLawfulGraph};
ghost use Rattle.mode_network.specs.NetworkLists.{nodes_of};
ghost use Rattle.hierarchy.specs.declared.entry.Entry.{Entry};
ghost use Rattle.hierarchy.specs.Soundness.{IsSound};
ghost use Rattle.plain_graph.specs.Lawful.{IsLawfulGraph-prop};
ghost use Rattle.phase_graph.specs.Arcs.{phase_node};
ghost use Rattle.phase_graph.specs.PhaseArcs.{phase_meaning, node_of, is_down, renumbered, FitsAnew};
ghost use Rattle.phase_graph.specs.Marks.{marks_in};
ghost use Rattle.phase_graph.specs.inside.Falls.{HasFalls, HasFalls-prop, fall_way};
ghost use Rattle.phase_graph.specs.inside.Marking.{AreListed};

use crate::falls::{Fall, FallChains};
use crate::mark_table::MarkTable;
use crate::marks::{Marks, mark_nodes};
use hierarchy::{Entry, Hierarchy};
use mode_network::Network;
use plain_graph::Plain;
use search_laws::{
    GivenRuns, Graph, GraphArc, Leg, Steady, Time, Visit, Way, is_open, moving_letters, push_way,
};
use std::alloc::{AllocError, Global};

/// An arc out of a node of the phase graph.
#[derive(Clone, Copy)]
pub enum PhaseArc {
    /// The entry at this place, to a node above or along the core.
    Up(u64),
    /// The entry at this place, which arrives where it leads down from a node with a mark to another.
    Down(u64),
    /// The arc at this place of those of the plain graph: a link, a ride, or one that stands.
    Other(u64),
}

/// The phase graph of a sound hierarchy for some targets. The node `2v` is the network's node v before the descent, and
/// `2v + 1` is v in the descent.
#[derive(Drop)]
pub struct Phases<'a> {
    plain: Plain<'a>,
    hierarchy: &'a Hierarchy,
    falls: FallChains,
    /// The nodes that have a mark.
    marked: Vec<u32>,
    ghost listed: { AreListed falls.first.items marked.items } by { Prim.hlevel props },
    ghost chained: { HasFalls hierarchy.now (marks_in falls.first.items) falls.all.items falls.first.items } by { HasFalls-prop hierarchy.now _ falls.all.items falls.first.items },
    pub ghost sound: { ∥ IsSound plain.network.now hierarchy.now ∥₁ },
    pub ghost lawful: { IsLawfulGraph (phase_meaning plain.network.now plain.timetable.now hierarchy.now (marks_in falls.first.items)) } by { IsLawfulGraph-prop _ },
}

impl<'a> Phases<'a> {
    ghost use Rattle.std.specs.Prelude.{◌≡◌, ◌<◌, ◌+◌, ◌*◌, ◌^◌, ◌++◌, ◌≤◌, true, false, All, IfOk, IsTrue, OnOk, length, slice_index_or};
    ghost use Rattle.search_laws.specs.Fresh.{AddsFresh};
    ghost use Rattle.search_laws.specs.Ways.{ways_from, is_open};
    ghost use Rattle.mode_network.specs.NetworkLists.{nodes_of, letter_at};
    ghost use Rattle.phase_graph.specs.Arcs.{IsPhaseGraph, phase_node};
    ghost use Rattle.phase_graph.specs.Marks.{AreMarksFor, has_mark, is_fall, marks_in};
    ghost use Rattle.hierarchy.specs.Lookups.{AreFrom, entry_at};
    ghost use Rattle.hierarchy.specs.Rises.{has_legs};
    ghost use Rattle.timetable_arcs.specs.Table.{IsTable};
    ghost use Rattle.phase_graph.specs.Walked.{JourneysHaveWalks, WalksHaveJourneys};
    ghost use Rattle.phase_graph.specs.PhaseArcs.{phase_meaning, rises_at, legs_at, first_entry, entries_at, others_at, first_other, phase_arc, IsArcOutOf, BeginsAt, fall_arrival, phase_rides, node_of, is_down};
    ghost use Rattle.plain_graph.specs.PlainArcs.{plain_meaning, arcs_at};

    /// The phase graph of a sound hierarchy for these targets, which are nodes of the network. For each journey to a
    /// target it has a walk that arrives no later, with the same ends, whose word collapses to the same; and for each of
    /// its walks there is a journey with the same ends, arrival and collapsed word. Fails where memory runs out.
    pub(crate) fn new(
        alloc: Global,
        table: &mut MarkTable,
        network: &'a Network,
        hierarchy: &'a Hierarchy,
        targets: &[u32],
    ) -> Result<Phases<'a>, AllocError>
        requires { IsSound network.now hierarchy.now }
        ensures network { IfOk result (λ p. p.plain.network.now ≡ network.now) }
        ensures hierarchy { IfOk result (λ p. p.hierarchy.now ≡ hierarchy.now) }
        ensures keeps { IfOk result (λ p. IsTable p.plain.timetable.now) }
        ensures marks { IfOk result (λ p. AreMarksFor hierarchy.now targets.now
            (marks_in p.falls.first.items)) }
        ensures is { IfOk result (λ p. IsPhaseGraph network.now hierarchy.now targets.now
            (phase_meaning network.now p.plain.timetable.now hierarchy.now (marks_in p.falls.first.items))) }
        ensures journeys { IfOk result (λ p. JourneysHaveWalks network.now hierarchy.now targets.now
            (phase_meaning network.now p.plain.timetable.now hierarchy.now (marks_in p.falls.first.items))) }
        ensures walks { IfOk result (λ p. WalksHaveJourneys network.now
            (phase_meaning network.now p.plain.timetable.now hierarchy.now (marks_in p.falls.first.items))) }
    {
        network.known();
        hierarchy.known();
        let count = network.nodes();
        let numbers = table.take(alloc, count)?;
        let marks = mark_nodes(alloc, count, numbers, hierarchy, targets)?;
        let Marks { numbers, nodes } = marks;
        let falls = FallChains::new(alloc, hierarchy, numbers, &nodes)?;
        let plain = Plain::new(network);
        Ok(Phases {
            plain,
            hierarchy,
            falls,
            marked: nodes,
        })
    }

    /// Gives the numbers of its marks back to a table.
    pub(crate) fn give_back(self, table: &mut MarkTable) {
        let falls = self.falls;
        table.put(falls.first, &self.marked);
    }

    /// The graph of the network.
    pub fn plain(&self) -> &Plain<'a>
        ensures { result.now ≡ self.now.plain }
    {
        &self.plain
    }

    /// The network.
    pub fn network(&self) -> &'a Network
        ensures { result.now ≡ self.now.plain.network.now }
    {
        self.plain.network()
    }

    /// The hierarchy.
    pub fn hierarchy(&self) -> &'a Hierarchy
        ensures { result.now ≡ self.now.hierarchy.now }
    {
        self.hierarchy
    }

    /// The places of the entries that lead up from a node of the network, or along the core; in the descent there are none.
    #[inline(always)]
    fn rises_at(&self, v: u32, down: bool) -> &'a [u32]
        ensures list { result.now ≡ rises_at self.now.hierarchy.now v down }
        ensures each { All (BeginsAt self.now.hierarchy.now v) result.now }
    {
        if down {
            &[]
        } else {
            self.hierarchy.rise_places_from(v)
        }
    }

    /// Where these lead, and how long that takes; nothing, if the hierarchy has no legs.
    #[inline(always)]
    fn legs_at(&self, v: u32, down: bool) -> &'a [Leg]
        ensures { result.now ≡ legs_at self.now.hierarchy.now v down }
    {
        if down {
            &[]
        } else {
            self.hierarchy.legs_from(v)
        }
    }

    /// The place of the first entry that leaves a node of the network, and how many there are, side by side.
    fn entries_at(&self, v: u32) -> (u64, u64)
        ensures first { result.0 ≡ first_entry self.now.hierarchy.now v }
        ensures count { result.1 ≡ entries_at self.now.hierarchy.now v }
        ensures are { AreFrom self.now.hierarchy.now.entries v result.0 (result.0 + result.1) }
        ensures few { result.0 + result.1 < 2 ^ 60 }
    {
        let _entries = self.hierarchy.entries();
        let (first, past) = self.hierarchy.entries_from(v);
        (first, past - first)
    }

    /// Whether no entries can be taken from a node but its legs: it is before the descent, and no fall leaves it.
    #[inline(always)]
    fn has_legs_alone(&self, v: u32, down: bool) -> bool
        ensures { IsTrue result → (down ≡ false) × (has_legs self.now.hierarchy.now ≡ true)
            × (slice_index_or self.now.falls.first.items v 0 ≤ 1) }
    {
        !down && self.hierarchy.has_legs() && self.falls.first_from(v) <= 1
    }

    /// Whether an entry leads down from a node with a mark to another.
    #[inline(always)]
    fn is_fall(&self, entry: &Entry) -> bool
        ensures { result ≡ is_fall self.now.hierarchy.now (marks_in self.now.falls.first.items) entry.now }
    {
        self.has_mark(entry.to)
            && self.has_mark(entry.from)
            && self.hierarchy.above(entry.from, entry.to)
    }

    /// Whether a node has a mark.
    #[inline(always)]
    fn has_mark(&self, v: u32) -> bool
        ensures { result ≡ has_mark (marks_in self.now.falls.first.items) v }
    {
        self.falls.first_from(v) > 0
    }

    /// How many arcs out of a node lead along no entry: the plain graph's but its road arcs, or in the
    /// descent the one that stands.
    fn others(&self, v: u32, down: bool) -> u64
        requires { v < length (nodes_of self.now.plain.network.now) }
        ensures { result ≡ others_at self.now.plain.network.now self.now.plain.timetable.now v down }
    {
        if down {
            if self.network().letter(v).is_some() {
                1
            } else {
                0
            }
        } else {
            let (first, past) = self.network().arcs_from(v);
            self.plain.arcs(v) - (past - first) as u64
        }
    }

    /// Where the arcs that the plain graph has in common with this one begin among those of a node.
    fn first_other(&self, v: u32, down: bool) -> u64
        requires { v < length (nodes_of self.now.plain.network.now) }
        ensures value { result ≡ first_other self.now.plain.network.now v down }
        ensures small { result < 2 ^ 34 }
    {
        let (first, past) = self.network().arcs_from(v);
        let (first_link, past_link) = self.network().links_from(v);
        let links = if down { past_link - first_link } else { 0 };
        (past - first) as u64 + links as u64
    }

    /// The arc at place `i` of those out of the node `p`: first come the entries up and along the core, then all entries,
    /// of which those arrive that lead down from a node with a mark to another, and then what the plain graph has in
    /// common with this one.
    pub fn phase_arc(&self, p: u32, i: u64) -> PhaseArc
        requires node { p < (phase_meaning self.now.plain.network.now self.now.plain.timetable.now
            self.now.hierarchy.now (marks_in self.now.falls.first.items)).nodes }
        requires arc { i < (phase_meaning self.now.plain.network.now self.now.plain.timetable.now
            self.now.hierarchy.now (marks_in self.now.falls.first.items)).arcs p }
        ensures value { result ≡ phase_arc self.now.plain.network.now self.now.hierarchy.now (node_of p)
            (is_down p) i }
        ensures fits { IsArcOutOf self.now.plain.network.now self.now.plain.timetable.now
            self.now.hierarchy.now (node_of p) result }
    {
        self.plain.timetable().known();
        let (v, down) = split(p);
        let rises = self.rises_at(v, down);
        let ups = rises.len() as u64;
        let (first, entries) = self.entries_at(v);
        if i < ups {
            PhaseArc::Up(rises[i as usize] as u64)
        } else if i - ups < entries {
            PhaseArc::Down(first + (i - ups))
        } else {
            PhaseArc::Other(self.first_other(v, down) + (i - ups - entries))
        }
    }

    /// Where an entry leads, before the descent or in it, with this letter.
    fn entry_arc(&self, letter: Option<u8>, place: u64, down: bool) -> GraphArc
        requires { place < length self.now.hierarchy.now.entries }
        ensures { result ≡ record {
          to = phase_node (entry_at self.now.hierarchy.now.entries place).to down;
          letter
              = letter;
        } }
    {
        self.hierarchy.known();
        GraphArc {
            to: number_of(self.hierarchy.entries()[place as usize].to, down),
            letter,
        }
    }

    /// How long an entry takes.
    fn weight(&self, place: u64) -> Time
        requires { place < length self.now.hierarchy.now.entries }
        ensures value { result ≡ (entry_at self.now.hierarchy.now.entries place).weight }
        ensures small { result < 2 ^ 64 }
    {
        Time::from(self.hierarchy.entries()[place as usize].weight)
    }

    /// When one arrives that takes an entry at a time, if it leads down from a node with a mark to another.
    fn fall_arrival(&self, place: u64, t: Time) -> Option<Time>
        requires place { place < length self.now.hierarchy.now.entries }
        requires time { t < 2 ^ 127 }
        ensures { result ≡ fall_arrival self.now.hierarchy.now (marks_in self.now.falls.first.items) place t }
    {
        if self.is_fall(&self.hierarchy.entries()[place as usize]) {
            Some(t + self.weight(place))
        } else {
            None
        }
    }

    /// Where an arc of the plain graph leads, which keeps to the descent or to what is before it, and its letter.
    fn other_arc(&self, v: u32, place: u64, down: bool) -> GraphArc
        requires node { v < length (nodes_of self.now.plain.network.now) }
        requires arc { place < arcs_at self.now.plain.network.now self.now.plain.timetable.now v }
        ensures { result ≡ record {
          to = phase_node ((plain_meaning self.now.plain.network.now
              self.now.plain.timetable.now).arc_at v place).to down;
          letter =
              ((plain_meaning self.now.plain.network.now self.now.plain.timetable.now).arc_at v
              place).letter;
        } }
    {
        let arc = self.plain.arc_at(v, place);
        GraphArc {
            to: number_of(arc.to, down),
            letter: arc.letter,
        }
    }

    /// Appends the entries that lead up from the node of a visit, or along the core.
    fn push_rises(&self, visit: Visit, ways: &mut Vec<Way>) -> Result<(), AllocError>
        requires node { node_of visit.node < length (nodes_of self.now.plain.network.now) }
        requires time { visit.at < 2 ^ 127 }
        ensures { OnOk result (ways.new.items ≡ ways.old.items ++ ways_from
            (phase_meaning self.now.plain.network.now self.now.plain.timetable.now self.now.hierarchy.now
            (marks_in self.now.falls.first.items)) visit.node visit.at visit.letters 0
            (length (rises_at self.now.hierarchy.now (node_of visit.node) (is_down visit.node)))) }
    {
        let p = visit.node;
        let (v, down) = split(p);
        let ups = self.rises_at(v, down).len() as u64;
        for i in 0..ups {
            let (arc, at) = (self.arc_at(p, i), self.arrive(p, i, visit.at));
            push_way(ways, visit.letters, i, arc, at)?;
        }
        Ok(())
    }

    /// Appends those of the entries that leave the node of a visit that lead down from a node with a mark to another,
    /// whose letter is in the set. The places of all entries stand behind those of the entries up and along the core.
    fn push_open_falls(&self, visit: Visit, ways: &mut Vec<Way>) -> Result<(), AllocError>
        requires time { visit.at < 2 ^ 127 }
        requires opens { is_open visit.letters (letter_at self.now.plain.network.now.roads
            (node_of visit.node)) ≡ true }
        ensures { OnOk result (ways.new.items ≡ ways.old.items ++ ways_from
            (phase_meaning self.now.plain.network.now self.now.plain.timetable.now self.now.hierarchy.now
            (marks_in self.now.falls.first.items)) visit.node visit.at visit.letters
            (length (rises_at self.now.hierarchy.now (node_of visit.node) (is_down visit.node)))
            (entries_at self.now.hierarchy.now (node_of visit.node))) }
    {
        let (v, down) = split(visit.node);
        let letter = self.network().letter(v);
        let ups = self.rises_at(v, down).len() as u64;
        let (first, _) = self.entries_at(v);
        let mut number = self.falls.first_from(v);
        while number > 1 {
            let chained = &self.falls.all[number as usize - 2];
            ways.push(fall_way(letter, visit.at, first, ups, &chained.fall))?;
            number = chained.next;
        }
        Ok(())
    }

    /// Appends those of the entries that leave the node of a visit that lead down from a node with a mark to another, if their
    /// letter is in the set.
    fn push_falls(&self, visit: Visit, ways: &mut Vec<Way>) -> Result<(), AllocError>
        requires time { visit.at < 2 ^ 127 }
        ensures { OnOk result (ways.new.items ≡ ways.old.items ++ ways_from
            (phase_meaning self.now.plain.network.now self.now.plain.timetable.now self.now.hierarchy.now
            (marks_in self.now.falls.first.items)) visit.node visit.at visit.letters
            (length (rises_at self.now.hierarchy.now (node_of visit.node) (is_down visit.node)))
            (entries_at self.now.hierarchy.now (node_of visit.node))) }
    {
        let v = visit.node / 2;
        if self.falls.first_from(v) > 1 && is_open(visit.letters, self.network().letter(v)) {
            self.push_open_falls(visit, ways)
        } else {
            Ok(())
        }
    }

    /// Appends what leaves the node of a visit along no entry, which stands behind the entries; but it may leave out rides where
    /// the state was given rides as good, and it notes the runs whose rides it appends.
    fn push_fresh_others(
        &self,
        visit: Visit,
        given: &mut GivenRuns,
        ways: &mut Vec<Way>,
    ) -> Result<(), AllocError>
        requires node { node_of visit.node < length (nodes_of self.now.plain.network.now) }
        requires time { visit.at < 2 ^ 127 }
        ensures { OnOk result (AddsFresh (phase_rides self.now.plain.network.now self.now.plain.timetable.now)
            visit.state given.old given.new (ways_from (phase_meaning self.now.plain.network.now
            self.now.plain.timetable.now self.now.hierarchy.now (marks_in self.now.falls.first.items))
            visit.node visit.at visit.letters (length (rises_at self.now.hierarchy.now (node_of visit.node)
            (is_down visit.node)) + entries_at self.now.hierarchy.now (node_of visit.node))
            (others_at self.now.plain.network.now self.now.plain.timetable.now (node_of visit.node)
            (is_down visit.node))) ways.old.items ways.new.items) }
    {
        let (v, down) = split(visit.node);
        let first = self.rises_at(v, down).len() as u64 + self.entries_at(v).1;
        if down {
            self.push_stand(visit, first, ways)
        } else {
            self.push_fresh_plain(visit, first, given, ways)
        }
    }

    /// Appends what leaves the node of a visit before the descent along no entry: the plain graph's arcs but its road
    /// arcs. It may leave out rides where the state was given rides as good, and it notes the runs whose rides it appends.
    fn push_fresh_plain(
        &self,
        visit: Visit,
        first: u64,
        given: &mut GivenRuns,
        ways: &mut Vec<Way>,
    ) -> Result<(), AllocError>
        requires node { node_of visit.node < length (nodes_of self.now.plain.network.now) }
        requires phase { is_down visit.node ≡ false }
        requires first { first ≡ length (rises_at self.now.hierarchy.now (node_of visit.node)
            (is_down visit.node)) + entries_at self.now.hierarchy.now (node_of visit.node) }
        requires few { first < 2 ^ 62 }
        requires time { visit.at < 2 ^ 127 }
        ensures { OnOk result (AddsFresh (phase_rides self.now.plain.network.now self.now.plain.timetable.now)
            visit.state given.old given.new (ways_from (phase_meaning self.now.plain.network.now
            self.now.plain.timetable.now self.now.hierarchy.now (marks_in self.now.falls.first.items))
            visit.node visit.at visit.letters first (others_at self.now.plain.network.now
            self.now.plain.timetable.now (node_of visit.node) (is_down visit.node))) ways.old.items
            ways.new.items) }
    {
        self.plain.timetable().known();
        let node = visit.node / 2;
        let before = ways.len();
        let (first_arc, past_arc) = self.network().arcs_from(node);
        self.plain
            .push_fresh_past_roads(Visit { node, ..visit }, given, ways)?;
        renumber(ways, before, (past_arc - first_arc) as u64, first);
        Ok(())
    }

    /// Appends what leaves the node of a visit in the descent along no entry: the arc that stands, if it is a road node's.
    fn push_stand(&self, visit: Visit, first: u64, ways: &mut Vec<Way>) -> Result<(), AllocError>
        requires phase { is_down visit.node ≡ true }
        requires first { first ≡ length (rises_at self.now.hierarchy.now (node_of visit.node)
            (is_down visit.node)) + entries_at self.now.hierarchy.now (node_of visit.node) }
        ensures { OnOk result (ways.new.items ≡ ways.old.items ++ ways_from
            (phase_meaning self.now.plain.network.now self.now.plain.timetable.now self.now.hierarchy.now
            (marks_in self.now.falls.first.items)) visit.node visit.at visit.letters first
            (others_at self.now.plain.network.now self.now.plain.timetable.now (node_of visit.node)
            (is_down visit.node))) }
    {
        if let Some(mode) = self.network().letter(visit.node / 2) {
            if is_open(visit.letters, Some(mode)) {
                ways.push(Way {
                    place: first,
                    arc: GraphArc {
                        to: visit.node,
                        letter: Some(mode),
                    },
                    at: visit.at,
                })?;
            }
        }
        Ok(())
    }
}

impl Graph for Phases<'_> {
    ghost use Rattle.phase_graph.specs.Marks.{marks_in};
    ghost use Rattle.phase_graph.specs.PhaseArcs.{phase_meaning, phase_rides, legs_at, node_of, is_down};

    ghost meaning = { λ g. phase_meaning g.plain.network.now g.plain.timetable.now g.hierarchy.now
        (marks_in g.falls.first.items) };

    fn nodes(&self) -> u32 {
        2 * self.network().nodes()
    }

    fn arcs(&self, p: u32) -> u64 {
        self.plain.timetable().known();
        let (v, down) = split(p);
        self.rises_at(v, down).len() as u64 + self.entries_at(v).1 + self.others(v, down)
    }

    fn arc_at(&self, p: u32, i: u64) -> GraphArc {
        let (v, down) = split(p);
        match self.phase_arc(p, i) {
            PhaseArc::Up(place) => self.entry_arc(self.network().letter(v), place, false),
            PhaseArc::Down(place) => self.entry_arc(self.network().letter(v), place, true),
            PhaseArc::Other(place) => self.other_arc(v, place, down),
        }
    }

    fn arrive(&self, p: u32, i: u64, t: Time) -> Option<Time> {
        let (v, down) = split(p);
        match self.phase_arc(p, i) {
            PhaseArc::Up(place) => Some(t + self.weight(place)),
            PhaseArc::Down(place) => self.fall_arrival(place, t),
            PhaseArc::Other(place) => self.plain.arrive(v, place, t),
        }
    }

    ghost steady_count = { λ g p. length (legs_at g.hierarchy.now (node_of p) (is_down p)) };

    #[inline(always)]
    fn steady(&self, p: u32) -> Steady<'_> {
        self.hierarchy.known();
        let (v, down) = split(p);
        Steady {
            legs: self.legs_at(v, down),
            letter: self.network().letter(v),
        }
    }

    ghost rides = { λ g. phase_rides g.plain.network.now g.plain.timetable.now };

    #[inline(always)]
    fn may_have_fresh(&self, p: u32, letters: u32, leaving: u32) -> bool {
        let (v, down) = split(p);
        if !self.has_legs_alone(v, down) {
            return true;
        }
        let letters = moving_letters(letters, leaving, self.network().letter(v));
        !self.plain.has_none_past_roads(v, letters)
    }

    fn fresh_ways(
        &self,
        visit: Visit,
        given: &mut GivenRuns,
        ways: &mut Vec<Way>,
    ) -> Result<(), AllocError> {
        let letter = self.network().letter(visit.node / 2);
        let letters = moving_letters(visit.letters, visit.leaving, letter);
        if !self.hierarchy.has_legs() {
            self.push_rises(visit, ways)?;
        }
        self.push_falls(visit, ways)?;
        self.push_fresh_others(Visit { letters, ..visit }, given, ways)
    }

    ghost lawful = { λ g. g.lawful };
}

/// The node of the network that a number stands for, and whether it is in the descent.
fn split(p: u32) -> (u32, bool)
    ensures { result ≡ (node_of p, is_down p) }
{
    (p / 2, p % 2 == 1)
}

/// The number of a node of the network, before the descent or in it.
pub(crate) fn number_of(v: u32, down: bool) -> u32
    requires { v < 2 ^ 31 }
    ensures { result ≡ phase_node v down }
{
    if down { 2 * v + 1 } else { 2 * v }
}

/// A fall as a way, where the places that began at `first` begin at `now`.
fn fall_way(letter: Option<u8>, t: Time, first: u64, now: u64, fall: &Fall) -> Way
    requires place { first ≤ fall.now.place }
    requires few { now < 2 ^ 63 }
    requires time { t < 2 ^ 127 }
    ensures { result ≡ fall_way letter t first now fall.now }
{
    Way {
        place: fall.place as u64 - first + now,
        arc: GraphArc {
            to: fall.to,
            letter,
        },
        at: t + Time::from(fall.weight),
    }
}

/// Numbers the ways from one on anew: they lead to nodes before the descent, and their places begin at `first` where they
/// began at `old`.
fn renumber(ways: &mut Vec<Way>, from: usize, old: u64, first: u64)
    requires within { from ≤ length ways.old.items }
    requires fits { All (FitsAnew old) (drop from ways.old.items) }
    requires few { first < 2 ^ 62 }
    ensures { ways.new.items ≡ take from ways.old.items ++ map (renumbered old first)
        (drop from ways.old.items) }
{
    for k in from..ways.len() {
        ways[k] = renumbered(ways[k], old, first);
    }
}

/// A way of the plain graph as one before the descent.
fn renumbered(way: Way, old: u64, first: u64) -> Way
    requires fits { FitsAnew old way }
    requires few { first < 2 ^ 62 }
    ensures { result ≡ renumbered old first way }
{
    Way {
        place: way.place - old + first,
        arc: GraphArc {
            to: number_of(way.arc.to, false),
            letter: way.arc.letter,
        },
        at: way.at,
    }
}
