//! Time-dependent graphs that never let a later start arrive earlier.

ghost use Rattle.std.specs.Prelude.{◌≡◌, ℕ, ◌<◌, ◌≤◌, ◌^◌, ◌++◌, [], false, OnOk, IfSome, length, slice_index_or};
ghost use Rattle.search_laws.specs.GraphLaws.{GraphMeaning, IsLawfulGraph};
ghost use Rattle.search_laws.specs.Letters.{IsLetter};
ghost use Rattle.search_laws.specs.Ways.{IsLeg, is_open, moving_letters, open_way, ways_past};
ghost use Rattle.search_laws.specs.Fresh.{RunRides, AddsMoving, visit_by};
ghost use Rattle.search_laws.specs.declared.given.GivenRuns.{GivenRuns};

use crate::Time;
use crate::given::GivenRuns;
use std::alloc::AllocError;

/// An arc as its node lists it: the node that it leads to, and the letter that it adds to the word, if any.
///
/// Letters are below [`LETTERS`](crate::LETTERS). An arc without a letter leaves the state of an automaton as it is.
#[derive(Clone, Copy)]
pub struct GraphArc {
    pub to: u32,
    pub letter: Option<u8>,
}

/// Where a steady arc leads, and how long it takes, in milliseconds, in 8 bytes.
#[derive(Clone, Copy)]
pub struct Leg {
    pub to: u32,
    pub ms: u32,
}

/// The steady arcs of a node: those at its first places, which have one letter, or none, and take as long whenever they are
/// taken.
#[derive(Clone, Copy)]
pub struct Steady<'a> {
    /// For each of them in order where it leads.
    pub legs: &'a [Leg],
    pub letter: Option<u8>,
}

/// An arc that can be taken at some time: its place among those of its node, the arc, and when it arrives.
#[derive(Clone, Copy)]
pub struct Way {
    pub place: u64,
    pub arc: GraphArc,
    pub at: Time,
}

/// A search that has come to a node, and what it asks of the arcs there.
///
/// Letter c is in a set where bit c of it is 1.
#[derive(Clone, Copy)]
pub struct Visit {
    pub node: u32,
    /// When the arcs are taken.
    pub at: Time,
    /// The state of its automaton.
    pub state: u32,
    /// The letters of the arcs that it asks for.
    pub letters: u32,
    /// The letters by which some move of the state leads to another one.
    pub leaving: u32,
}

/// Whether a letter is in a set, of which it is a bit, or there is none.
pub fn is_open(letters: u32, letter: Option<u8>) -> bool
    requires { IfSome letter IsLetter }
    ensures { result ≡ is_open letters letter }
{
    match letter {
        None => true,
        Some(letter) => letters & (1 << letter) != 0,
    }
}

/// The letters to ask for where arcs by no other letter than this one lead on, and these lead back at once: all of `letters`,
/// or none if the letter is outside `leaving`, so that they need not be asked for.
#[inline(always)]
pub fn moving_letters(letters: u32, leaving: u32, letter: Option<u8>) -> u32
    requires { IfSome letter IsLetter }
    ensures { result ≡ moving_letters letters leaving letter }
{
    if is_open(leaving, letter) { letters } else { 0 }
}

/// Appends an arc that arrives, if its letter is in the set or it has none.
pub fn push_way(
    ways: &mut Vec<Way>,
    letters: u32,
    place: u64,
    arc: GraphArc,
    at: Option<Time>,
) -> Result<(), AllocError>
    requires { IfSome arc.letter IsLetter }
    ensures { OnOk result (ways.new.items ≡ ways.old.items ++ open_way letters place arc at) }
{
    if is_open(letters, arc.letter) {
        if let Some(at) = at {
            ways.push(Way { place, arc, at })?;
        }
    }
    Ok(())
}

/// A graph whose arcs take a time that depends on when they are taken.
///
/// There are at most 2^25 nodes. An arc never arrives before it is taken, and at most 2^57 ms after. Taken later,
/// it arrives no earlier. Where it cannot be taken any more, it cannot be taken later either.
pub trait Graph {
    ghost use Rattle.search_laws.specs.declared.graph.Leg.{Leg};

    /// What the calls answer, as functions on numbers.
    ghost meaning: { Self → GraphMeaning };

    /// The number of nodes, which are numbered from 0.
    fn nodes(&self) -> u32
        ensures { result ≡ (meaning self.now).nodes };

    /// The number of arcs that leave the node `v`.
    fn arcs(&self, v: u32) -> u64
        requires { v < (meaning self.now).nodes }
        ensures { result ≡ (meaning self.now).arcs v };

    /// The arc at place `i` of those that leave the node `v`.
    fn arc_at(&self, v: u32, i: u64) -> GraphArc
        requires node { v < (meaning self.now).nodes }
        requires arc { i < (meaning self.now).arcs v }
        ensures { result ≡ (meaning self.now).arc_at v i };

    /// When that arc arrives if it is taken at `t` or as soon after as it can be; None if that is never.
    fn arrive(&self, v: u32, i: u64, t: Time) -> Option<Time>
        requires node { v < (meaning self.now).nodes }
        requires arc { i < (meaning self.now).arcs v }
        requires time { t < 2 ^ 127 }
        ensures { result ≡ (meaning self.now).arrive v i t };

    /// A place behind `i` such that all arcs of the node `v` from `i` up to there have one letter, or none. It may be the next.
    fn past_letter(&self, v: u32, i: u64) -> u64
        requires node { v < (meaning self.now).nodes }
        requires arc { i < (meaning self.now).arcs v }
        ensures later { i < result }
        ensures within { result ≤ (meaning self.now).arcs v }
        ensures same { (k : ℕ) → i ≤ k → k < result → ((meaning self.now).arc_at v k).letter
            ≡ ((meaning self.now).arc_at v i).letter }
    {
        self.arcs(v).min(i + 1)
    }

    /// How many steady arcs a node has.
    ghost steady_count: { Self → ℕ → ℕ };

    /// The steady arcs of the node `v`. A graph may call none so.
    fn steady(&self, v: u32) -> Steady<'_>
        requires { v < (meaning self.now).nodes }
        ensures count { length result.legs.now ≡ steady_count self.now v }
        ensures within { length result.legs.now ≤ (meaning self.now).arcs v }
        ensures letter { (i : ℕ) → i < length result.legs.now → ((meaning self.now).arc_at v i).letter
            ≡ result.letter }
        ensures legs { (i : ℕ) (d : Leg) → i < length result.legs.now → IsLeg (meaning self.now) v i
            (slice_index_or result.legs.now i d) };

    /// The rides of a run of a line to the calls behind one, wherever they stand. A graph may have no lines.
    ghost rides: { Self → RunRides } = { λ _ _ _ _. [] };

    /// Whether [`fresh_ways`](Self::fresh_ways) may append something at a visit to the node `v` that asks for these letters, where
    /// moves by those of `leaving` lead to another state. Where not, a search need not ask for them. A graph may always say so.
    #[inline(always)]
    fn may_have_fresh(&self, v: u32, letters: u32, leaving: u32) -> bool
        requires { v < (meaning self.now).nodes }
        ensures { result ≡ false → (t q : ℕ) (given : GivenRuns) → AddsMoving (rides self.now)
            (visit_by v t q letters leaving) given given
            (ways_past (meaning self.now) v t letters (steady_count self.now v)) [] [] }
    {
        let _ = (v, letters, leaving);
        true
    }

    /// Appends the arcs of a node but its steady ones that arrive if they are taken at the time of a visit, by a letter that it
    /// asks for or by none, in order. It may leave out rides where the state was given rides as good, and it notes the runs whose
    /// rides it appends. It may also leave out arcs that lead to the node itself at once, by a letter by which no move of the state
    /// leads to another one. Fails where memory runs out.
    fn fresh_ways(
        &self,
        visit: Visit,
        given: &mut GivenRuns,
        ways: &mut Vec<Way>,
    ) -> Result<(), AllocError>
        requires node { visit.node < (meaning self.now).nodes }
        requires time { visit.at < 2 ^ 127 }
        ensures { OnOk result (AddsMoving (rides self.now) visit given.old given.new
            (ways_past (meaning self.now) visit.node visit.at visit.letters (steady_count self.now visit.node))
            ways.old.items ways.new.items) }
    {
        let _ = given.cells.len();
        let v = visit.node;
        for i in self.steady(v).legs.len() as u64..self.arcs(v) {
            let (arc, at) = (self.arc_at(v, i), self.arrive(v, i, visit.at));
            push_way(ways, visit.letters, i, arc, at)?;
        }
        Ok(())
    }

    /// Every graph keeps the laws, at every time, without an upper end.
    ghost lawful: { (g : Self) → IsLawfulGraph (meaning g) };
}
