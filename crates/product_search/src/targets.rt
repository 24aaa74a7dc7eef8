//! The targets of a search for many arrivals, and when each is reached.

ghost use Rattle.std.specs.Prelude.{◌≡◌, ◌<◌, ◌≤◌, length, slice_index, IfOk, IsTrue, None, replicate};
ghost use Rattle.product_search.specs.inside.Places.{ArePlaces, IsPlaced};
ghost use Rattle.product_search.specs.inside.Noting.{IsNoted, IsEndNoted, AreReached, time_of, earlier};

use crate::frontier::{Frontier, Scan, grow, number_of};
use search_laws::{Labels, Time};
use std::alloc::{AllocError, Global};

/// Nodes that searches are to reach, with a table that finds them. A node may stand there twice.
#[derive(Drop)]
pub struct TargetTable {
    pub nodes: Vec<u32>,
    /// For each node a place where it stands, and 1; or 0. Nodes past its end stand nowhere.
    pub(crate) places: Vec<u32>,
    ghost placed: { ArePlaces nodes.items places.items (length nodes.items) },
}

impl TargetTable {
    /// The table of some nodes. Fails where memory runs out, and at 2^32 - 1 nodes.
    pub fn new(alloc: Global, nodes: Vec<u32>) -> Result<TargetTable, AllocError>
        ensures { IfOk result (λ t. t.nodes.items ≡ nodes.items) }
    {
        let places = places_of(alloc, &nodes)?;
        Ok(TargetTable { nodes, places })
    }

    /// A place where a node stands, and 1; or 0.
    #[inline(always)]
    fn place(&self, node: u32) -> usize
        ensures place { result ≡ slice_index self.now.places.items node }
        ensures within { result ≤ length self.now.nodes.items }
    {
        self.entry(node) as usize
    }

    /// What the table has for a node.
    #[inline(always)]
    fn entry(&self, node: u32) -> u32
        ensures { result ≡ slice_index self.now.places.items node }
    {
        match self.places.get(node as usize) {
            None => 0,
            Some(place) => *place,
        }
    }
}

/// For each node a place where it stands, and 1; or 0.
fn places_of(alloc: Global, nodes: &[u32]) -> Result<Vec<u32>, AllocError>
    ensures { IfOk result (λ places. ArePlaces nodes.now places.items (length nodes.now)) }
{
    let mut places = Vec::new(alloc);
    for k in 0..nodes.len() {
        let number = number_of(k)?;
        let node = nodes[k] as usize;
        grow(&mut places, node)?;
        places[node] = number + 1;
    }
    Ok(places)
}

/// When each target was reached, by its place, and how many at the beginning of the list are known to be reached.
#[derive(Drop)]
pub(crate) struct Noted {
    pub times: Vec<Option<Time>>,
    pub passed: usize,
    /// No target was reached later, in ms after the departure.
    pub latest: u64,
}

impl Noted {
    /// No target was reached.
    pub fn none(alloc: Global, targets: &TargetTable) -> Result<Noted, AllocError>
        ensures times { IfOk result (λ n. n.times.items ≡ replicate (length targets.now.nodes.items) None) }
        ensures passed { IfOk result (λ n. n.passed ≡ 0) }
    {
        let times = vec![in alloc; None; targets.nodes.len()]?;
        Ok(Noted {
            times,
            passed: 0,
            latest: 0,
        })
    }

    /// Notes a target that is reached in an accepting state, if it was not reached by then, and tells whether all are reached.
    #[inline(always)]
    pub fn note_end<L: Labels>(
        &mut self,
        labels: &L,
        targets: &TargetTable,
        frontier: &Frontier,
        scan: Scan,
    ) -> bool
        requires state { scan.state < (L.automaton labels.now).states }
        requires one_each { length self.old.times.items ≡ length targets.now.nodes.items }
        requires passed { AreReached targets.now.nodes.items targets.now.places.items self.old.times.items
            self.old.passed }
        ensures one_each { length self.new.times.items ≡ length targets.now.nodes.items }
        ensures passed { AreReached targets.now.nodes.items targets.now.places.items self.new.times.items
            self.new.passed }
        ensures noted { IsEndNoted (L.automaton labels.now) targets.now.places.items frontier.now.base self.old
            self.new scan }
        ensures all { IsTrue result → length targets.now.nodes.items ≤ self.new.passed }
    {
        if labels.accepts(scan.state) {
            self.note(targets, scan.node, frontier.time(scan.delay), scan.delay);
            self.pass(targets);
        }
        self.passed >= targets.nodes.len()
    }

    /// Notes when a node is reached, if it is a target and was not reached by then. The time is that of the delay.
    #[inline(always)]
    fn note(&mut self, targets: &TargetTable, node: u32, at: Time, delay: u64)
        requires { length self.old.times.items ≡ length targets.now.nodes.items }
        ensures noted { IsNoted targets.now.places.items self.old.times.items self.new.times.items node at }
        ensures one_each { length self.new.times.items ≡ length targets.now.nodes.items }
        ensures passed { self.new.passed ≡ self.old.passed }
        ensures latest { self.old.latest ≤ self.new.latest }
        ensures late { IsPlaced targets.now.places.items node → delay ≤ self.new.latest }
    {
        let place = targets.place(node);
        if place > 0 {
            let time = earlier(self.times[place - 1], at);
            self.times[place - 1] = Some(time);
            self.latest = self.latest.max(delay);
        }
    }

    /// Passes over the targets that were reached, up to the first that was not.
    #[inline(always)]
    fn pass(&mut self, targets: &TargetTable)
        requires { AreReached targets.now.nodes.items targets.now.places.items self.old.times.items
            self.old.passed }
        ensures passed { AreReached targets.now.nodes.items targets.now.places.items self.new.times.items
            self.new.passed }
        ensures same { self.new.times.items ≡ self.old.times.items }
        ensures latest { self.new.latest ≡ self.old.latest }
    {
        'pass: while self.passed < targets.nodes.len() {
            match self.time_of(targets, targets.nodes[self.passed]) {
                None => return,
                Some(_) => self.passed += 1,
            }
        }
    }

    /// When a node was reached, if it is a target and was reached.
    #[inline(always)]
    pub fn time_of(&self, targets: &TargetTable, node: u32) -> Option<Time>
        ensures { result ≡ time_of targets.now.places.items self.now.times.items node }
    {
        let place = targets.place(node);
        if place == 0 {
            return None;
        }
        *self.times.get(place - 1)?
    }
}

/// The earlier one of a time that was noted, if one was, and another.
fn earlier(noted: Option<Time>, at: Time) -> Time
    ensures { result ≡ earlier noted at }
{
    match noted {
        None => at,
        Some(first) => first.min(at),
    }
}
