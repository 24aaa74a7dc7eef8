//! Rides from crossings, pattern by pattern.

ghost use Rattle.std.specs.Prelude.{◌≡◌, ◌<◌, ◌^◌, All, OnOk, length, map};
ghost use Rattle.sweeps.specs.Sweeps.{time_at};
ghost use Rattle.rounds.specs.inside.Riding.{time_after};

use crate::asked::Asked;
use crate::delays::{NEVER, delay_of};
use crate::visiting::lower_each;
use ride_passes::arrivals_along;
use search_laws::{Labels, RoadLabels, Time};
use std::alloc::{AllocError, Global};

/// What a pass along a pattern reads and writes, by the places of its calls.
#[derive(Drop)]
pub(crate) struct Pass {
    reached: Vec<Option<Time>>,
    arrivals: Vec<Option<Time>>,
}

impl Pass {
    /// Before any pass. Takes no memory.
    pub(crate) fn new(alloc: Global) -> Pass {
        Pass {
            reached: Vec::new(alloc),
            arrivals: Vec::new(alloc),
        }
    }
}

impl<L: RoadLabels> Asked<'_, L> {
    ghost use Rattle.std.specs.Prelude.{◌≡◌, ◌≢◌, ◌+◌, ◌≤◌, ◌<◌, ◌^◌, ℕ, All, None, Some, false, true, length, slice_index, slice_index_or, IfOk, IfSome};
    ghost use Rattle.search_laws.specs.{HasMove, IsLetter};
    ghost use Rattle.timetable_arcs.specs.{no_call, pattern_trip};
    ghost use Rattle.sweeps.specs.{time_at};
    ghost use Rattle.rounds.specs.Rounds.{AreRounds};
    ghost use Rattle.rounds.specs.Lines.{Line};
    ghost use Rattle.rounds.specs.inside.{asked_of, AreCrossedOn, AreCrossingsReached, AreRidden, AreRiding, IsLineOf, IsRiddenAlong, HaveShape, WayIsCrossed, WayReaches, Reaches, arrival_way, crossing_node, never, row_of};

    /// Takes rides along each pattern from the crossings that are reached sooner than rides were taken from them last, in each state.
    /// Whether a crossing is reached sooner by that; if all fits.
    pub(crate) fn ride_all(
        &self,
        alloc: Global,
        rows: &mut Vec<Vec<u32>>,
        rides: &mut Vec<Vec<u32>>,
        pass: &mut Pass,
    ) -> Result<Option<bool>, AllocError>
        requires is { AreRounds self.now.rounds.now }
        requires early { self.now.dep < 2 ^ 64 }
        requires riding { AreRiding (asked_of self.now) rows.old.items rides.old.items }
        ensures riding { IfOk result (λ done. IfSome done (λ _. AreRiding (asked_of self.now) rows.new.items
            rides.new.items)) }
        ensures taken { IfOk result (λ done. IfSome done (AreCrossedOn (asked_of self.now) rows.old.items
            rows.new.items)) }
        ensures all { IfOk result (λ done. IfSome done (λ changed. changed ≡ false → (q : ℕ)
            → q < (L.automaton self.now.machine.now.labels).states
            → row_of rides.new.items q ≡ row_of rows.new.items q)) }
    {
        let mut changed = false;
        for state in 0..self.machine.labels.states() {
            let Some(ridden) = self.ride_in(alloc, state, rows, rides, pass)? else {
                return Ok(None);
            };
            changed |= ridden;
        }
        Ok(Some(changed))
    }

    /// The same in one state.
    fn ride_in(
        &self,
        alloc: Global,
        state: u32,
        rows: &mut Vec<Vec<u32>>,
        rides: &mut Vec<Vec<u32>>,
        pass: &mut Pass,
    ) -> Result<Option<bool>, AllocError>
        requires state { state < (L.automaton self.now.machine.now.labels).states }
        requires is { AreRounds self.now.rounds.now }
        requires early { self.now.dep < 2 ^ 64 }
        requires riding { AreRiding (asked_of self.now) rows.old.items rides.old.items }
        ensures riding { IfOk result (λ done. IfSome done (λ _. AreRiding (asked_of self.now) rows.new.items
            rides.new.items)) }
        ensures taken { IfOk result (λ done. IfSome done (AreCrossedOn (asked_of self.now) rows.old.items
            rows.new.items)) }
        ensures here { IfOk result (λ done. IfSome done (λ _. row_of rides.new.items state
            ≡ row_of rows.old.items state)) }
        ensures others { IfOk result (λ done. IfSome done (λ _. (q : ℕ) → q ≢ state
            → row_of rides.new.items q ≡ row_of rides.old.items q)) }
    {
        let delays = Vec::from_slice(alloc, &rows[state as usize])?;
        let before = &rides[state as usize];
        let Some(changed) = self.ride_from(state, &delays, before, rows, pass)? else {
            return Ok(None);
        };
        rides[state as usize] = delays;
        Ok(Some(changed))
    }

    /// Takes rides along each pattern from the crossings with these delays in a state, where those before were longer. Whether a
    /// crossing is reached sooner by that; if all fits.
    fn ride_from(
        &self,
        state: u32,
        delays: &[u32],
        before: &[u32],
        rows: &mut Vec<Vec<u32>>,
        pass: &mut Pass,
    ) -> Result<Option<bool>, AllocError>
        requires state { state < (L.automaton self.now.machine.now.labels).states }
        requires is { AreRounds self.now.rounds.now }
        requires early { self.now.dep < 2 ^ 64 }
        requires crossings { AreCrossingsReached (asked_of self.now) rows.old.items }
        requires each { length delays.now ≡ length self.now.rounds.now.crossings.items }
        requires each_before { length before.now ≡ length self.now.rounds.now.crossings.items }
        requires reached { (j : ℕ) → j < length delays.now → time_at delays.now j < never
            → Reaches (asked_of self.now) (crossing_node (asked_of self.now) j) state
            (self.now.dep + time_at delays.now j) }
        requires ridden { (p : ℕ) (line : Line) → IsLineOf (asked_of self.now) p line → IsRiddenAlong
            (asked_of self.now) rows.old.items state p line.crossings.items before.now }
        ensures taken { IfOk result (λ done. IfSome done (AreCrossedOn (asked_of self.now) rows.old.items
            rows.new.items)) }
        ensures ridden { IfOk result (λ done. IfSome done (λ _. (p : ℕ) (line : Line)
            → IsLineOf (asked_of self.now) p line → IsRiddenAlong (asked_of self.now) rows.new.items state p
            line.crossings.items delays.now)) }
    {
        if delays == before {
            return Ok(Some(false));
        }
        let mut changed = false;
        for pattern in 0..self.rounds.timetable.patterns() {
            if self.is_sooner(state, pattern, delays, before) {
                let Some(ridden) = self.ride_along(state, pattern, delays, rows, pass)? else {
                    return Ok(None);
                };
                changed |= ridden;
            }
        }
        Ok(Some(changed))
    }

    /// Whether a pattern can be ridden in a state, from a crossing whose delay is shorter than before.
    fn is_sooner(&self, state: u32, pattern: u32, delays: &[u32], before: &[u32]) -> bool
        requires state { state < (L.automaton self.now.machine.now.labels).states }
        requires pattern { pattern < length self.now.rounds.now.timetable.now.patterns }
        requires is { AreRounds self.now.rounds.now }
        requires each { length delays.now ≡ length self.now.rounds.now.crossings.items }
        requires each_before { length before.now ≡ length self.now.rounds.now.crossings.items }
        ensures { result ≡ false → (line : Line) (board r : ℕ)
            → IsLineOf (asked_of self.now) pattern line
            → HasMove (L.automaton self.now.machine.now.labels) state
            (pattern_trip self.now.rounds.now.timetable.now pattern).letter r
            → board < length (pattern_trip self.now.rounds.now.timetable.now pattern).calls
            → (slice_index_or (pattern_trip self.now.rounds.now.timetable.now pattern).calls board no_call).board
            ≡ true → time_at before.now (slice_index line.crossings.items board)
            ≤ time_at delays.now (slice_index line.crossings.items board) }
    {
        let timetable = self.rounds.timetable;
        let letter = timetable.pattern_letter(pattern);
        if self.machine.targets_of(state, letter).is_empty() {
            return false;
        }
        let line = &self.rounds.lines[pattern as usize].crossings;
        for (place, call) in timetable.pattern_calls(pattern).iter().enumerate() {
            let crossing = line[place] as usize;
            if call.board && delays[crossing] < before[crossing] {
                return true;
            }
        }
        false
    }

    /// Takes rides along a pattern from the crossings with these delays in a state. Whether a crossing is reached sooner by that; if
    /// all fits.
    fn ride_along(
        &self,
        state: u32,
        pattern: u32,
        delays: &[u32],
        rows: &mut Vec<Vec<u32>>,
        pass: &mut Pass,
    ) -> Result<Option<bool>, AllocError>
        requires state { state < (L.automaton self.now.machine.now.labels).states }
        requires pattern { pattern < length self.now.rounds.now.timetable.now.patterns }
        requires is { AreRounds self.now.rounds.now }
        requires early { self.now.dep < 2 ^ 64 }
        requires crossings { AreCrossingsReached (asked_of self.now) rows.old.items }
        requires each { length delays.now ≡ length self.now.rounds.now.crossings.items }
        requires reached { (j : ℕ) → j < length delays.now → time_at delays.now j < never
            → Reaches (asked_of self.now) (crossing_node (asked_of self.now) j) state
            (self.now.dep + time_at delays.now j) }
        ensures taken { IfOk result (λ done. IfSome done (AreCrossedOn (asked_of self.now) rows.old.items
            rows.new.items)) }
        ensures ridden { IfOk result (λ done. IfSome done (λ _. (line : Line)
            → IsLineOf (asked_of self.now) pattern line → IsRiddenAlong (asked_of self.now) rows.new.items state
            pattern line.crossings.items delays.now)) }
    {
        self.rounds.network.known();
        self.rounds.hierarchy.known();
        let line = &self.rounds.lines[pattern as usize].crossings;
        reached_along(line, delays, self.dep, &mut pass.reached)?;
        arrivals_along(
            self.rounds.timetable,
            pattern,
            &pass.reached,
            &mut pass.arrivals,
        )?;
        let letter = self.rounds.timetable.pattern_letter(pattern);
        Ok(self.arrive_along(state, letter, line, &pass.arrivals, rows))
    }

    /// Takes the arrivals at the crossings of a line by a letter in a state. Whether a crossing is reached sooner by that; if all
    /// fits.
    fn arrive_along(
        &self,
        state: u32,
        letter: u8,
        line: &[u32],
        arrivals: &[Option<Time>],
        rows: &mut Vec<Vec<u32>>,
    ) -> Option<bool>
        requires state { state < (L.automaton self.now.machine.now.labels).states }
        requires letter { IsLetter letter }
        requires each { length arrivals.now ≡ length line.now }
        requires line { All (λ j. j < length self.now.rounds.now.crossings.items) line.now }
        requires crossings { AreCrossingsReached (asked_of self.now) rows.old.items }
        requires reached { (k at : ℕ) → slice_index_or arrivals.now k None ≡ Some at → WayReaches
            (asked_of self.now) state (arrival_way (asked_of self.now) letter (slice_index line.now k) at) }
        ensures taken { IfSome result (AreCrossedOn (asked_of self.now) rows.old.items rows.new.items) }
        ensures crossed { IfSome result (λ _. (k at : ℕ) → slice_index_or arrivals.now k None ≡ Some at
            → WayIsCrossed (asked_of self.now) rows.new.items state
            (arrival_way (asked_of self.now) letter (slice_index line.now k) at)) }
    {
        let mut changed = false;
        for (place, arrival) in arrivals.iter().enumerate() {
            if let Some(at) = *arrival {
                changed |= self.arrive(state, letter, line[place], at, rows)?;
            }
        }
        Some(changed)
    }

    /// Takes one arrival. Whether the crossing is reached sooner by that; if it fits.
    fn arrive(
        &self,
        state: u32,
        letter: u8,
        crossing: u32,
        at: Time,
        rows: &mut Vec<Vec<u32>>,
    ) -> Option<bool>
        requires state { state < (L.automaton self.now.machine.now.labels).states }
        requires letter { IsLetter letter }
        requires crossing { crossing < length self.now.rounds.now.crossings.items }
        requires crossings { AreCrossingsReached (asked_of self.now) rows.old.items }
        requires reached { WayReaches (asked_of self.now) state (arrival_way (asked_of self.now) letter crossing at) }
        ensures taken { IfSome result (AreCrossedOn (asked_of self.now) rows.old.items rows.new.items) }
        ensures crossed { IfSome result (λ _. WayIsCrossed (asked_of self.now) rows.new.items state
            (arrival_way (asked_of self.now) letter crossing at)) }
    {
        let delay = delay_of(at, self.dep)?;
        let states = self.machine.targets_of(state, letter);
        Some(lower_each(rows, states, crossing, delay))
    }
}

/// Puts in `reached` when one is at the crossings of a line that have these delays after a departure. What was in it before is
/// dropped.
fn reached_along(
    line: &[u32],
    delays: &[u32],
    dep: Time,
    reached: &mut Vec<Option<Time>>,
) -> Result<(), AllocError>
    requires line { All (λ j. j < length delays.now) line.now }
    requires early { dep < 2 ^ 64 }
    ensures { OnOk result (reached.new.items ≡ map (λ j. time_after dep (time_at delays.now j)) line.now) }
{
    reached.clear();
    for crossing in line {
        reached.push(time_after(dep, delays[*crossing as usize]))?;
    }
    Ok(())
}

/// The time so long after a departure; None for never.
fn time_after(dep: Time, delay: u32) -> Option<Time>
    requires { dep < 2 ^ 64 }
    ensures { result ≡ time_after dep delay }
{
    if delay < NEVER {
        Some(dep + Time::from(delay))
    } else {
        None
    }
}
