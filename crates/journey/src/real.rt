//! Which journeys are real, where they end, and their words.

ghost use Rattle.std.specs.Prelude.{◌<◌, ◌↔◌, All, ℕ, IfOk, IsTrue};
ghost use Rattle.search_laws.specs.Times.{time_bound};
ghost use Rattle.journey.specs.Ends.{AreTaken, HasTime, HasTimes};
ghost use Rattle.journey.specs.Real.{FirstBad, IsReal, IsWalked, EndsAt, HasWord, IsSpelt, AlwaysLeadsTo};

use crate::rides::{alighting, keeps_rules};
use crate::step_ends::step_end;
use crate::telling::append;
use mode_network::{Journey, Network, Step};
use plan_base::Time;
use std::alloc::{AllocError, Global};

/// Where and when the steps that begin at `start` at the time `at` end; or the place of the first that is none.
fn walk(network: &Network, start: u32, at: Time, steps: &[Step]) -> Result<(u32, Time), u64>
    requires at { at < time_bound }
    requires waits { All HasTime steps.now }
    ensures { IsWalked network.now start at steps.now result }
{
    keeps_rules(network);
    let mut end = (start, at);
    let mut place = 0;
    for step in steps {
        let Some(next) = step_end(network, end.0, end.1, *step) else {
            return Err(place);
        };
        end = (next.node, next.at);
        place += 1;
    }
    Ok(end)
}

fn walk_journey(network: &Network, journey: &Journey) -> Result<(u32, Time), u64>
    requires { HasTimes journey.now }
    ensures { IsWalked network.now journey.now.start journey.now.at journey.now.steps result }
{
    walk(network, journey.start, journey.at, &journey.steps)
}

/// The place of the first step of a journey that is no step of the network, from where and when the one before it
/// ended; None exactly where the journey is real.
pub fn first_bad(network: &Network, journey: &Journey) -> Option<u64>
    requires { HasTimes journey.now }
    ensures { FirstBad network.now journey.now result }
{
    match walk_journey(network, journey) {
        Ok(_) => None,
        Err(place) => Some(place),
    }
}

/// Whether a journey is real: each step is one of the network, from where and when the one before it ended.
pub fn is_real(network: &Network, journey: &Journey) -> bool
    requires { HasTimes journey.now }
    ensures { IsTrue result ↔ IsReal network.now journey.now }
{
    keeps_rules(network);
    first_bad(network, journey).is_none()
}

/// The last node of a real journey, and when it arrives there.
pub fn ends(network: &Network, journey: &Journey) -> (u32, Time)
    requires times { HasTimes journey.now }
    requires real { IsReal network.now journey.now }
    ensures { EndsAt network.now journey.now result.0 result.1 }
{
    keeps_rules(network);
    let Ok(end) = walk_journey(network, journey) else {
        unreachable!();
    };
    end
}

/// Where a step from `v` leads whenever it is taken, and its letter.
fn way_of(network: &Network, v: u32, step: Step) -> (u32, Option<u8>)
    ensures { AlwaysLeadsTo network.now v step result.0 result.1 }
{
    match step {
        Step::Wait { .. } => (v, None),
        Step::Road { to } => (to, network.letter(v)),
        Step::Link { to } => (to, None),
        Step::Stand => (v, network.letter(v)),
        Step::Ride { trip, alight, .. } => match alighting(network, trip, alight) {
            Some((node, letter)) => (node, Some(letter)),
            None => (v, None),
        },
    }
}

/// The word of steps that can be taken from `start`, whenever that is.
fn word_of(
    alloc: Global,
    network: &Network,
    start: u32,
    steps: &[Step],
) -> Result<Vec<u8>, AllocError>
    ensures { IfOk result (λ word. (t : ℕ) → AreTaken network.now start t steps.now
        → IsSpelt network.now start t steps.now word.items) }
{
    let mut node = start;
    let mut word = Vec::new(alloc);
    for step in steps {
        let (next, letter) = way_of(network, node, *step);
        append(&mut word, letter)?;
        node = next;
    }
    Ok(word)
}

/// The word of a real journey: the letters of its steps, in which adjacent equal road letters are made one.
pub fn word(alloc: Global, network: &Network, journey: &Journey) -> Result<Vec<u8>, AllocError>
    requires { IsReal network.now journey.now }
    ensures { IfOk result (λ word. HasWord network.now journey.now word.items) }
{
    word_of(alloc, network, journey.start, &journey.steps)
}
