//! Journeys that set off as late as their first ride lets them.

ghost use Rattle.std.specs.Prelude.{◌≡◌, ◌+◌, ◌<◌, All, IfOk, OnOk};
ghost use Rattle.search_laws.specs.Times.{time_bound};
ghost use Rattle.few_boardings.specs.Boardings.{is_ride};
ghost use Rattle.journey.specs.Ends.{HasTime, HasTimes};
ghost use Rattle.departures.specs.inside.SettingOff.{is_wait, with_step_unless_wait, unwaited, waiting, MayLeaveLater, IsSetOff};

use journey::step_end;
use mode_network::{Journey, Network, Step};
use search_laws::Time;
use std::alloc::{AllocError, Global};

/// Whether a step is a ride.
fn is_ride(step: &Step) -> bool
    ensures { result ≡ is_ride step.now }
{
    matches!(step, Step::Ride { .. })
}

/// Whether a step is a wait.
fn is_wait(step: &Step) -> bool
    ensures { result ≡ is_wait step.now }
{
    matches!(step, Step::Wait { .. })
}

/// Appends a step, unless it is a wait and no ride stands before it.
fn push_unless_waiting(kept: &mut Vec<Step>, step: Step, ridden: bool) -> Result<(), AllocError>
    ensures { OnOk result (kept.new.items ≡ with_step_unless_wait ridden step kept.old.items) }
{
    if ridden || !is_wait(&step) {
        kept.push(step)?;
    }
    Ok(())
}

/// The steps without the waits that stand before their first ride.
fn unwaited(alloc: Global, steps: &[Step]) -> Result<Vec<Step>, AllocError>
    ensures { IfOk result (λ kept. kept.items ≡ unwaited steps.now) }
{
    let mut kept = Vec::with_capacity(alloc, steps.len())?;
    let mut ridden = false;
    for step in steps {
        push_unless_waiting(&mut kept, *step, ridden)?;
        ridden |= is_ride(step);
    }
    Ok(kept)
}

/// How long a step waits that is taken at `t`.
fn waiting(step: Step, t: Time) -> Time
    ensures { result ≡ waiting step t }
{
    match step {
        Step::Wait { until } => until.saturating_sub(t),
        _ => 0,
    }
}

/// How long one waits before the first ride of steps that begin at `start` at the time `at`.
fn waited(network: &Network, start: u32, at: Time, steps: &[Step]) -> Time
    requires at { at < time_bound }
    requires waits { All HasTime steps.now }
    ensures later { MayLeaveLater network.now start at steps.now result }
    ensures soon { at + result < time_bound }
{
    network.known();
    network.days().known();
    let mut end = (start, at);
    let mut waited = 0;
    for step in steps {
        if is_ride(step) {
            return waited;
        }
        let Some(next) = step_end(network, end.0, end.1, *step) else {
            return waited;
        };
        waited += waiting(*step, end.1);
        end = (next.node, next.at);
    }
    waited
}

/// The journey without the waits before its first ride: it leaves later by as long, and is as early at its end.
pub(crate) fn set_off(
    alloc: Global,
    network: &Network,
    journey: &Journey,
) -> Result<Journey, AllocError>
    requires { HasTimes journey.now }
    ensures { IfOk result (IsSetOff network.now journey.now) }
{
    let later = waited(network, journey.start, journey.at, &journey.steps);
    let steps = unwaited(alloc, &journey.steps)?;
    Ok(Journey {
        start: journey.start,
        at: journey.at + later,
        steps,
    })
}
