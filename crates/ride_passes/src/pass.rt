//! One pass along a pattern.

ghost use Rattle.std.specs.Prelude.{◌≡◌, ◌<◌, None, length, OnOk, IfSome, if◌then◌else◌, option_map};
ghost use Rattle.timetable_arcs.specs.{IsIn, arrives, pattern_trip};
ghost use Rattle.ride_passes.specs.{AreArrivalsAlong};
ghost use Rattle.ride_passes.specs.inside.{IsFirstOf, IsBoardedOr};

use plan_base::Time;
use std::alloc::AllocError;
use timetable_arcs::{Call, Instance, Timetable};

/// Puts in `arrivals` for each call of a pattern when the earliest run arrives there that one can have boarded at an earlier call: None
/// where one may not alight, and where there is no such run. `reached` tells for each call when one is there, if one is. Times are in
/// milliseconds of the region clock. What was in `arrivals` before is dropped.
pub fn arrivals_along(
    timetable: &Timetable,
    pattern: u32,
    reached: &[Option<Time>],
    arrivals: &mut Vec<Option<Time>>,
) -> Result<(), AllocError>
    requires pattern { pattern < length timetable.now.patterns }
    requires each { length reached.now ≡ length (pattern_trip timetable.now pattern).calls }
    ensures { OnOk result (AreArrivalsAlong timetable.now pattern reached.now arrivals.new.items) }
{
    timetable.known();
    arrivals.clear();
    let mut boarded = None;
    for (place, call) in timetable.pattern_calls(pattern).iter().enumerate() {
        let arrival = arrival_at(timetable, pattern, call, place as u32, boarded);
        arrivals.push(arrival)?;
        if call.board {
            if let Some(since) = reached[place] {
                boarded = board(timetable, pattern, place as u32, since, boarded);
            }
        }
    }
    Ok(())
}

/// When a run of a pattern arrives at a call, if there is one and one may alight there.
fn arrival_at(
    timetable: &Timetable,
    pattern: u32,
    call: &Call,
    place: u32,
    boarded: Option<Instance>,
) -> Option<Time>
    requires call { place < length (pattern_trip timetable.now pattern).calls }
    requires run { IfSome boarded (IsIn timetable.now pattern) }
    ensures { result ≡ (if call.now.alight then option_map (λ run. arrives timetable.now run place) boarded
        else None) }
{
    if !call.alight {
        return None;
    }
    timetable.known();
    let run = boarded?;
    let (arrival, _) = timetable.at(run.trip, run.day, place);
    Some(arrival)
}

/// The run that is boarded after a call: of the one that was before, if one was, and those that depart from the call at a time or
/// later, the earliest. Where the one before departs by then, none that is earlier still can be caught.
fn board(
    timetable: &Timetable,
    pattern: u32,
    place: u32,
    since: Time,
    boarded: Option<Instance>,
) -> Option<Instance>
    requires pattern { pattern < length timetable.now.patterns }
    requires call { place < length (pattern_trip timetable.now pattern).calls }
    requires run { IfSome boarded (IsIn timetable.now pattern) }
    ensures { IsFirstOf timetable.now pattern (IsBoardedOr timetable.now pattern boarded place since) result }
{
    timetable.known();
    if let Some(run) = boarded {
        let (_, departure) = timetable.at(run.trip, run.day, place);
        if departure <= since {
            return boarded;
        }
    }
    timetable.next(pattern, place, since)
}
