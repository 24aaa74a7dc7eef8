//! The crossings along the patterns of a timetable.

ghost use Rattle.std.specs.Prelude.{◌<◌, All, IfOk, IfSome, length};
ghost use Rattle.timetable_arcs.specs.Table.{IsTable};
ghost use Rattle.mode_network.specs.Timetables.{IsTimetableOf};
ghost use Rattle.rounds.specs.Lines.{IsLine, AreLines};

use mode_network::Network;
use std::alloc::{AllocError, Global};
use sweeps::Places;
use timetable_arcs::{Call, Timetable};

/// The crossings of the calls of a pattern, by their places.
#[derive(Drop)]
pub struct Line {
    pub crossings: Vec<u32>,
}

/// The lines of all patterns of a network's timetable. None where a call is at a stop that is no crossing.
pub(crate) fn lines_of(
    alloc: Global,
    network: &Network,
    timetable: &Timetable,
    places: Places<'_>,
) -> Result<Option<Vec<Line>>, AllocError>
    requires table { IsTable timetable.now }
    requires of { IsTimetableOf network.now timetable.now }
    ensures { IfOk result (λ made. IfSome made (λ lines. AreLines network.now timetable.now places.entry.nodes.now
        lines.items)) }
{
    network.known();
    let mut lines = Vec::new(alloc);
    for pattern in 0..timetable.patterns() {
        let calls = timetable.pattern_calls(pattern);
        let Some(line) = line_of(alloc, network, calls, places)? else {
            return Ok(None);
        };
        lines.push(line)?;
    }
    Ok(Some(lines))
}

/// The line of a pattern with these calls. None where one of them is at a stop that is no crossing.
fn line_of(
    alloc: Global,
    network: &Network,
    calls: &[Call],
    places: Places<'_>,
) -> Result<Option<Line>, AllocError>
    requires { All (λ call. call.stop < length network.now.stop_names) calls.now }
    ensures { IfOk result (λ made. IfSome made (λ line. IsLine network.now places.entry.nodes.now calls.now
        line.crossings.items)) }
{
    let mut crossings = Vec::with_capacity(alloc, calls.len())?;
    for call in calls {
        let Some(place) = places.place_of(network.stop_node(call.stop)) else {
            return Ok(None);
        };
        crossings.push(place)?;
    }
    Ok(Some(Line { crossings }))
}
