//! Small regions and queries that are drawn from a number.

ghost use Rattle.std.specs.Prelude.{◌<◌};

use case_script::Script;
use std::alloc::{AllocError, Global};

/// Numbers that seem to be thrown.
#[derive(Drop)]
pub struct Dice {
    state: u64,
}

impl Dice {
    pub fn new(seed: u64) -> Dice {
        Dice { state: seed }
    }

    /// The next number below a limit.
    fn below(&mut self, limit: u64) -> u64
        requires { 0 < limit }
        ensures { result < limit }
    {
        self.state = self
            .state
            .wrapping_mul(6_364_136_223_846_793_005)
            .wrapping_add(1_442_695_040_888_963_407);
        (self.state >> 33) % limit
    }

    /// Whether something happens that does so many times in a hundred.
    fn happens(&mut self, percent: u64) -> bool {
        self.below(100) < percent
    }
}

/// How many OSM nodes a drawn region has. The first of them are in the layer for bikes too, each behind itself in the layer for
/// walkers.
const PLACES: u64 = 8;

const BIKES: u64 = 4;

const ROADS: u64 = PLACES + BIKES;

const STOPS: u64 = 3;

/// Begins the text `region` in the script: a region of a foot layer, a bike layer, stops, a switch and trips, in which
/// arcs, links and trips are drawn.
pub fn push_region(alloc: Global, script: &mut Script, dice: &mut Dice) -> Result<(), AllocError> {
    push(alloc, script, "text region")?;
    push(alloc, script, "|modeplan region 1")?;
    push(alloc, script, "|days 20240304 1")?;
    push_nodes(alloc, script)?;
    push_arcs(alloc, script, dice)?;
    push_links(alloc, script, dice)?;
    for trip in 0..6u64 {
        push_trip(alloc, script, dice, trip)?;
    }
    push(alloc, script, "|end")
}

/// Takes a line into the script.
fn push(alloc: Global, script: &mut Script, line: &str) -> Result<(), AllocError> {
    script.takes(alloc, line.as_bytes())?;
    Ok(())
}

/// Takes a line that was made into the script.
fn push_made(
    alloc: Global,
    script: &mut Script,
    line: Result<String, AllocError>,
) -> Result<(), AllocError> {
    let line = line?;
    push(alloc, script, &line)
}

fn push_nodes(alloc: Global, script: &mut Script) -> Result<(), AllocError> {
    for id in 0..PLACES {
        push_made(
            alloc,
            script,
            format!(in alloc; "|node foot {id} 480000000 110000000"),
        )?;
        if id < BIKES {
            push_made(
                alloc,
                script,
                format!(in alloc; "|node bike {id} 480000000 110000000"),
            )?;
        }
    }
    for stop in 0..STOPS {
        push_made(
            alloc,
            script,
            format!(in alloc; "|stop S{stop} 480000000 110000000"),
        )?;
    }
    push(alloc, script, "|switch 50 480000000 110000000")
}

/// Whether a road node is one of the layer for bikes.
fn is_bike(v: u64) -> bool {
    v < 2 * BIKES && v % 2 == 1
}

/// Arcs between the nodes of a layer.
fn push_arcs(alloc: Global, script: &mut Script, dice: &mut Dice) -> Result<(), AllocError> {
    for from in 0..ROADS {
        for to in 0..ROADS {
            if from != to && is_bike(from) == is_bike(to) && dice.happens(35) {
                let ms = 1000 * (1 + dice.below(12));
                push_made(alloc, script, format!(in alloc; "|arc {from} {to} {ms}"))?;
            }
        }
    }
    Ok(())
}

/// Links between road nodes and the stops and the switch behind them.
fn push_links(alloc: Global, script: &mut Script, dice: &mut Dice) -> Result<(), AllocError> {
    for from in 0..ROADS + STOPS + 1 {
        for to in 0..ROADS + STOPS + 1 {
            if (from < ROADS) != (to < ROADS) && dice.happens(12) {
                let ms = 1000 * (1 + dice.below(90));
                push_made(alloc, script, format!(in alloc; "|link {from} {to} {ms}"))?;
            }
        }
    }
    Ok(())
}

/// A bus that calls at each stop from a drawn one on, some minutes behind eight.
fn push_trip(
    alloc: Global,
    script: &mut Script,
    dice: &mut Dice,
    trip: u64,
) -> Result<(), AllocError> {
    let first = dice.below(STOPS - 1);
    let calls = STOPS - first;
    push_made(
        alloc,
        script,
        format!(in alloc; "|trip bus 80 {calls} t{trip}"),
    )?;
    let mut at = 28_800 + dice.below(900);
    for stop in first..STOPS {
        push_made(alloc, script, format!(in alloc; "|call {stop} {at} {at} 3"))?;
        at = at.saturating_add(1 + dice.below(300));
    }
    Ok(())
}

/// Begins the text `queries` in the script: so many queries between drawn nodes, about eight.
pub fn push_queries(
    alloc: Global,
    script: &mut Script,
    dice: &mut Dice,
    count: u64,
) -> Result<(), AllocError> {
    push(alloc, script, "text queries")?;
    for _ in 0..count {
        let (from, to) = (dice.below(PLACES), dice.below(PLACES));
        let (minute, expression) = (10 + dice.below(10), expression(dice.below(8)));
        push_made(
            alloc,
            script,
            format!(in alloc; "|n{from} n{to} 20240304 08:{minute}:00 {expression}"),
        )?;
    }
    Ok(())
}

fn expression(number: u64) -> &'static str {
    match number {
        0 => "foot",
        1 => "(foot|bike)*",
        2 => "foot? (transit foot?){0,3}",
        3 => "foot bus foot",
        4 => "any*",
        5 => "foot bike foot?",
        6 => "foot? bike? foot? bus? foot?",
        _ => "(bus|foot)+",
    }
}
