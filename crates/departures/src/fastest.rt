//! How long rides take at least.

ghost use Rattle.std.specs.Prelude.{◌≡◌, ◌<◌, ◌-◌, ◌*◌, ◌^◌, length, IfOk};
ghost use Rattle.timetable_arcs.specs.declared.trips.Instance.{Instance};
ghost use Rattle.timetable_arcs.specs.Patterns.{IsIn, trip_at};
ghost use Rattle.departures.specs.Fastest.{NoneIsFaster, fastest_call};
ghost use Rattle.departures.specs.inside.Stretches.{shortened, AreShortened, FitBetweenCalls, calls_from};

use std::alloc::{AllocError, Global};
use std::marker::Model;
use timetable_arcs::{Call, Timetable};

/// When a run arrives at a call, and when it departs, in seconds.
#[derive(Clone, Copy)]
pub struct FastestCall {
    pub arrive: u32,
    pub depart: u32,
}

/// A run that rides from each call of a pattern to each later one no slower than any run of the pattern does, though none may
/// run so. A contract sees its calls.
#[derive(Drop)]
pub struct FastestRun {
    calls: Vec<FastestCall>,
}

impl Model for FastestRun {
    ghost use Rattle.std.specs.Prelude.{List};
    ghost use Rattle.departures.specs.declared.fastest.FastestCall.{FastestCall};

    ghost Value = { List FastestCall };

    ghost view = { λ run. run.calls.items };
}

/// How many seconds runs take at least to the next call: from when they depart, and from when they arrive.
#[derive(Clone, Copy)]
pub(crate) struct Stretch {
    pub ride: u32,
    pub pass: u32,
}

/// The lesser times of a stretch and of a run between these calls.
fn shortened(stretch: Stretch, from: Call, to: Call) -> Stretch
    ensures { result ≡ shortened stretch from to }
{
    Stretch {
        ride: stretch.ride.min(to.arr.saturating_sub(from.dep)),
        pass: stretch.pass.min(to.arr.saturating_sub(from.arr)),
    }
}

/// Makes stretches no longer than those of a run with these calls.
fn shorten(stretches: &mut [Stretch], calls: &[Call])
    ensures shorter { AreShortened stretches.old stretches.new }
    ensures within { FitBetweenCalls calls.now stretches.new }
{
    for k in 0..stretches.len() {
        if k + 1 < calls.len() {
            stretches[k] = shortened(stretches[k], calls[k], calls[k + 1]);
        }
    }
}

/// How long the runs of a pattern take at least from each of its calls to the next.
fn stretches_of(
    alloc: Global,
    timetable: &Timetable,
    pattern: u32,
) -> Result<Vec<Stretch>, AllocError>
    requires { pattern < length timetable.now.patterns }
    ensures { IfOk result (λ stretches. (run : Instance) → IsIn timetable.now pattern run
        → FitBetweenCalls (trip_at timetable.now run.trip).calls stretches.items) }
{
    timetable.known();
    let longest = Stretch {
        ride: 0xffff_ffff,
        pass: 0xffff_ffff,
    };
    let mut stretches = Vec::new(alloc);
    stretches.resize(
        timetable.pattern_calls(pattern).len().saturating_sub(1),
        longest,
    )?;
    let mut time = 0;
    while let Some(run) = timetable.next(pattern, 0, time) {
        shorten(&mut stretches, timetable.run_calls(run));
        let (_, departure) = timetable.at(run.trip, run.day, 0);
        time = departure + 1;
    }
    Ok(stretches)
}

/// The run that takes so long from each call to the next.
fn run_of(alloc: Global, stretches: &[Stretch]) -> Result<FastestRun, AllocError>
    ensures { IfOk result (λ run. run ≡ calls_from 0 stretches.now) }
{
    let mut calls = Vec::new(alloc);
    let mut arrive = 0;
    for stretch in stretches {
        let next = stretch.pass.saturating_add(arrive);
        calls.push(FastestCall {
            arrive,
            depart: next.saturating_sub(stretch.ride),
        })?;
        arrive = next;
    }
    calls.push(FastestCall {
        arrive,
        depart: arrive,
    })?;
    Ok(FastestRun { calls })
}

/// A fastest run for each pattern.
pub(crate) fn fastest_runs(
    alloc: Global,
    timetable: &Timetable,
) -> Result<Vec<FastestRun>, AllocError>
    ensures { IfOk result (λ runs. NoneIsFaster timetable.now runs.items) }
{
    timetable.known();
    let mut runs = Vec::new(alloc);
    for pattern in 0..timetable.patterns() {
        let stretches = stretches_of(alloc, timetable, pattern)?;
        runs.push(run_of(alloc, &stretches)?)?;
    }
    Ok(runs)
}

/// The call of a run at this place; both times are 0 where there is none.
pub(crate) fn fastest_call(run: &[FastestCall], place: u32) -> FastestCall
    ensures { result ≡ fastest_call run.now place }
{
    match run.get(place as usize) {
        Some(call) => *call,
        None => FastestCall {
            arrive: 0,
            depart: 0,
        },
    }
}

/// How many milliseconds a run rides that departs then, up to a call.
pub(crate) fn ms_to(run: &[FastestCall], depart: u32, alight: u32) -> u64
    ensures value { result ≡ 1000 * ((fastest_call run.now alight).arrive - depart) }
    ensures small { result < 2 ^ 42 }
{
    1000 * u64::from(fastest_call(run, alight).arrive.saturating_sub(depart))
}

impl FastestRun {
    ghost use Rattle.std.specs.Prelude.{◌≡◌, ◌<◌, ◌^◌};
    ghost use Rattle.departures.specs.Fastest.{ride_ms};

    /// Its calls.
    pub(crate) fn calls(&self) -> &[FastestCall]
        ensures { result.now ≡ self.now }
    {
        &self.calls
    }

    /// How many milliseconds it rides from a call to a later one.
    pub(crate) fn ride_ms(&self, board: u32, alight: u32) -> u64
        ensures value { result ≡ ride_ms self.now board alight }
        ensures small { result < 2 ^ 42 }
    {
        let run = self.calls();
        ms_to(run, fastest_call(run, board).depart, alight)
    }
}
