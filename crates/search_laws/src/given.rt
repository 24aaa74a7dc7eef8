//! Which runs a search was given, so that their rides need not be given again.

ghost use Rattle.std.specs.Prelude.{◌≡◌, ◌⊎◌, Contains, Some, IfSome, IfOk, OnOk};
ghost use Rattle.search_laws.specs.Fresh.{HoldsRun, KnowsBy, IsRunNoted};

use std::alloc::{AllocError, Global};

/// For how many runs there is a place at first.
const FIRST_PLACES: usize = 1024;
/// For how many there is one at most.
const MOST_PLACES: usize = 0x4_0000;
/// In how many places next to each other the runs of a line are kept for a state.
const PLACES_OF_A_LINE: usize = 4;

/// A run whose rides to the calls behind one were given to a state: the line that it is of, and its place among the runs of
/// the line.
#[derive(Clone, Copy)]
pub struct GivenRun {
    pub state: u32,
    pub line: u32,
    pub run: u64,
    pub call: u32,
}

/// Runs that a search was given, those of a line and a state in a few places that hang on their numbers. A run that loses its
/// place to another is not known any more. Where other lines take many places, there come twice as many.
#[derive(Drop)]
pub struct GivenRuns {
    pub cells: Vec<Option<GivenRun>>,
    /// How many lost their place to another line since the places were made.
    lost: usize,
}

impl GivenRuns {
    /// No runs. Takes no memory.
    pub fn new(alloc: Global) -> GivenRuns
        ensures { (run : GivenRun) → HoldsRun result run → ⊥ }
    {
        GivenRuns {
            cells: Vec::new(alloc),
            lost: 0,
        }
    }

    /// The first call such that the rides to those behind it were given to the state, by this run of a line or one before it,
    /// as far as that is known.
    #[inline(always)]
    pub fn call(&self, state: u32, line: u32, run: u64) -> Option<u32>
        ensures { IfSome result (KnowsBy self.now state line run) }
    {
        let first = first_place(self.cells.len(), state, line);
        let mut least = None;
        for i in 0..PLACES_OF_A_LINE {
            least = self.lesser(least, first | i, state, line, run);
        }
        least
    }

    /// The lesser of a call and the one that a place has, if that is of this run of the line or one before it.
    #[inline(always)]
    fn lesser(
        &self,
        least: Option<u32>,
        place: usize,
        state: u32,
        line: u32,
        run: u64,
    ) -> Option<u32>
        requires { IfSome least (KnowsBy self.now state line run) }
        ensures { IfSome result (KnowsBy self.now state line run) }
    {
        match self.run_in(place) {
            Some(it) if it.state == state && it.line == line && it.run <= run => match least {
                Some(call) if call <= it.call => least,
                _ => Some(it.call),
            },
            _ => least,
        }
    }

    /// The run in a place, if there is one.
    #[inline(always)]
    fn run_in(&self, place: usize) -> Option<GivenRun>
        ensures { IfSome result (HoldsRun self.now) }
    {
        *self.cells.get(place)?
    }

    /// Notes a run. Fails where memory runs out.
    pub fn note(&mut self, run: GivenRun) -> Result<(), AllocError>
        ensures { OnOk result (IsRunNoted self.old self.new run) }
    {
        self.make_room()?;
        let is_lost = put(&mut self.cells, run);
        self.lost = self.lost.saturating_add(usize::from(is_lost));
        Ok(())
    }

    /// Makes more places, if there are none or an eighth of them was lost to other lines.
    fn make_room(&mut self) -> Result<(), AllocError>
        ensures { OnOk result ((run : GivenRun) → HoldsRun self.new run → HoldsRun self.old run) }
    {
        let places = self.cells.len();
        if self.lost >= places / 8 && places < MOST_PLACES {
            let mut cells = no_runs(*self.cells.allocator(), more_places(places))?;
            put_all(&mut cells, &self.cells);
            self.cells = cells;
            self.lost = 0;
        }
        Ok(())
    }
}

/// Twice as many places, between the first count and the greatest.
fn more_places(places: usize) -> usize {
    (2 * places.min(MOST_PLACES / 2)).max(FIRST_PLACES)
}

/// So many places without a run.
fn no_runs(alloc: Global, places: usize) -> Result<Vec<Option<GivenRun>>, AllocError>
    ensures { IfOk result (λ cells. (run : GivenRun) → Contains cells.items (Some run) → ⊥) }
{
    let mut cells = Vec::new(alloc);
    cells.resize(places, None)?;
    Ok(cells)
}

/// Puts runs in their places.
fn put_all(cells: &mut Vec<Option<GivenRun>>, runs: &[Option<GivenRun>])
    ensures { (run : GivenRun) → Contains cells.new.items (Some run) → Contains cells.old.items (Some run)
        ⊎ Contains runs.now (Some run) }
{
    for run in runs {
        if let Some(it) = *run {
            put(cells, it);
        }
    }
}

/// Puts a run in one of the places of its line, if there are places. Whether another line lost it.
#[inline(always)]
fn put(cells: &mut Vec<Option<GivenRun>>, run: GivenRun) -> bool
    ensures { (other : GivenRun) → Contains cells.new.items (Some other)
        → Contains cells.old.items (Some other) ⊎ (other ≡ run) }
{
    let place = place_for(cells, run);
    let is_lost = is_of_another_line(cells, place, run);
    if place < cells.len() {
        cells[place] = Some(run);
    }
    is_lost
}

/// The place that a run gets: one that is free for it, if there is one.
fn place_for(cells: &[Option<GivenRun>], run: GivenRun) -> usize {
    let first = first_place(cells.len(), run.state, run.line);
    for i in 0..PLACES_OF_A_LINE {
        if is_free_for(cells, first | i, run) {
            return first | i;
        }
    }
    first | run.call as usize % PLACES_OF_A_LINE
}

/// Whether a place has a run of another line, or of another state.
fn is_of_another_line(cells: &[Option<GivenRun>], place: usize, run: GivenRun) -> bool {
    match cells.get(place) {
        Some(Some(it)) => it.state != run.state || it.line != run.line,
        _ => false,
    }
}

/// Whether a place has no run, or one that this run stands in for: of the same line and state, no earlier, and given no more
/// of its rides.
#[inline(always)]
fn is_free_for(cells: &[Option<GivenRun>], place: usize, run: GivenRun) -> bool {
    match cells.get(place) {
        Some(Some(it)) => {
            it.state == run.state && it.line == run.line && it.run >= run.run && it.call >= run.call
        }
        _ => true,
    }
}

/// The first of the places for a line and a state among so many, of which there is a power of two. Lines whose numbers are
/// near to each other have places that are not.
#[inline(always)]
fn first_place(places: usize, state: u32, line: u32) -> usize {
    let mixed = u64::from(line) * 40_503 + u64::from(state) * 30_011;
    mixed as usize * PLACES_OF_A_LINE & places.saturating_sub(1)
}
