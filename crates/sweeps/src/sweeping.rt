//! Sweeps over sheets and slopes.

ghost use Rattle.std.specs.Prelude.{◌<◌, All, length};
ghost use Rattle.sweeps.specs.inside.Steps.{IsLowered, AreSpread, IsGathered};

use crate::sheet::Sheet;
use crate::slope::Slope;
use search_laws::Leg;

impl Sheet {
    ghost use Rattle.std.specs.Prelude.{◌≡◌, ◌^◌, length};
    ghost use Rattle.sweeps.specs.Sheets.{IsWhole, LeadsUp, LeadsBetween};
    ghost use Rattle.sweeps.specs.Sweeps.{AreWalked, AreClosed};

    /// Makes times earlier by walks from place to place, by one sweep up and one down. Where the sheet is whole, those below the
    /// limit are then as early as walks from any place make them. Times are in milliseconds since one moment, and the greatest
    /// number stands for never. Nothing is taken up from a place whose time is the limit or later.
    pub fn sweep(&self, times: &mut [u32], limit: u32)
        requires each { length times.old ≡ length self.now.slope.nodes.items }
        ensures walked { AreWalked (LeadsBetween self.now) times.old times.new }
        ensures closed { IsWhole self.now → AreClosed (LeadsBetween self.now) limit times.new }
    {
        self.sweep_up(times, limit);
        self.slope.sweep_down(times);
    }

    /// Takes each place from the lowest on, and what leads up from there.
    fn sweep_up(&self, times: &mut [u32], limit: u32)
        requires each { length times.old ≡ length self.now.slope.nodes.items }
        ensures walked { AreWalked (LeadsUp self.now) times.old times.new }
        ensures closed { AreClosed (LeadsUp self.now) limit times.new }
    {
        for i in 0..self.slope.nodes.len() {
            let t = times[i];
            if t < limit {
                spread(times, t, self.ups.row(i));
            }
        }
    }
}

impl Slope {
    ghost use Rattle.std.specs.Prelude.{◌≡◌, ◌^◌, length};
    ghost use Rattle.sweeps.specs.Slopes.{LeadsDown};
    ghost use Rattle.sweeps.specs.Sweeps.{AreWalked, AreClosed};

    /// Makes times earlier by walks down from place to place: takes each place from the highest on, and what leads down to there.
    /// They are then as early as such walks from any place make them, as far as that is less than 2^32 ms. Times are in milliseconds
    /// since one moment, and the greatest number stands for never.
    pub fn sweep_down(&self, times: &mut [u32])
        requires each { length times.old ≡ length self.now.nodes.items }
        ensures walked { AreWalked (LeadsDown self.now) times.old times.new }
        ensures closed { AreClosed (LeadsDown self.now) (2 ^ 32) times.new }
    {
        for i in (0..self.nodes.len()).rev() {
            times[i] = gathered(times, times[i], self.downs.row(i));
        }
    }
}

/// Makes the times at the ends of legs no later than they are reached from a place at a time.
#[inline(always)]
fn spread(times: &mut [u32], t: u32, legs: &[Leg])
    requires { All (λ leg. leg.to < length times.old) legs.now }
    ensures { AreSpread t legs.now times.old times.new }
{
    for leg in legs {
        lower(times, leg.to as usize, t.saturating_add(leg.ms));
    }
}

/// Makes the time at a place no later than this.
#[inline(always)]
fn lower(times: &mut [u32], place: usize, t: u32)
    requires { place < length times.old }
    ensures { IsLowered place t times.old times.new }
{
    if t < times[place] {
        times[place] = t;
    }
}

/// The least of a time and those at which one comes down to a place.
#[inline(always)]
fn gathered(times: &[u32], t: u32, legs: &[Leg]) -> u32
    requires { All (λ leg. leg.to < length times.now) legs.now }
    ensures { IsGathered times.now t legs.now result }
{
    let mut least = t;
    for leg in legs {
        least = least.min(times[leg.to as usize].saturating_add(leg.ms));
    }
    least
}
