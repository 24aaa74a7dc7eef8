//! The lines of a region text.

use mode_network::Arc;
use plain_texts::Name;
use plan_base::{DaySet, Mode, Place};
use service_days::Days;
use timetable_arcs::Call;

/// The head line, with its line feed.
pub(crate) const HEAD: &[u8] = b"modeplan region 1\n";

/// A line behind the head, which it says by itself: what it means does not hang on the lines around it.
#[derive(Drop)]
pub enum Line {
    /// The days of the region.
    Days(Days),
    /// A road node: its mode, its OSM id and its place.
    Road(Mode, i64, Place),
    /// A stop.
    Stop(Name, Place),
    /// A switch: its OSM id and its place.
    Switch(i64, Place),
    /// A road arc.
    Arc(Arc),
    /// A link.
    Link(Arc),
    /// A trip: its letter, which is 3 for tram to 13 for other, the days on which it runs, how many lines of
    /// its calls follow, and its name.
    Trip {
        letter: u8,
        days: DaySet,
        calls: u32,
        name: Name,
    },
    /// A call of the trip before.
    Call(Call),
    /// The last line.
    End,
}
