//! What every crate of the planner stands on: times, places, sets of days and limits, and the two
//! ends of the program: a shelf, which files are read from, and a sink, which bytes are written to.
//!
//! A shelf and a sink are traits whose ghost member is what they hold, as far as they tell it. Code
//! above is generic over them and proved once; [`MemoryShelf`] and [`MemorySink`] tell everything,
//! [`FolderShelf`] tells what its disk tells, and [`StreamSink`] what its stream tells.
#![tactic(auto)]

pub mod days;
pub mod disks;
pub mod folder_shelf;
pub mod limits;
pub mod memory_ends;
pub mod modes;
pub mod places;
pub mod reading;
pub mod system_ends;
pub mod writing;

pub use days::DaySet;
pub use disks::{Disk, SystemDisk};
pub use folder_shelf::FolderShelf;
pub use limits::{Caps, Kind};
pub use memory_ends::{MemoryShelf, MemorySink};
pub use modes::Mode;
pub use places::Place;
pub use reading::{ReadFault, Shelf, ShelfError, read_whole};
pub use system_ends::StreamSink;
pub use writing::{Sink, SinkFailed, write_all};

/// A point of time: milliseconds of the region clock.
pub type Time = u128;
