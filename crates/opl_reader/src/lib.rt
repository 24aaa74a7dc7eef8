//! Reads maps in OPL, one object on a line, as far as a route planner needs them.
//!
//! Which lines a map may have, and what they say, is decided by the planner's own profile of the format of the
//! Osmium OPL manual, which `docs/MAKE_A_REGION.md` gives to the letter. The text is fed to an [`Opl`] in pieces of
//! any size, which then gives the [`Objects`]: the visible nodes that have a place, and the visible ways with the
//! tags that a road profile reads, cut where the text does not place a node.
#![tactic(auto)]

mod cuts;
mod cutting;
mod escapes;
mod feeding;
mod gathered;
mod ids;
mod lines;
mod lists;
mod objects;
mod reader;
mod references;
mod tags;

pub use feeding::Opl;
pub use lists::Items;
pub use objects::{Amenity, Bytes, Objects, OplFault, OsmNode, OsmWay};
