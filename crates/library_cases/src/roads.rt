//! Road arcs of maps.

use crate::maps::read;
use crate::parts;
use case_script::{Answer, Script};
use opl_reader::Objects;
use plan_base::Caps;
use road_profile::{RoadRow, places_of, road_arcs};
use std::alloc::{AllocError, Global};

/// `roads TEXT [TAGS]`: the road arcs of a map; with tags, of the map and a way with these between nodes 1 and 2.
pub fn roads(out: &mut Answer, script: &Script, words: &[u8]) {
    let map = script.text(parts::word(words, 0));
    if let Ok(way) = way_of(out.alloc(), parts::behind(words, 1)) {
        match read(out.alloc(), Caps::FULL, map, &way) {
            Ok(objects) => print_arcs(out, &objects),
            Err(fault) => out.debug("", &fault),
        }
    }
}

/// The line of a way with tags, if there are any.
fn way_of(alloc: Global, tags: &[u8]) -> Result<Vec<u8>, AllocError> {
    let mut line = Vec::new(alloc);
    if !tags.is_empty() {
        line.extend_from_slice(b"w10 v1 dV T")?;
        line.extend_from_slice(tags)?;
        line.extend_from_slice(b" Nn1,n2\n")?;
    }
    Ok(line)
}

/// The road arcs of a map.
fn arcs_of(alloc: Global, objects: &Objects) -> Result<Vec<RoadRow>, AllocError> {
    let places = places_of(alloc, &objects.nodes)?;
    road_arcs(alloc, &places, objects)
}

fn print_arcs(out: &mut Answer, objects: &Objects) {
    if let Ok(rows) = arcs_of(out.alloc(), objects) {
        for row in &rows {
            out.shown("", row.from);
            out.shown(" to ", row.to);
            out.text(" by ");
            out.text(row.mode.name());
            out.shown(" in ", row.ms);
            out.text("; ");
        }
        out.text("no more");
    }
}
