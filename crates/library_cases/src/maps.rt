//! Maps in OPL.

use crate::parts;
use case_script::{Answer, Script, words};
use opl_reader::{Objects, Opl, OplFault, OsmNode, OsmWay};
use plan_base::Caps;
use std::alloc::{AllocError, Global};

/// `map TEXT [KIND MOST]`: the objects of a map, or its fault.
pub fn map(out: &mut Answer, script: &Script, words: &[u8]) {
    let text = script.text(parts::word(words, 0));
    let caps = words::caps(parts::behind(words, 1));
    match read(out.alloc(), caps, text, b"") {
        Ok(objects) => print_objects(out, &objects),
        Err(fault) => out.debug("", &fault),
    }
}

/// `cuts TEXT`: whether each cut of a map into two pieces gives the same as the whole.
pub fn cuts(out: &mut Answer, text: &[u8]) {
    if let Ok(whole) = told(out.alloc(), text, b"") {
        let mut same = true;
        for cut in 0..=text.len() {
            let (front, back) = text.split_at(cut);
            same = same && is_told_so(out.alloc(), front, back, &whole);
        }
        out.shown("all the same: ", same);
    }
}

/// Whether two pieces of a map give what is told.
fn is_told_so(alloc: Global, front: &[u8], back: &[u8], whole: &str) -> bool {
    match told(alloc, front, back) {
        Ok(told) => told.as_str() == whole,
        Err(_) => false,
    }
}

/// What two pieces of a map give, told.
fn told(alloc: Global, front: &[u8], back: &[u8]) -> Result<String, AllocError> {
    tell(alloc, &read(alloc, Caps::FULL, front, back))
}

fn tell(alloc: Global, read: &Result<Objects, OplFault>) -> Result<String, AllocError> {
    format!(in alloc; "{read:?}")
}

/// `bytewise TEXT`: whether a map gives the same when it is fed byte by byte.
pub fn bytewise(out: &mut Answer, text: &[u8]) {
    if let Ok(told) = tell(out.alloc(), &read_bytewise(out.alloc(), text)) {
        out.shown("the same: ", is_told_so(out.alloc(), text, b"", &told));
    }
}

/// What a text gives that is fed byte by byte. What is fed behind a fault changes nothing.
fn read_bytewise(alloc: Global, text: &[u8]) -> Result<Objects, OplFault> {
    let mut opl = Opl::new(alloc, Caps::FULL);
    for byte in text {
        let _ = opl.feed(&[*byte]);
    }
    opl.finish()
}

/// `again TEXT [KIND MOST]`: what the reader answers to a map, to a line feed and to nothing behind it, and at the end.
pub fn again(out: &mut Answer, script: &Script, words: &[u8]) {
    let caps = words::caps(parts::behind(words, 1));
    let mut opl = Opl::new(out.alloc(), caps);
    out.debug("", opl.feed(script.text(parts::word(words, 0))).err());
    out.debug(", ", opl.feed(b"\n").err());
    out.debug(", ", opl.feed(b"").err());
    out.debug(", ", opl.finish().err());
}

/// What two pieces of a text give. What is fed behind a fault changes nothing.
pub fn read(alloc: Global, caps: Caps, front: &[u8], back: &[u8]) -> Result<Objects, OplFault> {
    let mut opl = Opl::new(alloc, caps);
    let _ = opl.feed(front);
    let _ = opl.feed(back);
    opl.finish()
}

fn print_objects(out: &mut Answer, objects: &Objects) {
    for node in &objects.nodes {
        print_node(out, node);
    }
    for way in &objects.ways {
        print_way(out, way);
    }
    out.text("no fault");
}

fn print_node(out: &mut Answer, node: &OsmNode) {
    out.shown("node ", node.id);
    out.shown(" at ", node.place.lat);
    out.shown(" ", node.place.lon);
    out.debug(" ", node.amenity);
    out.text("; ");
}

fn print_way(out: &mut Answer, way: &OsmWay) {
    out.shown("way ", way.id);
    for tag in way.tags.as_slice() {
        out.shown(" ", words::text(tag.0.as_slice()));
        out.shown("=", words::text(tag.1.as_slice()));
    }
    for piece in way.pieces.as_slice() {
        out.debug(" ", piece.as_slice());
    }
    out.text("; ");
}
