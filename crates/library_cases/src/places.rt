//! Places, lengths and durations, sets of days, and limits.

use crate::parts;
use case_script::{Answer, words};
use geo_length::{Grid, duration_ms, length_mm, read_degrees};
use plain_texts::read_id;
use plan_base::{Caps, DaySet, Kind, Place};
use std::alloc::{AllocError, Global};

/// `degrees MOST TEXT`: the ten-millionths of a degree that a text spells, of at most so many degrees.
pub fn degrees(out: &mut Answer, words: &[u8]) {
    let most = parts::node(words, 0).min(180);
    out.debug("", read_degrees(parts::behind(words, 1), most));
}

/// `length LAT LON LAT LON`: the millimetres between two places, and how long a walk takes.
pub fn length(out: &mut Answer, words: &[u8]) {
    let (from, to) = (place_at(words, 0), place_at(words, 2));
    if let (Some(from), Some(to)) = (from, to) {
        print_length(out, from, to);
    } else {
        out.debug("places ", from);
        out.debug(", ", to);
    }
}

fn print_length(out: &mut Answer, from: Place, to: Place) {
    let mm = length_mm(from, to);
    out.shown("", mm);
    out.debug(" mm, ", duration_ms(mm, 1400));
    out.text(" ms");
}

/// `walk MM`: how long a walk of this length takes.
pub fn walk(out: &mut Answer, words: &[u8]) {
    out.debug("", duration_ms(words::number(words).min(1 << 39), 1400));
    out.text(" ms");
}

/// How often the grid is asked, how often it finds a point, and how often the look at all points agrees.
#[derive(Clone, Copy)]
struct Asked {
    asked: u32,
    found: u32,
    agree: u32,
}

/// `nearest LAT,.. LON,.. : LAT,.. LON,.. : WITHIN ..`: of two points at each of the first latitudes and longitudes, the one nearest
/// to each place of the others within each length, by the grid; and on how many the look at all points agrees.
pub fn nearest(out: &mut Answer, words: &[u8]) {
    if let Ok(points) = points_of(out.alloc(), words) {
        if let Ok(grid) = Grid::build(out.alloc(), &points) {
            print_asked(out, ask_all(&grid, &points, parts::behind(words, 3)));
        }
    }
}

fn print_asked(out: &mut Answer, asked: Asked) {
    out.shown("", asked.asked);
    out.shown(" asked, ", asked.found);
    out.shown(" found, ", asked.agree);
    out.text(" as a look at all points finds");
}

/// Asks for the point nearest to each place at the latitudes and longitudes.
fn ask_all(grid: &Grid, points: &[(i64, Place)], words: &[u8]) -> Asked {
    let mut asked = Asked {
        asked: 0,
        found: 0,
        agree: 0,
    };
    for i in 0..places(words) {
        if let Some(here) = place_of(words, i) {
            ask(&mut asked, grid, points, here, parts::behind(words, 3));
        }
    }
    asked
}

/// Asks for the point nearest to a place, within each length.
fn ask(asked: &mut Asked, grid: &Grid, points: &[(i64, Place)], here: Place, withins: &[u8]) {
    for i in 0..parts::count(withins, b' ') {
        let within = parts::number(withins, i);
        let nearest = grid.nearest(here, within);
        let agree = nearest == nearest_of(points, here, within);
        asked.asked = asked.asked.saturating_add(1);
        asked.found = asked.found.saturating_add(u32::from(nearest.is_some()));
        asked.agree = asked.agree.saturating_add(u32::from(agree));
    }
}

/// How many places there are at the latitudes of the first word and the longitudes of the second.
fn places(words: &[u8]) -> u32 {
    let lats = parts::count(parts::word(words, 0), b',');
    lats.saturating_mul(parts::count(parts::word(words, 1), b','))
}

/// The place at the latitudes of the first word and the longitudes of the second that comes behind so many others.
fn place_of(words: &[u8], behind: u32) -> Option<Place> {
    let (lats, lons) = (parts::word(words, 0), parts::word(words, 1));
    let count = parts::count(lons, b',').max(1);
    let lat = parts::part(lats, b',', behind / count);
    place(lat, parts::part(lons, b',', behind % count))
}

/// Two points at each place, whose ids differ in their signs.
fn points_of(alloc: Global, words: &[u8]) -> Result<Vec<(i64, Place)>, AllocError> {
    let mut points = Vec::new(alloc);
    for i in 0..places(words) {
        if let Some(place) = place_of(words, i) {
            let id = i64::from(i) + 1;
            points.push((id, place))?;
            points.push((-id, place))?;
        }
    }
    Ok(points)
}

/// The nearest point, of equal ones that of the least id, by a look at all.
fn nearest_of(points: &[(i64, Place)], here: Place, within: u64) -> Option<(i64, u64)> {
    let mut best: Option<(i64, u64)> = None;
    for point in points {
        let mm = length_mm(here, point.1);
        if mm <= within && is_nearer((point.0, mm), best) {
            best = Some((point.0, mm));
        }
    }
    best
}

/// Whether a point is nearer than another one, or as near with a lesser id.
fn is_nearer(point: (i64, u64), other: Option<(i64, u64)>) -> bool {
    match other {
        Some(other) => point.1 < other.1 || (point.1 == other.1 && point.0 < other.0),
        None => true,
    }
}

/// The place that two words spell, of which the first stands behind so many others.
pub fn place_at(words: &[u8], behind: u32) -> Option<Place> {
    let words = parts::behind(words, behind);
    place(parts::word(words, 0), parts::word(words, 1))
}

fn place(lat: &[u8], lon: &[u8]) -> Option<Place> {
    match (read_id(lat), read_id(lon)) {
        (Some(lat), Some(lon)) => Place::new(lat, lon),
        _ => None,
    }
}

/// `set DAY,.. : DAY ..`: the set of the first days, and which of the others are in it.
pub fn set(out: &mut Answer, words: &[u8]) {
    let (members, asked) = (parts::word(words, 0), parts::behind(words, 2));
    let mut set = DaySet::new();
    for i in 0..parts::count(members, b',') {
        set = set.with_day(words::node(parts::part(members, b',', i)) % 128);
    }
    out.hexadecimal("", set.0);
    out.text(":");
    for i in 0..parts::count(asked, b' ') {
        out.shown(" ", set.contains(parts::node(asked, i)));
    }
}

/// `limits [KIND MOST] ..`: the most of each kind, and the most that may be set.
pub fn limits(out: &mut Answer, words: &[u8]) {
    let caps = words::caps(words);
    limit(out, &caps, Kind::Nodes);
    limit(out, &caps, Kind::Arcs);
    limit(out, &caps, Kind::Links);
    limit(out, &caps, Kind::Stops);
    limit(out, &caps, Kind::Trips);
    limit(out, &caps, Kind::Calls);
    limit(out, &caps, Kind::OsmNodes);
    limit(out, &caps, Kind::Ways);
    limit(out, &caps, Kind::Refs);
    limit(out, &caps, Kind::Routes);
    limit(out, &caps, Kind::Services);
    limit(out, &caps, Kind::Dates);
    let same = caps.stops == caps.most(Kind::Stops) && caps.nodes == caps.most(Kind::Nodes);
    out.shown("as the fields say: ", same);
}

fn limit(out: &mut Answer, caps: &Caps, kind: Kind) {
    out.shown("", kind.name());
    out.shown(" ", caps.most(kind));
    out.shown(" of ", kind.most());
    out.text("; ");
}
