//! What stands at the front of bytes, and the bytes behind it.

ghost use Rattle.std.specs.Prelude.{◌≡◌, option_map, IfOk};
ghost use Rattle.plan_base.specs.Modes.{mode_numbered};
ghost use Rattle.region_file.specs.Fronts as spec;

use crate::counts::Counts;
use crate::kinds::made_days;
use file_records::{i32_front, i64_front, u32_front, u64_front};
use mode_network::{Arc, Node, NodeKey};
use plain_texts::Name;
use plan_base::{DaySet, Mode, Place};
use search_laws::LETTERS;
use service_days::Days;
use std::alloc::{AllocError, Global};
use timetable_arcs::{Call, Trip};

/// What a region in bytes begins with whose days have no zone rule.
pub const PLAIN_MAGIC: &[u8] = b"MPREGN02";

/// What a region in bytes begins with whose days have a zone rule.
pub const ZONED_MAGIC: &[u8] = b"MPREGZ02";

/// A byte below a limit.
fn byte_front(below: u8, bytes: &[u8]) -> Option<(u8, &[u8])>
    ensures { option_map (λ x. (x.0, x.1.now)) result ≡ spec.byte_front below bytes.now }
{
    match bytes {
        [] => None,
        [byte, behind @ ..] => {
            if *byte < below {
                Some((*byte, behind))
            } else {
                None
            }
        }
    }
}

/// Bytes behind their number.
#[tactic(auto, unfolding(crate::specs::Fronts::counted_front))]
fn counted_front(bytes: &[u8]) -> Option<(&[u8], &[u8])>
    ensures { option_map (λ x. (x.0.now, x.1.now)) result ≡ spec.counted_front bytes.now }
{
    let (count, rest) = u32_front(bytes)?;
    let count = count as usize;
    if count <= rest.len() {
        Some((&rest[..count], &rest[count..]))
    } else {
        None
    }
}

/// A name behind the number of its bytes.
#[tactic(auto, unfolding(crate::specs::Fronts::name_front))]
fn name_front(alloc: Global, bytes: &[u8]) -> Result<Option<(Name, &[u8])>, AllocError>
    ensures { IfOk result (λ front. option_map (λ x. (x.0, x.1.now)) front ≡ spec.name_front bytes.now) }
{
    let Some((name, behind)) = counted_front(bytes) else {
        return Ok(None);
    };
    match Name::from_slice(alloc, name)? {
        Some(name) => Ok(Some((name, behind))),
        None => Ok(None),
    }
}

/// A place: a latitude and a longitude in range, in units of 10^-7 degree.
#[tactic(auto, unfolding(crate::specs::Fronts::place_front))]
fn place_front(bytes: &[u8]) -> Option<(Place, &[u8])>
    ensures { option_map (λ x. (x.0, x.1.now)) result ≡ spec.place_front bytes.now }
{
    let (lat, rest) = i32_front(bytes)?;
    let (lon, behind) = i32_front(rest)?;
    let place = Place::new(i64::from(lat), i64::from(lon))?;
    Some((place, behind))
}

/// An OSM id of at most 18 digits.
#[tactic(auto, unfolding(crate::specs::Fronts::id_front))]
fn id_front(bytes: &[u8]) -> Option<(i64, &[u8])>
    ensures { option_map (λ x. (x.0, x.1.now)) result ≡ spec.id_front bytes.now }
{
    let (id, behind) = i64_front(bytes)?;
    if id.unsigned_abs() < 1_000_000_000_000_000_000 {
        Some((id, behind))
    } else {
        None
    }
}

/// The mode with this number.
fn mode_numbered(number: u8) -> Option<Mode>
    ensures { result ≡ mode_numbered number }
{
    match number {
        0 => Some(Mode::Foot),
        1 => Some(Mode::Bike),
        2 => Some(Mode::Car),
        _ => None,
    }
}

/// A mode, by the byte of its number.
fn mode_front(bytes: &[u8]) -> Option<(Mode, &[u8])>
    ensures { option_map (λ x. (x.0, x.1.now)) result ≡ spec.mode_front bytes.now }
{
    match bytes {
        [] => None,
        [number, behind @ ..] => {
            let mode = mode_numbered(*number)?;
            Some((mode, behind))
        }
    }
}

/// A road node.
#[tactic(auto, unfolding(crate::specs::Fronts::road_front))]
pub fn road_front(bytes: &[u8]) -> Option<(Node, &[u8])>
    ensures { option_map (λ x. (x.0, x.1.now)) result ≡ spec.road_front bytes.now }
{
    let (mode, rest) = mode_front(bytes)?;
    let (id, rest) = id_front(rest)?;
    let (place, behind) = place_front(rest)?;
    let key = NodeKey::Road(mode, id);
    Some((Node { key, place }, behind))
}

/// A switch.
#[tactic(auto, unfolding(crate::specs::Fronts::switch_front))]
pub fn switch_front(bytes: &[u8]) -> Option<(Node, &[u8])>
    ensures { option_map (λ x. (x.0, x.1.now)) result ≡ spec.switch_front bytes.now }
{
    let (id, rest) = id_front(bytes)?;
    let (place, behind) = place_front(rest)?;
    let key = NodeKey::Switch(id);
    Some((Node { key, place }, behind))
}

/// The name of a stop, and its place.
#[tactic(auto, unfolding(crate::specs::Fronts::stop_front))]
pub fn stop_front(alloc: Global, bytes: &[u8]) -> Result<Option<((Name, Place), &[u8])>, AllocError>
    ensures { IfOk result (λ front. option_map (λ x. ((x.0.0, x.0.1), x.1.now)) front ≡ spec.stop_front
        bytes.now) }
{
    let Some((name, rest)) = name_front(alloc, bytes)? else {
        return Ok(None);
    };
    match place_front(rest) {
        Some((place, behind)) => Ok(Some(((name, place), behind))),
        None => Ok(None),
    }
}

/// A road arc or a link.
#[tactic(auto, unfolding(crate::specs::Fronts::arc_front))]
pub fn arc_front(bytes: &[u8]) -> Option<(Arc, &[u8])>
    ensures { option_map (λ x. (x.0, x.1.now)) result ≡ spec.arc_front bytes.now }
{
    let (from, rest) = u32_front(bytes)?;
    let (to, rest) = u32_front(rest)?;
    let (ms, behind) = u32_front(rest)?;
    if 0 < ms {
        Some((Arc { from, to, ms }, behind))
    } else {
        None
    }
}

/// A call, whose last byte is 1 for boarding plus 2 for alighting.
#[tactic(auto, unfolding(crate::specs::Fronts::call_front))]
pub fn call_front(bytes: &[u8]) -> Option<(Call, &[u8])>
    ensures { option_map (λ x. (x.0, x.1.now)) result ≡ spec.call_front bytes.now }
{
    let (stop, rest) = u32_front(bytes)?;
    let (arr, rest) = u32_front(rest)?;
    let (dep, rest) = u32_front(rest)?;
    let (flags, behind) = byte_front(4, rest)?;
    let (board, alight) = (flags % 2 == 1, 2 <= flags);
    Some((
        Call {
            stop,
            arr,
            dep,
            board,
            alight,
        },
        behind,
    ))
}

/// The letter of a means of transport that runs by a timetable.
#[tactic(auto, unfolding(crate::specs::Fronts::letter_front))]
fn letter_front(bytes: &[u8]) -> Option<(u8, &[u8])>
    ensures { option_map (λ x. (x.0, x.1.now)) result ≡ spec.letter_front bytes.now }
{
    let (letter, behind) = byte_front(LETTERS as u8, bytes)?;
    if 3 <= letter {
        Some((letter, behind))
    } else {
        None
    }
}

/// A set of days, which has at least one.
#[tactic(auto, unfolding(crate::specs::Fronts::set_front))]
fn set_front(bytes: &[u8]) -> Option<(u128, &[u8])>
    ensures { option_map (λ x. (x.0, x.1.now)) result ≡ spec.set_front bytes.now }
{
    let (high, rest) = u64_front(bytes)?;
    let (low, behind) = u64_front(rest)?;
    let set = u128::from(high) * (1 << 64) + u128::from(low);
    if 0 < set { Some((set, behind)) } else { None }
}

/// A trip that has no calls yet, and how many of them its record counts.
#[tactic(auto, unfolding(crate::specs::Fronts::trip_front))]
pub fn trip_front(alloc: Global, bytes: &[u8]) -> Result<Option<((Trip, u32), &[u8])>, AllocError>
    ensures { IfOk result (λ front. option_map (λ x. ((x.0.0, x.0.1), x.1.now)) front ≡ spec.trip_front
        bytes.now) }
{
    let Some((letter, rest)) = letter_front(bytes) else {
        return Ok(None);
    };
    let Some((days, rest)) = set_front(rest) else {
        return Ok(None);
    };
    let Some((count, rest)) = u32_front(rest) else {
        return Ok(None);
    };
    let Some((name, behind)) = name_front(alloc, rest)? else {
        return Ok(None);
    };
    let trip = Trip {
        letter,
        days: DaySet(days),
        name,
        calls: Vec::new(alloc),
    };
    Ok(Some(((trip, count), behind)))
}

/// How many records of each kind follow the head.
#[tactic(auto, unfolding(crate::specs::Fronts::counts_front))]
fn counts_front(bytes: &[u8]) -> Option<(Counts, &[u8])>
    ensures { option_map (λ x. (x.0, x.1.now)) result ≡ spec.counts_front bytes.now }
{
    let (roads, rest) = u32_front(bytes)?;
    let (stops, rest) = u32_front(rest)?;
    let (switches, rest) = u32_front(rest)?;
    let (arcs, rest) = u32_front(rest)?;
    let (links, rest) = u32_front(rest)?;
    let (trips, behind) = u32_front(rest)?;
    Some((
        Counts {
            roads,
            stops,
            switches,
            arcs,
            links,
            trips,
        },
        behind,
    ))
}

/// The zone rule, where there is one.
fn rule_front(zoned: bool, bytes: &[u8]) -> Option<(Option<&[u8]>, &[u8])>
    ensures { option_map (λ x. (option_map (λ r. r.now) x.0, x.1.now)) result ≡ spec.rule_front zoned
        bytes.now }
{
    if zoned {
        match counted_front(bytes) {
            Some((rule, behind)) => Some((Some(rule), behind)),
            None => None,
        }
    } else {
        Some((None, bytes))
    }
}

/// Whether the first eight bytes tell of a zone rule; `None` exactly where they are not those of a region.
#[tactic(auto, unfolding(crate::specs::Fronts::magic_front))]
fn magic_front(bytes: &[u8]) -> Option<(bool, &[u8])>
    ensures { option_map (λ x. (x.0, x.1.now)) result ≡ spec.magic_front bytes.now }
{
    match bytes.strip_prefix(PLAIN_MAGIC) {
        Some(behind) => Some((false, behind)),
        None => match bytes.strip_prefix(ZONED_MAGIC) {
            Some(behind) => Some((true, behind)),
            None => None,
        },
    }
}

/// The head: the days, and how many records of each kind follow.
#[tactic(auto, unfolding(crate::specs::Fronts::head_front))]
pub fn head_front(
    alloc: Global,
    bytes: &[u8],
) -> Result<Option<((Days, Counts), &[u8])>, AllocError>
    ensures { IfOk result (λ front. option_map (λ x. ((x.0.0, x.0.1), x.1.now)) front ≡ spec.head_front
        bytes.now) }
{
    let Some((zoned, rest)) = magic_front(bytes) else {
        return Ok(None);
    };
    let Some((first, rest)) = u32_front(rest) else {
        return Ok(None);
    };
    let Some((count, rest)) = u32_front(rest) else {
        return Ok(None);
    };
    let Some((counts, rest)) = counts_front(rest) else {
        return Ok(None);
    };
    let Some((rule, behind)) = rule_front(zoned, rest) else {
        return Ok(None);
    };
    match made_days(alloc, first, count, rule)? {
        Some(days) => Ok(Some(((days, counts), behind))),
        None => Ok(None),
    }
}
