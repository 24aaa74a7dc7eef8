//! The road arcs of the sample city.

ghost use Rattle.std.specs.Prelude.{◌≡◌, ◌<◌, ◌^◌, ◌++◌, IfOk, OnOk};
ghost use Rattle.std.specs.HashMap.{get};
ghost use Rattle.std.specs.List.{flat_map};
ghost use Rattle.mode_network.specs.Rules.{AreInOrder};
ghost use Rattle.sample_city.specs.Roads as spec;

use crate::corners::{Corner, Direction, is_car_line};
use crate::roads::RoadNumbers;
use mode_network::Arc;
use plan_base::Mode;
use std::alloc::{AllocError, Global};

/// How long walkers, bikes and cars take to the next corner at least, in milliseconds.
#[derive(Clone, Copy)]
struct Bases {
    foot: u32,
    bike: u32,
    car: u32,
}

const ALONG_ROW: Bases = Bases {
    foot: 53_203,
    bike: 17_735,
    car: 8_939,
};

const ALONG_COLUMN: Bases = Bases {
    foot: 79_515,
    bike: 26_505,
    car: 13_359,
};

/// Puts the arc from a node to another to the others, if there are both.
pub(crate) fn push_arc(
    arcs: &mut Vec<Arc>,
    from: Option<u32>,
    to: Option<u32>,
    ms: u32,
) -> Result<(), AllocError>
    ensures { OnOk result (arcs.new.items ≡ arcs.old.items ++ spec.arc_between from to ms) }
{
    if let (Some(from), Some(to)) = (from, to) {
        arcs.push(Arc { from, to, ms })?;
    }
    Ok(())
}

/// These arcs in the order of their ends.
pub(crate) fn in_order(mut arcs: Vec<Arc>) -> Result<Vec<Arc>, AllocError>
    ensures { IfOk result (λ sorted. AreInOrder arcs.items sorted.items) }
{
    arcs.sort_by_key(|arc| (arc.from, arc.to))?;
    Ok(arcs)
}

/// How long an arc takes, in ms: up to a second more than its base, by the ids of its ends.
fn time_between(base: u32, from: u64, to: u64) -> u32
    requires base { base < 100000 }
    requires from { from < 2 ^ 33 }
    requires to { to < 2 ^ 33 }
    ensures { result ≡ spec.time_between base from to }
{
    base + ((37 * from + 11 * to) % 1_000) as u32
}

/// Puts the arcs of a mode between two corners, both ways, to the others.
fn push_street(
    arcs: &mut Vec<Arc>,
    numbers: &RoadNumbers,
    mode: Mode,
    base: u32,
    a: u64,
    b: u64,
) -> Result<(), AllocError>
    requires base { base < 100000 }
    requires a { a < 2 ^ 33 }
    requires b { b < 2 ^ 33 }
    ensures { OnOk result (arcs.new.items ≡ arcs.old.items ++ spec.street
        (get spec.is_same_road_key numbers.now.by_end) mode base a b) }
{
    let (start, end) = (numbers.of(a, mode), numbers.of(b, mode));
    push_arc(arcs, start, end, time_between(base, a, b))?;
    push_arc(arcs, end, start, time_between(base, b, a))
}

/// The same of all modes.
fn push_streets(
    arcs: &mut Vec<Arc>,
    numbers: &RoadNumbers,
    bases: Bases,
    cars: bool,
    a: u64,
    b: u64,
) -> Result<(), AllocError>
    requires a { a < 2 ^ 33 }
    requires b { b < 2 ^ 33 }
    requires foot { bases.foot < 100000 }
    requires bike { bases.bike < 100000 }
    requires car { bases.car < 100000 }
    ensures { OnOk result (arcs.new.items ≡ arcs.old.items ++ spec.streets
        (get spec.is_same_road_key numbers.now.by_end) bases cars a b) }
{
    push_street(arcs, numbers, Mode::Foot, bases.foot, a, b)?;
    push_street(arcs, numbers, Mode::Bike, bases.bike, a, b)?;
    if cars {
        push_street(arcs, numbers, Mode::Car, bases.car, a, b)?;
    }
    Ok(())
}

/// Puts the arcs between a corner and the next one of this way to the others, if there is one.
fn push_along(
    arcs: &mut Vec<Arc>,
    numbers: &RoadNumbers,
    n: u32,
    at: Corner,
    way: Direction,
) -> Result<(), AllocError>
    ensures { OnOk result (arcs.new.items ≡ arcs.old.items ++ spec.along n
        (get spec.is_same_road_key numbers.now.by_end) at way) }
{
    let (id, n) = (u64::from(at.id), u64::from(n));
    match way {
        Direction::Row if u64::from(at.column) + 1 < n => {
            push_streets(arcs, numbers, ALONG_ROW, is_car_line(at.row), id, id + 1)
        }
        Direction::Column if u64::from(at.row) + 1 < n => {
            let cars = is_car_line(at.column);
            push_streets(arcs, numbers, ALONG_COLUMN, cars, id, id + n)
        }
        _ => Ok(()),
    }
}

fn push_arcs(
    arcs: &mut Vec<Arc>,
    numbers: &RoadNumbers,
    n: u32,
    at: Corner,
) -> Result<(), AllocError>
    ensures { OnOk result (arcs.new.items ≡ arcs.old.items ++ spec.corner_arcs n
        (get spec.is_same_road_key numbers.now.by_end) at) }
{
    push_along(arcs, numbers, n, at, Direction::Row)?;
    push_along(arcs, numbers, n, at, Direction::Column)
}

/// The road arcs between neighbouring corners.
pub(crate) fn city_arcs(
    alloc: Global,
    numbers: &RoadNumbers,
    n: u32,
    corners: &[Corner],
) -> Result<Vec<Arc>, AllocError>
    ensures { IfOk result (λ arcs. AreInOrder (flat_map (spec.corner_arcs n
        (get spec.is_same_road_key numbers.now.by_end)) corners.now) arcs.items) }
{
    let mut arcs = Vec::new(alloc);
    for at in corners {
        push_arcs(&mut arcs, numbers, n, *at)?;
    }
    in_order(arcs)
}
