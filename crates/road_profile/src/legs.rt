//! The legs of ways.

ghost use Rattle.std.specs.Prelude.{◌≡◌, ◌++◌, ◌<◌, ◌≤◌, ◌^◌, IfOk, IfSome, OnOk, true};
ghost use Rattle.std.specs.List.{flat_map};
ghost use Rattle.std.specs.HashMap.{get};
ghost use Rattle.std.specs.Ordering.{int_eq};
ghost use Rattle.road_profile.specs.Legs as spec;
ghost use Rattle.road_profile.specs.Passages.{HaveSpeeds, closed};

use crate::passages::{Passage, Passages, passages_of};
use crate::places::{Places, place_of};
use crate::rows::RoadRow;
use crate::rules::Direction;
use geo_length::{duration_ms, length_mm};
use opl_reader::{Items, OsmWay};
use plan_base::{Mode, Place};
use std::alloc::{AllocError, Global};

/// Puts a leg and the one back to the others, as far as the mode may go so.
fn push_directed(
    rows: &mut Vec<RoadRow>,
    row: RoadRow,
    direction: Direction,
) -> Result<(), AllocError>
    ensures { OnOk result (rows.new.items ≡ rows.old.items ++ spec.directed row.mode row.from row.to row.ms
        direction) }
{
    let back = RoadRow {
        from: row.to,
        to: row.from,
        mode: row.mode,
        ms: row.ms,
    };
    match direction {
        Direction::Both => {
            rows.push(row)?;
            rows.push(back)?;
        }
        Direction::Forward => rows.push(row)?,
        Direction::Backward => rows.push(back)?,
    }
    Ok(())
}

/// Puts the legs of a mode between two neighbours that are so far apart, if they are not too long.
#[tactic(auto, unfolding(crate::specs::Legs::mode_legs))]
fn push_mode(
    rows: &mut Vec<RoadRow>,
    mode: Mode,
    from: i64,
    to: i64,
    mm: u64,
    passage: Option<Passage>,
) -> Result<(), AllocError>
    requires moving { IfSome passage (λ passage. 1 ≤ passage.speed) }
    requires length_within { mm < 2 ^ 40 }
    ensures { OnOk result (rows.new.items ≡ rows.old.items ++ spec.mode_legs mode from to mm passage) }
{
    match passage {
        None => Ok(()),
        Some(passage) => match duration_ms(mm, passage.speed) {
            None => Ok(()),
            Some(ms) => push_directed(rows, RoadRow { from, to, mode, ms }, passage.direction),
        },
    }
}

/// Puts the legs of all modes between two neighbours that are so far apart.
#[tactic(auto, unfolding(crate::specs::Legs::pair_legs))]
fn push_pair(
    rows: &mut Vec<RoadRow>,
    passages: &Passages,
    from: i64,
    to: i64,
    mm: u64,
) -> Result<(), AllocError>
    requires moving { HaveSpeeds passages.now }
    requires length_within { mm < 2 ^ 40 }
    ensures { OnOk result (rows.new.items ≡ rows.old.items ++ spec.pair_legs passages.now from to mm) }
{
    push_mode(rows, Mode::Foot, from, to, mm, passages.foot)?;
    push_mode(rows, Mode::Bike, from, to, mm, passages.bike)?;
    push_mode(rows, Mode::Car, from, to, mm, passages.car)
}

/// The same, where both neighbours have a place.
fn push_placed(
    rows: &mut Vec<RoadRow>,
    passages: &Passages,
    from: i64,
    to: i64,
    ends: (Option<Place>, Option<Place>),
) -> Result<(), AllocError>
    requires { HaveSpeeds passages.now }
    ensures { OnOk result (rows.new.items ≡ rows.old.items ++ spec.placed_legs passages.now from to
        ends.0 ends.1) }
{
    match ends {
        (Some(a), Some(b)) => push_pair(rows, passages, from, to, length_mm(a, b)),
        (Some(_), None) => Ok(()),
        (None, _) => Ok(()),
    }
}

/// The same, where the neighbours are not one node.
#[tactic(auto, unfolding(crate::specs::Legs::step_legs))]
fn push_step(
    rows: &mut Vec<RoadRow>,
    places: &Places,
    passages: &Passages,
    from: i64,
    to: i64,
) -> Result<(), AllocError>
    requires { HaveSpeeds passages.now }
    ensures { OnOk result (rows.new.items ≡ rows.old.items ++ spec.step_legs (get int_eq places.now.by_id)
        passages.now (from, to)) }
{
    if from == to {
        return Ok(());
    }
    let ends = (place_of(places, from), place_of(places, to));
    push_placed(rows, passages, from, to, ends)
}

/// Puts the legs along nodes in a row behind the first one.
fn push_behind(
    rows: &mut Vec<RoadRow>,
    places: &Places,
    passages: &Passages,
    first: i64,
    rest: &[i64],
) -> Result<(), AllocError>
    requires { HaveSpeeds passages.now }
    ensures { OnOk result (rows.new.items ≡ rows.old.items ++ flat_map
        (spec.step_legs (get int_eq places.now.by_id) passages.now) (spec.neighbours_behind first rest.now)) }
{
    let mut from = first;
    for to in rest {
        push_step(rows, places, passages, from, *to)?;
        from = *to;
    }
    Ok(())
}

/// Puts the legs along a piece of a way.
#[tactic(auto, unfolding(crate::specs::Legs::piece_legs))]
fn push_piece(
    rows: &mut Vec<RoadRow>,
    places: &Places,
    passages: &Passages,
    piece: &[i64],
) -> Result<(), AllocError>
    requires { HaveSpeeds passages.now }
    ensures { OnOk result (rows.new.items ≡ rows.old.items ++ spec.piece_legs (get int_eq places.now.by_id)
        passages.now piece.now) }
{
    match piece {
        [] => Ok(()),
        [first, rest @ ..] => push_behind(rows, places, passages, *first, rest),
    }
}

fn push_pieces(
    rows: &mut Vec<RoadRow>,
    places: &Places,
    passages: &Passages,
    pieces: &[Items<i64>],
) -> Result<(), AllocError>
    requires { HaveSpeeds passages.now }
    ensures { OnOk result (rows.new.items ≡ rows.old.items ++ flat_map
        (spec.piece_legs (get int_eq places.now.by_id) passages.now) pieces.now) }
{
    for piece in pieces {
        push_piece(rows, places, passages, piece.as_slice())?;
    }
    Ok(())
}

/// Whether no mode may use the way, as on most of a map's ways, which are no roads.
fn is_closed(passages: &Passages) -> bool
    ensures { result ≡ true → passages.now ≡ closed }
{
    passages.foot.is_none() && passages.bike.is_none() && passages.car.is_none()
}

#[tactic(auto, unfolding(crate::specs::Legs::way_legs))]
fn push_way(rows: &mut Vec<RoadRow>, places: &Places, way: &OsmWay) -> Result<(), AllocError>
    ensures { OnOk result (rows.new.items ≡ rows.old.items ++ spec.way_legs
        (get int_eq places.now.by_id) way.now) }
{
    let passages = passages_of(way.tags.as_slice());
    if is_closed(&passages) {
        return Ok(());
    }
    push_pieces(rows, places, &passages, way.pieces.as_slice())
}

/// The legs of some ways.
pub fn legs_of_ways(
    alloc: Global,
    places: &Places,
    ways: &[OsmWay],
) -> Result<Vec<RoadRow>, AllocError>
    ensures { IfOk result (λ rows. rows.items ≡ flat_map (spec.way_legs (get int_eq places.now.by_id))
        ways.now) }
{
    let mut rows = Vec::new(alloc);
    for way in ways {
        push_way(&mut rows, places, way)?;
    }
    Ok(rows)
}
