//! How the modes may use a way.

ghost use Rattle.std.specs.Prelude.{◌≡◌, ◌≤◌, Some, IfSome, option_map};
ghost use Rattle.road_profile.specs.Passages as spec;
ghost use Rattle.road_profile.specs.Passages.{HaveSpeeds};

use crate::classes::{Class, class_of};
use crate::rules::{Direction, bike_direction, car_direction, speed_by};
use crate::tags::{is_among, value_of};
use opl_reader::Bytes;

/// How a mode may use a way.
#[derive(Clone, Copy, Debug, PartialEq, Eq)]
pub struct Passage {
    /// The speed in mm/s, at least 1.
    pub speed: u32,
    /// The directions.
    pub direction: Direction,
}

/// How each mode may use a way, if it may.
#[derive(Clone, Copy, Debug, PartialEq, Eq)]
pub struct Passages {
    pub foot: Option<Passage>,
    pub bike: Option<Passage>,
    pub car: Option<Passage>,
}

/// How fast one walks, in mm/s.
pub const FOOT_SPEED: u32 = 1_400;

/// How fast one cycles, in mm/s.
const BIKE_SPEED: u32 = 4_200;

/// How fast cars are on a way that their own tag alone lets them use, in mm/s.
const SLOW_CAR_SPEED: u32 = 2_778;

const CLOSED: Passages = Passages {
    foot: None,
    bike: None,
    car: None,
};

/// A speed, where the class of a way lets a mode use it.
fn where_let(may: bool, speed: u32) -> Option<u32>
    requires { 1 ≤ speed }
    ensures moving { IfSome result (λ speed. 1 ≤ speed) }
    ensures value { result ≡ spec.where_let may speed }
{
    if may { Some(speed) } else { None }
}

fn with_speed(direction: Direction, speed: Option<u32>) -> Option<Passage>
    requires { IfSome speed (λ speed. 1 ≤ speed) }
    ensures moving { IfSome result (λ passage. 1 ≤ passage.speed) }
    ensures value { result ≡ spec.with_speed direction speed }
{
    let speed = speed?;
    Some(Passage { speed, direction })
}

/// How the modes may use a way of this class.
#[tactic(auto, unfolding(crate::specs::Passages::passages_by))]
fn passages_by(tags: &[(Bytes, Bytes)], highway: &[u8], class: Class) -> Passages
    requires { IfSome class.car (λ speed. 1 ≤ speed) }
    ensures moving { HaveSpeeds result }
    ensures value { result ≡ spec.passages_by tags.now highway.now (Some class) }
{
    let access = value_of(tags, "access");
    let for_cars = car_direction(
        highway,
        value_of(tags, "oneway"),
        value_of(tags, "junction"),
    );
    let for_bikes = bike_direction(value_of(tags, "oneway:bicycle"), for_cars);
    let on_foot = speed_by(
        value_of(tags, "foot"),
        access,
        where_let(class.foot, FOOT_SPEED),
        FOOT_SPEED,
    );
    let by_bike = speed_by(
        value_of(tags, "bicycle"),
        access,
        where_let(class.bike, BIKE_SPEED),
        BIKE_SPEED,
    );
    let by_car = speed_by(
        value_of(tags, "motor_vehicle"),
        access,
        class.car,
        SLOW_CAR_SPEED,
    );
    Passages {
        foot: with_speed(Direction::Both, on_foot),
        bike: with_speed(for_bikes, by_bike),
        car: with_speed(for_cars, by_car),
    }
}

/// How the modes may use a way with this value of the key `highway`.
#[tactic(auto, unfolding(crate::specs::Passages::passages_on, crate::specs::Passages::passages_by))]
fn passages_on(tags: &[(Bytes, Bytes)], highway: Option<&[u8]>) -> Passages
    ensures moving { HaveSpeeds result }
    ensures value { result ≡ spec.passages_on tags.now (option_map (λ value. value.now) highway.entry) }
{
    match highway {
        None => CLOSED,
        Some(highway) => match class_of(highway) {
            None => CLOSED,
            Some(class) => passages_by(tags, highway, class),
        },
    }
}

/// Whether a way is the edge of an area.
#[tactic(auto, unfolding(crate::specs::Passages::is_area))]
fn is_area(area: Option<&[u8]>) -> bool
    ensures { result ≡ spec.is_area (option_map (λ value. value.now) area.entry) }
{
    is_among(area, &["yes"])
}

/// How the modes may use a way with these tags. An area is no road, nor is a way whose value of the key
/// `highway` is none of those in the table.
#[tactic(auto, unfolding(crate::specs::Passages::passages_of))]
pub fn passages_of(tags: &[(Bytes, Bytes)]) -> Passages
    ensures moving { HaveSpeeds result }
    ensures value { result ≡ spec.passages_of tags.now }
{
    if is_area(value_of(tags, "area")) {
        CLOSED
    } else {
        passages_on(tags, value_of(tags, "highway"))
    }
}
