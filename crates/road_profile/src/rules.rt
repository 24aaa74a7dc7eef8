//! Who may use a way and how fast, and in which directions.

ghost use Rattle.std.specs.Prelude.{◌≡◌, ◌≤◌, IfSome, option_map};
ghost use Rattle.road_profile.specs.Rules as spec;

use crate::tags::is_among;

/// In which directions a way may be used, seen in the order of its nodes.
#[derive(Clone, Copy, Debug, PartialEq, Eq)]
pub enum Direction {
    Both,
    Forward,
    Backward,
}

/// Whether a mode's own tag lets it use a way.
#[tactic(auto, unfolding(crate::specs::Rules::grants))]
fn grants(own: Option<&[u8]>) -> bool
    ensures { result ≡ spec.grants (option_map (λ value. value.now) own.entry) }
{
    is_among(
        own,
        &["yes", "designated", "permissive", "official", "destination"],
    )
}

/// Whether a mode's own tag keeps it from a way.
#[tactic(auto, unfolding(crate::specs::Rules::refuses))]
fn refuses(own: Option<&[u8]>) -> bool
    ensures { result ≡ spec.refuses (option_map (λ value. value.now) own.entry) }
{
    is_among(own, &["no", "private", "dismount", "use_sidepath"])
}

/// Whether the key `access` keeps a mode from a way of which its own tag says nothing.
#[tactic(auto, unfolding(crate::specs::Rules::closes))]
fn closes(access: Option<&[u8]>) -> bool
    ensures { result ≡ spec.closes (option_map (λ value. value.now) access.entry) }
{
    is_among(access, &["no", "private"])
}

/// The speed of a mode in mm/s, where it may use a way; `None` where it may not.
///
/// The mode's own tag is asked first, then the key `access`, then the class of the way, whose speed is given.
/// Where the own tag lets the mode use a way that the class does not, another speed stands for it.
#[tactic(auto, unfolding(crate::specs::Rules::speed_by))]
pub fn speed_by(
    own: Option<&[u8]>,
    access: Option<&[u8]>,
    by_class: Option<u32>,
    otherwise: u32,
) -> Option<u32>
    requires class_speed { IfSome by_class (λ speed. 1 ≤ speed) }
    requires other_speed { 1 ≤ otherwise }
    ensures moving { IfSome result (λ speed. 1 ≤ speed) }
    ensures value { result ≡ spec.speed_by (option_map (λ value. value.now) own.entry)
        (option_map (λ value. value.now) access.entry) by_class otherwise }
{
    if grants(own) {
        Some(by_class.unwrap_or(otherwise))
    } else if refuses(own) || closes(access) {
        None
    } else {
        by_class
    }
}

#[tactic(auto, unfolding(crate::specs::Rules::says_forward))]
fn says_forward(oneway: Option<&[u8]>) -> bool
    ensures { result ≡ spec.says_forward (option_map (λ value. value.now) oneway.entry) }
{
    is_among(oneway, &["yes", "true", "1"])
}

#[tactic(auto, unfolding(crate::specs::Rules::says_backward))]
fn says_backward(oneway: Option<&[u8]>) -> bool
    ensures { result ≡ spec.says_backward (option_map (λ value. value.now) oneway.entry) }
{
    is_among(oneway, &["-1", "reverse"])
}

#[tactic(auto, unfolding(crate::specs::Rules::says_both))]
fn says_both(oneway: Option<&[u8]>) -> bool
    ensures { result ≡ spec.says_both (option_map (λ value. value.now) oneway.entry) }
{
    is_among(oneway, &["no", "false", "0"])
}

#[tactic(auto, unfolding(crate::specs::Rules::is_roundabout))]
fn is_roundabout(junction: Option<&[u8]>) -> bool
    ensures { result ≡ spec.is_roundabout (option_map (λ value. value.now) junction.entry) }
{
    is_among(junction, &["roundabout"])
}

/// The directions of cars, by the values of `highway`, `oneway` and `junction`.
#[tactic(auto, unfolding(crate::specs::Rules::car_direction))]
pub fn car_direction(highway: &[u8], oneway: Option<&[u8]>, junction: Option<&[u8]>) -> Direction
    ensures { result ≡ spec.car_direction highway.now (option_map (λ value. value.now) oneway.entry)
        (option_map (λ value. value.now) junction.entry) }
{
    if says_forward(oneway) {
        Direction::Forward
    } else if says_backward(oneway) {
        Direction::Backward
    } else if says_both(oneway) {
        Direction::Both
    } else if is_roundabout(junction) || highway == b"motorway".as_slice() {
        Direction::Forward
    } else {
        Direction::Both
    }
}

#[tactic(auto, unfolding(crate::specs::Rules::frees_bikes))]
fn frees_bikes(oneway: Option<&[u8]>) -> bool
    ensures { result ≡ spec.frees_bikes (option_map (λ value. value.now) oneway.entry) }
{
    is_among(oneway, &["no"])
}

#[tactic(auto, unfolding(crate::specs::Rules::sends_bikes_forward))]
fn sends_bikes_forward(oneway: Option<&[u8]>) -> bool
    ensures { result ≡ spec.sends_bikes_forward (option_map (λ value. value.now) oneway.entry) }
{
    is_among(oneway, &["yes"])
}

#[tactic(auto, unfolding(crate::specs::Rules::sends_bikes_backward))]
fn sends_bikes_backward(oneway: Option<&[u8]>) -> bool
    ensures { result ≡ spec.sends_bikes_backward (option_map (λ value. value.now) oneway.entry) }
{
    is_among(oneway, &["-1"])
}

/// The directions of bikes, by the value of `oneway:bicycle`, and otherwise those of cars.
#[tactic(auto, unfolding(crate::specs::Rules::bike_direction))]
pub fn bike_direction(oneway: Option<&[u8]>, for_cars: Direction) -> Direction
    ensures { result ≡ spec.bike_direction (option_map (λ value. value.now) oneway.entry) for_cars }
{
    if frees_bikes(oneway) {
        Direction::Both
    } else if sends_bikes_forward(oneway) {
        Direction::Forward
    } else if sends_bikes_backward(oneway) {
        Direction::Backward
    } else {
        for_cars
    }
}
