//! Lengths between places.

ghost use Rattle.std.specs.Prelude.{◌≡◌, ◌+◌, ◌*◌, ◌^◌, ◌<◌, ◌≤◌, ◌-ℤ◌, unsigned_abs};
ghost use Rattle.geo_length.specs.Lengths.{eastward, length_between, mean_degree, northward, short_way_around, square_between};
ghost use Rattle.geo_length.specs.Roots.{IsRoot, root};

use crate::widths::width;
use plan_base::Place;

/// The short way around.
fn short_way(difference: u64) -> u64
    requires { difference ≤ 3600000000 }
    ensures value { result ≡ short_way_around difference }
    ensures within { result ≤ 1800000000 }
{
    if difference > 1_800_000_000 {
        3_600_000_000 - difference
    } else {
        difference
    }
}

/// The difference of the longitudes of two places, the short way around.
pub fn longitude_between(a: Place, b: Place) -> u64
    ensures value { result ≡ short_way_around (unsigned_abs (a.lon -ℤ b.lon)) }
    ensures within { result ≤ 1800000000 }
{
    short_way(a.lon.abs_diff(b.lon))
}

fn degree_between(a: Place, b: Place) -> u64
    ensures value { result ≡ mean_degree a b }
    ensures within { result ≤ 90 }
{
    (a.lat + b.lat).unsigned_abs() / 20_000_000
}

/// How far apart two places are to the north, in millimetres.
#[tactic(auto, unfolding(crate::specs::Lengths::northward))]
pub fn north_mm(a: Place, b: Place) -> u64
    ensures value { result ≡ northward a b }
    ensures within { result < 2 ^ 35 }
{
    a.lat.abs_diff(b.lat) * 11132 / 1000
}

/// How far apart two places are to the east, in millimetres, the short way around.
#[tactic(auto, unfolding(crate::specs::Lengths::eastward))]
pub fn east_mm(a: Place, b: Place) -> u64
    ensures value { result ≡ eastward a b }
    ensures within { result < 2 ^ 35 }
{
    longitude_between(a, b) * 11132 * width(degree_between(a, b)) / 10_000_000
}

fn square_mm(a: Place, b: Place) -> u128
    ensures value { result ≡ square_between a b }
    ensures within { result < 2 ^ 71 }
{
    let east = u128::from(east_mm(a, b));
    let north = u128::from(north_mm(a, b));
    east * east + north * north
}

fn whole_root(square: u128) -> u64
    ensures value { result ≡ root square }
    ensures root { IsRoot square result }
{
    if square < 1 << 64 {
        (square as u64).isqrt()
    } else {
        square.isqrt() as u64
    }
}

/// The length between two places in millimetres, rounded down: the whole root of the sum of the squares of
/// how far they are apart to the north and to the east.
///
/// A degree of latitude is 111,320 m long. A degree of longitude is narrower by a table of the whole degree
/// of the mean latitude.
#[tactic(auto, unfolding(crate::specs::Lengths::length_between))]
pub fn length_mm(a: Place, b: Place) -> u64
    ensures value { result ≡ length_between a b }
    ensures root { IsRoot (square_between a b) result }
    ensures within { result < 2 ^ 40 }
{
    whole_root(square_mm(a, b))
}
