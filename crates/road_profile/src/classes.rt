//! The classes of ways.

ghost use Rattle.std.specs.Prelude.{◌≡◌, ◌≤◌, IfSome, map, bytes_eq};
ghost use Rattle.std.specs.Map.{lookup};
ghost use Rattle.road_profile.specs.Classes.{class_named, road};

/// What a way's value of the key `highway` says of it.
#[derive(Clone, Copy, Debug, PartialEq, Eq)]
pub struct Class {
    /// Whether walkers may use it.
    pub foot: bool,
    /// Whether cyclists may use it.
    pub bike: bool,
    /// The speed of cars in mm/s, where they may use it.
    pub car: Option<u32>,
}

/// A value of the key `highway`, and the class that it stands for: whether walkers and whether cyclists may use
/// the way, and the speed of cars in mm/s, where they may.
type Row = (&'static str, bool, bool, Option<u32>);

static CLASSES: [Row; 23] = [
    ("motorway", false, false, Some(30_556)),
    ("motorway_link", false, false, Some(16_667)),
    ("trunk", false, false, Some(25_000)),
    ("trunk_link", false, false, Some(13_889)),
    ("primary", true, true, Some(16_667)),
    ("primary_link", true, true, Some(11_111)),
    ("secondary", true, true, Some(13_889)),
    ("secondary_link", true, true, Some(11_111)),
    ("tertiary", true, true, Some(12_500)),
    ("tertiary_link", true, true, Some(9_722)),
    ("unclassified", true, true, Some(11_111)),
    ("residential", true, true, Some(8_333)),
    ("living_street", true, true, Some(2_778)),
    ("service", true, true, Some(5_556)),
    ("road", true, true, Some(8_333)),
    ("track", true, true, None),
    ("path", true, true, None),
    ("cycleway", true, true, None),
    ("pedestrian", true, false, None),
    ("footway", true, false, None),
    ("steps", true, false, None),
    ("bridleway", true, false, None),
    ("corridor", true, false, None),
];

fn class_in(table: &[Row], highway: &[u8]) -> Option<Class>
    ensures { result ≡ lookup (λ name. bytes_eq name highway.now)
        (map (λ row. (row.0.now, road row.1 row.2 row.3)) table.now) }
{
    for row in table {
        let (name, foot, bike, car) = *row;
        if name.as_bytes() == highway {
            return Some(Class { foot, bike, car });
        }
    }
    None
}

/// The class of a way with this value of the key `highway`; `None` where the value is none of those in the
/// table, and the way is no road.
#[tactic(auto, unfolding(crate::specs::Classes::class_named))]
pub fn class_of(highway: &[u8]) -> Option<Class>
    ensures value { result ≡ class_named highway.now }
    ensures moving { IfSome result (λ class. IfSome class.car (λ speed. 1 ≤ speed)) }
{
    class_in(&CLASSES, highway)
}
