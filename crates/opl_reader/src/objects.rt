//! What a map's text gives: the nodes that have a place, and the ways.

ghost use Rattle.std.specs.Prelude.{◌≡◌};
ghost use Rattle.opl_reader.specs.declared.objects.OplFault.TheVariants.{OutOfMemory};

use crate::lists::Items;
use plan_base::{Kind, Place};
use std::alloc::AllocError;
use std::marker::Model;

/// Bytes of a key or a value, after unescaping.
pub type Bytes = Items<u8>;

/// What stands on a line.
#[derive(Clone, Copy, Debug)]
pub enum Element {
    Node,
    Way,
}

/// What a node is tagged as by its key `amenity`.
#[derive(Clone, Copy, Debug, PartialEq, Eq)]
pub enum Amenity {
    /// Another value, or no such key.
    Nothing,
    /// `parking`
    Parking,
    /// `bicycle_parking`
    BicycleParking,
    /// `bicycle_rental`
    BicycleRental,
}

/// A node with its place.
#[derive(Clone, Copy, Debug)]
pub struct OsmNode {
    /// The OSM id.
    pub id: i64,
    /// Where it stands, in units of 10^-7 degree.
    pub place: Place,
    /// What it is tagged as.
    pub amenity: Amenity,
}

/// A way.
#[derive(Debug, Drop)]
pub struct OsmWay {
    /// The OSM id.
    pub id: i64,
    /// Keys and values, unescaped, in the order of the line. Only the keys that a road profile reads are kept:
    /// `highway`, `access`, `foot`, `bicycle`, `motor_vehicle`, `oneway`, `oneway:bicycle`, `junction` and `area`.
    /// Where a key stands twice the first counts.
    pub tags: Items<(Bytes, Bytes)>,
    /// The ids of its nodes in order, cut where the text places no node of the id. Each piece has two or more nodes.
    pub pieces: Items<Items<i64>>,
}

/// The nodes that have a place and the ways, in the order of the text. A contract sees them as lists.
#[derive(Debug, Drop)]
pub struct Objects {
    /// The visible nodes that have a place. No two have one id.
    pub nodes: Vec<OsmNode>,
    /// The visible ways.
    pub ways: Vec<OsmWay>,
}

impl Model for Objects {
    ghost use Rattle.opl_reader.specs.ObjectLists.{ObjectLists};

    ghost Value = { ObjectLists };

    ghost view = { λ o. record { nodes = o.nodes.items; ways = o.ways.items } };
}

/// Why a map's text gives no objects: the fault of the first line that has one. On one line the earlier of these
/// is tried first.
#[derive(Clone, Copy, Debug, PartialEq, Eq)]
pub enum OplFault {
    /// A line is of no form that a line may have: it must be a node, as `n17 x13.37 y52.51`, or a way, as
    /// `w5 Thighway=path Nn17,n18`, or one that is passed over. Lines are counted from 1.
    BadLine { line: u64 },
    /// A line has a visible node or way with the id of an earlier visible node or way.
    RepeatedObject { line: u64 },
    /// With the line there are more visible nodes with a place ([`Kind::OsmNodes`]), more visible ways
    /// ([`Kind::Ways`]) or more references of visible ways to nodes ([`Kind::Refs`]) than the limits allow.
    TooMany { kind: Kind },
    /// Memory ran out.
    OutOfMemory,
}

impl From<AllocError> for OplFault {
    ghost from_gives = { λ error fault. fault ≡ OutOfMemory };

    fn from(_error: AllocError) -> OplFault {
        OplFault::OutOfMemory
    }
}
