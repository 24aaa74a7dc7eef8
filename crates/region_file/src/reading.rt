//! From records to the parts of a network.

ghost use Rattle.std.specs.Prelude.{◌≡◌, ◌++◌, ◌∷◌, [], ℕ, List, Option, OnOk, option_map};
ghost use Rattle.mode_network.specs.declared.nodes.NodeKey.TheVariants.{Stop};
ghost use Rattle.region_file.specs.Fronts.{arc_front, call_front, road_front, switch_front};
ghost use Rattle.file_records.specs.Reading.{GivesRead, one};
ghost use Rattle.region_file.specs.Records.{many, network_records, stops_read, trip_read};

use crate::counts::Counts;
use crate::fronts;
use file_records::Halt;
use mode_network::{Arc, Node, NodeKey, Parts};
use plain_texts::Name;
use plan_base::Place;
use service_days::Days;
use std::alloc::{AllocError, Global};
use timetable_arcs::{Call, Trip};

/// A kind of records, each of which is read by itself.
trait RecordKind {
    /// What a record tells.
    type Row: Drop;

    /// What the record at the front of bytes tells, and the bytes behind it.
    ghost told: { List ℕ → Option (Self.Row × List ℕ) };

    /// What the record at the front of the bytes tells, and the bytes behind it; `None` exactly where none stands there.
    fn front(bytes: &[u8]) -> Option<(Self::Row, &[u8])>
        ensures { option_map (λ x. (x.0, x.1.now)) result ≡ told bytes.now };
}

/// Records of road nodes.
struct RoadRecords;

impl RecordKind for RoadRecords {
    type Row = Node;

    ghost told = { road_front };

    fn front(bytes: &[u8]) -> Option<(Node, &[u8])> {
        fronts::road_front(bytes)
    }
}

/// Records of switches.
struct SwitchRecords;

impl RecordKind for SwitchRecords {
    type Row = Node;

    ghost told = { switch_front };

    fn front(bytes: &[u8]) -> Option<(Node, &[u8])> {
        fronts::switch_front(bytes)
    }
}

/// Records of road arcs or links.
struct ArcRecords;

impl RecordKind for ArcRecords {
    type Row = Arc;

    ghost told = { arc_front };

    fn front(bytes: &[u8]) -> Option<(Arc, &[u8])> {
        fronts::arc_front(bytes)
    }
}

/// Records of calls.
struct CallRecords;

impl RecordKind for CallRecords {
    type Row = Call;

    ghost told = { call_front };

    fn front(bytes: &[u8]) -> Option<(Call, &[u8])> {
        fronts::call_front(bytes)
    }
}

/// So many records of a kind.
fn rows_of<K: RecordKind>(
    alloc: Global,
    count: u32,
    bytes: &[u8],
) -> Result<(Vec<K::Row>, &[u8]), Halt>
    ensures { GivesRead (λ x. (x.0.items, x.1.now)) result (many (one K.told) count bytes.now) }
{
    let mut rows = Vec::new(alloc);
    let mut rest = bytes;
    for _ in 0..count {
        let Some((row, behind)) = K::front(rest) else {
            return Err(Halt::Left(rest.len() as u64));
        };
        rows.push(row)?;
        rest = behind;
    }
    Ok((rows, rest))
}

/// A trip and its calls.
#[tactic(auto, unfolding(crate::specs::Records::trip_read))]
fn trip_of(alloc: Global, bytes: &[u8]) -> Result<(Trip, &[u8]), Halt>
    ensures { GivesRead (λ x. (x.0, x.1.now)) result (trip_read bytes.now) }
{
    let Some(((mut trip, count), rest)) = fronts::trip_front(alloc, bytes)? else {
        return Err(Halt::Left(bytes.len() as u64));
    };
    let (calls, behind) = rows_of::<CallRecords>(alloc, count, rest)?;
    trip.calls = calls;
    Ok((trip, behind))
}

/// So many trips, each with its calls.
fn trips_of(alloc: Global, count: u32, bytes: &[u8]) -> Result<(Vec<Trip>, &[u8]), Halt>
    ensures { GivesRead (λ x. (x.0.items, x.1.now)) result (many trip_read count bytes.now) }
{
    let mut trips = Vec::new(alloc);
    let mut rest = bytes;
    for _ in 0..count {
        match trip_of(alloc, rest) {
            Ok((trip, behind)) => {
                trips.push(trip)?;
                rest = behind;
            }
            Err(halt) => return Err(halt),
        }
    }
    Ok((trips, rest))
}

/// The names of stops, and their nodes in the same order.
#[derive(Drop)]
struct Stops {
    names: Vec<Name>,
    nodes: Vec<Node>,
}

/// Puts a stop of this number behind the others.
fn push_stop(stops: &mut Stops, number: u32, stop: (Name, Place)) -> Result<(), AllocError>
    ensures names { OnOk result (stops.new.names.items ≡ stops.old.names.items ++ stop.0 ∷ []) }
    ensures nodes { OnOk result (stops.new.nodes.items ≡ stops.old.nodes.items ++ record
        { key = Stop number; place = stop.1 } ∷ []) }
{
    let (name, place) = stop;
    let key = NodeKey::Stop(number);
    stops.names.push(name)?;
    stops.nodes.push(Node { key, place })?;
    Ok(())
}

/// So many stops.
fn stops_of(alloc: Global, count: u32, bytes: &[u8]) -> Result<(Stops, &[u8]), Halt>
    ensures { GivesRead (λ x. ((x.0.names.items, x.0.nodes.items), x.1.now)) result
        (stops_read count bytes.now) }
{
    let mut stops = Stops {
        names: Vec::new(alloc),
        nodes: Vec::new(alloc),
    };
    let mut rest = bytes;
    for number in 0..count {
        let Some((stop, behind)) = fronts::stop_front(alloc, rest)? else {
            return Err(Halt::Left(rest.len() as u64));
        };
        push_stop(&mut stops, number, stop)?;
        rest = behind;
    }
    Ok((stops, rest))
}

/// The parts of a network of these days, which so many records spell, and the bytes behind the records.
#[tactic(auto, unfolding(crate::specs::Records::network_records))]
pub fn parts_of(
    alloc: Global,
    days: Days,
    counts: Counts,
    bytes: &[u8],
) -> Result<(Parts, &[u8]), Halt>
    ensures { GivesRead (λ x. (x.0, x.1.now)) result (network_records days counts bytes.now) }
{
    let (roads, rest) = rows_of::<RoadRecords>(alloc, counts.roads, bytes)?;
    let (stops, rest) = stops_of(alloc, counts.stops, rest)?;
    let (switches, rest) = rows_of::<SwitchRecords>(alloc, counts.switches, rest)?;
    let (arcs, rest) = rows_of::<ArcRecords>(alloc, counts.arcs, rest)?;
    let (links, rest) = rows_of::<ArcRecords>(alloc, counts.links, rest)?;
    let (trips, behind) = trips_of(alloc, counts.trips, rest)?;
    let Stops {
        names: stop_names,
        nodes: stops,
    } = stops;
    Ok((
        Parts {
            days,
            roads,
            stop_names,
            stops,
            switches,
            arcs,
            links,
            trips,
        },
        behind,
    ))
}
