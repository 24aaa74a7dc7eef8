//! Faults of region files.

use crate::maps::too_many;
use crate::pieces::{is_unended, line_at, number_of_line, shown};
use mode_network::NetFault;
use plain_texts::read_id;
use plan_base::{Kind, Mode};
use region_file::RegionFault;
use std::alloc::{AllocError, Global};
use timetable_arcs::TableFault;

/// What is wrong with the bytes of the region file of this path.
pub fn bad_region(
    alloc: Global,
    path: &str,
    bytes: &[u8],
    fault: RegionFault,
) -> Result<String, AllocError> {
    match fault {
        RegionFault::BadHead => bad_head(alloc, path, bytes),
        RegionFault::BadRecord { at } if is_binary(bytes) => format!(in alloc;
            "{path}, byte {at}: the record that begins here is cut short, or has a value that it may not have"
        ),
        RegionFault::BadRecord { at } => bad_line(alloc, path, bytes, at),
        RegionFault::Network(fault) => bad_network(alloc, path, bytes, fault),
        RegionFault::Trailing { at } if is_binary(bytes) => {
            format!(in alloc; "{path}, byte {at}: bytes follow the last record of the region")
        }
        RegionFault::Trailing { at } => {
            format!(in alloc;
                "{path}, line {at}: something follows the line \"end\", which must be the last"
            )
        }
        RegionFault::OutOfMemory => format!(in alloc; "memory ran out"),
    }
}

/// Whether a region that begins so is one in bytes, and no text.
fn is_binary(bytes: &[u8]) -> bool {
    bytes.starts_with(b"MPREG")
}

/// The first line is not that of a region.
fn bad_head(alloc: Global, path: &str, bytes: &[u8]) -> Result<String, AllocError> {
    let line = shown(alloc, line_at(bytes, 1).unwrap_or(&[]))?;
    format!(in alloc;
        "{path}, line 1: a region begins with the line \"modeplan region 1\", or with the bytes of format 2, and here stands {line}"
    )
}

/// A line may not stand where it does.
fn bad_line(alloc: Global, path: &str, bytes: &[u8], at: u64) -> Result<String, AllocError> {
    let is_unended = is_unended(bytes, at);
    match line_at(bytes, at) {
        None => no_end(alloc, path, at),
        Some([]) if is_unended => no_end(alloc, path, at),
        Some([]) => format!(in alloc; "{path}, line {at}: a region has no empty lines"),
        Some(line) => {
            let form = if is_unended {
                "no line feed stands behind it, as behind each line of a region"
            } else {
                form_of(line)
            };
            let line = shown(alloc, line)?;
            format!(in alloc; "{path}, line {at}: {line} may not stand here; {form}")
        }
    }
}

/// The text ends before its last line.
fn no_end(alloc: Global, path: &str, at: u64) -> Result<String, AllocError> {
    format!(in alloc; "{path}, line {at}: the region ends here without its last line, \"end\"")
}

/// How a line with the first word of this one is written, and where it may stand.
fn form_of(line: &[u8]) -> &'static str {
    let word = line.split(|byte| *byte == b' ').next().unwrap_or(&[]);
    match str::from_utf8(word).unwrap_or("") {
        "days" =>
            "the second line is \"days YYYYMMDD COUNT\" or \"days YYYYMMDD COUNT RULE\", with a date from 1900 to 2199, 1 to 60 days, and a zone rule",
        "node" =>
            "a road node is \"node MODE ID LAT LON\", with the mode foot, bike or car, and places in units of 10^-7 degree; nodes follow the line of days",
        "stop" =>
            "a stop is \"stop NAME LAT LON\" with places in units of 10^-7 degree; stops follow the nodes",
        "switch" =>
            "a switch is \"switch ID LAT LON\" with places in units of 10^-7 degree; switches follow the stops",
        "arc" =>
            "a road arc is \"arc FROM TO MS\", with nodes by their numbers from 0; arcs follow the switches",
        "link" =>
            "a link is \"link FROM TO MS\", with nodes by their numbers from 0; links follow the arcs",
        "trip" =>
            "a trip is \"trip LETTER DAYS CALLS NAME\", with days as hexadecimal digits, and so many calls follow it; trips follow the links",
        "call" =>
            "a call is \"call STOP ARR DEP FLAGS\", with seconds and flags of 0 to 3, and stands behind its trip, which says how many there are",
        "end" => "\"end\" is the last line, and no calls may be missing before it",
        _ =>
            "the lines of a region are days, node, stop, switch, arc, link, trip with its calls, and end, in this order",
    }
}

/// The network breaks a rule.
fn bad_network(
    alloc: Global,
    path: &str,
    bytes: &[u8],
    fault: NetFault,
) -> Result<String, AllocError> {
    match fault {
        NetFault::OutOfOrder { kind, row } => out_of_order(alloc, path, bytes, kind, row),
        NetFault::BadEnd { kind, row } => {
            let place = place_of(alloc, bytes, words_of(kind), row)?;
            format!(in alloc; "{path}{place}: {}", ends_of(kind))
        }
        NetFault::Table(fault) => bad_trip(alloc, path, bytes, fault),
        NetFault::TooMany { kind } => too_many(alloc, path, all_of(kind), kind.most()),
        NetFault::OutOfMemory => format!(in alloc; "memory ran out"),
    }
}

/// A row does not come after the one before it.
fn out_of_order(
    alloc: Global,
    path: &str,
    bytes: &[u8],
    kind: Kind,
    row: u64,
) -> Result<String, AllocError> {
    let words = match kind {
        Kind::Nodes => node_word(bytes, row),
        _ => words_of(kind),
    };
    let (name, order) = (name_of(kind), order_of(kind));
    let place = place_of(alloc, bytes, words, row)?;
    format!(in alloc;
        "{path}{place}: each of the {name} must come after the one before it: {order}"
    )
}

/// The trips break a rule.
fn bad_trip(
    alloc: Global,
    path: &str,
    bytes: &[u8],
    fault: TableFault,
) -> Result<String, AllocError> {
    match fault {
        TableFault::TimeGoesBack { trip } => at_trip(
            alloc,
            path,
            bytes,
            trip,
            "the times of this trip go back; each call departs no earlier than it arrives, and arrives no earlier than the one before departs",
        ),
        TableFault::UnknownStop { trip, call } => unknown_stop(alloc, path, bytes, trip, call),
        TableFault::BadTrip { trip } => at_trip(
            alloc,
            path,
            bytes,
            trip,
            "a trip must have a letter of transit, two calls or more, days of the region, and times below 168 hours",
        ),
        TableFault::TooMany { kind } => too_many(alloc, path, all_of(kind), kind.most()),
        TableFault::OutOfMemory => format!(in alloc; "memory ran out"),
    }
}

/// What is wrong with a trip.
fn at_trip(
    alloc: Global,
    path: &str,
    bytes: &[u8],
    trip: u32,
    wrong: &str,
) -> Result<String, AllocError> {
    let place = place_of(alloc, bytes, &[b"trip"], u64::from(trip))?;
    format!(in alloc; "{path}{place}: {wrong}")
}

/// A call of a trip names a stop that is not there.
fn unknown_stop(
    alloc: Global,
    path: &str,
    bytes: &[u8],
    trip: u32,
    call: u32,
) -> Result<String, AllocError> {
    let place = place_of(alloc, bytes, &[b"trip"], u64::from(trip))?;
    format!(in alloc;
        "{path}{place}: call {call} of this trip, counted from 0, names a stop that is not there; stops are numbered from 0"
    )
}

/// Where a row stands: the number of its line, where the region is a text.
fn place_of(alloc: Global, bytes: &[u8], words: &[&[u8]], row: u64) -> Result<String, AllocError> {
    match number_of_line(bytes, words, row) {
        Some(number) => format!(in alloc; ", line {number}"),
        None => format!(in alloc; ", row {row} of its kind"),
    }
}

/// What people call all that count as rows of a kind.
fn all_of(kind: Kind) -> &'static str {
    match kind {
        Kind::Nodes => "nodes, with stops and switches,",
        _ => name_of(kind),
    }
}

/// What people call the rows of a kind.
fn name_of(kind: Kind) -> &'static str {
    match kind {
        Kind::Nodes => "road nodes and switches",
        Kind::Arcs => "road arcs",
        Kind::Links => "links",
        Kind::Stops => "stops",
        Kind::Trips => "trips",
        Kind::Calls => "calls",
        _ => "rows",
    }
}

/// The first words of the lines of a kind.
fn words_of(kind: Kind) -> &'static [&'static [u8]] {
    match kind {
        Kind::Arcs => &[b"arc"],
        Kind::Links => &[b"link"],
        Kind::Stops => &[b"stop"],
        Kind::Trips => &[b"trip"],
        _ => &[b"call"],
    }
}

/// The first word of the lines of nodes in which this row, counted from 0, does not come after the one before it: that of
/// road nodes, if it does not there, else that of switches.
fn node_word(bytes: &[u8], row: u64) -> &'static [&'static [u8]] {
    let nodes: &'static [&'static [u8]] = &[b"node"];
    let key = |row| line_at(bytes, number_of_line(bytes, nodes, row)?).and_then(node_key);
    match (row.checked_sub(1).and_then(key), key(row)) {
        (Some(before), Some(here)) if here <= before => nodes,
        _ => &[b"switch"],
    }
}

/// The id and the mode's number of a line of a road node.
fn node_key(line: &[u8]) -> Option<(i64, u8)> {
    let mut words = line.split(|byte| *byte == b' ').skip(1);
    let mode = words.next()?;
    let id = read_id(words.next()?)?;
    Some((id, Mode::from_name(mode)?.number()))
}

/// In which order the rows of a kind stand.
fn order_of(kind: Kind) -> &'static str {
    match kind {
        Kind::Nodes => "nodes by id and then by mode (foot, bike, car), switches by id",
        Kind::Stops => "stops by the bytes of their names",
        _ => "by FROM, and then by TO, each pair once",
    }
}

/// Which ends a row of a kind has.
fn ends_of(kind: Kind) -> &'static str {
    match kind {
        Kind::Arcs => "a road arc leads between two different road nodes of one mode",
        _ => "a link leads between two nodes, of which exactly one is a road node",
    }
}
