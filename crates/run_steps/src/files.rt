//! The files that a command reads.

ghost use Rattle.std.specs.Prelude.{◌≡◌, IfOk, IfErr, option_map};
ghost use Rattle.plan_base.specs.Shelves.{IsLater, HasRead};
ghost use Rattle.run_steps.specs.Sayings.{IsUnread, IsUnreadable, most_of};
ghost use Rattle.run_steps.specs.Working.{HasRegion, IsFound, IsRegionOutcome, outcome_of, region_outcome};

use crate::notes::tell;
use crate::outcome::{FileRole, Outcome};
use fault_notes::bad_region;
use mode_network::Network;
use plan_base::{Caps, ReadFault, Shelf, Sink, read_whole};
use region_file::{RegionFault, decode};
use std::alloc::{AllocError, Global};

/// The most bytes that a line of a file may have, and a file that is read whole but for a region and a hierarchy.
pub const MOST_BYTES: u64 = 1 << 30;

/// The most bytes that a region may have, and a hierarchy: that of the largest metropolis with few nodes kept passes 2^30.
const MOST_OF_NETWORKS: u64 = 1 << 34;

/// The most bytes that a file with this role may have where it is read whole.
pub fn most_of(file: FileRole) -> u64
    ensures { result ≡ most_of file }
{
    match file {
        FileRole::Region | FileRole::Hierarchy => MOST_OF_NETWORKS,
        _ => MOST_BYTES,
    }
}

/// A file, whole. If it can't be had, `notes` is told why.
pub fn read_file<F: Shelf, E: Sink>(
    alloc: Global,
    shelf: &mut F,
    name: &str,
    file: FileRole,
    notes: &mut E,
) -> Result<Vec<u8>, Outcome>
    ensures later { IsLater (F.meaning shelf.old) (F.meaning shelf.new) }
    ensures ok { IfOk result (λ bytes. HasRead (F.meaning shelf.old) name.now (most_of file) bytes.items) }
    ensures err { IfErr result (IsUnread (F.meaning shelf.old) (F.meaning shelf.new) name.now file) }
{
    match read_whole(alloc, shelf, name, most_of(file)) {
        Ok(bytes) => Ok(bytes),
        Err(ReadFault::OutOfMemory) => Err(Outcome::OutOfMemory),
        Err(fault) => Err(refused(alloc, name, file, fault, notes)),
    }
}

/// A file that may be absent, whole; None where it is absent. If it is there and can't be had, `notes` is told why.
pub fn read_file_if_there<F: Shelf, E: Sink>(
    alloc: Global,
    shelf: &mut F,
    name: &str,
    file: FileRole,
    notes: &mut E,
) -> Result<Option<Vec<u8>>, Outcome>
    ensures later { IsLater (F.meaning shelf.old) (F.meaning shelf.new) }
    ensures ok { IfOk result (λ found. IsFound (F.meaning shelf.old) (F.meaning shelf.new) name.now file
        (option_map (λ bytes. bytes.items) found)) }
    ensures err { IfErr result (IsUnreadable (F.meaning shelf.old) (F.meaning shelf.new) name.now file) }
{
    match read_whole(alloc, shelf, name, most_of(file)) {
        Ok(bytes) => Ok(Some(bytes)),
        Err(ReadFault::Missing) => Ok(None),
        Err(ReadFault::OutOfMemory) => Err(Outcome::OutOfMemory),
        Err(fault) => Err(refused(alloc, name, file, fault, notes)),
    }
}

/// How a run ends where a read of a file was refused, or it is too long. `notes` is told why.
pub fn refused<E: Sink>(
    alloc: Global,
    name: &str,
    file: FileRole,
    fault: ReadFault,
    notes: &mut E,
) -> Outcome
    ensures { result ≡ outcome_of file fault }
{
    tell(alloc, notes, unread(alloc, name, file, fault));
    outcome_of(file, fault)
}

/// How a run ends where a file can't be read.
fn outcome_of(file: FileRole, fault: ReadFault) -> Outcome
    ensures { result ≡ outcome_of file fault }
{
    match fault {
        ReadFault::Missing => Outcome::Missing { file },
        ReadFault::Failed => Outcome::ReadFault { file },
        ReadFault::TooLong { .. } => Outcome::TooLong { file },
        ReadFault::OutOfMemory => Outcome::OutOfMemory,
    }
}

/// Why a file can't be read, told to people.
fn unread(
    alloc: Global,
    path: &str,
    file: FileRole,
    fault: ReadFault,
) -> Result<String, AllocError> {
    let role = file.name();
    match fault {
        ReadFault::Missing => {
            format!(in alloc; "{path}: there is no such file; it should be the {role} file")
        }
        ReadFault::Failed => {
            let remedy = match file {
                FileRole::Feed(_) if lies_in_zip(path) => {
                    ": a feed is read as a folder, so unzip it"
                }
                _ => "",
            };
            format!(in alloc; "{path}: the {role} file can't be read{remedy}")
        }
        ReadFault::TooLong { cap } => {
            let power = cap.trailing_zeros();
            format!(in alloc;
                "{path}: the {role} file has more than 2^{power} bytes, which is the most that is read"
            )
        }
        ReadFault::OutOfMemory => format!(in alloc; "memory ran out"),
    }
}

/// Whether a path leads into a packed archive.
fn lies_in_zip(path: &str) -> bool {
    path.as_bytes()
        .split(|byte| *byte == b'/')
        .any(|part| part.ends_with(b".zip"))
}

/// The network that a region file spells. If there is none, `notes` is told why.
pub fn read_region<F: Shelf, E: Sink>(
    alloc: Global,
    shelf: &mut F,
    name: &str,
    caps: &Caps,
    notes: &mut E,
) -> Result<Network, Outcome>
    ensures later { IsLater (F.meaning shelf.old) (F.meaning shelf.new) }
    ensures ok { IfOk result (HasRegion caps.now (F.meaning shelf.old) name.now) }
    ensures err { IfErr result (IsRegionOutcome caps.now (F.meaning shelf.old) (F.meaning shelf.new)
        name.now) }
{
    let bytes = read_file(alloc, shelf, name, FileRole::Region, notes)?;
    match decode(alloc, &bytes, caps) {
        Ok(network) => {
            network.known();
            Ok(network)
        }
        Err(fault) => Err(refused_region(alloc, name, &bytes, fault, notes)),
    }
}

/// How a run ends whose region is refused, which `notes` is told.
fn refused_region<E: Sink>(
    alloc: Global,
    name: &str,
    bytes: &[u8],
    fault: RegionFault,
    notes: &mut E,
) -> Outcome
    ensures { result ≡ region_outcome fault }
{
    match fault {
        RegionFault::OutOfMemory => Outcome::OutOfMemory,
        fault => {
            tell(alloc, notes, bad_region(alloc, name, bytes, fault));
            Outcome::BadRegion { fault }
        }
    }
}
