//! Reading a map, piece by piece.

ghost use Rattle.std.specs.Prelude.{◌≡◌, ◌≤◌, ◌++◌, ℕ, List, length, Ok, IfErr, IfOk, OnOk};
ghost use Rattle.plan_base.specs.Shelves.{Gave, IsLater};
ghost use Rattle.plan_base.specs.declared.limits.Caps as c;
ghost use Rattle.opl_reader.specs.ObjectLists.{AreObjects};
ghost use Rattle.opl_reader.specs.Objects.{objects_of};
ghost use Rattle.opl_reader.specs.Readings.{HasTaken};
ghost use Rattle.run_steps.specs.Sayings.{IsUnread};
ghost use Rattle.run_steps.specs.declared.outcome.FileRole.TheVariants as role;
ghost use Rattle.compile_commands.specs.inside.Working.{HasMap, IsEndOutcome, IsMapOutcome, IsPieceRefusal};

use fault_notes::bad_map;
use memchr::memchr_iter;
use opl_reader::{Objects, Opl, OplFault};
use plan_base::{Caps, ReadFault, Shelf, Sink};
use run_steps::{FileRole, MOST_BYTES, Outcome, SourceFault, refused, tell};
use std::alloc::{AllocError, Global};

/// How many bytes of a map are asked for at a time.
const PIECE: usize = 65_536;

/// The objects of the map of this name. What is read is taken before more is asked for, so the map is never held whole, and
/// the first fault is answered as soon as what was read shows it. If there are no objects, `notes` is told why.
pub(crate) fn read_map<F: Shelf, E: Sink>(
    alloc: Global,
    shelf: &mut F,
    name: &str,
    caps: &Caps,
    notes: &mut E,
) -> Result<Objects, Outcome>
    ensures later { IsLater (F.meaning shelf.old) (F.meaning shelf.new) }
    ensures ok { IfOk result (HasMap caps.now (F.meaning shelf.old) name.now) }
    ensures sound { IfOk result AreObjects }
    ensures err { IfErr result (IsMapOutcome caps.now (F.meaning shelf.old) (F.meaning shelf.new) name.now) }
{
    let mut opl = Opl::new(alloc, *caps);
    let mut buffer = [0u8; PIECE];
    let mut taken: u64 = 0;
    let mut lines: u64 = 0;
    'pieces: loop {
        let n = read_piece(alloc, shelf, name, taken, &mut buffer, notes)?;
        if n == 0 {
            return finished(alloc, opl, name, notes);
        }
        taken += n as u64;
        if taken > MOST_BYTES {
            let fault = ReadFault::TooLong { cap: MOST_BYTES };
            return Err(refused(alloc, name, FileRole::Opl, fault, notes));
        }
        let piece = &buffer[..n];
        let before = Before {
            bytes: taken.saturating_sub(n as u64),
            lines,
        };
        take_piece(alloc, &mut opl, piece, name, before, notes)?;
        lines = lines.saturating_add(line_feeds(piece));
        tell_how_far(alloc, name, taken, n as u64, notes);
    }
}

/// The number of the line that a fault names, if it names one.
fn line_of(fault: OplFault) -> Option<u64> {
    match fault {
        OplFault::BadLine { line } | OplFault::RepeatedObject { line } => Some(line),
        OplFault::TooMany { .. } | OplFault::OutOfMemory => None,
    }
}

/// How many line feeds a piece has.
fn line_feeds(piece: &[u8]) -> u64 {
    memchr_iter(b'\n', piece).count() as u64
}

/// How many bytes of a map stand before a piece, and how many lines have ended in them.
#[derive(Clone, Copy)]
struct Before {
    bytes: u64,
    lines: u64,
}

/// The line of this number, from 1 on, if it begins in the piece.
fn line_in(piece: &[u8], number: u64, before: Before) -> Option<&[u8]> {
    let place = number.checked_sub(1)?.checked_sub(before.lines)?;
    if place == 0 && before.bytes > 0 {
        return None;
    }
    let place = usize::try_from(place).ok()?;
    piece.split(|byte| *byte == b'\n').nth(place)
}

/// What is wrong with a map that is refused at this piece: that it is of another format, or its fault.
fn told(
    alloc: Global,
    name: &str,
    fault: OplFault,
    piece: &[u8],
    before: Before,
) -> Result<String, AllocError> {
    match other_format(piece) {
        Some(format) if before.bytes == 0 => format!(in alloc;
            "{name}: this file is {format}, and a map is text in the format OPL, as \"osmium cat -f opl\" makes it"
        ),
        _ => {
            let line = line_of(fault).and_then(|number| line_in(piece, number, before));
            bad_map(alloc, name, fault, line)
        }
    }
}

/// The format of a file that begins so, if it is one in which maps are found that is not OPL.
fn other_format(bytes: &[u8]) -> Option<&'static str> {
    if bytes.get(6..15) == Some(b"OSMHeader".as_slice()) {
        Some("PBF")
    } else if bytes.starts_with(b"<?xml") || bytes.starts_with(b"<osm") {
        Some("XML")
    } else if bytes.starts_with(&[0x1f, 0x8b]) {
        Some("packed by gzip")
    } else if bytes.starts_with(b"BZh") {
        Some("packed by bzip2")
    } else {
        None
    }
}

/// After how many bytes of a map people are told how far it is read.
const MARK: u64 = 1 << 24;

/// Tells how far a map is read, when a mark was passed with the last piece.
fn tell_how_far<E: Sink>(alloc: Global, name: &str, taken: u64, piece: u64, notes: &mut E) {
    if taken / MARK == taken.saturating_sub(piece) / MARK {
        return;
    }
    let mebibytes = taken >> 20;
    tell(
        alloc,
        notes,
        format!(in alloc; "{name}: {mebibytes} MiB of the map are read"),
    );
}

/// The bytes of the map from a place on, as far as there is room, and how many there are.
fn read_piece<F: Shelf, E: Sink>(
    alloc: Global,
    shelf: &mut F,
    name: &str,
    from: u64,
    into: &mut [u8],
    notes: &mut E,
) -> Result<usize, Outcome>
    ensures later { IsLater (F.meaning shelf.old) (F.meaning shelf.new) }
    ensures within { IfOk result (λ n. n ≤ length into.old) }
    ensures bytes { IfOk result (λ n. Gave (F.meaning shelf.old) name.now from n into.new) }
    ensures err { IfErr result (IsUnread (F.meaning shelf.old) (F.meaning shelf.new) name.now role.Opl) }
{
    match shelf.read(name, from, into) {
        Ok(n) => Ok(n),
        Err(error) => {
            let fault = ReadFault::from(error);
            Err(refused(alloc, name, FileRole::Opl, fault, notes))
        }
    }
}

/// Has a piece of the map taken.
fn take_piece<E: Sink>(
    alloc: Global,
    opl: &mut Opl,
    piece: &[u8],
    name: &str,
    before: Before,
    notes: &mut E,
) -> Result<(), Outcome>
    ensures taken { (caps : c.Caps) (bytes : List ℕ) → HasTaken opl.old caps bytes
        → OnOk result (HasTaken opl.new caps (bytes ++ piece.now)) }
    ensures err { (caps : c.Caps) (bytes : List ℕ) → HasTaken opl.old caps bytes
        → IfErr result (IsPieceRefusal caps (bytes ++ piece.now)) }
{
    match opl.feed(piece) {
        Ok(()) => Ok(()),
        Err(OplFault::OutOfMemory) => Err(Outcome::OutOfMemory),
        Err(fault) => {
            tell(alloc, notes, told(alloc, name, fault, piece, before));
            Err(Outcome::BadFeed {
                fault: SourceFault::Opl(fault),
            })
        }
    }
}

/// The objects of the map that was taken.
fn finished<E: Sink>(alloc: Global, opl: Opl, name: &str, notes: &mut E) -> Result<Objects, Outcome>
    ensures objects { (caps : c.Caps) (bytes : List ℕ) → HasTaken opl caps bytes
        → IfOk result (λ objects. objects_of caps bytes ≡ Ok objects) }
    ensures sound { (caps : c.Caps) (bytes : List ℕ) → HasTaken opl caps bytes → IfOk result AreObjects }
    ensures err { (caps : c.Caps) (bytes : List ℕ) → HasTaken opl caps bytes
        → IfErr result (IsEndOutcome caps bytes) }
{
    match opl.finish() {
        Ok(objects) => Ok(objects),
        Err(OplFault::OutOfMemory) => Err(Outcome::OutOfMemory),
        Err(fault) => {
            tell(alloc, notes, bad_map(alloc, name, fault, None));
            Err(Outcome::BadFeed {
                fault: SourceFault::Opl(fault),
            })
        }
    }
}
