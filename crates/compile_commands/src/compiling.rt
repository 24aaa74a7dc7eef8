//! The commands `compile` and `migrate`: a region of a map and a timetable feed, and a region in another format.

ghost use Rattle.std.specs.Prelude.{◌≡◌, None};
ghost use Rattle.plan_base.specs.Shelves.{ShelfMeaning};
ghost use Rattle.plan_base.specs.declared.limits.Caps as c;
ghost use Rattle.mode_network.specs.Rules.{first_fault};
ghost use Rattle.run_steps.specs.Scene.{scene};
ghost use Rattle.run_steps.specs.Sayings.{WritesText, end_of};
ghost use Rattle.compile_commands.specs.Commands.{SaysCompile, SaysMigrate};
ghost use Rattle.compile_commands.specs.Outputs.{IsRegionFile};

use crate::builds::{MapAndFeed, built};
use crate::closing::{Sources, tell_closing};
use crate::feeds::read_feed_in;
use crate::maps::read_map;
use mode_network::Network;
use plan_base::{Caps, Shelf, Sink};
use region_build::Region;
use region_file::{Format, encode};
use run_steps::{Outcome, Ports, read_region, write_text};
use service_days::Days;
use std::alloc::Global;

/// Reads the map of this name and the files of the feed in this folder, and writes the region of both over these days, in
/// this format. `notes` is told how far it is, and what the region consists of.
pub fn compile<F: Shelf, O: Sink, E: Sink>(
    ports: &mut Ports<F, O, E>,
    map: &str,
    feed: &str,
    days: Days,
    format: Format,
    caps: &Caps,
) -> Result<(), Outcome>
    ensures { SaysCompile caps.now map.now feed.now days format
        (scene (F.meaning ports.old.shelf) (O.meaning ports.old.out))
        (scene (F.meaning ports.new.shelf) (O.meaning ports.new.out)) (end_of result) }
{
    let alloc = ports.alloc;
    let objects = read_map(alloc, &mut ports.shelf, map, caps, &mut ports.notes)?;
    let tables = read_feed_in(alloc, &mut ports.shelf, feed, caps, &mut ports.notes)?;
    let sources = Sources::of(&objects, &tables);
    let both = MapAndFeed {
        objects,
        feed: tables,
        days,
    };
    let region = built(alloc, both, feed, caps, &mut ports.notes)?;
    write_compiled(
        alloc,
        &region,
        sources,
        format,
        &mut ports.out,
        &mut ports.notes,
    )
}

/// Writes a region that was compiled of these sources, in this format. `notes` is told what it consists of, and what came to
/// nothing.
fn write_compiled<O: Sink, E: Sink>(
    alloc: Global,
    region: &Region,
    sources: Sources,
    format: Format,
    out: &mut O,
    notes: &mut E,
) -> Result<(), Outcome>
    ensures { (caps : c.Caps) (old new : ShelfMeaning) → first_fault caps region.now.network ≡ None
        → WritesText (IsRegionFile caps format region.now.network) (scene old (O.meaning out.old))
        (scene new (O.meaning out.new)) (end_of result) }
{
    let text = encode(alloc, &region.network, format)?;
    tell_closing(alloc, region, sources, text.len(), notes);
    write_text(out, &text)
}

/// Reads the region of this name, and writes it anew in this format.
pub fn migrate<F: Shelf, O: Sink, E: Sink>(
    ports: &mut Ports<F, O, E>,
    region: &str,
    format: Format,
    caps: &Caps,
) -> Result<(), Outcome>
    ensures { SaysMigrate caps.now region.now format
        (scene (F.meaning ports.old.shelf) (O.meaning ports.old.out))
        (scene (F.meaning ports.new.shelf) (O.meaning ports.new.out)) (end_of result) }
{
    let alloc = ports.alloc;
    let network = read_region(alloc, &mut ports.shelf, region, caps, &mut ports.notes)?;
    write_network(alloc, &network, format, &mut ports.out)
}

/// Writes a network in this format.
fn write_network<O: Sink>(
    alloc: Global,
    network: &Network,
    format: Format,
    out: &mut O,
) -> Result<(), Outcome>
    ensures { (caps : c.Caps) (old new : ShelfMeaning) → first_fault caps network.now ≡ None
        → WritesText (IsRegionFile caps format network.now) (scene old (O.meaning out.old))
        (scene new (O.meaning out.new)) (end_of result) }
{
    let bytes = encode(alloc, network, format)?;
    write_text(out, &bytes)
}
