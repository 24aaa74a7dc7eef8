//! The command `check`: whether a hierarchy is sound for a region, whoever made it.

ghost use Rattle.run_steps.specs.Scene.{scene};
ghost use Rattle.run_steps.specs.Sayings.{end_of};
ghost use Rattle.hierarchy_commands.specs.Commands.{SaysCheck};

use crate::reading::read_hierarchy;
use plan_base::{Caps, Shelf, Sink};
use run_steps::{Outcome, Ports, read_region, write_text};

/// Reads the region and the hierarchy file of these names, and writes that it is sound; or says on `notes` what it breaks.
pub fn check<F: Shelf, O: Sink, E: Sink>(
    ports: &mut Ports<F, O, E>,
    region: &str,
    hierarchy: &str,
    caps: &Caps,
) -> Result<(), Outcome>
    ensures { SaysCheck caps.now region.now hierarchy.now
        (scene (F.meaning ports.old.shelf) (O.meaning ports.old.out))
        (scene (F.meaning ports.new.shelf) (O.meaning ports.new.out)) (end_of result) }
{
    let alloc = ports.alloc;
    let network = read_region(alloc, &mut ports.shelf, region, caps, &mut ports.notes)?;
    read_hierarchy(
        alloc,
        &mut ports.shelf,
        hierarchy,
        &network,
        &mut ports.notes,
    )?;
    write_text(&mut ports.out, b"sound\n")?;
    Ok(())
}
