//! The command `contract`: a hierarchy of a region's road layers.

ghost use Rattle.std.specs.Prelude.{IfOk};
ghost use Rattle.run_steps.specs.Scene.{scene};
ghost use Rattle.run_steps.specs.Sayings.{end_of};
ghost use Rattle.hierarchy_commands.specs.Commands.{IsContraction, SaysContract};

use crate::progress::{ContractionNotes, is_too_long};
use hierarchy::Sizes;
use hierarchy_file::encode;
use mode_network::Network;
use plan_base::{Caps, Shelf, Sink};
use run_steps::{Outcome, Ports, read_region, tell, write_text};
use std::alloc::{AllocError, Global};

/// Reads the region of this name, contracts its road layers, and writes the hierarchy. `notes` is told how far it is.
pub fn contract<F: Shelf, O: Sink, E: Sink>(
    ports: &mut Ports<F, O, E>,
    region: &str,
    keep: u32,
    caps: &Caps,
) -> Result<(), Outcome>
    ensures { SaysContract caps.now region.now keep
        (scene (F.meaning ports.old.shelf) (O.meaning ports.old.out))
        (scene (F.meaning ports.new.shelf) (O.meaning ports.new.out)) (end_of result) }
{
    let alloc = ports.alloc;
    let network = read_region(alloc, &mut ports.shelf, region, caps, &mut ports.notes)?;
    let text = contracted(alloc, network, keep, &mut ports.notes)?;
    write_text(&mut ports.out, &text)?;
    Ok(())
}

/// The text of a hierarchy of the network. The memory of its trips is free again while it is contracted, and the rest
/// of its memory when the text is made.
fn contracted<E: Sink>(
    alloc: Global,
    network: Network,
    keep: u32,
    notes: &mut E,
) -> Result<Vec<u8>, AllocError>
    ensures { IfOk result (λ text. IsContraction network keep text.items) }
{
    let mut progress = ContractionNotes::new(alloc, &mut *notes);
    let roads = network.without_trips(alloc)?;
    let lists = contractor::contract(alloc, &roads, keep, &mut progress)?;
    let nodes = roads.nodes();
    drop(roads);
    let sizes = lists.sizes();
    let text = encode(alloc, lists)?;
    tell(alloc, notes, told_at_end(alloc, nodes, sizes, text.len()));
    Ok(text)
}

/// What the hierarchy of a network with so many nodes consists of.
fn told_at_end(
    alloc: Global,
    nodes: u32,
    sizes: Sizes,
    bytes: usize,
) -> Result<String, AllocError> {
    let Sizes {
        order: contracted,
        entries,
        witnesses,
        ..
    } = sizes;
    let core = u64::from(nodes).saturating_sub(contracted);
    let unread = if is_too_long(bytes as u64) {
        ", which is more than any command reads; keep more nodes"
    } else {
        ""
    };
    format!(in alloc;
        "{contracted} nodes are contracted, and {core} are left as the core; {entries} entries and {witnesses} witnesses, in {bytes} bytes{unread}"
    )
}
