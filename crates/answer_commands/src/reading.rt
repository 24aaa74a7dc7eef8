//! Reading the region and the hierarchy that a command answers over.

ghost use Rattle.std.specs.Prelude.{IfErr, IfOk, IfSome, option_map};
ghost use Rattle.hierarchy.specs.Soundness.{IsSound};
ghost use Rattle.answer_commands.specs.Working.{HasBoth, IsBothOutcome};

use hierarchy::Hierarchy;
use hierarchy_commands::read_if_named;
use mode_network::Network;
use plan_base::{Caps, Shelf, Sink};
use run_steps::{Outcome, read_region};
use std::alloc::Global;

/// The region of this name, and the hierarchy, if one is named, which is sound for it. If they are not to be had, `notes` is
/// told why.
pub fn read_both<F: Shelf, E: Sink>(
    alloc: Global,
    region: &str,
    hierarchy: Option<&str>,
    shelf: &mut F,
    notes: &mut E,
    caps: &Caps,
) -> Result<(Network, Option<Hierarchy>), Outcome>
    ensures ok { IfOk result (λ both. HasBoth caps.now (F.meaning shelf.old) (F.meaning shelf.new) region.now
        (option_map (λ it. it.now) hierarchy.entry) both.0 both.1) }
    ensures sound { IfOk result (λ both. IfSome both.1 (λ h. IsSound both.0 h)) }
    ensures err { IfErr result (IsBothOutcome caps.now (F.meaning shelf.old) (F.meaning shelf.new) region.now
        (option_map (λ it. it.now) hierarchy.entry)) }
{
    let network = read_region(alloc, shelf, region, caps, notes)?;
    let hierarchy = read_if_named(alloc, shelf, hierarchy, &network, notes)?;
    Ok((network, hierarchy))
}
