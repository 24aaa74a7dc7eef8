//! Reading a hierarchy, which is checked at once.

ghost use Rattle.std.specs.Prelude.{◌≡◌, IfErr, IfOk, option_map};
ghost use Rattle.hierarchy_check.specs.Nodes.{HasNodes};
ghost use Rattle.hierarchy_commands.specs.Working.{HasSound, AreSound, AreUnsound, IsSoundOf, IsUnsoundOf, IsHierarchyOutcome, IsFoundSound, IsNamedOutcome, hierarchy_outcome};

use crate::broken::Judged;
use fault_notes::bad_hierarchy;
use hierarchy::{Hierarchy, Lists, Verdict};
use hierarchy_check::{check_nodes, check_ways};
use hierarchy_file::{HFileFault, decode_lists};
use mode_network::Network;
use plan_base::{Shelf, Sink};
use run_steps::{FileRole, Outcome, read_file, tell};
use std::alloc::Global;

/// The hierarchy that a file spells, which is sound for the network, if a file is named. If it is to be had and there is
/// none, `notes` is told why.
pub fn read_if_named<F: Shelf, E: Sink>(
    alloc: Global,
    shelf: &mut F,
    name: Option<&str>,
    network: &Network,
    notes: &mut E,
) -> Result<Option<Hierarchy>, Outcome>
    ensures ok { IfOk result (IsFoundSound (F.meaning shelf.old) (F.meaning shelf.new) network.now
        (option_map (λ it. it.now) name.entry)) }
    ensures err { IfErr result (IsNamedOutcome (F.meaning shelf.old) (F.meaning shelf.new) network.now
        (option_map (λ it. it.now) name.entry)) }
{
    match name {
        Some(name) => {
            let h = read_hierarchy(alloc, shelf, name, network, notes)?;
            Ok(Some(h))
        }
        None => Ok(None),
    }
}

/// The hierarchy that a file spells, which is sound for the network. If there is none, `notes` is told why.
pub(crate) fn read_hierarchy<F: Shelf, E: Sink>(
    alloc: Global,
    shelf: &mut F,
    name: &str,
    network: &Network,
    notes: &mut E,
) -> Result<Hierarchy, Outcome>
    ensures ok { IfOk result (HasSound (F.meaning shelf.old) (F.meaning shelf.new) network.now name.now) }
    ensures err { IfErr result (IsHierarchyOutcome (F.meaning shelf.old) (F.meaning shelf.new) network.now
        name.now) }
{
    let bytes = read_file(alloc, shelf, name, FileRole::Hierarchy, notes)?;
    sound(alloc, network, name, &bytes, notes)
}

/// The hierarchy that the bytes spell, which is sound for the network; or why there is none, which `notes` is told too.
fn sound<E: Sink>(
    alloc: Global,
    network: &Network,
    path: &str,
    bytes: &[u8],
    notes: &mut E,
) -> Result<Hierarchy, Outcome>
    ensures ok { IfOk result (AreSound network.now bytes.now) }
    ensures err { IfErr result (AreUnsound network.now bytes.now) }
{
    match decode_lists(alloc, bytes) {
        Ok(lists) => sound_of(alloc, network, path, lists, notes),
        Err(fault) => Err(refused(alloc, path, fault, notes)),
    }
}

/// How a run ends whose hierarchy is refused, which `notes` is told.
fn refused<E: Sink>(alloc: Global, path: &str, fault: HFileFault, notes: &mut E) -> Outcome
    ensures { result ≡ hierarchy_outcome fault }
{
    match fault {
        HFileFault::OutOfMemory => Outcome::OutOfMemory,
        fault => {
            tell(alloc, notes, bad_hierarchy(alloc, path, fault));
            Outcome::BadHierarchy { fault }
        }
    }
}

/// The hierarchy of these lists, which is sound for the network; or the first clause that fails, which `notes` is told too.
///
/// Its tables are made when the order and the entries are known to name nodes of the network alone, so that they are no
/// longer than these are many.
fn sound_of<E: Sink>(
    alloc: Global,
    network: &Network,
    path: &str,
    lists: Lists,
    notes: &mut E,
) -> Result<Hierarchy, Outcome>
    ensures ok { IfOk result (IsSoundOf network.now lists) }
    ensures err { IfErr result (IsUnsoundOf network.now lists) }
{
    match check_nodes(alloc, network, lists.order(), lists.entries())? {
        Verdict::Sound => joined(alloc, network, path, lists, notes),
        Verdict::Broken { clause, at, by } => {
            let judged = Judged {
                network,
                path,
                order: lists.order(),
                entries: lists.entries(),
            };
            tell(alloc, notes, judged.broken(alloc, clause, at, by));
            Err(Outcome::Unsound { clause, at, by })
        }
    }
}

/// The hierarchy of lists that name nodes of the network alone, which is sound for it; or the first clause that fails, which
/// `notes` is told too.
fn joined<E: Sink>(
    alloc: Global,
    network: &Network,
    path: &str,
    lists: Lists,
    notes: &mut E,
) -> Result<Hierarchy, Outcome>
    requires { HasNodes network.now lists }
    ensures ok { IfOk result (IsSoundOf network.now lists) }
    ensures err { IfErr result (IsUnsoundOf network.now lists) }
{
    let h = lists.into_hierarchy(alloc)?;
    match check_ways(network, &h) {
        Verdict::Sound => Ok(h),
        Verdict::Broken { clause, at, by } => {
            let judged = Judged {
                network,
                path,
                order: h.order(),
                entries: h.entries(),
            };
            tell(alloc, notes, judged.broken(alloc, clause, at, by));
            Err(Outcome::Unsound { clause, at, by })
        }
    }
}
