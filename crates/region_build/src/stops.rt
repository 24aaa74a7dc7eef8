//! The stops of a feed in the order of their names.

ghost use Rattle.std.specs.Prelude.{◌≡◌, ◌<◌, ◌^◌, ℕ, length, map, nat_eq, IfOk, OnOk};
ghost use Rattle.std.specs.HashMap.{get};
ghost use Rattle.std.specs.List.{AllByRecursion};
ghost use Rattle.std.specs.List.Sorted.{IsPermutation, IsSorted};
ghost use Rattle.plain_texts.specs.Escape.{escaped};
ghost use Rattle.gtfs_tables.specs.Sound.{IsFeedId};
ghost use Rattle.mode_network.specs.Rules.{name_cmp};
ghost use Rattle.region_build.specs.StopNames as spec;
ghost use Rattle.region_build.specs.inside.Numbers.{number_with};

use gtfs_tables::StopRow;
use mode_network::{Node, NodeKey};
use plain_texts::{Name, name_of_id};
use plan_base::Place;
use std::alloc::{AllocError, Global};
use std::collections::HashMap;

/// A stop of a feed: its name, its place in the feed's list, and where it lies.
#[derive(Debug, Drop)]
pub(crate) struct StopEntry {
    pub(crate) name: Name,
    pub(crate) stop: u32,
    pub(crate) place: Place,
}

fn entry_of(alloc: Global, place: u32, stop: &StopRow) -> Result<StopEntry, AllocError>
    requires { IsFeedId stop.now.id }
    ensures { IfOk result (λ entry. entry ≡ record {
      name = escaped stop.now.id;
      stop = place;
      place =
          stop.now.place;
    }) }
{
    let name = name_of_id(alloc, stop.id.as_bytes())?;
    Ok(StopEntry {
        name,
        stop: place,
        place: stop.place,
    })
}

fn all_entries(alloc: Global, stops: &[StopRow]) -> Result<Vec<StopEntry>, AllocError>
    requires ids { AllByRecursion (λ stop. IsFeedId stop.id) stops.now }
    requires few { length stops.now < 2 ^ 32 }
    ensures { IfOk result (λ entries. entries.items ≡ spec.entries_from 0 stops.now) }
{
    let mut entries = Vec::new(alloc);
    let mut place = 0;
    let mut rest = stops;
    while let [stop, after @ ..] = rest {
        entries.push(entry_of(alloc, place, stop)?)?;
        place += 1;
        rest = after;
    }
    Ok(entries)
}

fn in_order(mut entries: Vec<StopEntry>) -> Result<Vec<StopEntry>, AllocError>
    ensures same { IfOk result (λ sorted. IsPermutation entries.items sorted.items) }
    ensures ascend { IfOk result (λ sorted. IsSorted (λ a b. name_cmp a.name b.name) sorted.items) }
{
    entries.sort_by(|a, b| a.name.as_bytes().cmp(b.name.as_bytes()))?;
    Ok(entries)
}

/// The stops of a feed in the order of their names.
pub(crate) fn entries_of(alloc: Global, stops: &[StopRow]) -> Result<Vec<StopEntry>, AllocError>
    requires ids { AllByRecursion (λ stop. IsFeedId stop.id) stops.now }
    requires few { length stops.now < 2 ^ 32 }
    ensures { IfOk result (λ entries. spec.AreEntries stops.now entries.items) }
{
    let entries = all_entries(alloc, stops)?;
    in_order(entries)
}

/// The nodes of these stops.
pub(crate) fn stop_nodes(alloc: Global, entries: &[StopEntry]) -> Result<Vec<Node>, AllocError>
    requires { length entries.now < 2 ^ 32 }
    ensures { IfOk result (λ nodes. nodes.items ≡ spec.stop_entry_nodes 0 entries.now) }
{
    let mut nodes = Vec::new(alloc);
    let mut number = 0;
    let mut rest = entries;
    while let [entry, after @ ..] = rest {
        nodes.push(Node {
            key: NodeKey::Stop(number),
            place: entry.place,
        })?;
        number += 1;
        rest = after;
    }
    Ok(nodes)
}

/// The names of these stops.
pub(crate) fn names_of(alloc: Global, entries: Vec<StopEntry>) -> Result<Vec<Name>, AllocError>
    ensures { IfOk result (λ names. names.items ≡ map (λ entry. entry.name) entries.items) }
{
    let mut names = Vec::new(alloc);
    for entry in entries {
        names.push(entry.name)?;
    }
    Ok(names)
}

/// The numbers of stops, by their places in the feed's list.
#[derive(Drop)]
pub(crate) struct StopNumbers {
    pub(crate) by_stop: HashMap<u32, u32>,
}

/// Notes the number of a stop, unless it has one.
fn note(by_stop: &mut HashMap<u32, u32>, stop: u32, number: u32) -> Result<(), AllocError>
    ensures { OnOk result ((other : ℕ) → get nat_eq by_stop.new other ≡ number_with
        (get nat_eq by_stop.old other) stop number other) }
{
    by_stop.entry(stop)?.or_insert(number);
    Ok(())
}

/// The numbers of these stops.
pub(crate) fn numbers_of(alloc: Global, entries: &[StopEntry]) -> Result<StopNumbers, AllocError>
    requires { length entries.now < 2 ^ 32 }
    ensures { IfOk result (λ numbers. (stop : ℕ) → get nat_eq numbers.by_stop stop ≡ spec.stop_number
        entries.now stop) }
{
    let mut by_stop = HashMap::new(alloc);
    let mut number = 0;
    let mut rest = entries;
    while let [entry, after @ ..] = rest {
        note(&mut by_stop, entry.stop, number)?;
        number += 1;
        rest = after;
    }
    Ok(StopNumbers { by_stop })
}

impl StopNumbers {
    ghost use Rattle.std.specs.Prelude.{◌≡◌, nat_eq};
    ghost use Rattle.std.specs.HashMap.{get};

    /// The number of a stop; `None` exactly where none is noted.
    pub(crate) fn of(&self, stop: u32) -> Option<u32>
        ensures { result ≡ get nat_eq self.now.by_stop stop }
    {
        self.by_stop.get(&stop).copied()
    }
}
