//! The ends of road arcs: OSM nodes, each in the layer of a mode.

ghost use Rattle.std.specs.Prelude.{◌≡◌, ◌++◌, ◌∷◌, [], map, if◌then◌else◌, IfOk, OnOk};
ghost use Rattle.std.specs.List.{flat_map, list_any};
ghost use Rattle.std.specs.List.Sorted.{IsPermutation, IsSorted};
ghost use Rattle.region_build.specs.Ends.{AreEnds, ends_at, end_cmp, is_same_end, key_of_end, number_of_end, once_behind};

use indexmap::IndexSet;
use plan_base::Mode;
use road_profile::RoadRow;
use std::alloc::{AllocError, Global};
use std::marker::Model;

/// The ends of road arcs in their order, each once. A contract sees them as a list.
#[derive(Drop)]
pub(crate) struct Ends {
    ends: Vec<(i64, Mode)>,
    /// Their ids and the numbers of their modes, by which they are found.
    keys: IndexSet<(i64, u8)>,
}

impl Model for Ends {
    ghost use Rattle.std.specs.Prelude.{List};
    ghost use Rattle.region_build.specs.Ends.{End};

    ghost Value = { List End };

    ghost view = { λ e. e.ends.items };

    ghost use Rattle.std.specs.Prelude.{◌≡◌, map};
    ghost use Rattle.region_build.specs.Ends.{key_of_end};

    ghost invariant = { λ e. e.keys.keys ≡ map key_of_end e.ends.items };
}

/// Puts both ends of a road arc to the others.
fn push_ends(ends: &mut Vec<(i64, Mode)>, row: &RoadRow) -> Result<(), AllocError>
    ensures { OnOk result (ends.new.items ≡ ends.old.items ++ ends_at row.now) }
{
    ends.push((row.from, row.mode))?;
    ends.push((row.to, row.mode))?;
    Ok(())
}

fn all_ends(alloc: Global, rows: &[RoadRow]) -> Result<Vec<(i64, Mode)>, AllocError>
    ensures { IfOk result (λ ends. ends.items ≡ flat_map ends_at rows.now) }
{
    let mut ends = Vec::new(alloc);
    for row in rows {
        push_ends(&mut ends, row)?;
    }
    Ok(ends)
}

fn in_order(mut ends: Vec<(i64, Mode)>) -> Result<Vec<(i64, Mode)>, AllocError>
    ensures same { IfOk result (λ sorted. IsPermutation ends.items sorted.items) }
    ensures ascend { IfOk result (λ sorted. IsSorted end_cmp sorted.items) }
{
    ends.sort_by_key(|end| (end.0, end.1.number()))?;
    Ok(ends)
}

/// Puts an end behind those that were seen, whose keys these are, unless it is one of them.
fn put_once(
    seen: &mut Vec<(i64, Mode)>,
    keys: &mut IndexSet<(i64, u8)>,
    end: (i64, Mode),
) -> Result<(), AllocError>
    requires { keys.old.keys ≡ map key_of_end seen.old.items }
    ensures keys { OnOk result (keys.new.keys ≡ map key_of_end seen.new.items) }
    ensures seen { OnOk result (seen.new.items ≡ (if list_any (is_same_end end) seen.old.items
        then seen.old.items else seen.old.items ++ end ∷ [])) }
{
    if keys.insert((end.0, end.1.number()))? {
        seen.push(end)?;
    }
    Ok(())
}

impl Ends {
    ghost use Rattle.std.specs.Prelude.{[], ◌<◌, length, IfSome};

    /// These ends, each once.
    fn once(alloc: Global, ends: &[(i64, Mode)]) -> Result<Ends, AllocError>
        ensures { IfOk result (λ once. once ≡ once_behind [] ends.now) }
    {
        let mut once = Vec::new(alloc);
        let mut keys = IndexSet::new(alloc);
        for end in ends {
            put_once(&mut once, &mut keys, *end)?;
        }
        Ok(Ends { ends: once, keys })
    }

    /// The ends of these arcs.
    pub(crate) fn of(alloc: Global, rows: &[RoadRow]) -> Result<Ends, AllocError>
        ensures { IfOk result (AreEnds rows.now) }
    {
        let ends = all_ends(alloc, rows)?;
        let ends = in_order(ends)?;
        let once = Ends::once(alloc, &ends)?;
        Ok(once)
    }

    /// The ends.
    pub(crate) fn as_slice(&self) -> &[(i64, Mode)]
        ensures { result.now ≡ self.now }
    {
        &self.ends
    }

    /// The number of an end; `None` exactly where it is none of these.
    pub(crate) fn number(&self, id: i64, mode: Mode) -> Option<usize>
        ensures value { result ≡ number_of_end self.now (id, mode) }
        ensures within { IfSome result (λ number. number < length self.now) }
    {
        self.keys.get_index_of(&(id, mode.number()))
    }
}
