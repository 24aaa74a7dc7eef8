//! Ways are cut where they name a node without a place.

ghost use Rattle.std.specs.Prelude.{◌≡◌, map, filter, length, nat_le, not, IfOk};
ghost use Rattle.std.specs.List.{slice_split};
ghost use Rattle.opl_reader.specs.Objects as spec;
ghost use Rattle.opl_reader.specs.Gathered.{is_seen_placed};

use crate::lines::WayLine;
use crate::lists::Items;
use crate::objects::OsmWay;
use indexmap::IndexMap;
use std::alloc::{AllocError, Global};

/// Whether a node of this id was seen, and with a place.
fn has_place(seen: &IndexMap<i64, bool>, id: i64) -> bool
    ensures { result ≡ is_seen_placed seen.now.entries id }
{
    match seen.get(&id) {
        Some(has_place) => *has_place,
        None => false,
    }
}

/// What stands between the nodes that have no place.
fn cuts<'a>(
    alloc: Global,
    seen: &IndexMap<i64, bool>,
    references: &'a [i64],
) -> Result<Vec<&'a [i64]>, AllocError>
    ensures { IfOk result (λ v. map (λ piece. piece.now) v.items ≡ slice_split
        (λ id. not (is_seen_placed seen.now.entries id)) references.now) }
{
    references.split(|id| !has_place(seen, *id)).collect(alloc)
}

/// Those of two or more nodes.
fn long_pieces(alloc: Global, pieces: &[&[i64]]) -> Result<Items<Items<i64>>, AllocError>
    ensures { IfOk result (λ v. v ≡ filter (λ piece. nat_le 2 (length piece))
        (map (λ piece. piece.now) pieces.now)) }
{
    let mut long = Vec::new(alloc);
    for piece in pieces {
        if piece.len() >= 2 {
            long.push(Items::from(Vec::from_slice(alloc, piece)?))?;
        }
    }
    Ok(Items::from(long))
}

fn cut_way(alloc: Global, seen: &IndexMap<i64, bool>, way: WayLine) -> Result<OsmWay, AllocError>
    ensures { IfOk result (λ cut. cut ≡ spec.cut_way (is_seen_placed seen.now.entries) way) }
{
    let WayLine {
        id,
        tags,
        references,
    } = way;
    let pieces = cuts(alloc, seen, references.as_slice())?;
    let pieces = long_pieces(alloc, &pieces)?;
    Ok(OsmWay { id, tags, pieces })
}

/// The ways, cut where they name a node that was not seen with a place. Pieces of two or more nodes remain.
pub(crate) fn cut_ways(
    alloc: Global,
    seen: &IndexMap<i64, bool>,
    ways: Vec<WayLine>,
) -> Result<Vec<OsmWay>, AllocError>
    ensures { IfOk result (λ v. v.items ≡ map (spec.cut_way (is_seen_placed seen.now.entries)) ways.items) }
{
    let mut done = Vec::new(alloc);
    for way in ways {
        done.push(cut_way(alloc, seen, way)?)?;
    }
    Ok(done)
}
