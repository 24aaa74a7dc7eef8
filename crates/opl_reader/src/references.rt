//! Coordinates, and references of ways to nodes.

ghost use Rattle.std.specs.Prelude.{◌≡◌, ◌≤◌, map, IfOk};
ghost use Rattle.opl_reader.specs.Optional.{each};
ghost use Rattle.opl_reader.specs.Cuts.{cut_of};
ghost use Rattle.opl_reader.specs.References as spec;

use crate::cuts::{cut, parts};
use crate::ids::read_id;
use crate::lists::Items;
use geo_length::read_degrees;
use std::alloc::{AllocError, Global};

/// Degrees of at most this size, in units of 10^-7 degree. An empty value is no coordinate.
///
/// `None` exactly where the value is neither.
pub(crate) fn read_coordinate(value: &[u8], most: u32) -> Option<Option<i64>>
    requires { most ≤ 180 }
    ensures { result ≡ spec.coordinate_at most value.now }
{
    if value.is_empty() {
        Some(None)
    } else {
        Some(Some(read_degrees(value, most)?))
    }
}

/// Whether a text is a longitude, `y` and a latitude.
fn are_coordinates(text: &[u8]) -> bool
    ensures { result ≡ spec.are_coordinates (cut_of 121 text.now) }
{
    match cut(text, b'y') {
        None => false,
        Some((x, y)) => read_coordinate(x, 180).is_some() && read_coordinate(y, 90).is_some(),
    }
}

/// An id, behind which `x` and coordinates may stand.
fn placed_id(text: &[u8]) -> Option<i64>
    ensures { result ≡ spec.placed_id text.now (cut_of 120 text.now) }
{
    match cut(text, b'x') {
        None => read_id(text),
        Some((id, place)) => if are_coordinates(place) {
            read_id(id)
        } else {
            None
        },
    }
}

/// `n` and an id.
#[tactic(auto, unfolding(crate::specs::References::reference_at))]
fn read_reference(text: &[u8]) -> Option<i64>
    ensures { result ≡ spec.reference_at text.now }
{
    match text {
        [b'n', rest @ ..] => placed_id(rest),
        _ => None,
    }
}

/// The ids of these references; `None` exactly where one of them is none.
fn read_each(alloc: Global, texts: &[&[u8]]) -> Result<Option<Items<i64>>, AllocError>
    ensures { IfOk result (λ ids. ids ≡ each spec.reference_at (map (λ text. text.now) texts.now)) }
{
    let mut ids = Vec::new(alloc);
    for text in texts {
        let Some(id) = read_reference(text) else {
            return Ok(None);
        };
        ids.push(id)?;
    }
    Ok(Some(Items::from(ids)))
}

/// The ids that a way names: `n` and an id each, optionally with coordinates, parted by commas, or nothing
/// where it names none.
///
/// `None` exactly where the value of the field is not of this form.
#[tactic(auto, unfolding(crate::specs::References::references_at))]
pub(crate) fn read_references(alloc: Global, value: &[u8]) -> Result<Option<Items<i64>>, AllocError>
    ensures { IfOk result (λ ids. ids ≡ spec.references_at value.now) }
{
    if value.is_empty() {
        return Ok(Some(Items::from(Vec::new(alloc))));
    }
    let texts = parts(alloc, value)?;
    read_each(alloc, &texts)
}
