//! Tags of nodes and ways.

ghost use Rattle.std.specs.Prelude.{◌≡◌, [], fold, map, option_map, IfOk, OnOk};
ghost use Rattle.opl_reader.specs.Optional.{each};
ghost use Rattle.opl_reader.specs.Tags as spec;

use crate::cuts::{cut, parts};
use crate::escapes::unescape;
use crate::lists::Items;
use crate::objects::{Amenity, Bytes, Element};
use std::alloc::{AllocError, Global};

/// Whether a tag of ways with this key is kept.
fn is_way_key(key: &[u8]) -> bool
    ensures { result ≡ spec.is_way_key key.now }
{
    key == b"highway".as_slice()
        || key == b"access".as_slice()
        || key == b"foot".as_slice()
        || key == b"bicycle".as_slice()
        || key == b"motor_vehicle".as_slice()
        || key == b"oneway".as_slice()
        || key == b"oneway:bicycle".as_slice()
        || key == b"junction".as_slice()
        || key == b"area".as_slice()
}

/// Whether a tag of nodes with this key is kept.
fn is_node_key(key: &[u8]) -> bool
    ensures { result ≡ spec.is_node_key key.now }
{
    key == b"amenity".as_slice()
}

fn is_key(element: Element, key: &[u8]) -> bool
    ensures { result ≡ spec.is_key element key.now }
{
    match element {
        Element::Node => is_node_key(key),
        Element::Way => is_way_key(key),
    }
}

/// `key=value`; `None` exactly where a text is not of this form.
#[tactic(auto, unfolding(crate::specs::Tags::tag_at))]
fn read_tag(alloc: Global, text: &[u8]) -> Result<Option<(Bytes, Bytes)>, AllocError>
    ensures { IfOk result (λ tag. tag ≡ spec.tag_at text.now) }
{
    let Some((key, value)) = cut(text, b'=') else {
        return Ok(None);
    };
    if cut(value, b'=').is_some() {
        return Ok(None);
    }
    let Some(key) = unescape(alloc, key)? else {
        return Ok(None);
    };
    let Some(value) = unescape(alloc, value)? else {
        return Ok(None);
    };
    Ok(Some((key, value)))
}

fn has_key(tags: &[(Bytes, Bytes)], key: &[u8]) -> bool
    ensures { result ≡ spec.has_key tags.now key.now }
{
    tags.iter().any(|tag| tag.0.as_slice() == key)
}

/// Puts a tag to the others, if its key is of use and new.
fn push_tag(
    element: Element,
    tags: &mut Vec<(Bytes, Bytes)>,
    tag: (Bytes, Bytes),
) -> Result<(), AllocError>
    ensures { OnOk result (tags.new.items ≡ spec.with_tag (spec.is_key element) tags.old.items tag) }
{
    if is_key(element, tag.0.as_slice()) && !has_key(tags, tag.0.as_slice()) {
        tags.push(tag)?;
    }
    Ok(())
}

/// The first tag of each key of use; `None` exactly where one of the texts is no tag.
fn read_each(
    alloc: Global,
    element: Element,
    texts: &[&[u8]],
) -> Result<Option<Items<(Bytes, Bytes)>>, AllocError>
    ensures { IfOk result (λ tags. tags ≡ option_map (fold (spec.with_tag (spec.is_key element)) [])
        (each spec.tag_at (map (λ text. text.now) texts.now))) }
{
    let mut tags = Vec::new(alloc);
    for text in texts {
        let Some(tag) = read_tag(alloc, text)? else {
            return Ok(None);
        };
        push_tag(element, &mut tags, tag)?;
    }
    Ok(Some(Items::from(tags)))
}

/// The first tag of each key of use: `key=value` each, parted by commas, or nothing where there are none.
///
/// `None` exactly where the value of the field is not of this form.
#[tactic(auto, unfolding(crate::specs::Tags::tags_at))]
pub(crate) fn read_tags(
    alloc: Global,
    element: Element,
    value: &[u8],
) -> Result<Option<Items<(Bytes, Bytes)>>, AllocError>
    ensures { IfOk result (λ tags. tags ≡ spec.tags_at (spec.is_key element) value.now) }
{
    if value.is_empty() {
        return Ok(Some(Items::from(Vec::new(alloc))));
    }
    let texts = parts(alloc, value)?;
    read_each(alloc, element, &texts)
}

/// What a node with this value of the key `amenity` is.
fn amenity_at(value: &[u8]) -> Amenity
    ensures { result ≡ spec.amenity_at value.now }
{
    if value == b"parking".as_slice() {
        Amenity::Parking
    } else if value == b"bicycle_parking".as_slice() {
        Amenity::BicycleParking
    } else if value == b"bicycle_rental".as_slice() {
        Amenity::BicycleRental
    } else {
        Amenity::Nothing
    }
}

/// What a node with these tags is; no other key is of use at a node.
pub(crate) fn amenity_of(tags: &[(Bytes, Bytes)]) -> Amenity
    ensures { result ≡ spec.amenity_of tags.now }
{
    match tags {
        [] => Amenity::Nothing,
        [tag, ..] => amenity_at(tag.1.as_slice()),
    }
}
