//! What a line of a map's text says.

ghost use Rattle.std.specs.Prelude.{◌≡◌, ◌≤◌, Some, map, option_map, IfOk};
ghost use Rattle.std.specs.List.{list_all};
ghost use Rattle.opl_reader.specs.Lines as spec;

use crate::cuts::words;
use crate::ids::read_id;
use crate::lists::Items;
use crate::objects::{Amenity, Bytes, Element};
use crate::references::{read_coordinate, read_references};
use crate::tags::{amenity_of, read_tags};
use plan_base::Place;
use std::alloc::{AllocError, Global};

/// What a line says.
#[derive(Debug, Drop)]
pub enum Line {
    /// Nothing that is kept.
    Passed,
    /// The line is of no form that a line may have.
    Bad,
    /// A visible node.
    Node(NodeLine),
    /// A visible way.
    Way(WayLine),
}

/// A visible node.
#[derive(Clone, Copy, Debug)]
pub struct NodeLine {
    pub id: i64,
    /// Where it stands, if the line says so.
    pub place: Option<Place>,
    pub amenity: Amenity,
}

/// A visible way.
#[derive(Debug, Drop)]
pub struct WayLine {
    pub id: i64,
    /// Keys and values, of the keys of use alone. No key stands twice.
    pub tags: Items<(Bytes, Bytes)>,
    /// The ids of its nodes in order.
    pub references: Items<i64>,
}

fn is_letter(byte: u8) -> bool
    ensures { result ≡ spec.is_letter byte }
{
    (b'A' <= byte && byte <= b'Z') || (b'a' <= byte && byte <= b'z')
}

/// Whether a word may be a field: it begins with a letter.
fn is_field(text: &[u8]) -> bool
    ensures { result ≡ spec.is_field text.now }
{
    match text {
        [] => true,
        [letter, ..] => is_letter(*letter),
    }
}

fn are_fields(fields: &[&[u8]]) -> bool
    ensures { result ≡ list_all spec.is_field (map (λ field. field.now) fields.now) }
{
    for field in fields {
        if !is_field(field) {
            return false;
        }
    }
    true
}

/// What stands behind this letter, if the field begins with it.
fn value_with(letter: u8, field: &[u8]) -> Option<&[u8]>
    ensures { option_map (λ value. value.now) result ≡ spec.value_with letter field.now }
{
    match field {
        [first, value @ ..] if *first == letter => Some(value),
        _ => None,
    }
}

/// The value of the field with this letter, if there is one; `None` exactly where there are more.
#[tactic(auto, unfolding(crate::specs::Lines::field_of))]
fn field<'a>(letter: u8, fields: &[&'a [u8]]) -> Option<Option<&'a [u8]>>
    ensures { option_map (option_map (λ value. value.now)) result ≡ spec.field_of letter
        (map (λ field. field.now) fields.now) }
{
    let mut found = None;
    for field in fields {
        if let Some(value) = value_with(letter, field) {
            if found.is_some() {
                return None;
            }
            found = Some(value);
        }
    }
    Some(found)
}

/// The value of the field with this letter, empty where there is none; `None` exactly where there are more.
fn text<'a>(letter: u8, fields: &[&'a [u8]]) -> Option<&'a [u8]>
    ensures { option_map (λ value. value.now) result ≡ spec.field_text letter
        (map (λ field. field.now) fields.now) }
{
    match field(letter, fields)? {
        Some(value) => Some(value),
        None => Some(&[]),
    }
}

/// What the value of the field `d` says.
fn is_visible(value: &[u8]) -> Option<bool>
    ensures { result ≡ spec.visible_at (Some value.now) }
{
    if value == b"V".as_slice() {
        Some(true)
    } else if value == b"D".as_slice() {
        Some(false)
    } else {
        None
    }
}

/// Whether an object is visible; `None` exactly where its field `d` may not be so.
fn read_visible(fields: &[&[u8]]) -> Option<bool>
    ensures { result ≡ spec.visible_of (map (λ field. field.now) fields.now) }
{
    match field(b'd', fields)? {
        None => Some(true),
        Some(value) => is_visible(value),
    }
}

/// The degrees in the field with this letter, if it has any; `None` exactly where it may not be so.
fn coordinate(letter: u8, most: u32, fields: &[&[u8]]) -> Option<Option<i64>>
    requires { most ≤ 180 }
    ensures { result ≡ spec.coordinate_of letter most (map (λ field. field.now) fields.now) }
{
    read_coordinate(text(letter, fields)?, most)
}

fn place_at(lat: Option<i64>, lon: Option<i64>) -> Option<Place>
    ensures { result ≡ spec.place_if_both lat lon }
{
    let lat = lat?;
    let lon = lon?;
    Place::new(lat, lon)
}

/// The place of a node, if it has both coordinates; `None` exactly where one of them may not be so.
fn read_place(fields: &[&[u8]]) -> Option<Option<Place>>
    ensures { result ≡ spec.place_in (map (λ field. field.now) fields.now) }
{
    let lon = coordinate(b'x', 180, fields)?;
    let lat = coordinate(b'y', 90, fields)?;
    Some(place_at(lat, lon))
}

/// A line of a deleted object is passed over.
fn shown(visible: bool, line: Line) -> Line
    ensures { result ≡ spec.line_if_visible visible line }
{
    if visible { line } else { Line::Passed }
}

/// The node with this id and these fields and tags; `None` exactly where one of them may not be so.
#[tactic(auto, unfolding(crate::specs::Lines::node_by_tags))]
fn node(id: &[u8], fields: &[&[u8]], tags: &[(Bytes, Bytes)]) -> Option<Line>
    ensures { result ≡ spec.node_by_tags id.now (map (λ field. field.now) fields.now) tags.now }
{
    let id = read_id(id)?;
    let visible = read_visible(fields)?;
    let place = read_place(fields)?;
    let amenity = amenity_of(tags);
    let node = NodeLine { id, place, amenity };
    Some(shown(visible, Line::Node(node)))
}

/// The way with this id and these fields; `None` exactly where one of them may not be so.
#[tactic(auto, unfolding(crate::specs::Lines::way_by_tags))]
fn way(
    id: &[u8],
    fields: &[&[u8]],
    tags: Items<(Bytes, Bytes)>,
    references: Items<i64>,
) -> Option<Line>
    ensures { result ≡ spec.way_by_tags id.now (map (λ field. field.now) fields.now) tags references }
{
    let id = read_id(id)?;
    let visible = read_visible(fields)?;
    let way = WayLine {
        id,
        tags,
        references,
    };
    Some(shown(visible, Line::Way(way)))
}

/// The tags in the field `T`; `None` exactly where it may not be so.
fn tags_in(
    alloc: Global,
    element: Element,
    fields: &[&[u8]],
) -> Result<Option<Items<(Bytes, Bytes)>>, AllocError>
    ensures { IfOk result (λ tags. tags ≡ spec.tags_in element (map (λ field. field.now) fields.now)) }
{
    match text(b'T', fields) {
        None => Ok(None),
        Some(value) => read_tags(alloc, element, value),
    }
}

/// The ids in the field `N`; `None` exactly where it may not be so.
fn references_in(alloc: Global, fields: &[&[u8]]) -> Result<Option<Items<i64>>, AllocError>
    ensures { IfOk result (λ ids. ids ≡ spec.references_in (map (λ field. field.now) fields.now)) }
{
    match text(b'N', fields) {
        None => Ok(None),
        Some(value) => read_references(alloc, value),
    }
}

/// What a line of a node says; `None` exactly where it is bad.
#[tactic(auto, unfolding(crate::specs::Lines::node_by_fields))]
fn node_line(alloc: Global, id: &[u8], fields: &[&[u8]]) -> Result<Option<Line>, AllocError>
    ensures { IfOk result (λ line. line ≡ spec.node_by_fields id.now (map (λ field. field.now) fields.now)) }
{
    let Some(tags) = tags_in(alloc, Element::Node, fields)? else {
        return Ok(None);
    };
    Ok(node(id, fields, tags.as_slice()))
}

/// What a line of a way says; `None` exactly where it is bad.
#[tactic(auto, unfolding(crate::specs::Lines::way_by_fields))]
fn way_line(alloc: Global, id: &[u8], fields: &[&[u8]]) -> Result<Option<Line>, AllocError>
    ensures { IfOk result (λ line. line ≡ spec.way_by_fields id.now (map (λ field. field.now) fields.now)) }
{
    let Some(tags) = tags_in(alloc, Element::Way, fields)? else {
        return Ok(None);
    };
    let Some(references) = references_in(alloc, fields)? else {
        return Ok(None);
    };
    Ok(way(id, fields, tags, references))
}

fn element_line(
    alloc: Global,
    element: Element,
    id: &[u8],
    fields: &[&[u8]],
) -> Result<Option<Line>, AllocError>
    ensures { IfOk result (λ line. line ≡ spec.element_line element id.now
        (map (λ field. field.now) fields.now)) }
{
    match element {
        Element::Node => node_line(alloc, id, fields),
        Element::Way => way_line(alloc, id, fields),
    }
}

/// What a line with these words behind its first letter says.
fn words_line(alloc: Global, element: Element, words: &[&[u8]]) -> Result<Line, AllocError>
    ensures { IfOk result (λ line. line ≡ spec.words_line element (map (λ word. word.now) words.now)) }
{
    match words {
        [] => Ok(Line::Bad),
        [id, fields @ ..] => {
            if !are_fields(fields) {
                return Ok(Line::Bad);
            }
            match element_line(alloc, element, id, fields)? {
                Some(line) => Ok(line),
                None => Ok(Line::Bad),
            }
        }
    }
}

/// Whether no byte is a control character but the tab.
fn are_plain(text: &[u8]) -> bool
    ensures { result ≡ list_all spec.is_plain_byte text.now }
{
    text.iter()
        .all(|byte| *byte == b'\t' || (b' ' <= *byte && *byte != 0x7f))
}

/// What a line with this text behind its first letter says.
#[tactic(auto, unfolding(crate::specs::Lines::text_line))]
fn text_line(alloc: Global, element: Element, text: &[u8]) -> Result<Line, AllocError>
    ensures { IfOk result (λ line. line ≡ spec.text_line element text.now) }
{
    if !are_plain(text) {
        return Ok(Line::Bad);
    }
    let words = words(alloc, text)?;
    words_line(alloc, element, &words)
}

/// What a line says.
#[tactic(auto, unfolding(crate::specs::Lines::map_line_of))]
pub(crate) fn read_line(alloc: Global, line: &[u8]) -> Result<Line, AllocError>
    ensures { IfOk result (λ read. read ≡ spec.map_line_of line.now) }
{
    match line {
        [] => Ok(Line::Passed),
        [b'n', text @ ..] => text_line(alloc, Element::Node, text),
        [b'w', text @ ..] => text_line(alloc, Element::Way, text),
        [b'#' | b'r' | b'c', ..] => Ok(Line::Passed),
        _ => Ok(Line::Bad),
    }
}
