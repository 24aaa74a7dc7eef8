//! Faults of maps.

use crate::pieces::shown;
use geo_length::read_degrees;
use opl_reader::OplFault;
use std::alloc::{AllocError, Global};

/// What is wrong with the map file of this path. `line` is the line at fault, where it is at hand.
pub fn bad_map(
    alloc: Global,
    path: &str,
    fault: OplFault,
    line: Option<&[u8]>,
) -> Result<String, AllocError> {
    match fault {
        OplFault::BadLine { line: number } => bad_line(alloc, path, number, line),
        OplFault::RepeatedObject { line: number } => {
            let text = shown(alloc, line.unwrap_or(&[]))?;
            format!(in alloc;
                "{path}, line {number}: {text}: an earlier line has an object of this kind and id, and there may be one; of a file with the history of objects, \"osmium time-filter\" takes those of one moment"
            )
        }
        OplFault::TooMany { kind } => too_many(alloc, path, kind.name(), kind.most()),
        OplFault::OutOfMemory => format!(in alloc; "memory ran out"),
    }
}

/// There is too much of something.
pub(crate) fn too_many(
    alloc: Global,
    path: &str,
    name: &str,
    most: u64,
) -> Result<String, AllocError> {
    format!(in alloc; "{path}: there are too many {name}; {most} is the most")
}

/// A line of a map is of no form that a line may have.
fn bad_line(
    alloc: Global,
    path: &str,
    number: u64,
    line: Option<&[u8]>,
) -> Result<String, AllocError> {
    match line {
        Some(line) => {
            let wrong = what_is_wrong(line);
            let line = shown(alloc, line)?;
            format!(in alloc; "{path}, line {number}: {line}: {wrong}")
        }
        None => format!(in alloc;
            "{path}, line {number}: this is no line of OPL: it must be a node, as \"n17 x13.37 y52.51\", or a way, as \"w5 Thighway=path Nn17,n18\""
        ),
    }
}

/// What a bad line breaks first.
fn what_is_wrong(line: &[u8]) -> &'static str {
    if line.last() == Some(&b'\r') {
        return "it ends with a carriage return, and a line ends with a line feed alone";
    }
    if line
        .iter()
        .any(|byte| byte.is_ascii_control() && *byte != b'\t')
    {
        return "it has a control character";
    }
    match line.first() {
        Some(b'n') => wrong_object(line, Element::Node),
        Some(b'w') => wrong_object(line, Element::Way),
        _ => "a line begins with n for a node, w for a way, r or c, or # for a comment",
    }
}

#[derive(Clone, Copy)]
enum Element {
    Node,
    Way,
}

/// What the line of a node or a way breaks first.
fn wrong_object(line: &[u8], element: Element) -> &'static str {
    for (place, word) in line
        .split(|byte| *byte == b' ' || *byte == b'\t')
        .enumerate()
    {
        if place == 0 {
            if !is_id(word) {
                return "an id of 1 to 18 digits must follow the first letter";
            }
        } else if let Some(wrong) = wrong_field(word, element) {
            return wrong;
        }
    }
    "a field that is read stands twice"
}

/// Whether a letter and an id stand here.
fn is_id(word: &[u8]) -> bool {
    let digits = match word {
        [_, b'-', digits @ ..] | [_, digits @ ..] => digits,
        [] => return false,
    };
    !digits.is_empty() && digits.len() <= 18 && digits.iter().all(|byte| byte.is_ascii_digit())
}

/// What a field breaks, if it breaks anything by itself.
fn wrong_field(field: &[u8], element: Element) -> Option<&'static str> {
    match (element, field) {
        (_, []) | (_, [b'd', b'V']) | (_, [b'd', b'D']) => None,
        (_, [b'd', ..]) => Some("d must be V, for visible, or D, for deleted"),
        (_, [b'T', tags @ ..]) => wrong_tags(tags),
        (Element::Node, [b'x', degrees @ ..]) => wrong_longitude(degrees),
        (Element::Node, [b'y', degrees @ ..]) => wrong_latitude(degrees),
        (Element::Way, [b'N', references @ ..]) => wrong_references(references),
        (_, [letter, ..]) if letter.is_ascii_alphabetic() => None,
        _ => Some("a field begins with a letter"),
    }
}

fn wrong_longitude(text: &[u8]) -> Option<&'static str> {
    if text.is_empty() || read_degrees(text, 180).is_some() {
        return None;
    }
    Some("x must be degrees with a point, as 13.37, and at most 180")
}

fn wrong_latitude(text: &[u8]) -> Option<&'static str> {
    if text.is_empty() || read_degrees(text, 90).is_some() {
        return None;
    }
    Some("y must be degrees with a point, as 52.51, and at most 90")
}

fn wrong_tags(tags: &[u8]) -> Option<&'static str> {
    if tags.is_empty() {
        return None;
    }
    for tag in tags.split(|byte| *byte == b',') {
        match tag.iter().filter(|byte| **byte == b'=').count() {
            0 => return Some("a tag has no \"=\""),
            1 => {}
            _ => return Some("a tag has more than one \"=\"; within a value it is written %3d%"),
        }
        if let Some(wrong) = wrong_escapes(tag) {
            return Some(wrong);
        }
    }
    None
}

/// What the percent signs of a tag break.
fn wrong_escapes(tag: &[u8]) -> Option<&'static str> {
    if tag.iter().filter(|byte| **byte == b'%').count() % 2 == 1 {
        return Some(
            "a \"%\" begins a character that no other \"%\" ends; \"%\" itself is written %25%",
        );
    }
    if tag
        .split(|byte| *byte == b'%')
        .enumerate()
        .all(|(place, text)| place % 2 == 0 || is_character(text))
    {
        None
    } else {
        Some("between two \"%\" stand the 1 to 6 hexadecimal digits of a character of Unicode")
    }
}

/// Whether hexadecimal digits spell a character of Unicode.
fn is_character(digits: &[u8]) -> bool {
    let mut number: u32 = 0;
    for byte in digits {
        match (*byte as char).to_digit(16) {
            Some(digit) if number < 0x10_0000 => number = number * 16 + digit,
            _ => return false,
        }
    }
    (1..=6).contains(&digits.len()) && char::from_u32(number).is_some()
}

fn wrong_references(references: &[u8]) -> Option<&'static str> {
    if references.is_empty() {
        return None;
    }
    for reference in references.split(|byte| *byte == b',') {
        let mut parts = reference.splitn(2, |byte| *byte == b'x');
        let name = parts.next().unwrap_or(&[]);
        if name.first() != Some(&b'n') || !is_id(name) {
            return Some("N has the ids of nodes, each behind an n, parted by commas");
        }
        if let Some(wrong) = parts.next().and_then(wrong_coordinates) {
            return Some(wrong);
        }
    }
    None
}

/// What the coordinates of a reference break, which stand behind its `x`.
fn wrong_coordinates(text: &[u8]) -> Option<&'static str> {
    match text.iter().position(|byte| *byte == b'y') {
        Some(place) => wrong_longitude(&text[..place]).or(wrong_latitude(&text[place + 1..])),
        None => Some("an id of N with x and no y; both stand behind it, or none"),
    }
}
