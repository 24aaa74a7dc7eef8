//! The words of a case.

ghost use Rattle.std.specs.Prelude.{◌<◌};

use plan_base::{Caps, Kind};

/// The first word of a line, and what stands behind the space after it.
pub fn cut(line: &[u8]) -> (&[u8], &[u8]) {
    match line.iter().position(|byte| *byte == b' ') {
        Some(end) => {
            let (word, rest) = line.split_at(end);
            (word, &rest[1..])
        }
        None => (line, b""),
    }
}

/// The text of these bytes; an empty one where they are none.
pub fn text(bytes: &[u8]) -> &str {
    str::from_utf8(bytes).unwrap_or("")
}

/// The number that the first digits of a word spell.
pub fn number(word: &[u8]) -> u64 {
    let mut number: u64 = 0;
    for byte in word {
        if !byte.is_ascii_digit() {
            return number;
        }
        number = number
            .wrapping_mul(10)
            .wrapping_add(u64::from(digit(*byte)));
    }
    number
}

/// The node of the number that a word spells, or the last one.
pub fn node(word: &[u8]) -> u32 {
    u32::try_from(number(word)).unwrap_or(u32::MAX)
}

/// What a hexadecimal digit stands for; 0 for another byte.
pub fn digit(byte: u8) -> u8
    ensures { result < 16 }
{
    match byte {
        b'0'..=b'9' => byte - b'0',
        b'a'..=b'f' => byte - b'a' + 10,
        _ => 0,
    }
}

/// The limits of the programs, but for at most four kinds that words name, each with the most of it.
pub fn caps(words: &[u8]) -> Caps {
    let (caps, rest) = limited(Caps::FULL, words);
    let (caps, rest) = limited(caps, rest);
    let (caps, rest) = limited(caps, rest);
    let (caps, _) = limited(caps, rest);
    caps
}

/// The limits with the most of the kind that the first word names, and the words behind.
fn limited(caps: Caps, words: &[u8]) -> (Caps, &[u8]) {
    let (name, behind) = cut(words);
    let (most, behind) = cut(behind);
    let most = number(most);
    match kind(name) {
        Some(kind) if most < 1_000 => (caps.with_most(kind, most), behind),
        _ => (caps, behind),
    }
}

/// The kind that a word names.
fn kind(name: &[u8]) -> Option<Kind> {
    match text(name) {
        "nodes" => Some(Kind::Nodes),
        "arcs" => Some(Kind::Arcs),
        "links" => Some(Kind::Links),
        "stops" => Some(Kind::Stops),
        "trips" => Some(Kind::Trips),
        "calls" => Some(Kind::Calls),
        "osm_nodes" => Some(Kind::OsmNodes),
        "ways" => Some(Kind::Ways),
        "refs" => Some(Kind::Refs),
        "routes" => Some(Kind::Routes),
        "services" => Some(Kind::Services),
        "dates" => Some(Kind::Dates),
        _ => None,
    }
}
