//! What a line says, by its words.

ghost use Rattle.std.specs.Prelude.{◌≡◌, ◌^◌, ◌<◌, map, option_map, IfOk};
ghost use Rattle.std.specs.Str.{bytes_eq};
ghost use Rattle.certificate.specs.Kinds as spec;

use crate::lines::Line;
use mode_network::{Bytes, Step};
use plain_texts::{read_number, words_of};
use plan_base::Time;
use product_search::Label;
use std::alloc::{AllocError, Global};

/// A number below 2^32.
fn word_of(text: &[u8]) -> Option<u32>
    ensures { result ≡ spec.number_of_word text.now }
{
    let n = read_number(text, 1 << 32)?;
    Some(n as u32)
}

/// A time, of at most 30 digits.
pub fn time_of(text: &[u8]) -> Option<Time>
    ensures { result ≡ spec.time_of_word text.now }
{
    read_number(text, 1_000_000_000_000_000_000_000_000_000_000)
}

/// A label, whose line begins with no word of its own.
#[tactic(auto, unfolding(crate::specs::Kinds::label_of_words))]
fn label_of(words: &[&[u8]]) -> Option<Label>
    ensures { result ≡ spec.label_of_words (map (λ w. w.now) words.now) }
{
    match words {
        [node, state, at] => {
            let node = word_of(node)?;
            let state = word_of(state)?;
            let at = time_of(at)?;
            Some(Label { node, state, at })
        }
        _ => None,
    }
}

/// This line, where nothing stands behind its first word.
fn bare(line: Line, fields: &[&[u8]]) -> Option<Line>
    ensures { result ≡ spec.bare line (map (λ w. w.now) fields.now) }
{
    match fields {
        [] => Some(line),
        _ => None,
    }
}

/// Whether a word is this one.
fn is_word(word: &[u8], this: &[u8]) -> bool
    ensures { result ≡ bytes_eq word.now this.now }
{
    word == this
}

/// Whether these words say a certificate, in the first format.
fn is_head(what: &[u8], version: &[u8]) -> bool
    ensures { result ≡ spec.is_head what.now version.now }
{
    is_word(what, b"certificate") && is_word(version, b"1")
}

#[tactic(auto, unfolding(crate::specs::Kinds::head_of_words))]
fn head_of(fields: &[&[u8]]) -> Option<Line>
    ensures { result ≡ spec.head_of_words (map (λ w. w.now) fields.now) }
{
    match fields {
        [what, version] if is_head(what, version) => Some(Line::Head),
        _ => None,
    }
}

/// Whether the graph of this name is of phases.
fn phases_of(graph: &[u8]) -> Option<bool>
    ensures { result ≡ spec.phases_of_word graph.now }
{
    if is_word(graph, b"plain") {
        Some(false)
    } else if is_word(graph, b"phases") {
        Some(true)
    } else {
        None
    }
}

#[tactic(auto, unfolding(crate::specs::Kinds::graph_of_words))]
fn graph_of(fields: &[&[u8]]) -> Option<Line>
    ensures { result ≡ spec.graph_of_words (map (λ w. w.now) fields.now) }
{
    match fields {
        [graph] => {
            let phases = phases_of(graph)?;
            Some(Line::Graph { phases })
        }
        _ => None,
    }
}

#[tactic(auto, unfolding(crate::specs::Kinds::arrive_of_words))]
fn arrive_of(fields: &[&[u8]]) -> Option<Line>
    ensures { result ≡ spec.arrive_of_words (map (λ w. w.now) fields.now) }
{
    match fields {
        [at] => Some(Line::Arrive(time_of(at)?)),
        _ => None,
    }
}

#[tactic(auto, unfolding(crate::specs::Kinds::start_of_words))]
fn start_of(fields: &[&[u8]]) -> Option<Line>
    ensures { result ≡ spec.start_of_words (map (λ w. w.now) fields.now) }
{
    match fields {
        [node, at] => {
            let node = word_of(node)?;
            let at = time_of(at)?;
            Some(Line::Start { node, at })
        }
        _ => None,
    }
}

#[tactic(auto, unfolding(crate::specs::Kinds::wait_of_words))]
fn wait_of(fields: &[&[u8]]) -> Option<Line>
    ensures { result ≡ spec.wait_of_words (map (λ w. w.now) fields.now) }
{
    match fields {
        [until] => {
            let until = time_of(until)?;
            Some(Line::Step(Step::Wait { until }))
        }
        _ => None,
    }
}

/// The node that a road arc or a link is taken to.
#[tactic(auto, unfolding(crate::specs::Kinds::to_of_words))]
fn to_of(fields: &[&[u8]]) -> Option<u32>
    ensures { result ≡ spec.to_of_words (map (λ w. w.now) fields.now) }
{
    match fields {
        [to] => word_of(to),
        _ => None,
    }
}

#[tactic(auto, unfolding(crate::specs::Kinds::ride_of_words))]
fn ride_of(fields: &[&[u8]]) -> Option<Line>
    ensures { result ≡ spec.ride_of_words (map (λ w. w.now) fields.now) }
{
    match fields {
        [trip, day, board, alight] => {
            let trip = word_of(trip)?;
            let day = word_of(day)?;
            let board = word_of(board)?;
            let alight = word_of(alight)?;
            Some(Line::Step(Step::Ride {
                trip,
                day,
                board,
                alight,
            }))
        }
        _ => None,
    }
}

#[tactic(auto, unfolding(crate::specs::Kinds::labels_of_words))]
fn labels_of(fields: &[&[u8]]) -> Option<Line>
    ensures { result ≡ spec.labels_of_words (map (λ w. w.now) fields.now) }
{
    match fields {
        [count] => {
            let count = read_number(count, 1 << 64)? as u64;
            Some(Line::Labels { count })
        }
        _ => None,
    }
}

#[tactic(auto, unfolding(crate::specs::Kinds::line_of_kind))]
fn kind_of(kind: &[u8], fields: &[&[u8]]) -> Option<Line>
    ensures { result ≡ spec.line_of_kind kind.now (map (λ w. w.now) fields.now) }
{
    if is_word(kind, b"road") {
        to_of(fields).map(|to| Line::Step(Step::Road { to }))
    } else if is_word(kind, b"ride") {
        ride_of(fields)
    } else if is_word(kind, b"link") {
        to_of(fields).map(|to| Line::Step(Step::Link { to }))
    } else if is_word(kind, b"wait") {
        wait_of(fields)
    } else if is_word(kind, b"stand") {
        bare(Line::Step(Step::Stand), fields)
    } else if is_word(kind, b"modeplan") {
        head_of(fields)
    } else if is_word(kind, b"graph") {
        graph_of(fields)
    } else if is_word(kind, b"arrive") {
        arrive_of(fields)
    } else if is_word(kind, b"none") {
        bare(Line::Nothing, fields)
    } else if is_word(kind, b"start") {
        start_of(fields)
    } else if is_word(kind, b"labels") {
        labels_of(fields)
    } else if is_word(kind, b"end") {
        bare(Line::End, fields)
    } else {
        None
    }
}

/// The line of these words: three numbers are a label, and any other line is what its first word says.
#[tactic(auto, unfolding(crate::specs::Kinds::line_of_words))]
fn line_of_words(words: &[&[u8]]) -> Option<Line>
    ensures { result ≡ spec.line_of_words (map (λ w. w.now) words.now) }
{
    if let Some(label) = label_of(words) {
        return Some(Line::Label(label));
    }
    match words {
        [] => None,
        [kind, fields @ ..] => kind_of(kind, fields),
    }
}

const QUERY: &[u8] = b"query ";

/// What stands behind the word `query` and a space.
#[tactic(auto, unfolding(crate::specs::Kinds::behind_query))]
fn behind_query(text: &[u8]) -> Option<&[u8]>
    ensures { option_map (λ line. line.now) result ≡ spec.behind_query text.now }
{
    text.strip_prefix(QUERY)
}

/// The line that a text spells; `None` exactly where it spells none.
#[tactic(auto, unfolding(crate::specs::Kinds::line_of))]
pub fn line_of(alloc: Global, text: &[u8]) -> Result<Option<Line>, AllocError>
    ensures { IfOk result (λ read. read ≡ spec.line_of text.now) }
{
    if let Some(line) = behind_query(text) {
        let line = Bytes::from(Vec::from_slice(alloc, line)?);
        return Ok(Some(Line::Query(line)));
    }
    let words = words_of(alloc, text)?;
    Ok(line_of_words(&words))
}
