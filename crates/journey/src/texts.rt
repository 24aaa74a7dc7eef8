//! The texts of nodes, words and steps.

ghost use Rattle.std.specs.Prelude.{◌≡◌, ◌<◌, ◌++◌, ◌∷◌, length, decimal, slice_index_or, OnOk};
ghost use Rattle.std.specs.List.{flat_map};
ghost use Rattle.plain_texts.specs.Lines.{with_feed};
ghost use Rattle.service_days.specs.Clock.{clock_text_of};
ghost use Rattle.service_days.specs.Days.{numbers_of};
ghost use Rattle.timetable_arcs.specs.Patterns.{no_trip};
ghost use Rattle.mode_network.specs.NetworkLists.{nodes_of};
ghost use Rattle.journey.specs.Texts.{IsNamed, IsThere, letter_text, key_text, node_text, place_text, ride_text, step_text, word_text, refusal_text};

use crate::fault::QueryFault;
use crate::rides::trips;
use mode_expression::Letter;
use mode_network::{Network, NodeKey, Step};
use plain_texts::{push_decimal, push_fixed, push_line_feed, push_signed};
use plan_base::Time;
use std::alloc::AllocError;

/// The name of a letter.
fn push_letter(out: &mut Vec<u8>, letter: u8) -> Result<(), AllocError>
    ensures { OnOk result (out.new.items ≡ out.old.items ++ letter_text letter) }
{
    let Some(letter) = Letter::from_number(letter) else {
        return Ok(());
    };
    out.extend_from_slice(letter.name().as_bytes())
}

/// What a node stands for: a mode or a kind, a colon, and an id or a name.
fn push_key(out: &mut Vec<u8>, network: &Network, key: NodeKey) -> Result<(), AllocError>
    requires { IsNamed network.now key }
    ensures { OnOk result (out.new.items ≡ out.old.items ++ key_text network.now key) }
{
    match key {
        NodeKey::Road(mode, id) => {
            push_letter(out, mode.number())?;
            out.push(b':')?;
            push_signed(out, id)
        }
        NodeKey::Stop(stop) => {
            out.extend_from_slice(b"stop:")?;
            out.extend_from_slice(network.stop_name(stop))
        }
        NodeKey::Switch(id) => {
            out.extend_from_slice(b"switch:")?;
            push_signed(out, id)
        }
    }
}

/// The node of this number.
fn push_node(out: &mut Vec<u8>, network: &Network, v: u32) -> Result<(), AllocError>
    requires { v < length (nodes_of network.now) }
    ensures { OnOk result (out.new.items ≡ out.old.items ++ node_text network.now v) }
{
    network.known();
    push_key(out, network, network.node(v).key)
}

/// A node, a space and a clock text.
fn push_place(out: &mut Vec<u8>, network: &Network, v: u32, t: Time) -> Result<(), AllocError>
    requires { v < length (nodes_of network.now) }
    ensures { OnOk result (out.new.items ≡ out.old.items ++ place_text network.now v t) }
{
    push_node(out, network, v)?;
    out.push(b' ')?;
    network.days().push_clock(out, t)
}

/// The line of a word and a clock text.
pub(crate) fn push_clock_line(
    out: &mut Vec<u8>,
    network: &Network,
    word: &[u8],
    t: Time,
) -> Result<(), AllocError>
    ensures { OnOk result (out.new.items ≡ out.old.items ++ with_feed
        (word.now ++ clock_text_of network.now.days t)) }
{
    out.extend_from_slice(word)?;
    network.days().push_clock(out, t)?;
    push_line_feed(out)
}

/// The line of a word, a node and a clock text.
pub(crate) fn push_place_line(
    out: &mut Vec<u8>,
    network: &Network,
    word: &[u8],
    v: u32,
    t: Time,
) -> Result<(), AllocError>
    requires { v < length (nodes_of network.now) }
    ensures { OnOk result (out.new.items ≡ out.old.items ++ with_feed
        (word.now ++ place_text network.now v t)) }
{
    out.extend_from_slice(word)?;
    push_place(out, network, v, t)?;
    push_line_feed(out)
}

/// What a ride's line says after its first word: the letter, the day's date, where and when it alights, and the
/// trip's name.
fn push_ride(
    out: &mut Vec<u8>,
    network: &Network,
    trip: u32,
    day: u32,
    v: u32,
    t: Time,
) -> Result<(), AllocError>
    requires trip { trip < length network.now.trips }
    requires day { day < numbers_of network.now.days }
    requires node { v < length (nodes_of network.now) }
    ensures { OnOk result (out.new.items ≡ out.old.items ++ ride_text network.now
        (slice_index_or network.now.trips trip no_trip) day v t) }
{
    let trip = &trips(network)[trip as usize];
    push_letter(out, trip.letter)?;
    out.push(b' ')?;
    push_fixed(out, 8, network.days().date(day))?;
    out.push(b' ')?;
    push_place(out, network, v, t)?;
    out.push(b' ')?;
    out.extend_from_slice(trip.name.as_bytes())
}

/// The line of a step that ends at `v` at the time `t`.
pub(crate) fn push_step(
    out: &mut Vec<u8>,
    network: &Network,
    step: Step,
    v: u32,
    t: Time,
) -> Result<(), AllocError>
    requires node { v < length (nodes_of network.now) }
    requires there { IsThere network.now step }
    ensures { OnOk result (out.new.items ≡ out.old.items ++ with_feed (step_text network.now step v t)) }
{
    match step {
        Step::Wait { .. } => push_clock_line(out, network, b"wait ", t),
        Step::Road { .. } => push_place_line(out, network, b"road ", v, t),
        Step::Link { .. } => push_place_line(out, network, b"link ", v, t),
        Step::Stand => out.extend_from_slice(b"stand\n"),
        Step::Ride { trip, day, .. } => {
            out.extend_from_slice(b"ride ")?;
            push_ride(out, network, trip, day, v, t)?;
            push_line_feed(out)
        }
    }
}

/// The line of a word: each letter's name, after a space.
pub(crate) fn push_word(out: &mut Vec<u8>, word: &[u8]) -> Result<(), AllocError>
    ensures { OnOk result (out.new.items ≡ out.old.items ++ with_feed (word_text word.now)) }
{
    out.extend_from_slice(b"word")?;
    push_letters(out, word)?;
    push_line_feed(out)
}

fn push_letters(out: &mut Vec<u8>, word: &[u8]) -> Result<(), AllocError>
    ensures { OnOk result (out.new.items ≡ out.old.items ++ flat_map (λ letter. 32 ∷ letter_text letter)
        word.now) }
{
    for letter in word {
        out.push(b' ')?;
        push_letter(out, *letter)?;
    }
    Ok(())
}

/// Why a query is refused, as a line of its block says it, without the line feed.
pub fn push_refusal(out: &mut Vec<u8>, fault: QueryFault) -> Result<(), AllocError>
    ensures { OnOk result (out.new.items ≡ out.old.items ++ refusal_text fault) }
{
    match fault {
        QueryFault::Shape => out.extend_from_slice(b"refused shape"),
        QueryFault::BadClock => out.extend_from_slice(b"refused clock"),
        QueryFault::OutOfRange => out.extend_from_slice(b"refused range"),
        QueryFault::UnknownFrom => out.extend_from_slice(b"refused from"),
        QueryFault::UnknownTo => out.extend_from_slice(b"refused to"),
        QueryFault::TooLong { bytes } => push_numbered(out, b"refused long ", bytes),
        QueryFault::TooDeep { at } => push_numbered(out, b"refused deep ", at),
        QueryFault::Syntax { at } => push_numbered(out, b"refused syntax ", at),
        QueryFault::TooLarge { places } => push_numbered(out, b"refused large ", places),
        QueryFault::OffNetwork { to: false, mm } => push_numbered(out, b"refused far from ", mm),
        QueryFault::OffNetwork { to: true, mm } => push_numbered(out, b"refused far to ", mm),
        QueryFault::OutOfMemory => Ok(()),
    }
}

/// A text and a number.
fn push_numbered(out: &mut Vec<u8>, text: &[u8], number: u64) -> Result<(), AllocError>
    ensures { OnOk result (out.new.items ≡ out.old.items ++ (text.now ++ decimal number)) }
{
    out.extend_from_slice(text)?;
    push_decimal(out, u128::from(number))
}
