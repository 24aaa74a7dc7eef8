//! The lines of a region text, each pushed behind what is written before it.

ghost use Rattle.std.specs.Prelude.{◌≡◌, ◌++◌, ◌∷◌, length, decimal, OnOk};
ghost use Rattle.std.specs.Fmt.{signed_decimal};
ghost use Rattle.plain_texts.specs.Hexadecimal.{hexadecimal};
ghost use Rattle.plain_texts.specs.Lines.{spaced};
ghost use Rattle.region_file.specs.Lines.{arc_words, flags_of, mode_name, place_words};
ghost use Rattle.region_file.specs.inside.Texts.{line_text};
ghost use Rattle.region_file.specs.declared.lines.Line.TheVariants as line;

use crate::letters::letter_name;
use mode_network::Arc;
use plain_texts::{push_decimal, push_hexadecimal, push_line_feed, push_signed};
use plan_base::{DaySet, Mode, Place};
use service_days::Days;
use std::alloc::AllocError;
use timetable_arcs::{Call, Trip};

/// A space and a word.
fn push_word(out: &mut Vec<u8>, word: &[u8]) -> Result<(), AllocError>
    ensures { OnOk result (out.new.items ≡ out.old.items ++ 32 ∷ word.now) }
{
    out.push(b' ')?;
    out.extend_from_slice(word)
}

/// A space and a number in decimal.
fn push_number(out: &mut Vec<u8>, n: u64) -> Result<(), AllocError>
    ensures { OnOk result (out.new.items ≡ out.old.items ++ 32 ∷ decimal n) }
{
    out.push(b' ')?;
    push_decimal(out, u128::from(n))
}

/// A space and a signed number in decimal.
fn push_signed_number(out: &mut Vec<u8>, z: i64) -> Result<(), AllocError>
    ensures { OnOk result (out.new.items ≡ out.old.items ++ 32 ∷ signed_decimal z) }
{
    out.push(b' ')?;
    push_signed(out, z)
}

/// The words of a place, each after a space.
#[tactic(auto, unfolding(plain_texts::specs::Lines::spaced))]
fn push_place(out: &mut Vec<u8>, place: Place) -> Result<(), AllocError>
    ensures { OnOk result (out.new.items ≡ out.old.items ++ 32 ∷ spaced (place_words place)) }
{
    push_signed_number(out, place.lat)?;
    push_signed_number(out, place.lon)
}

/// The line of the days.
#[tactic(auto, unfolding(plain_texts::specs::Lines::spaced))]
pub fn push_days(out: &mut Vec<u8>, days: &Days) -> Result<(), AllocError>
    ensures { OnOk result (out.new.items ≡ out.old.items ++ line_text (line.Days days.now)) }
{
    out.extend_from_slice(b"days")?;
    push_number(out, u64::from(days.first()))?;
    push_number(out, u64::from(days.count()))?;
    if let Some(rule) = days.zone() {
        push_word(out, rule)?;
    }
    push_line_feed(out)
}

/// The word of a mode.
fn mode_name(mode: Mode) -> &'static [u8]
    ensures { result.now ≡ mode_name mode }
{
    mode.name().as_bytes()
}

/// The line of a road node.
#[tactic(auto, unfolding(plain_texts::specs::Lines::spaced))]
pub fn push_road(out: &mut Vec<u8>, mode: Mode, id: i64, place: Place) -> Result<(), AllocError>
    ensures { OnOk result (out.new.items ≡ out.old.items ++ line_text (line.Road mode id place)) }
{
    out.extend_from_slice(b"node")?;
    push_word(out, mode_name(mode))?;
    push_signed_number(out, id)?;
    push_place(out, place)?;
    push_line_feed(out)
}

/// The line of a stop.
#[tactic(auto, unfolding(plain_texts::specs::Lines::spaced))]
pub fn push_stop(out: &mut Vec<u8>, name: &[u8], place: Place) -> Result<(), AllocError>
    ensures { OnOk result (out.new.items ≡ out.old.items ++ line_text (line.Stop name.now place)) }
{
    out.extend_from_slice(b"stop")?;
    push_word(out, name)?;
    push_place(out, place)?;
    push_line_feed(out)
}

/// The line of a switch.
#[tactic(auto, unfolding(plain_texts::specs::Lines::spaced))]
pub fn push_switch(out: &mut Vec<u8>, id: i64, place: Place) -> Result<(), AllocError>
    ensures { OnOk result (out.new.items ≡ out.old.items ++ line_text (line.Switch id place)) }
{
    out.extend_from_slice(b"switch")?;
    push_signed_number(out, id)?;
    push_place(out, place)?;
    push_line_feed(out)
}

/// The words of an arc, each after a space.
#[tactic(auto, unfolding(plain_texts::specs::Lines::spaced))]
fn push_arc_words(out: &mut Vec<u8>, arc: Arc) -> Result<(), AllocError>
    ensures { OnOk result (out.new.items ≡ out.old.items ++ 32 ∷ spaced (arc_words arc)) }
{
    push_number(out, u64::from(arc.from))?;
    push_number(out, u64::from(arc.to))?;
    push_number(out, u64::from(arc.ms))
}

/// The line of a road arc.
#[tactic(auto, unfolding(plain_texts::specs::Lines::spaced))]
pub fn push_arc(out: &mut Vec<u8>, arc: Arc) -> Result<(), AllocError>
    ensures { OnOk result (out.new.items ≡ out.old.items ++ line_text (line.Arc arc)) }
{
    out.extend_from_slice(b"arc")?;
    push_arc_words(out, arc)?;
    push_line_feed(out)
}

/// The line of a link.
#[tactic(auto, unfolding(plain_texts::specs::Lines::spaced))]
pub fn push_link(out: &mut Vec<u8>, link: Arc) -> Result<(), AllocError>
    ensures { OnOk result (out.new.items ≡ out.old.items ++ line_text (line.Link link)) }
{
    out.extend_from_slice(b"link")?;
    push_arc_words(out, link)?;
    push_line_feed(out)
}

/// 1 for boarding plus 2 for alighting.
pub fn flags_of(call: Call) -> u8
    ensures { result ≡ flags_of call }
{
    u8::from(call.board) + 2 * u8::from(call.alight)
}

/// The line of a call.
#[tactic(auto, unfolding(plain_texts::specs::Lines::spaced))]
pub fn push_call(out: &mut Vec<u8>, call: Call) -> Result<(), AllocError>
    ensures { OnOk result (out.new.items ≡ out.old.items ++ line_text (line.Call call)) }
{
    out.extend_from_slice(b"call")?;
    push_number(out, u64::from(call.stop))?;
    push_number(out, u64::from(call.arr))?;
    push_number(out, u64::from(call.dep))?;
    push_number(out, u64::from(flags_of(call)))?;
    push_line_feed(out)
}

/// A space and the days of a trip, in hexadecimal.
fn push_day_set(out: &mut Vec<u8>, days: DaySet) -> Result<(), AllocError>
    ensures { OnOk result (out.new.items ≡ out.old.items ++ 32 ∷ hexadecimal days.0) }
{
    out.push(b' ')?;
    push_hexadecimal(out, days.0)
}

/// The line of a trip.
#[tactic(auto, unfolding(plain_texts::specs::Lines::spaced))]
pub fn push_trip_line(out: &mut Vec<u8>, trip: &Trip) -> Result<(), AllocError>
    ensures { OnOk result (out.new.items ≡ out.old.items ++ line_text
        (line.Trip trip.now.letter trip.now.days (length trip.now.calls) trip.now.name)) }
{
    out.extend_from_slice(b"trip")?;
    push_word(out, letter_name(trip.letter))?;
    push_day_set(out, trip.days)?;
    push_number(out, trip.calls.len() as u64)?;
    push_word(out, trip.name.as_bytes())?;
    push_line_feed(out)
}
