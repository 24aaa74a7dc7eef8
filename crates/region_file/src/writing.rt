//! The records of a region in bytes, each pushed behind what is written before it.

ghost use Rattle.std.specs.Prelude.{◌≡◌, ◌++◌, ◌<◌, ◌^◌, length, option_map, true, FitsSigned, IfSome, OnOk};
ghost use Rattle.std.specs.Int.{w32};
ghost use Rattle.plain_texts.specs.Names.{is_name};
ghost use Rattle.file_records.specs.Numbers.{signed_bytes};
ghost use Rattle.region_file.specs.Bytes as spec;
ghost use Rattle.region_file.specs.declared.lines.Line.TheVariants as line;

use crate::counts::Counts;
use crate::fronts::{PLAIN_MAGIC, ZONED_MAGIC};
use crate::printing::flags_of;
use file_records::{push_i32, push_i64, push_u32, push_u64};
use mode_network::Arc;
use plan_base::{DaySet, Mode, Place};
use service_days::Days;
use std::alloc::AllocError;
use timetable_arcs::{Call, Trip};

/// Bytes behind their number.
fn push_counted(out: &mut Vec<u8>, bytes: &[u8]) -> Result<(), AllocError>
    requires { length bytes.now < 2 ^ 32 }
    ensures { OnOk result (out.new.items ≡ out.old.items ++ spec.counted_bytes bytes.now) }
{
    push_u32(out, bytes.len() as u32)?;
    out.extend_from_slice(bytes)
}

/// A name behind the number of its bytes.
fn push_name(out: &mut Vec<u8>, name: &[u8]) -> Result<(), AllocError>
    requires { is_name name.now ≡ true }
    ensures { OnOk result (out.new.items ≡ out.old.items ++ spec.counted_bytes name.now) }
{
    push_counted(out, name)
}

/// A number of four bytes, of a size below 2^31.
fn push_narrow(out: &mut Vec<u8>, number: i64) -> Result<(), AllocError>
    requires { FitsSigned w32 number }
    ensures { OnOk result (out.new.items ≡ out.old.items ++ signed_bytes w32 number) }
{
    push_i32(out, number as i32)
}

/// A place: the latitude, then the longitude.
fn push_place(out: &mut Vec<u8>, place: Place) -> Result<(), AllocError>
    ensures { OnOk result (out.new.items ≡ out.old.items ++ spec.place_bytes place) }
{
    push_narrow(out, place.lat)?;
    push_narrow(out, place.lon)?;
    Ok(())
}

/// The record of a road node.
pub fn push_road(out: &mut Vec<u8>, mode: Mode, id: i64, place: Place) -> Result<(), AllocError>
    ensures { OnOk result (out.new.items ≡ out.old.items ++ spec.record_bytes (line.Road mode id place)) }
{
    out.push(mode.number())?;
    push_switch(out, id, place)?;
    Ok(())
}

/// The record of a stop.
pub fn push_stop(out: &mut Vec<u8>, name: &[u8], place: Place) -> Result<(), AllocError>
    requires { is_name name.now ≡ true }
    ensures { OnOk result (out.new.items ≡ out.old.items ++ spec.record_bytes (line.Stop name.now place)) }
{
    push_name(out, name)?;
    push_place(out, place)
}

/// The record of a switch.
pub fn push_switch(out: &mut Vec<u8>, id: i64, place: Place) -> Result<(), AllocError>
    ensures { OnOk result (out.new.items ≡ out.old.items ++ spec.record_bytes (line.Switch id place)) }
{
    push_i64(out, id)?;
    push_place(out, place)?;
    Ok(())
}

/// The record of a road arc or a link.
pub fn push_arc(out: &mut Vec<u8>, arc: Arc) -> Result<(), AllocError>
    ensures { OnOk result (out.new.items ≡ out.old.items ++ spec.arc_bytes arc) }
{
    push_u32(out, arc.from)?;
    push_u32(out, arc.to)?;
    push_u32(out, arc.ms)
}

/// The record of a call.
pub fn push_call(out: &mut Vec<u8>, call: Call) -> Result<(), AllocError>
    ensures { OnOk result (out.new.items ≡ out.old.items ++ spec.call_bytes call) }
{
    push_u32(out, call.stop)?;
    push_u32(out, call.arr)?;
    push_u32(out, call.dep)?;
    out.push(flags_of(call))?;
    Ok(())
}

/// A set of days.
fn push_day_set(out: &mut Vec<u8>, days: DaySet) -> Result<(), AllocError>
    ensures { OnOk result (out.new.items ≡ out.old.items ++ spec.set_bytes days.0) }
{
    push_u64(out, (days.0 / (1 << 64)) as u64)?;
    push_u64(out, (days.0 % (1 << 64)) as u64)
}

/// The record of a trip, which says how many calls it has.
pub fn push_trip_head(out: &mut Vec<u8>, trip: &Trip) -> Result<(), AllocError>
    requires { length trip.now.calls < 2 ^ 32 }
    ensures { OnOk result (out.new.items ≡ out.old.items ++ spec.trip_bytes trip.now.letter trip.now.days
        (length trip.now.calls) trip.now.name) }
{
    out.push(trip.letter)?;
    push_day_set(out, trip.days)?;
    push_u32(out, trip.calls.len() as u32)?;
    push_name(out, trip.name.as_bytes())
}

/// How many records of each kind follow the head.
fn push_counts(out: &mut Vec<u8>, counts: Counts) -> Result<(), AllocError>
    ensures { OnOk result (out.new.items ≡ out.old.items ++ spec.counts_bytes counts) }
{
    push_u32(out, counts.roads)?;
    push_u32(out, counts.stops)?;
    push_u32(out, counts.switches)?;
    push_u32(out, counts.arcs)?;
    push_u32(out, counts.links)?;
    push_u32(out, counts.trips)
}

/// What a region in bytes begins with, whose days have this zone rule, if they have one.
fn magic_of(zone: Option<&[u8]>) -> &'static [u8]
    ensures { result.now ≡ spec.magic_of (option_map (λ rule. rule.now) zone.entry) }
{
    match zone {
        None => PLAIN_MAGIC,
        Some(_) => ZONED_MAGIC,
    }
}

/// The zone rule behind its length, if there is one.
fn push_rule(out: &mut Vec<u8>, zone: Option<&[u8]>) -> Result<(), AllocError>
    requires { IfSome zone (λ rule. length rule.now < 2 ^ 32) }
    ensures { OnOk result (out.new.items ≡ out.old.items ++ spec.rule_bytes
        (option_map (λ rule. rule.now) zone.entry)) }
{
    match zone {
        None => Ok(()),
        Some(rule) => push_counted(out, rule),
    }
}

/// The head of days with this first date, this count and this zone rule, if they have one.
fn push_head_of(
    out: &mut Vec<u8>,
    first: u32,
    count: u32,
    zone: Option<&[u8]>,
    counts: Counts,
) -> Result<(), AllocError>
    requires { IfSome zone (λ rule. length rule.now < 2 ^ 32) }
    ensures { OnOk result (out.new.items ≡ out.old.items ++ spec.head_by first count
        (option_map (λ rule. rule.now) zone.entry) counts) }
{
    out.extend_from_slice(magic_of(zone))?;
    push_u32(out, first)?;
    push_u32(out, count)?;
    push_counts(out, counts)?;
    push_rule(out, zone)?;
    Ok(())
}

/// The head.
pub fn push_head(out: &mut Vec<u8>, days: &Days, counts: Counts) -> Result<(), AllocError>
    ensures { OnOk result (out.new.items ≡ out.old.items ++ spec.head_bytes days.now counts) }
{
    days.known();
    push_head_of(out, days.first(), days.count(), days.zone(), counts)
}
