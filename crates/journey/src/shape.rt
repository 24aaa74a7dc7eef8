//! The fields of a query line.

ghost use Rattle.std.specs.Prelude.{◌≡◌, ◌==◌, option_map, position, IfOk, IfSome, ◌<◌, ◌^◌};
ghost use Rattle.journey.specs.Shapes.{at_byte, at_space, place_at, near_in_at, endpoint_of, shape_of, part_at, millis_at, time_at, departure_on, fields_of};
ghost use Rattle.journey.specs.inside.Shown.{shape_shown};
ghost use Rattle.journey.specs.Shapes.{departs_at};

use crate::fault::QueryFault;
use geo_length::read_degrees;
use mode_network::{Bytes, Endpoint};
use plain_texts::{read_fixed, read_id};
use plan_base::{Mode, Place, Time};
use service_days::{Days, read_date};
use std::alloc::{AllocError, Global};

fn place_of_byte(byte: u8, text: &[u8]) -> Option<usize>
    ensures { result ≡ position (λ b. b == byte) text.now }
{
    text.iter().position(|other| *other == byte)
}

/// What stands before the first such byte, and what stands after it.
fn at_byte(byte: u8, text: &[u8]) -> Option<(&[u8], &[u8])>
    ensures { option_map (λ x. (x.0.now, x.1.now)) result ≡ at_byte byte text.now }
{
    let place = place_of_byte(byte, text)?;
    let (before, _) = text.split_at(place);
    let (_, after) = text.split_at(place + 1);
    Some((before, after))
}

/// What stands before the first space, and what stands after it.
fn at_space(text: &[u8]) -> Option<(&[u8], &[u8])>
    ensures { option_map (λ x. (x.0.now, x.1.now)) result ≡ at_space text.now }
{
    at_byte(b' ', text)
}

/// The place of a latitude and a longitude in degrees, with a comma between them.
fn read_place(text: &[u8]) -> Option<Place>
    ensures { result ≡ place_at text.now }
{
    let (lat, lon) = at_byte(b',', text)?;
    Place::new(read_degrees(lat, 90)?, read_degrees(lon, 180)?)
}

/// The nearest road node of a mode, where the mode's name, `@` and a place stand for it.
fn near_in(field: &[u8]) -> Option<Endpoint>
    ensures { result ≡ near_in_at field.now }
{
    let (mode, place) = at_byte(b'@', field)?;
    let mode = Mode::from_name(mode)?;
    let place = read_place(place)?;
    Some(Endpoint::NearIn(mode, place))
}

/// The endpoint that a field names.
fn endpoint(alloc: Global, field: &[u8]) -> Result<Option<Endpoint>, AllocError>
    ensures { IfOk result (λ endpoint. endpoint ≡ endpoint_of field.now) }
{
    match field {
        [b'n', id @ ..] => Ok(read_id(id).map(Endpoint::Road)),
        [b's', name @ ..] if !name.is_empty() => {
            let name = Vec::from_slice(alloc, name)?;
            Ok(Some(Endpoint::Stop(Bytes::from(name))))
        }
        [b'@', place @ ..] => Ok(read_place(place).map(Endpoint::Near)),
        _ => Ok(near_in(field)),
    }
}

/// A number of two digits below a limit.
fn read_part(below: u32, tens: u8, ones: u8) -> Option<u32>
    ensures value { result ≡ part_at below tens ones }
    ensures below { IfSome result (λ n. n < below) }
{
    let part = read_fixed(&[tens, ones])?;
    if part < below { Some(part) } else { None }
}

/// Nothing, or a point and three digits.
fn read_millis(text: &[u8]) -> Option<u32>
    ensures value { result ≡ millis_at text.now }
    ensures below { IfSome result (λ ms. ms < 1000) }
{
    match text {
        [] => Some(0),
        [b'.', digits @ ..] if digits.len() == 3 => read_fixed(digits),
        _ => None,
    }
}

/// A time of day below 24:00:00, in milliseconds.
fn read_time(text: &[u8]) -> Option<u32>
    ensures value { result ≡ time_at text.now }
    ensures below { IfSome result (λ ms. ms < 86400000) }
{
    match text {
        [a, b, b':', d, e, b':', g, h, rest @ ..] => {
            let hours = read_part(24, *a, *b)?;
            let minutes = read_part(60, *d, *e)?;
            let seconds = read_part(60, *g, *h)?;
            let ms = read_millis(rest)?;
            Some(((hours * 60 + minutes) * 60 + seconds) * 1000 + ms)
        }
        _ => None,
    }
}

/// When a query of this date and time of day departs; None where the date is none of the region's days.
fn departure(days: &Days, date: u32, ms: u32) -> Option<Time>
    ensures value { result ≡ departure_on days.now date ms }
    ensures soon { IfSome result (λ t. t < 2 ^ 64) }
{
    days.known();
    let day = days.day_of(date)?;
    if day >= 7 {
        Some(Time::from(days.base(day)) + Time::from(ms))
    } else {
        None
    }
}

/// The fields of a query line.
#[derive(Clone, Copy)]
struct Fields<'a> {
    from: &'a [u8],
    to: &'a [u8],
    date: &'a [u8],
    time: &'a [u8],
    expr: &'a [u8],
}

/// The fields of a line that has four spaces or more.
fn cut_fields(line: &[u8]) -> Option<Fields<'_>>
    ensures { option_map (λ f. record {
      from = f.from.now;
      to = f.to.now;
      date = f.date.now;
      time =
          f.time.now;
      expr = f.expr.now;
    }) result ≡ fields_of line.now }
{
    let (from, rest) = at_space(line)?;
    let (to, rest) = at_space(rest)?;
    let (date, rest) = at_space(rest)?;
    let (time, expr) = at_space(rest)?;
    Some(Fields {
        from,
        to,
        date,
        time,
        expr,
    })
}

/// What a query line says by itself.
#[derive(Drop)]
pub(crate) struct Shape<'a> {
    pub from: Endpoint,
    pub to: Endpoint,
    pub date: &'a [u8],
    pub time: &'a [u8],
    pub expr: &'a [u8],
}

/// The shape of a query line; None exactly where it has none.
pub(crate) fn read_shape(alloc: Global, line: &[u8]) -> Result<Option<Shape<'_>>, AllocError>
    ensures { IfOk result (λ shape. option_map shape_shown shape ≡ shape_of line.now) }
{
    let Some(fields) = cut_fields(line) else {
        return Ok(None);
    };
    if fields.date.is_empty() || fields.time.is_empty() {
        return Ok(None);
    }
    let Some(from) = endpoint(alloc, fields.from)? else {
        return Ok(None);
    };
    let Some(to) = endpoint(alloc, fields.to)? else {
        return Ok(None);
    };
    Ok(Some(Shape {
        from,
        to,
        date: fields.date,
        time: fields.time,
        expr: fields.expr,
    }))
}

/// When a query of this shape departs.
pub(crate) fn departs_at(days: &Days, shape: &Shape<'_>) -> Result<Time, QueryFault>
    ensures value { result ≡ departs_at days.now (shape_shown shape.now) }
    ensures soon { IfOk result (λ t. t < 2 ^ 64) }
{
    let (Some(date), Some(ms)) = (read_date(shape.date), read_time(shape.time)) else {
        return Err(QueryFault::BadClock);
    };
    departure(days, date, ms).ok_or(QueryFault::OutOfRange)
}
