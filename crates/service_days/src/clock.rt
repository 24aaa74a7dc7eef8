//! Times of day as text, and the parts of such texts.

ghost use Rattle.std.specs.Prelude.{◌≡◌, ◌++◌, ◌<◌, OnOk, IfSome};
ghost use Rattle.service_days.specs.Clock.{hours_text, part_text, time_text};
ghost use Rattle.service_days.specs.ReadClock.{below_sixty};

use plain_texts::{push_decimal, push_fixed};
use std::alloc::AllocError;

/// Writes so many milliseconds as hours, minutes, seconds and milliseconds.
pub(crate) fn push_time(out: &mut Vec<u8>, ms: u128) -> Result<(), AllocError>
    ensures { OnOk result (out.new.items ≡ out.old.items ++ time_text ms) }
{
    push_hours(out, ms / 3_600_000)?;
    push_part(out, b':', 2, (ms / 60_000 % 60) as u32)?;
    push_part(out, b':', 2, (ms / 1_000 % 60) as u32)?;
    push_part(out, b'.', 3, (ms % 1_000) as u32)
}

/// Writes hours, with at least two digits.
fn push_hours(out: &mut Vec<u8>, hours: u128) -> Result<(), AllocError>
    ensures { OnOk result (out.new.items ≡ out.old.items ++ hours_text hours) }
{
    if hours < 100 {
        push_fixed(out, 2, hours as u32)
    } else {
        push_decimal(out, hours)
    }
}

/// Writes a mark and a part of so many digits after it.
fn push_part(out: &mut Vec<u8>, mark: u8, width: u32, part: u32) -> Result<(), AllocError>
    ensures { OnOk result (out.new.items ≡ out.old.items ++ part_text mark width part) }
{
    out.push(mark)?;
    push_fixed(out, width, part)
}

/// A number of minutes or seconds, as it stands in HH:MM:SS; None from 60 on.
pub fn below_sixty(n: u32) -> Option<u32>
    ensures value { result ≡ below_sixty n }
    ensures within { IfSome result (λ part. part < 60) }
{
    if n < 60 { Some(n) } else { None }
}
