//! The lines of the summary.

ghost use Rattle.std.specs.Prelude.{◌≡◌, ◌<◌, ◌^◌, ◌++◌, IfOk, OnOk};
ghost use Rattle.sample_command.specs.Texts as spec;
ghost use Rattle.sample_command.specs.Times.{total_time};

use crate::counts;
use mode_network::Network;
use plain_texts::push_decimal;
use plan_base::Time;
use region_file::counts_of;
use std::alloc::{AllocError, Global};

/// The lines of the summary: what there is of the city, and what the queries take without a hierarchy and over one.
pub(crate) fn text_of(
    alloc: Global,
    n: u32,
    city: &Network,
    plain: &[Option<Time>],
    over: &[Option<Time>],
    settled: u128,
) -> Result<Vec<u8>, AllocError>
    requires { total_time plain.now < 2 ^ 128 }
    ensures { IfOk result (λ text. text.items ≡ spec.city_text n city.now ++ spec.times_text plain.now
        over.now settled) }
{
    let mut text = Vec::new(alloc);
    push_city(&mut text, n, city)?;
    push_times(&mut text, plain, over, settled)?;
    Ok(text)
}

/// Writes a line with a word and a number.
#[tactic(auto, unfolding(crate::specs::Texts::told))]
fn push_told(text: &mut Vec<u8>, word: &str, count: u128) -> Result<(), AllocError>
    ensures { OnOk result (text.new.items ≡ text.old.items ++ spec.told word.now count) }
{
    text.extend_from_slice(word.as_bytes())?;
    text.push(b' ')?;
    push_decimal(text, count)?;
    text.push(b'\n')?;
    Ok(())
}

/// Writes what there is of the city.
fn push_city(text: &mut Vec<u8>, n: u32, city: &Network) -> Result<(), AllocError>
    ensures { OnOk result (text.new.items ≡ text.old.items ++ spec.city_text n city.now) }
{
    push_told(text, "sample", u128::from(n))?;
    push_told(text, "nodes", u128::from(city.nodes()))?;
    push_told(text, "arcs", city.arcs().len() as u128)?;
    push_told(text, "links", city.links().len() as u128)?;
    push_told(text, "stops", u128::from(counts_of(city).stops))?;
    push_told(text, "trips", city.timetable().trips().len() as u128)?;
    Ok(())
}

/// Writes what the queries take, without a hierarchy and over one.
fn push_times(
    text: &mut Vec<u8>,
    plain: &[Option<Time>],
    over: &[Option<Time>],
    settled: u128,
) -> Result<(), AllocError>
    requires { total_time plain.now < 2 ^ 128 }
    ensures { OnOk result (text.new.items ≡ text.old.items ++ spec.times_text plain.now over.now settled) }
{
    push_told(text, "queries", plain.len() as u128)?;
    push_told(text, "journeys", counts::journeys(plain) as u128)?;
    push_told(text, "none", counts::without(plain) as u128)?;
    push_told(text, "total", counts::total(plain))?;
    push_told(text, "equal", counts::equal(plain, over) as u128)?;
    push_told(text, "settled", settled)?;
    text.extend_from_slice(b"end\n")?;
    Ok(())
}
