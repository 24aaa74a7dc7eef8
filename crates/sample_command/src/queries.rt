//! The fifty queries of the sample city.

ghost use Rattle.std.specs.Prelude.{◌≡◌, ◌<◌, ◌≤◌, IfOk};
ghost use Rattle.sample_command.specs.Queries as spec;

use plain_texts::push_decimal;
use std::alloc::{AllocError, Global};

fn expression_of(k: u32) -> &'static str
    ensures { result.now ≡ spec.expression_of k }
{
    if k % 5 == 0 {
        return "foot";
    }
    if k % 5 == 1 {
        return "foot? (transit foot?){0,3}";
    }
    if k % 5 == 2 {
        return "foot bike foot?";
    }
    if k % 5 == 3 {
        return "(foot|bike|car)?";
    }
    "foot bus foot"
}

fn from_of(n: u32, k: u32) -> u32
    requires some { 1 ≤ n }
    requires size { n ≤ 300 }
    requires few { k < 50 }
    ensures { result ≡ spec.origin_id n k }
{
    1 + (13 * k * k + 5 * k) % (n * n)
}

fn to_of(n: u32, k: u32) -> u32
    requires some { 1 ≤ n }
    requires size { n ≤ 300 }
    requires few { k < 50 }
    ensures { result ≡ spec.destination_id n k }
{
    1 + (29 * k + 7) % (n * n)
}

/// The line of query `k`, in a city of `n` rows and columns.
#[tactic(auto, unfolding(crate::specs::Queries::query_line))]
pub(crate) fn query_line(alloc: Global, n: u32, k: u32) -> Result<Vec<u8>, AllocError>
    requires some { 1 ≤ n }
    requires size { n ≤ 300 }
    requires few { k < 50 }
    ensures { IfOk result (λ line. line.items ≡ spec.query_line n k) }
{
    let mut line = Vec::new(alloc);
    line.extend_from_slice(b"n")?;
    push_decimal(&mut line, u128::from(from_of(n, k)))?;
    line.extend_from_slice(b" n")?;
    push_decimal(&mut line, u128::from(to_of(n, k)))?;
    line.extend_from_slice(b" 20240304 08:")?;
    push_decimal(&mut line, u128::from(k / 10))?;
    push_decimal(&mut line, u128::from(k % 10))?;
    line.extend_from_slice(b":00 ")?;
    line.extend_from_slice(expression_of(k).as_bytes())?;
    Ok(line)
}
