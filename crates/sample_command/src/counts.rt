//! What is counted for the summary.

ghost use Rattle.std.specs.Prelude.{◌≡◌, ◌<◌, ◌^◌};
ghost use Rattle.sample_command.specs.Times as spec;

use plan_base::Time;

/// How many queries have a journey.
pub(crate) fn journeys(times: &[Option<Time>]) -> usize
    ensures { result ≡ spec.journeys times.now }
{
    times.iter().filter(|time| time.is_some()).count()
}

/// How many queries have none.
pub(crate) fn without(times: &[Option<Time>]) -> usize
    ensures { result ≡ spec.without times.now }
{
    times.iter().filter(|time| time.is_none()).count()
}

/// How long all journeys take together, in milliseconds.
pub(crate) fn total(times: &[Option<Time>]) -> Time
    requires { spec.total_time times.now < 2 ^ 128 }
    ensures { result ≡ spec.total_time times.now }
{
    times.iter().map(|time| time.unwrap_or(0)).sum()
}

fn is_same(a: Option<Time>, b: Option<Time>) -> bool
    ensures { result ≡ spec.is_same_time a b }
{
    match (a, b) {
        (Some(a), Some(b)) => a == b,
        (None, None) => true,
        _ => false,
    }
}

/// How many queries take as long in both lists.
pub(crate) fn equal(times: &[Option<Time>], others: &[Option<Time>]) -> usize
    ensures { result ≡ spec.equal times.now others.now }
{
    times
        .iter()
        .zip(others.iter())
        .filter(|(time, other)| is_same(**time, **other))
        .count()
}
