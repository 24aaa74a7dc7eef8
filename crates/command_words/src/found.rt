//! The command that is asked for by what `clap` found.

ghost use Rattle.std.specs.Prelude.{◌≡◌, Err, IfOk, None, Some, option_map};
ghost use Rattle.clap.specs.Words.{first_of, found_of, rows_of};
ghost use Rattle.command_words.specs.Requests.{answer_at, asking_at, certify_at, certify_latest_at, check_at, compile_at, contract_at, days_and_format_at, few_at, latest_at, limits_at, matrix_at, migrate_at, places_at, profile_at, request_at, request_of, requests_at, sample_at, two_at, verify_at, verify_latest_at};
ghost use Rattle.command_words.specs.declared.fault.WordsFault.TheVariants.{Refused};

use crate::command::{Command, Over, QueryLimits, TimesAsked};
use crate::fault::WordsFault;
use crate::values::{
    days_of, format_or, keep_or_none, labels_or_none, places_or_none, read_size,
    window_or_two_hours,
};
use clap::ArgMatches;
use command_line::{
    FIFTH, FIRST, FORMAT, FOURTH, HIERARCHY, KEEP, LABELS, PLACES, SECOND, SIXTH, THIRD, WINDOW,
    ZONE,
};
use region_file::Format;
use service_days::Days;
use std::alloc::Global;

/// The command of this name, by what was found for its words and options; refused exactly where it asks for nothing.
pub fn named<'a>(
    alloc: Global,
    name: &str,
    given: &ArgMatches<'a>,
) -> Result<Command<'a>, WordsFault>
    ensures ok { IfOk result (λ command. request_at name.now (rows_of (found_of given.now)) ≡ Some
        (request_of command)) }
    ensures refused { result ≡ Err Refused → request_at name.now (rows_of (found_of given.now)) ≡ None }
{
    match name {
        "compile" => compile(alloc, given),
        "migrate" => migrate(given).ok_or(WordsFault::Refused),
        "contract" => contract(given).ok_or(WordsFault::Refused),
        "check" => check(given).ok_or(WordsFault::Refused),
        "sample" => sample(given).ok_or(WordsFault::Refused),
        "answer" => answer(given).ok_or(WordsFault::Refused),
        "certify" => certify(given).ok_or(WordsFault::Refused),
        "verify" => verify(given).ok_or(WordsFault::Refused),
        "few" => few(given).ok_or(WordsFault::Refused),
        "latest" => latest(given).ok_or(WordsFault::Refused),
        "certify-latest" => certify_latest(given).ok_or(WordsFault::Refused),
        "verify-latest" => verify_latest(given).ok_or(WordsFault::Refused),
        "profile" => profile(given).ok_or(WordsFault::Refused),
        "matrix" => matrix(given).ok_or(WordsFault::Refused),
        "requests" => requests(given).ok_or(WordsFault::Refused),
        _ => Err(WordsFault::Refused),
    }
}

/// What was found for a word or an option.
fn said<'a>(given: &ArgMatches<'a>, id: &str) -> Option<&'a str>
    ensures { option_map (λ word. word.now) result ≡ first_of id.now (rows_of (found_of given.now)) }
{
    given.get_str(id)
}

/// Two words.
fn two<'a>(given: &ArgMatches<'a>) -> Option<(&'a str, &'a str)>
    ensures { option_map (λ it. (it.0.now, it.1.now)) result ≡ two_at (rows_of (found_of given.now)) }
{
    let first = said(given, FIRST)?;
    let second = said(given, SECOND)?;
    Some((first, second))
}

/// A region, and what is worked on over it.
fn read_over<'a>(given: &ArgMatches<'a>) -> Option<Over<'a>>
    ensures { option_map (λ it. (it.region.now, it.subject.now)) result ≡ two_at
        (rows_of (found_of given.now)) }
{
    let (region, subject) = two(given)?;
    Some(Over { region, subject })
}

/// The limit of places.
fn places(given: &ArgMatches<'_>) -> Option<Option<u32>>
    ensures { result ≡ places_at (rows_of (found_of given.now)) }
{
    places_or_none(said(given, PLACES))
}

/// The limits of labels and of places.
fn read_limits(given: &ArgMatches<'_>) -> Option<QueryLimits>
    ensures { option_map (λ it. (it.labels, it.places)) result ≡ limits_at (rows_of (found_of given.now)) }
{
    Some(QueryLimits {
        labels: labels_or_none(said(given, LABELS))?,
        places: places(given)?,
    })
}

/// A map and a feed, to be compiled.
fn compile<'a>(alloc: Global, given: &ArgMatches<'a>) -> Result<Command<'a>, WordsFault>
    ensures ok { IfOk result (λ command. compile_at (rows_of (found_of given.now)) ≡ Some
        (request_of command)) }
    ensures refused { result ≡ Err Refused → compile_at (rows_of (found_of given.now)) ≡ None }
{
    let Some((map, feed)) = two(given) else {
        return Err(WordsFault::Refused);
    };
    let (days, format) = days_and_format(alloc, given)?;
    Ok(Command::Compile {
        map,
        feed,
        days,
        format,
    })
}

/// The days and the format of a region to be compiled.
fn days_and_format(alloc: Global, given: &ArgMatches<'_>) -> Result<(Days, Format), WordsFault>
    ensures ok { IfOk result (λ it. days_and_format_at (rows_of (found_of given.now)) ≡ Some (it.0, it.1)) }
    ensures refused { result ≡ Err Refused → days_and_format_at (rows_of (found_of given.now)) ≡ None }
{
    let (Some(date), Some(count)) = (said(given, THIRD), said(given, FOURTH)) else {
        return Err(WordsFault::Refused);
    };
    let Some(format) = format_or(Format::Text, said(given, FORMAT)) else {
        return Err(WordsFault::Refused);
    };
    let days = days_of(alloc, date.as_bytes(), count.as_bytes(), said(given, ZONE))?;
    Ok((days, format))
}

/// A region, to be written in another format.
fn migrate<'a>(given: &ArgMatches<'a>) -> Option<Command<'a>>
    ensures { option_map request_of result ≡ migrate_at (rows_of (found_of given.now)) }
{
    let region = said(given, FIRST)?;
    let format = format_or(Format::Binary, said(given, FORMAT))?;
    Some(Command::Migrate { region, format })
}

/// A region, of which a hierarchy is to be made.
fn contract<'a>(given: &ArgMatches<'a>) -> Option<Command<'a>>
    ensures { option_map request_of result ≡ contract_at (rows_of (found_of given.now)) }
{
    let region = said(given, FIRST)?;
    let keep = keep_or_none(said(given, KEEP))?;
    Some(Command::Contract { region, keep })
}

/// A hierarchy, to be checked.
fn check<'a>(given: &ArgMatches<'a>) -> Option<Command<'a>>
    ensures { option_map request_of result ≡ check_at (rows_of (found_of given.now)) }
{
    let over = read_over(given)?;
    Some(Command::Check(over))
}

/// A sample city, to be made.
fn sample<'a>(given: &ArgMatches<'a>) -> Option<Command<'a>>
    ensures { option_map request_of result ≡ sample_at (rows_of (found_of given.now)) }
{
    let word = said(given, FIRST)?;
    let size = read_size(word.as_bytes())?;
    Some(Command::Sample { size })
}

/// Query lines, to be answered.
fn answer<'a>(given: &ArgMatches<'a>) -> Option<Command<'a>>
    ensures { option_map request_of result ≡ answer_at (rows_of (found_of given.now)) }
{
    let over = read_over(given)?;
    let limits = read_limits(given)?;
    Some(Command::Answer(over, said(given, HIERARCHY), limits))
}

/// A query line, to be certified.
fn certify<'a>(given: &ArgMatches<'a>) -> Option<Command<'a>>
    ensures { option_map request_of result ≡ certify_at (rows_of (found_of given.now)) }
{
    let over = read_over(given)?;
    let limits = read_limits(given)?;
    Some(Command::Certify(over, said(given, HIERARCHY), limits))
}

/// A certificate, to be checked.
fn verify<'a>(given: &ArgMatches<'a>) -> Option<Command<'a>>
    ensures { option_map request_of result ≡ verify_at (rows_of (found_of given.now)) }
{
    let over = read_over(given)?;
    Some(Command::Verify(over, said(given, HIERARCHY)))
}

/// Query lines, to be answered by the number of boardings.
fn few<'a>(given: &ArgMatches<'a>) -> Option<Command<'a>>
    ensures { option_map request_of result ≡ few_at (rows_of (found_of given.now)) }
{
    let over = read_over(given)?;
    Some(Command::Few(over, places(given)?))
}

/// Query lines, to be answered with the latest departure.
fn latest<'a>(given: &ArgMatches<'a>) -> Option<Command<'a>>
    ensures { option_map request_of result ≡ latest_at (rows_of (found_of given.now)) }
{
    let over = read_over(given)?;
    Some(Command::Latest(over, read_limits(given)?))
}

/// A query line, whose latest departure is to be certified.
fn certify_latest<'a>(given: &ArgMatches<'a>) -> Option<Command<'a>>
    ensures { option_map request_of result ≡ certify_latest_at (rows_of (found_of given.now)) }
{
    let over = read_over(given)?;
    Some(Command::CertifyLatest(over, read_limits(given)?))
}

/// A certificate of a latest departure, to be checked.
fn verify_latest<'a>(given: &ArgMatches<'a>) -> Option<Command<'a>>
    ensures { option_map request_of result ≡ verify_latest_at (rows_of (found_of given.now)) }
{
    let over = read_over(given)?;
    Some(Command::VerifyLatest(over))
}

/// Query lines, to be answered with the departures of a window.
fn profile<'a>(given: &ArgMatches<'a>) -> Option<Command<'a>>
    ensures { option_map request_of result ≡ profile_at (rows_of (found_of given.now)) }
{
    let over = read_over(given)?;
    let window = window_or_two_hours(said(given, WINDOW))?;
    Some(Command::Profile(over, window, places(given)?))
}

/// When the journeys of a table depart, and how they travel, as words say it.
#[derive(Clone, Copy)]
struct Asking<'a> {
    date: &'a str,
    time: &'a str,
    expr: &'a str,
}

/// When the journeys of a table depart, and how they travel.
fn read_asking<'a>(given: &ArgMatches<'a>) -> Option<Asking<'a>>
    ensures { option_map (λ it. (it.date.now, it.time.now, it.expr.now)) result ≡ asking_at
        (rows_of (found_of given.now)) }
{
    Some(Asking {
        date: said(given, FOURTH)?,
        time: said(given, FIFTH)?,
        expr: said(given, SIXTH)?,
    })
}

/// Endpoints between which travel times are asked for.
fn matrix<'a>(given: &ArgMatches<'a>) -> Option<Command<'a>>
    ensures { option_map request_of result ≡ matrix_at (rows_of (found_of given.now)) }
{
    let (region, origins) = two(given)?;
    let destinations = said(given, THIRD)?;
    let Asking { date, time, expr } = read_asking(given)?;
    Some(Command::Matrix(TimesAsked {
        region,
        origins,
        destinations,
        date,
        time,
        expr,
        hierarchy: said(given, HIERARCHY),
        places: places(given)?,
    }))
}

/// Lines that begin with a command's name, to be answered.
fn requests<'a>(given: &ArgMatches<'a>) -> Option<Command<'a>>
    ensures { option_map request_of result ≡ requests_at (rows_of (found_of given.now)) }
{
    let over = read_over(given)?;
    let limits = read_limits(given)?;
    Some(Command::Requests(over, said(given, HIERARCHY), limits))
}
