//! The commands `list`, `show`, `recheck` and `review`, which write what is kept and what is said of it.

ghost use Rattle.std.specs.Prelude.{◌≡◌, IfOk, IfSome, map, option_map, string_bytes};
ghost use Rattle.hierarchy.specs.Soundness.{IsSound};
ghost use Rattle.plain_texts.specs.Lines.{lines_text};
ghost use Rattle.plan_base.specs.Shelves.{ShelfMeaning};
ghost use Rattle.run_steps.specs.Scene.{scene_of};
ghost use Rattle.journey_book.specs.Commands.{book_says};
ghost use Rattle.journey_book.specs.Requests.{asked_report, list, show};
ghost use Rattle.journey_book.specs.Reports.{IsReported, end_by};
ghost use Rattle.journey_book.specs.Rules.{MayReport, report_rule, rule_of};
ghost use Rattle.journey_book.specs.Sayings.{BookWrites, book_end_of};

use crate::keeper::Keeper;
use crate::outcome::BookOutcome;
use crate::reports::{Report, report_of};
use crate::steps::{ended, outcome_of_keeper};
use crate::words::ReportAsked;
use answer_commands::read_both;
use hierarchy::Hierarchy;
use mode_network::Network;
use plain_texts::push_line_feed;
use plan_base::{Caps, Shelf, Sink};
use run_steps::{Ports, write_text};
use std::alloc::{AllocError, Global};

/// Writes all names.
pub(crate) fn list<K: Keeper, O: Sink>(
    alloc: Global,
    keeper: &mut K,
    out: &mut O,
    caps: &Caps,
) -> Result<(), BookOutcome>
    ensures { (shelf : ShelfMeaning) → book_says caps.now list
        (scene_of shelf (O.meaning out.old) (K.meaning keeper.old))
        (scene_of shelf (O.meaning out.new) (K.meaning keeper.new)) (book_end_of result) }
{
    let names = match keeper.names() {
        Ok(names) => names,
        Err(fault) => return Err(outcome_of_keeper(fault)),
    };
    let text = listed(alloc, &names)?;
    ended(write_text(out, &text), Ok(()))
}

/// Names, each on a line.
fn listed(alloc: Global, names: &[String]) -> Result<Vec<u8>, AllocError>
    ensures { IfOk result (λ text. text.items ≡ lines_text (map string_bytes names.now)) }
{
    let mut text = Vec::new(alloc);
    for name in names {
        text.extend_from_slice(name.as_bytes())?;
        push_line_feed(&mut text)?;
    }
    Ok(text)
}

/// Writes what is kept under a name.
pub(crate) fn show<K: Keeper, O: Sink>(
    name: &str,
    keeper: &mut K,
    out: &mut O,
    caps: &Caps,
) -> Result<(), BookOutcome>
    ensures { (shelf : ShelfMeaning) → book_says caps.now (show name.now)
        (scene_of shelf (O.meaning out.old) (K.meaning keeper.old))
        (scene_of shelf (O.meaning out.new) (K.meaning keeper.new)) (book_end_of result) }
{
    match keeper.get(name) {
        Ok(Some(body)) => ended(write_text(out, &body), Ok(())),
        Ok(None) => Err(BookOutcome::Absent),
        Err(fault) => Err(outcome_of_keeper(fault)),
    }
}

/// Reads a region and the hierarchy, if one is named, and writes the report that is asked for.
#[tactic(auto, using(answer_commands::proofs::LentLemmas::lent_sound))]
pub(crate) fn report<F: Shelf, K: Keeper, O: Sink, E: Sink>(
    ports: &mut Ports<F, O, E>,
    asked: ReportAsked<'_>,
    keeper: &mut K,
    caps: &Caps,
) -> Result<(), BookOutcome>
    ensures { book_says caps.now (asked_report asked.entry)
        (scene_of (F.meaning ports.old.shelf) (O.meaning ports.old.out) (K.meaning keeper.old))
        (scene_of (F.meaning ports.new.shelf) (O.meaning ports.new.out) (K.meaning keeper.new))
        (book_end_of result) }
{
    let alloc = ports.alloc;
    let (shelf, notes) = (&mut ports.shelf, &mut ports.notes);
    let (network, hierarchy) = read_both(alloc, asked.region, asked.hierarchy, shelf, notes, caps)?;
    let out = &mut ports.out;
    report_over(alloc, asked, &network, hierarchy.as_ref(), keeper, out)
}

/// Writes the report that is asked for, by a network, and over a hierarchy, if there is one.
fn report_over<K: Keeper, O: Sink>(
    alloc: Global,
    asked: ReportAsked<'_>,
    network: &Network,
    hierarchy: Option<&Hierarchy>,
    keeper: &mut K,
    out: &mut O,
) -> Result<(), BookOutcome>
    requires { IfSome hierarchy (λ h. IsSound network.now h.now) }
    ensures { (shelf : ShelfMeaning) → BookWrites
        (IsReported (report_rule asked.entry.kind network.now (option_map (λ h. h.now) hierarchy.entry))
        asked.entry.fail (K.meaning keeper.old))
        (scene_of shelf (O.meaning out.old) (K.meaning keeper.old))
        (scene_of shelf (O.meaning out.new) (K.meaning keeper.new)) (book_end_of result) }
{
    let report = Report {
        kind: asked.kind,
        network,
        hierarchy,
    };
    write_report(alloc, &report, asked.fail, keeper, out)
}

/// Writes what a report says of all that is kept. It is asked to fail or not where a line is not well.
fn write_report<K: Keeper, O: Sink>(
    alloc: Global,
    report: &Report<'_>,
    fail: bool,
    keeper: &mut K,
    out: &mut O,
) -> Result<(), BookOutcome>
    requires { MayReport report.now }
    ensures { (shelf : ShelfMeaning) → BookWrites (IsReported (rule_of report.now) fail (K.meaning keeper.old))
        (scene_of shelf (O.meaning out.old) (K.meaning keeper.old))
        (scene_of shelf (O.meaning out.new) (K.meaning keeper.new)) (book_end_of result) }
{
    match report_of(alloc, report, keeper) {
        Ok(reported) => ended(write_text(out, &reported.text), end_by(fail, reported.well)),
        Err(fault) => Err(outcome_of_keeper(fault)),
    }
}

/// How a report ends a run.
fn end_by(fail: bool, well: bool) -> Result<(), BookOutcome>
    ensures { book_end_of result ≡ end_by fail well }
{
    if fail && !well {
        return Err(BookOutcome::NotWell);
    }
    Ok(())
}
