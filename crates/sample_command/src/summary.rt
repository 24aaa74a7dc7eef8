//! The command `sample`, and the summary that it writes.

ghost use Rattle.std.specs.Prelude.{◌≤◌, IfOk};
ghost use Rattle.plan_base.specs.Shelves.{ShelfMeaning};
ghost use Rattle.hierarchy.specs.Soundness.{IsSound};
ghost use Rattle.contractor.specs.Contracted.{IsContractedTo};
ghost use Rattle.run_steps.specs.Scene.{scene};
ghost use Rattle.run_steps.specs.Sayings.{end_of};
ghost use Rattle.sample_city.specs.SampleCity.{IsSampleCity};
ghost use Rattle.sample_command.specs.Queries.{sampled_queries};
ghost use Rattle.sample_command.specs.Times.{AreTimes};
ghost use Rattle.sample_command.specs.Summary as spec;

use crate::city::city_read_back;
use crate::texts::text_of;
use crate::times::times_of;
use contractor::contract;
use hierarchy::{Hierarchy, Verdict};
use hierarchy_check::check;
use hierarchy_commands::ContractionNotes;
use mode_network::Network;
use plan_base::{Caps, Sink, Time};
use run_steps::{Outcome, tell, write_text};
use std::alloc::{AllocError, Global};

/// Makes the sample city of `n` rows and columns, answers its queries without a hierarchy and over one, and writes the
/// summary. `notes` is told how far it is. Where the city is past the limits of `caps`, as none is past [`Caps::FULL`], it
/// ends as where memory runs out.
pub fn sample<O: Sink, E: Sink>(
    alloc: Global,
    n: u32,
    out: &mut O,
    notes: &mut E,
    caps: &Caps,
) -> Result<(), Outcome>
    requires some { 1 ≤ n }
    requires size { n ≤ 300 }
    ensures { (old new : ShelfMeaning) → spec.SaysSample n (scene old (O.meaning out.old))
        (scene new (O.meaning out.new)) (end_of result) }
{
    let text = summary(alloc, n, notes, caps)?;
    write_text(out, &text)
}

/// The summary of the sample city.
fn summary<E: Sink>(
    alloc: Global,
    n: u32,
    notes: &mut E,
    caps: &Caps,
) -> Result<Vec<u8>, AllocError>
    requires some { 1 ≤ n }
    requires size { n ≤ 300 }
    ensures { IfOk result (λ text. spec.IsSummary n text.items) }
{
    let city = city_read_back(alloc, n, caps)?;
    tell(alloc, notes, told_of_city(alloc, &city));
    summary_of(alloc, n, &city, notes)
}

/// The summary of this sample city.
fn summary_of<E: Sink>(
    alloc: Global,
    n: u32,
    city: &Network,
    notes: &mut E,
) -> Result<Vec<u8>, AllocError>
    requires some { 1 ≤ n }
    requires size { n ≤ 300 }
    requires city { IsSampleCity n city.now }
    ensures { IfOk result (λ text. spec.IsSummary n text.items) }
{
    city.known();
    let (plain, _) = times_of(alloc, city, None, n)?;
    let (over, settled) = times_over(alloc, n, city, notes)?;
    text_of(alloc, n, city, &plain, &over, settled)
}

/// How long the best journeys take that are found over a hierarchy, and how many labels the searches had together.
fn times_over<E: Sink>(
    alloc: Global,
    n: u32,
    city: &Network,
    notes: &mut E,
) -> Result<(Vec<Option<Time>>, u128), AllocError>
    requires some { 1 ≤ n }
    requires size { n ≤ 300 }
    ensures times { IfOk result (λ it. AreTimes city.now (sampled_queries n) it.0.items) }
    ensures labels { IfOk result (λ it. spec.HasLabels n city.now it.1) }
{
    let hierarchy = contracted(alloc, city, notes)?;
    let (over, settled) = times_of(alloc, city, Some(&hierarchy), n)?;
    Ok((over, settled))
}

fn told_of_city(alloc: Global, city: &Network) -> Result<String, AllocError> {
    let nodes = city.nodes();
    format!(in alloc; "the city has {nodes} nodes")
}

/// A hierarchy that contraction makes of the whole city, and that was checked.
fn contracted<E: Sink>(
    alloc: Global,
    city: &Network,
    notes: &mut E,
) -> Result<Hierarchy, AllocError>
    ensures contracted { IfOk result (IsContractedTo city.now 0) }
    ensures sound { IfOk result (IsSound city.now) }
{
    let mut told = ContractionNotes::new(alloc, notes);
    let lists = contract(alloc, city, 0, &mut told)?;
    let hierarchy = lists.into_hierarchy(alloc)?;
    match check(alloc, city, &hierarchy)? {
        Verdict::Sound => Ok(hierarchy),
        Verdict::Broken { .. } => unreachable!(),
    }
}
