//! The command `matrix`: the times from each line of a file of origins to each line of a file of destinations.

ghost use Rattle.std.specs.Prelude.{◌≡◌, IfOk, IfSome, map, option_map};
ghost use Rattle.hierarchy.specs.Soundness.{IsSound};
ghost use Rattle.run_steps.specs.declared.outcome.FileRole.TheVariants.{Origins};
ghost use Rattle.run_steps.specs.InTurn.{AnswersFile};
ghost use Rattle.run_steps.specs.QueryLines.{query_lines};
ghost use Rattle.run_steps.specs.Scene.{scene};
ghost use Rattle.run_steps.specs.Sayings.{end_of};
ghost use Rattle.matrix_commands.specs.Commands.{SaysMatrix, WritesTable};
ghost use Rattle.matrix_commands.specs.Rows.{AreRowsOf};

use crate::asking::{Asking, read_ends};
use crate::table::Table;
use answer_commands::read_both;
use hierarchy::Hierarchy;
use mode_network::Network;
use plain_texts::split_line;
use plan_base::{Caps, Shelf, Sink};
use planning::Destinations;
use run_steps::{FileRole, Outcome, Ports, answer_file, as_query, read_file, without_return};
use std::alloc::{AllocError, Global};

/// The names of the files of a table.
#[derive(Clone, Copy)]
pub struct TableFiles<'a> {
    pub region: &'a str,
    pub origins: &'a str,
    pub destinations: &'a str,
    pub hierarchy: Option<&'a str>,
}

/// Reads the region of a table, the hierarchy, if one is named, and all destinations; and writes the rows of each
/// origin as soon as its line has been read whole.
#[tactic(auto, using(answer_commands::proofs::LentLemmas::lent_sound))]
pub fn matrix<F: Shelf, O: Sink, E: Sink>(
    ports: &mut Ports<F, O, E>,
    files: &TableFiles<'_>,
    asking: &Asking<'_>,
    caps: &Caps,
) -> Result<(), Outcome>
    ensures { SaysMatrix caps.now asking.now.places files.now.region.now files.now.origins.now
        files.now.destinations.now asking.now.date.now asking.now.time.now asking.now.expr.now
        (option_map (λ it. it.now) files.now.hierarchy) (scene (F.meaning ports.old.shelf)
        (O.meaning ports.old.out)) (scene (F.meaning ports.new.shelf) (O.meaning ports.new.out))
        (end_of result) }
{
    let alloc = ports.alloc;
    let (shelf, notes) = (&mut ports.shelf, &mut ports.notes);
    let (network, hierarchy) = read_both(alloc, files.region, files.hierarchy, shelf, notes, caps)?;
    write_table(ports, &network, hierarchy.as_ref(), files, asking)
}

/// Reads all destinations, and writes the rows of each origin, by the hierarchy, if there is one.
fn write_table<F: Shelf, O: Sink, E: Sink>(
    ports: &mut Ports<F, O, E>,
    network: &Network,
    hierarchy: Option<&Hierarchy>,
    files: &TableFiles<'_>,
    asking: &Asking<'_>,
) -> Result<(), Outcome>
    requires { IfSome hierarchy (λ h. IsSound network.now h.now) }
    ensures { WritesTable network.now asking.now.places files.now.origins.now files.now.destinations.now
        asking.now.date.now asking.now.time.now asking.now.expr.now
        (scene (F.meaning ports.old.shelf) (O.meaning ports.old.out))
        (scene (F.meaning ports.new.shelf) (O.meaning ports.new.out)) (end_of result) }
{
    let role = FileRole::Destinations;
    let bytes = read_file(
        ports.alloc,
        &mut ports.shelf,
        files.destinations,
        role,
        &mut ports.notes,
    )?;
    write_rows(ports, network, hierarchy, asking, &bytes, files.origins)
}

/// Writes the rows of each origin of the file of this path for the destinations that these bytes list.
fn write_rows<F: Shelf, O: Sink, E: Sink>(
    ports: &mut Ports<F, O, E>,
    network: &Network,
    hierarchy: Option<&Hierarchy>,
    asking: &Asking<'_>,
    bytes: &[u8],
    origins: &str,
) -> Result<(), Outcome>
    requires { IfSome hierarchy (λ h. IsSound network.now h.now) }
    ensures { AnswersFile Origins origins.now (AreRowsOf network.now asking.now.places (query_lines bytes.now)
        asking.now.date.now asking.now.time.now asking.now.expr.now)
        (scene (F.meaning ports.old.shelf) (O.meaning ports.old.out))
        (scene (F.meaning ports.new.shelf) (O.meaning ports.new.out)) (end_of result) }
{
    let alloc = ports.alloc;
    let lines = destination_lines(alloc, bytes)?;
    let queries = read_ends(alloc, network, asking, &lines)?;
    let destinations = Destinations::new(alloc, network, hierarchy, None, &queries)?;
    let table = Table {
        asking,
        lines: &lines,
        destinations: &destinations,
    };
    answer_file(ports, &table, FileRole::Origins, origins)
}

/// The lines of a file that are not empty and no comments.
fn destination_lines(alloc: Global, bytes: &[u8]) -> Result<Vec<&[u8]>, AllocError>
    ensures { IfOk result (λ lines. map (λ line. line.now) lines.items ≡ query_lines bytes.now) }
{
    let mut lines = Vec::new(alloc);
    let mut rest = bytes;
    'lines: while let Some((line, behind)) = split_line(rest) {
        if let Some(line) = as_query(without_return(line)) {
            lines.push(line)?;
        }
        rest = behind;
    }
    Ok(lines)
}
