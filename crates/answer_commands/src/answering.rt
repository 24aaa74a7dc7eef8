//! The command `answer`: the block of each query line of a file, and with a hierarchy how many labels the searches had.

ghost use Rattle.std.specs.Prelude.{◌≡◌, IfOk, IfSome, option_map};
ghost use Rattle.hierarchy.specs.Soundness.{IsSound};
ghost use Rattle.run_steps.specs.declared.outcome.FileRole.TheVariants.{Queries};
ghost use Rattle.run_steps.specs.Scene.{scene};
ghost use Rattle.run_steps.specs.Sayings.{end_of};
ghost use Rattle.run_steps.specs.InTurn.{InTurn};
ghost use Rattle.answer_commands.specs.Answers.{IsAnswer, WritesSettled, settled_line};
ghost use Rattle.answer_commands.specs.Commands.{SaysAnswer};

use crate::reading::read_both;
use hierarchy::Hierarchy;
use journey::large_block;
use mode_network::Network;
use plain_texts::push_decimal;
use plan_base::{Caps, Shelf, Sink};
use planning::{Room, block_within};
use run_steps::{FileRole, Limits, LineBlocks, Outcome, Ports, write_in_turn, write_text};
use std::alloc::{AllocError, Global};

/// The blocks of lines that ask for a best journey, within limits and by a hierarchy, if there is one. The labels of searches
/// over it are counted.
#[derive(Drop)]
struct BestBlocks<'a> {
    network: &'a Network,
    hierarchy: Option<&'a Hierarchy>,
    limits: Limits,
}

impl LineBlocks for BestBlocks<'_> {
    ghost use Rattle.std.specs.Prelude.{IfSome, option_map};
    ghost use Rattle.hierarchy.specs.Soundness.{IsSound};
    ghost use Rattle.answer_commands.specs.Answers.{IsAnswer, IsAnswerCount};

    ghost may = { λ blocks. IfSome blocks.hierarchy (λ h. IsSound blocks.network.now h.now) };

    ghost is_block = { λ blocks. IsAnswer blocks.network.now (option_map (λ h. h.now) blocks.hierarchy)
        blocks.limits };

    ghost counts = { λ blocks. IsAnswerCount blocks.network.now (option_map (λ h. h.now) blocks.hierarchy)
        blocks.limits };

    type Room = Room;

    fn room(&self, alloc: Global) -> Room {
        Room::new(alloc)
    }

    fn block_of(
        &self,
        alloc: Global,
        room: &mut Room,
        line: &[u8],
    ) -> Result<(Vec<u8>, u64), AllocError> {
        let Limits { places, labels } = self.limits;
        if let Some(block) = large_block(alloc, self.network, places, line)? {
            return Ok((block, 0));
        }
        block_within(alloc, room, self.network, self.hierarchy, line, labels)
    }
}

/// Reads the region of this name and the hierarchy, if one is named, and writes the block of each query line of the queries
/// file, within the limits, as soon as that has been read whole; with a hierarchy the line `settled` follows.
#[tactic(auto, using(crate::proofs::LentLemmas::lent_sound))]
pub fn answer<F: Shelf, O: Sink, E: Sink>(
    ports: &mut Ports<F, O, E>,
    region: &str,
    queries: &str,
    hierarchy: Option<&str>,
    limits: Limits,
    caps: &Caps,
) -> Result<(), Outcome>
    ensures { SaysAnswer caps.now limits region.now queries.now (option_map (λ it. it.now) hierarchy.entry)
        (scene (F.meaning ports.old.shelf) (O.meaning ports.old.out))
        (scene (F.meaning ports.new.shelf) (O.meaning ports.new.out)) (end_of result) }
{
    let alloc = ports.alloc;
    let (shelf, notes) = (&mut ports.shelf, &mut ports.notes);
    let (network, hierarchy) = read_both(alloc, region, hierarchy, shelf, notes, caps)?;
    answer_over(ports, &network, hierarchy.as_ref(), limits, queries)
}

/// Answers the queries file of this path in turn, by the hierarchy, if there is one; then the line `settled` follows.
fn answer_over<F: Shelf, O: Sink, E: Sink>(
    ports: &mut Ports<F, O, E>,
    network: &Network,
    hierarchy: Option<&Hierarchy>,
    limits: Limits,
    path: &str,
) -> Result<(), Outcome>
    requires { IfSome hierarchy (λ h. IsSound network.now h.now) }
    ensures { InTurn Queries path.now (IsAnswer network.now (option_map (λ h. h.now) hierarchy.entry) limits)
        (WritesSettled network.now (option_map (λ h. h.now) hierarchy.entry) limits)
        (scene (F.meaning ports.old.shelf) (O.meaning ports.old.out))
        (scene (F.meaning ports.new.shelf) (O.meaning ports.new.out)) (end_of result) }
{
    let best = BestBlocks {
        network,
        hierarchy,
        limits,
    };
    let settled = write_in_turn(ports, &best, FileRole::Queries, path)?;
    if hierarchy.is_some() {
        let line = settled_line(ports.alloc, settled)?;
        return write_text(&mut ports.out, &line);
    }
    Ok(())
}

/// The line that tells how many labels searches had.
fn settled_line(alloc: Global, settled: u128) -> Result<Vec<u8>, AllocError>
    ensures { IfOk result (λ line. line.items ≡ settled_line settled) }
{
    let mut line = Vec::from_slice(alloc, b"settled ")?;
    push_decimal(&mut line, settled)?;
    line.push(b'\n')?;
    Ok(line)
}
