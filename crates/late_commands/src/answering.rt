//! The commands `few`, `latest` and `profile`: the block of each query line of a file.

ghost use Rattle.run_steps.specs.Scene.{scene};
ghost use Rattle.run_steps.specs.Sayings.{end_of};
ghost use Rattle.late_commands.specs.Commands.{SaysFew, SaysLatest, SaysProfile};

use departures::{LeastTimes, profile_block};
use few_boardings::{Counting, few_block};
use journey::large_block;
use kept_automata::Kept;
use latest_departure::{Backwards, LateRoom, late_block_within};
use mode_network::Network;
use plan_base::{Caps, Shelf, Sink};
use product_search::Workspace;
use run_steps::{FileRole, Limits, LineBlocks, Outcome, Ports, answer_file, read_region};
use std::alloc::{AllocError, Global};

/// What searches that count rides keep from line to line.
#[derive(Drop)]
struct CountingRoom {
    workspace: Workspace,
    kept: Kept<Counting>,
}

impl CountingRoom {
    /// Takes no memory.
    fn new(alloc: Global) -> CountingRoom {
        CountingRoom {
            workspace: Workspace::new(alloc),
            kept: Kept::new(alloc),
        }
    }
}

/// The blocks of lines that ask for the journeys that are worth their boardings.
#[derive(Drop)]
struct FewBlocks<'a> {
    network: &'a Network,
    places: Option<u32>,
}

impl LineBlocks for FewBlocks<'_> {
    ghost use Rattle.journey.specs.Large.{IsBlockUnder};
    ghost use Rattle.few_boardings.specs.Blocks.{IsFewBlock};
    ghost use Rattle.late_commands.specs.Commands.{CountsNothing};

    ghost is_block = { λ blocks. IsBlockUnder blocks.network.now blocks.places
        (IsFewBlock blocks.network.now) };

    ghost counts = { λ _. CountsNothing };

    type Room = CountingRoom;

    fn room(&self, alloc: Global) -> CountingRoom {
        CountingRoom::new(alloc)
    }

    fn block_of(
        &self,
        alloc: Global,
        room: &mut CountingRoom,
        line: &[u8],
    ) -> Result<(Vec<u8>, u64), AllocError> {
        if let Some(block) = large_block(alloc, self.network, self.places, line)? {
            return Ok((block, 0));
        }
        let (workspace, kept) = (&mut room.workspace, &mut room.kept);
        let block = few_block(alloc, workspace, kept, self.network, line)?;
        Ok((block, 0))
    }
}

/// The blocks of lines that ask for the latest departure.
#[derive(Drop)]
struct LateBlocks<'a> {
    backwards: &'a Backwards<'a>,
    limits: Limits,
}

impl LineBlocks for LateBlocks<'_> {
    ghost use Rattle.late_commands.specs.Commands.{CountsNothing, IsLatestBlock};

    ghost is_block = { λ blocks. IsLatestBlock blocks.backwards.now.network blocks.limits };

    ghost counts = { λ _. CountsNothing };

    type Room = LateRoom;

    fn room(&self, alloc: Global) -> LateRoom {
        LateRoom::new(alloc)
    }

    fn block_of(
        &self,
        alloc: Global,
        room: &mut LateRoom,
        line: &[u8],
    ) -> Result<(Vec<u8>, u64), AllocError> {
        let Limits { places, labels } = self.limits;
        if let Some(block) = large_block(alloc, self.backwards.network(), places, line)? {
            return Ok((block, 0));
        }
        let block = late_block_within(alloc, room, self.backwards, line, labels)?;
        Ok((block, 0))
    }
}

/// The blocks of lines that ask for the departures of a window.
#[derive(Drop)]
struct ProfileBlocks<'a> {
    least: &'a LeastTimes<'a>,
    window: u32,
    places: Option<u32>,
}

impl LineBlocks for ProfileBlocks<'_> {
    ghost use Rattle.journey.specs.Large.{IsBlockUnder};
    ghost use Rattle.departures.specs.Blocks.{IsProfileBlock};
    ghost use Rattle.late_commands.specs.Commands.{CountsNothing};

    ghost is_block = { λ blocks. IsBlockUnder blocks.least.now.plain.network.now blocks.places
        (IsProfileBlock blocks.least.now.plain.network.now blocks.window) };

    ghost counts = { λ _. CountsNothing };

    type Room = CountingRoom;

    fn room(&self, alloc: Global) -> CountingRoom {
        CountingRoom::new(alloc)
    }

    fn block_of(
        &self,
        alloc: Global,
        room: &mut CountingRoom,
        line: &[u8],
    ) -> Result<(Vec<u8>, u64), AllocError> {
        if let Some(block) = large_block(alloc, self.least.network(), self.places, line)? {
            return Ok((block, 0));
        }
        let (workspace, kept) = (&mut room.workspace, &mut room.kept);
        let block = profile_block(alloc, workspace, kept, self.least, line, self.window)?;
        Ok((block, 0))
    }
}

/// Reads the region of this name, and writes for each query line of the queries file, as soon as that has been read whole, the
/// block of the journeys that are worth their boardings.
pub fn few<F: Shelf, O: Sink, E: Sink>(
    ports: &mut Ports<F, O, E>,
    region: &str,
    queries: &str,
    places: Option<u32>,
    caps: &Caps,
) -> Result<(), Outcome>
    ensures { SaysFew caps.now places region.now queries.now
        (scene (F.meaning ports.old.shelf) (O.meaning ports.old.out))
        (scene (F.meaning ports.new.shelf) (O.meaning ports.new.out)) (end_of result) }
{
    let network = read_region(
        ports.alloc,
        &mut ports.shelf,
        region,
        caps,
        &mut ports.notes,
    )?;
    let few = FewBlocks {
        network: &network,
        places,
    };
    answer_file(ports, &few, FileRole::Queries, queries)
}

/// Reads the region of this name, and writes for each query line of the queries file, as soon as that has been read whole, the
/// block of the latest departure.
pub fn latest<F: Shelf, O: Sink, E: Sink>(
    ports: &mut Ports<F, O, E>,
    region: &str,
    queries: &str,
    limits: Limits,
    caps: &Caps,
) -> Result<(), Outcome>
    ensures { SaysLatest caps.now limits region.now queries.now
        (scene (F.meaning ports.old.shelf) (O.meaning ports.old.out))
        (scene (F.meaning ports.new.shelf) (O.meaning ports.new.out)) (end_of result) }
{
    let network = read_region(
        ports.alloc,
        &mut ports.shelf,
        region,
        caps,
        &mut ports.notes,
    )?;
    let backwards = Backwards::new(ports.alloc, &network)?;
    let late = LateBlocks {
        backwards: &backwards,
        limits,
    };
    answer_file(ports, &late, FileRole::Queries, queries)
}

/// Reads the region of this name, and writes for each query line of the queries file, as soon as that has been read whole, the
/// block of the departures of the window, which is in milliseconds.
pub fn profile<F: Shelf, O: Sink, E: Sink>(
    ports: &mut Ports<F, O, E>,
    region: &str,
    queries: &str,
    window: u32,
    places: Option<u32>,
    caps: &Caps,
) -> Result<(), Outcome>
    ensures { SaysProfile caps.now places region.now queries.now window
        (scene (F.meaning ports.old.shelf) (O.meaning ports.old.out))
        (scene (F.meaning ports.new.shelf) (O.meaning ports.new.out)) (end_of result) }
{
    let network = read_region(
        ports.alloc,
        &mut ports.shelf,
        region,
        caps,
        &mut ports.notes,
    )?;
    let least = LeastTimes::new(ports.alloc, &network)?;
    let profile = ProfileBlocks {
        least: &least,
        window,
        places,
    };
    answer_file(ports, &profile, FileRole::Queries, queries)
}
