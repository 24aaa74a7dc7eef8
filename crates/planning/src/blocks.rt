//! The block of a query line.

ghost use Rattle.std.specs.Prelude.{◌≡◌, IfOk, IfSome, Some, option_map};
ghost use Rattle.hierarchy.specs.Soundness.{IsSound};
ghost use Rattle.journey.specs.Best.{IsBoardedBody, IsRightBody};
ghost use Rattle.journey.specs.Blocks.{IsPrintableBody};
ghost use Rattle.planning.specs.Limits.{IsBlockWithin, IsLineWithin, IsSettledWithin, IsStoppedLine};
ghost use Rattle.planning.specs.Settled.{IsSettledCount};
ghost use Rattle.product_search.specs.Limits.{IfEnded, IfStopped};

use crate::plans::{BestPlan, find_best_within};
use hierarchy::Hierarchy;
use journey::{BlockBody, QueryFault, block, read_query, stopped_block};
use kept_automata::Room;
use mode_network::Network;
use product_search::Limited;
use std::alloc::{AllocError, Global};

/// What the block of a query line says, and how many labels the search had, if it was over a hierarchy; unless it was
/// stopped, as it has more than the limit.
fn body(
    alloc: Global,
    room: &mut Room,
    network: &Network,
    hierarchy: Option<&Hierarchy>,
    line: &[u8],
    limit: Option<u64>,
) -> Result<Limited<(BlockBody, u64)>, AllocError>
    requires sound { IfSome hierarchy (λ h. IsSound network.now h.now) }
    ensures right { IfEnded result (λ it. IsRightBody network.now line.now it.0) }
    ensures boarded { IfEnded result (λ it. IsBoardedBody network.now it.0) }
    ensures printable { IfEnded result (λ it. IsPrintableBody network.now it.0) }
    ensures settled { IfEnded result (λ it. IsSettledCount network.now
        (option_map (λ h. h.now) hierarchy.entry) line.now it.1) }
    ensures few { IfEnded result (λ it. IfSome limit (λ most. IsLineWithin network.now
        (option_map (λ h. h.now) hierarchy.entry) most line.now)) }
    ensures stopped { IfStopped result (λ most. (limit ≡ Some most)
        × IsStoppedLine network.now (option_map (λ h. h.now) hierarchy.entry) most line.now) }
{
    let query = match read_query(alloc, network, line) {
        Ok(query) => query,
        Err(QueryFault::OutOfMemory) => return Err(AllocError),
        Err(fault) => return Ok(Limited::Ended((BlockBody::Refused(fault), 0))),
    };
    let BestPlan { journey, settled } = match find_best_within(
        alloc, room, network, hierarchy, &query, limit,
    )? {
        Limited::Ended(best) => best,
        Limited::Stopped(most) => return Ok(Limited::Stopped(most)),
    };
    match journey {
        Some(journey) => Ok(Limited::Ended((BlockBody::Journey(journey), settled))),
        None => Ok(Limited::Ended((BlockBody::Nothing, settled))),
    }
}

/// The right block of a query line, and how many labels the search for it had, if it was over a hierarchy, which is sound
/// for the network. But where the search has more labels than the limit, if there is one, it is stopped, the block says
/// so, and no labels are counted. The search uses the room.
pub fn block_within(
    alloc: Global,
    room: &mut Room,
    network: &Network,
    hierarchy: Option<&Hierarchy>,
    line: &[u8],
    limit: Option<u64>,
) -> Result<(Vec<u8>, u64), AllocError>
    requires { IfSome hierarchy (λ h. IsSound network.now h.now) }
    ensures block { IfOk result (λ it. IsBlockWithin network.now (option_map (λ h. h.now) hierarchy.entry)
        limit line.now it.0.items) }
    ensures settled { IfOk result (λ it. IsSettledWithin network.now (option_map (λ h. h.now) hierarchy.entry)
        limit line.now it.1) }
{
    match body(alloc, room, network, hierarchy, line, limit)? {
        Limited::Ended((body, settled)) => {
            let block = block(alloc, network, line, &body)?;
            Ok((block, settled))
        }
        Limited::Stopped(most) => {
            let block = stopped_block(alloc, line, most)?;
            Ok((block, 0))
        }
    }
}
