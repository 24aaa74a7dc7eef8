//! Query lines that come to more than a run allows: whose expressions have too many places, or whose searches have too many
//! labels.

ghost use Rattle.std.specs.Prelude.{◌≡◌, ◌≢◌, None, IfOk, option_map};
ghost use Rattle.journey.specs.declared.fault.QueryFault.TheVariants.{OutOfMemory};
ghost use Rattle.journey.specs.Large.{IsLargeBlockIfAny, IsLargeIfAny, stopped_block};

use crate::answer::BlockBody;
use crate::fault::QueryFault;
use crate::printing::{block, framed};
use crate::query::read_query;
use mode_network::Network;
use plain_texts::{push_decimal, push_line_feed};
use std::alloc::{AllocError, Global};

/// How many places the expression of a query line has, if they are more than `most`, where that is given. A line that is
/// refused anyway has none.
pub fn large_places(
    alloc: Global,
    network: &Network,
    most: Option<u32>,
    line: &[u8],
) -> Result<Option<u64>, AllocError>
    ensures { IfOk result (IsLargeIfAny network.now most line.now) }
{
    let Some(most) = most else {
        return Ok(None);
    };
    let query = match read_query(alloc, network, line) {
        Ok(query) => query,
        Err(fault) => return none_where_refused(fault),
    };
    let places = query.expr.places();
    if places > u64::from(most) {
        Ok(Some(places))
    } else {
        Ok(None)
    }
}

/// None for a line that is refused; a line that was not read, for want of memory, may have any number.
fn none_where_refused(fault: QueryFault) -> Result<Option<u64>, AllocError>
    ensures { IfOk result (λ count. (count ≡ None) × (fault ≢ OutOfMemory)) }
{
    match fault {
        QueryFault::OutOfMemory => Err(AllocError),
        _ => Ok(None),
    }
}

/// The block that refuses a query line, if its expression has more places than `most`, where that is given.
pub fn large_block(
    alloc: Global,
    network: &Network,
    most: Option<u32>,
    line: &[u8],
) -> Result<Option<Vec<u8>>, AllocError>
    ensures { IfOk result (λ block. IsLargeBlockIfAny network.now most line.now
        (option_map (λ it. it.items) block)) }
{
    let Some(places) = large_places(alloc, network, most, line)? else {
        return Ok(None);
    };
    let refused = BlockBody::Refused(QueryFault::TooLarge { places });
    let block = block(alloc, network, line, &refused)?;
    Ok(Some(block))
}

/// The block of a query line whose search was given up, since it has more than so many labels.
pub fn stopped_block(alloc: Global, line: &[u8], limit: u64) -> Result<Vec<u8>, AllocError>
    ensures { IfOk result (λ block. block.items ≡ stopped_block line.now limit) }
{
    let mut body = Vec::from_slice(alloc, b"stopped ")?;
    push_decimal(&mut body, u128::from(limit))?;
    push_line_feed(&mut body)?;
    framed(alloc, line, &body)
}
