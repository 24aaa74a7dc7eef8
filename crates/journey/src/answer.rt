//! What a block says of its query line.

use crate::fault::QueryFault;
use mode_network::Journey;

/// What a block says of its query line.
#[derive(Drop)]
pub enum BlockBody {
    /// A journey that answers the query.
    Journey(Journey),
    /// No journey answers the query.
    Nothing,
    /// The line is no query, for this fault.
    Refused(QueryFault),
}
