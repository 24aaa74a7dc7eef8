//! Which endpoints a network has.

ghost use Rattle.std.specs.Prelude.{◌≡◌, ◌↔◌, IsTrue};
ghost use Rattle.journey.specs.Faults.{origin_fault, destination_fault};
ghost use Rattle.journey.specs.Queries.{IsKnown, IsLack};

use crate::fault::QueryFault;
use mode_network::{Endpoint, Network};

/// Why no node of a network is a copy of an endpoint.
#[derive(Clone, Copy)]
pub(crate) enum Lack {
    /// No node has the id or the name, or there is no road node at all, or none of the mode.
    Unknown,
    /// The nearest road node, or that of the mode, lies so many millimetres away from the place.
    Far { mm: u64 },
}

impl Lack {
    /// The fault of a query whose origin lacks this.
    pub(crate) fn at_origin(self) -> QueryFault
        ensures { result ≡ origin_fault self }
    {
        match self {
            Lack::Unknown => QueryFault::UnknownFrom,
            Lack::Far { mm } => QueryFault::OffNetwork { to: false, mm },
        }
    }

    /// The fault of a query whose destination lacks this.
    pub(crate) fn at_destination(self) -> QueryFault
        ensures { result ≡ destination_fault self }
    {
        match self {
            Lack::Unknown => QueryFault::UnknownTo,
            Lack::Far { mm } => QueryFault::OffNetwork { to: true, mm },
        }
    }
}

/// Whether some node of the network is a copy of the endpoint.
fn is_known(network: &Network, endpoint: &Endpoint) -> bool
    ensures { IsTrue result ↔ IsKnown network.now endpoint.now }
{
    network.copies(endpoint).is_some()
}

/// What an endpoint lacks; None exactly where some node of the network is a copy of it.
pub(crate) fn lack_of(network: &Network, endpoint: &Endpoint) -> Option<Lack>
    ensures { IsLack network.now endpoint.now result }
{
    network.known();
    if is_known(network, endpoint) {
        return None;
    }
    match endpoint {
        Endpoint::Road(_) => Some(Lack::Unknown),
        Endpoint::Stop(_) => Some(Lack::Unknown),
        Endpoint::Near(place) => match network.nearest_road(*place) {
            Some((_, mm)) => Some(Lack::Far { mm }),
            None => Some(Lack::Unknown),
        },
        Endpoint::NearIn(mode, place) => match network.nearest_in(*mode, *place) {
            Some((_, mm)) => Some(Lack::Far { mm }),
            None => Some(Lack::Unknown),
        },
    }
}
