//! The lists of what contraction has made.

ghost use Rattle.contractor.specs.inside.Layers.{IsState, IsFinished};

use crate::layer::Layer;
use hierarchy::Lists;
use mode_network::Network;

/// The lists of the hierarchy so far, in order.
pub(crate) fn finish(network: &Network, layer: Layer) -> Lists
    requires { IsState network.now layer }
    ensures { IsFinished network.now layer.order.items result }
{
    network.known();
    let Layer {
        order,
        mut entries,
        mut witnesses,
        rows,
        into,
    } = layer;
    drop(rows);
    drop(into);
    entries.sort_unstable_by_key(|entry| (entry.from, entry.to));
    witnesses.sort();
    Lists::new(order, entries, witnesses)
}
