//! What rounds go over.

ghost use Rattle.std.specs.Prelude.{◌≡◌, ◌*◌, ℕ, ◌<◌, ◌≤◌, ◌^◌, All, Contains, IfOk, IfSome, IsTrue, Some, false, length, slice_get, true};
ghost use Rattle.mode_network.specs.NetworkLists.{nodes_of};
ghost use Rattle.hierarchy.specs.{IsCore, has_legs, IsSound};
ghost use Rattle.phase_graph.specs.{phase_node};
ghost use Rattle.phase_graph.specs.InUseGraph.{meaning_in_use, steady_in_use};
ghost use Rattle.cores.specs.{IsSoundOnCore};
ghost use Rattle.rounds.specs.Layers.{CoreLeads, CoreLayer, IsCoreLayer, AreGates};
ghost use Rattle.rounds.specs.Crossings.{IsQuiet};
ghost use Rattle.sweeps.specs.inside.{ArePlacesOf};

use crate::asked::Asked;
use crate::core_layer::{CoreLayer, Cores};
use crate::lines::{Line, lines_of};
use hierarchy::Hierarchy;
use mode_network::Network;
use phase_graph::{GraphInUse, MarkTable};
use product_search::{Label, Machine};
use search_laws::{EVERY_LETTER, Graph, RoadLabels, Time};
use std::alloc::{AllocError, Global};
use sweeps::{Places, place_table};
use timetable_arcs::Timetable;

/// How many modes have roads: their letters are the numbers below.
pub(crate) const ROAD_LETTERS: u8 = 3;

/// A hierarchy of a network with its core contracted once more, and where links and rides leave the core.
#[derive(Drop)]
pub struct Rounds<'a> {
    pub network: &'a Network,
    pub hierarchy: &'a Hierarchy,
    /// The network's timetable.
    pub(crate) timetable: &'a Timetable,
    /// The phase graph for no targets, in which nothing leads down.
    pub(crate) graph: GraphInUse<'a>,
    /// The layers of the core, by the letters of their modes.
    pub(crate) layers: Vec<CoreLayer>,
    /// The nodes of the core with a link or with rides, and all stops and switches.
    pub(crate) crossings: Vec<u32>,
    /// For each number of a node its place among the crossings, if it has one.
    pub(crate) crossing_places: Vec<u32>,
    /// For each pattern of the timetable the crossings of its calls.
    pub(crate) lines: Vec<Line>,
    /// No entry along the core takes longer, in ms.
    pub(crate) longest: u32,
    ghost placed: { ArePlacesOf crossings.items (length crossings.items) crossing_places.items },
    ghost few: { length crossings.items < 2 ^ 32 },
}

impl<'a> Rounds<'a> {
    ghost use Rattle.std.specs.Prelude.{◌≡◌, ◌<◌, ◌^◌, IfOk, IfSome};
    ghost use Rattle.cores.specs.{IsSoundOnCore};
    ghost use Rattle.rounds.specs.Rounds.{AreRounds, AreStarts};
    ghost use Rattle.rounds.specs.Reached.{AreReachedLabels};

    /// The rounds over a hierarchy, which is sound for the network, and over one of its core, which is sound for the network of that. None
    /// where the latter does not contract the whole core, or where an entry takes 2^32 ms or longer.
    pub fn new(
        alloc: Global,
        network: &'a Network,
        hierarchy: &'a Hierarchy,
        core: &Hierarchy,
    ) -> Result<Option<Rounds<'a>>, AllocError>
        requires sound { IsSound network.now hierarchy.now }
        requires core { IsSoundOnCore network.now hierarchy.now core.now }
        ensures is { IfOk result (λ made. IfSome made AreRounds) }
        ensures network { IfOk result (λ made. IfSome made (λ r. r.network.now ≡ network.now)) }
        ensures hierarchy { IfOk result (λ made. IfSome made (λ r. r.hierarchy.now ≡ hierarchy.now)) }
    {
        hierarchy.known();
        if !hierarchy.has_legs() {
            return Ok(None);
        }
        let Some(longest) = longest_along(hierarchy) else {
            return Ok(None);
        };
        let mut marks = MarkTable::new(alloc);
        let graph = GraphInUse::new(alloc, &mut marks, network, Some(hierarchy), &[])?;
        let Some(crossings) = crossings_of(alloc, network, hierarchy, &graph)? else {
            return Ok(None);
        };
        let Some(crossing_places) = place_table(alloc, &crossings)? else {
            return Ok(None);
        };
        let places = Places {
            nodes: &crossings,
            of: &crossing_places,
        };
        let timetable = network.timetable();
        let Some(lines) = lines_of(alloc, network, timetable, places)? else {
            return Ok(None);
        };
        let cores = Cores {
            network,
            hierarchy,
            core,
        };
        let Some(layers) = core_layers(alloc, cores, &crossings)? else {
            return Ok(None);
        };
        Ok(Some(Rounds {
            network,
            hierarchy,
            timetable,
            graph,
            layers,
            crossings,
            crossing_places,
            lines,
            longest,
        }))
    }

    /// All product states that are reached before any descent by walks that leave a start at `dep`, each with times at which it is, of
    /// which one is the least. The starts are numbers of the phase graph. None where a time may not fit 32 bits as a delay, or where it
    /// takes very many rounds.
    pub fn labels<L: RoadLabels>(
        &self,
        alloc: Global,
        machine: &Machine<L>,
        starts: &[u32],
        dep: Time,
    ) -> Result<Option<Vec<Label>>, AllocError>
        requires is { AreRounds self.now }
        requires starts { AreStarts self.now starts.now }
        requires early { dep < 2 ^ 64 }
        ensures { IfOk result (λ found. IfSome found (λ labels. AreReachedLabels (meaning_in_use self.now.graph)
            (L.automaton machine.now.labels) starts.now dep labels.items)) }
    {
        let asked = Asked {
            rounds: self,
            machine,
            starts,
            dep,
        };
        asked.labels(alloc)
    }
}

/// The longest time that an entry along the core takes, if each takes less than 2^32 ms.
fn longest_along(hierarchy: &Hierarchy) -> Option<u32>
    ensures { IfSome result (λ longest. (u v w : ℕ) → CoreLeads hierarchy.now u v w → w ≤ longest) }
{
    let mut longest = 0;
    for entry in hierarchy.entries() {
        if !hierarchy.contracted(entry.from) && !hierarchy.contracted(entry.to) {
            let Ok(ms) = u32::try_from(entry.weight) else {
                return None;
            };
            longest = longest.max(ms);
        }
    }
    Some(longest)
}

/// The nodes with a link or that rides may leave, and all that are no road nodes. None where one of them is contracted.
fn crossings_of(
    alloc: Global,
    network: &Network,
    hierarchy: &Hierarchy,
    graph: &GraphInUse<'_>,
) -> Result<Option<Vec<u32>>, AllocError>
    requires nodes { (meaning_in_use graph.now).nodes ≡ 2 * length (nodes_of network.now) }
    ensures core { IfOk result (λ made. IfSome made (λ list. All (IsCore hierarchy.now.order) list.items)) }
    ensures quiet { IfOk result (λ made. IfSome made (λ list. (v : ℕ) → v < length (nodes_of network.now)
        → (Contains list.items v → ⊥) → IsQuiet network.now (meaning_in_use graph.now) v
        (steady_in_use graph.now (phase_node v false)))) }
    ensures few { IfOk result (λ made. IfSome made (λ list. length list.items < 2 ^ 32)) }
{
    let mut crossings = Vec::new(alloc);
    for v in 0..network.nodes() {
        if !is_quiet(network, graph, v) {
            if hierarchy.contracted(v) {
                return Ok(None);
            }
            crossings.push(v)?;
        }
    }
    Ok(Some(crossings))
}

/// Whether a node is a road node without links, which nothing leaves but entries and what stands. One that links lead to alone could be
/// quiet as well, but rounds go from crossing to crossing.
fn is_quiet(network: &Network, graph: &GraphInUse<'_>, v: u32) -> bool
    requires node { v < length (nodes_of network.now) }
    requires nodes { (meaning_in_use graph.now).nodes ≡ 2 * length (nodes_of network.now) }
    ensures { IsTrue result → IsQuiet network.now (meaning_in_use graph.now) v
        (steady_in_use graph.now (phase_node v false)) }
{
    !network.has_link(v) && is_left_by_nothing(network, graph, v)
}

/// Whether a node is a road node that nothing leaves but entries and what stands.
fn is_left_by_nothing(network: &Network, graph: &GraphInUse<'_>, v: u32) -> bool
    requires node { v < length (nodes_of network.now) }
    requires nodes { (meaning_in_use graph.now).nodes ≡ 2 * length (nodes_of network.now) }
    ensures { IsTrue result → IsQuiet network.now (meaning_in_use graph.now) v
        (steady_in_use graph.now (phase_node v false)) }
{
    network.letter(v).is_some() && !graph.may_have_fresh(2 * v, EVERY_LETTER, 0)
}

/// The layers of a core by the letters of their modes. None where there is none for one of them.
fn core_layers(
    alloc: Global,
    cores: Cores<'_>,
    crossings: &[u32],
) -> Result<Option<Vec<CoreLayer>>, AllocError>
    requires sound { IsSound cores.network.now cores.hierarchy.now }
    requires core { IsSoundOnCore cores.network.now cores.hierarchy.now cores.core.now }
    requires few { length crossings.now < 2 ^ 32 }
    ensures many { IfOk result (λ made. IfSome made (λ layers. length layers.items ≡ 3)) }
    ensures layers { IfOk result (λ made. IfSome made (λ layers. (letter : ℕ) (layer : CoreLayer)
        → slice_get layers.items letter ≡ Some layer → IsCoreLayer cores.entry.network.now
        cores.entry.hierarchy.now letter layer.sheet × AreGates layer.sheet.slope.nodes.items crossings.now
        layer.gates.items)) }
{
    let mut layers = Vec::new(alloc);
    for letter in 0..ROAD_LETTERS {
        let Some(layer) = CoreLayer::new(alloc, cores, letter, crossings)? else {
            return Ok(None);
        };
        layers.push(layer)?;
    }
    Ok(Some(layers))
}
