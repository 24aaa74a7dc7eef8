//! What the lines of a map's text give, line by line.

ghost use Rattle.std.specs.Prelude.{◌≡◌, ◌+◌, ◌++◌, [], ◌∷◌, not, is_some, Ok, IfOk, OnOk, IfErr, IsTrue, option_to_list};
ghost use Rattle.std.specs.List.{list_any};
ghost use Rattle.std.specs.Map.{lookup};
ghost use Rattle.std.specs.Ordering.{int_eq};
ghost use Rattle.opl_reader.specs.Objects.{placed};

use crate::cutting::cut_ways;
use crate::lines::{Line, NodeLine, WayLine};
use crate::objects::{Objects, OplFault, OsmNode};
use indexmap::{IndexMap, IndexSet};
use plan_base::{Caps, Kind};
use std::alloc::{AllocError, Global};

/// What the lines so far gave.
#[derive(Drop)]
pub struct Gathered {
    lines: u64,
    /// The ids of the visible nodes, and whether each has a place.
    seen_nodes: IndexMap<i64, bool>,
    nodes: Vec<OsmNode>,
    seen_ways: IndexSet<i64>,
    ways: Vec<WayLine>,
    references: u64,
}

/// Puts the id of a visible node to those that were seen, and says whether it is new.
fn note_node(seen: &mut IndexMap<i64, bool>, id: i64, has_place: bool) -> Result<bool, AllocError>
    ensures new { IfOk result (λ new. new ≡ not (is_some (lookup (int_eq id) seen.old.entries))) }
    ensures entries { IfOk result (λ new. IsTrue new → seen.new.entries ≡ seen.old.entries ++
        (id, has_place) ∷ []) }
{
    let old = seen.insert(id, has_place)?;
    Ok(old.is_none())
}

/// The same of a visible way.
fn note_way(seen: &mut IndexSet<i64>, id: i64) -> Result<bool, AllocError>
    ensures new { IfOk result (λ new. new ≡ not (list_any (int_eq id) seen.old.keys)) }
    ensures entries { IfOk result (λ new. IsTrue new → seen.new.keys ≡ seen.old.keys ++ id ∷ []) }
{
    let new = seen.insert(id)?;
    Ok(new)
}

/// Puts a node to the others, if it has a place.
fn push_placed(nodes: &mut Vec<OsmNode>, node: NodeLine) -> Result<(), AllocError>
    ensures { OnOk result (nodes.new.items ≡ nodes.old.items ++ option_to_list (placed node)) }
{
    let NodeLine { id, place, amenity } = node;
    if let Some(place) = place {
        nodes.push(OsmNode { id, place, amenity })?;
    }
    Ok(())
}

fn push_way(ways: &mut Vec<WayLine>, way: WayLine) -> Result<(), AllocError>
    ensures { OnOk result (ways.new.items ≡ ways.old.items ++ way ∷ []) }
{
    ways.push(way)?;
    Ok(())
}

impl Gathered {
    ghost use Rattle.opl_reader.specs.Gathered.{IsFaultOf, lists_of, nothing_gathered, objects_from, with_line, with_node, with_way};

    /// Nothing yet.
    pub(crate) fn new(alloc: Global) -> Gathered
        ensures { lists_of result ≡ nothing_gathered }
    {
        Gathered {
            lines: 0,
            seen_nodes: IndexMap::new(alloc),
            nodes: Vec::new(alloc),
            seen_ways: IndexSet::new(alloc),
            ways: Vec::new(alloc),
            references: 0,
        }
    }

    /// A visible node more, on the line of this number.
    fn take_node(&mut self, caps: &Caps, number: u64, node: NodeLine) -> Result<(), OplFault>
        requires { number ≡ self.old.lines + 1 }
        ensures ok { OnOk result (with_node caps.now (lists_of self.old) node ≡ Ok (lists_of self.new)) }
        ensures fault { IfErr result (IsFaultOf (with_node caps.now (lists_of self.old) node)) }
    {
        if !note_node(&mut self.seen_nodes, node.id, node.place.is_some())? {
            return Err(OplFault::RepeatedObject { line: number });
        }
        push_placed(&mut self.nodes, node)?;
        if self.nodes.len() as u64 > caps.osm_nodes {
            return Err(OplFault::TooMany {
                kind: Kind::OsmNodes,
            });
        }
        self.lines = number;
        Ok(())
    }

    /// A visible way more, on the line of this number.
    fn take_way(&mut self, caps: &Caps, number: u64, way: WayLine) -> Result<(), OplFault>
        requires { number ≡ self.old.lines + 1 }
        ensures ok { OnOk result (with_way caps.now (lists_of self.old) way ≡ Ok (lists_of self.new)) }
        ensures fault { IfErr result (IsFaultOf (with_way caps.now (lists_of self.old) way)) }
    {
        if !note_way(&mut self.seen_ways, way.id)? {
            return Err(OplFault::RepeatedObject { line: number });
        }
        let named = way.references.as_slice().len() as u64;
        push_way(&mut self.ways, way)?;
        if self.ways.len() as u64 > caps.ways {
            return Err(OplFault::TooMany { kind: Kind::Ways });
        }
        self.references = self.references.saturating_add(named);
        if self.references > caps.refs {
            return Err(OplFault::TooMany { kind: Kind::Refs });
        }
        self.lines = number;
        Ok(())
    }

    /// One line more, or its fault. Where there are more lines than a `u64` counts, memory has run out.
    pub(crate) fn take(&mut self, caps: &Caps, line: Line) -> Result<(), OplFault>
        ensures ok { OnOk result (with_line caps.now (lists_of self.old) line ≡ Ok (lists_of self.new)) }
        ensures fault { IfErr result (IsFaultOf (with_line caps.now (lists_of self.old) line)) }
    {
        let Some(number) = self.lines.checked_add(1) else {
            return Err(OplFault::OutOfMemory);
        };
        match line {
            Line::Passed => {
                self.lines = number;
                Ok(())
            }
            Line::Bad => Err(OplFault::BadLine { line: number }),
            Line::Node(node) => self.take_node(caps, number, node),
            Line::Way(way) => self.take_way(caps, number, way),
        }
    }

    /// The nodes and the ways, which are cut now.
    pub(crate) fn into_objects(self, alloc: Global) -> Result<Objects, AllocError>
        ensures { IfOk result (λ objects. objects ≡ objects_from (lists_of self)) }
    {
        let Gathered {
            lines: _,
            seen_nodes,
            nodes,
            seen_ways: _,
            ways,
            references: _,
        } = self;
        let ways = cut_ways(alloc, &seen_nodes, ways)?;
        Ok(Objects { nodes, ways })
    }
}
