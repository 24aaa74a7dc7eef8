//! The marks of nodes: of those from which a chain of entries, each to a lower node, leads to a target.

ghost use Rattle.std.specs.Prelude.{◌≡◌, ◌<◌, [], All, Contains, IfOk, OnOk};
ghost use Rattle.hierarchy.specs.Indexes.{AreBelow};
ghost use Rattle.phase_graph.specs.Marks.{AreMarksFor, marks_in};
ghost use Rattle.phase_graph.specs.Moves.{IsMarked};
ghost use Rattle.phase_graph.specs.inside.Marking.{AreClear, AreMarked, AreMarks, HasNoFalls, IsMarking, IsFollowed, Extends, AreOldOr};

use hierarchy::Hierarchy;
use std::alloc::{AllocError, Global};

/// For each node a number, which is 0 where it has no mark; and the nodes that have one, ascending.
#[derive(Drop)]
pub(crate) struct Marks {
    pub numbers: Vec<u32>,
    pub nodes: Vec<u32>,
}

/// The marks for these targets, in numbers of so many nodes that are 0. All nodes of the hierarchy are below `nodes`.
pub(crate) fn mark_nodes(
    alloc: Global,
    nodes: u32,
    mut numbers: Vec<u32>,
    h: &Hierarchy,
    targets: &[u32],
) -> Result<Marks, AllocError>
    requires below { AreBelow h.now nodes }
    requires clear { AreClear nodes numbers.items }
    ensures marks { IfOk result (λ marks. AreMarksFor h.now targets.now (marks_in marks.numbers.items)) }
    ensures small { IfOk result (λ marks. HasNoFalls marks.numbers.items) }
    ensures nodes { IfOk result (λ marks. AreMarked h.now (marks_in marks.numbers.items) marks.nodes.items) }
{
    let mut queue = Vec::new(alloc);
    mark_targets(nodes, targets, &mut numbers, &mut queue)?;
    let mut next = 0;
    while next < queue.len() {
        let x = queue[next];
        follow(h, nodes, targets, x, &mut numbers, &mut queue)?;
        next += 1;
    }
    queue.sort_unstable();
    queue.dedup();
    Ok(Marks {
        numbers,
        nodes: queue,
    })
}

/// Marks the targets.
fn mark_targets(
    nodes: u32,
    targets: &[u32],
    numbers: &mut Vec<u32>,
    queue: &mut Vec<u32>,
) -> Result<(), AllocError>
    requires marks { AreMarks nodes numbers.old.items queue.old.items }
    requires none { queue.old.items ≡ [] }
    ensures marks { OnOk result (AreMarks nodes numbers.new.items queue.new.items) }
    ensures only { OnOk result (All (Contains targets.now) queue.new.items) }
    ensures all { OnOk result (All (λ v. v < nodes → Contains queue.new.items v) targets.now) }
{
    for v in targets {
        mark(nodes, *v, numbers, queue)?;
    }
    Ok(())
}

/// Marks a node, if it has no mark yet; it then waits to be followed.
#[inline(always)]
fn mark(nodes: u32, v: u32, numbers: &mut Vec<u32>, queue: &mut Vec<u32>) -> Result<(), AllocError>
    requires marks { AreMarks nodes numbers.old.items queue.old.items }
    ensures marks { OnOk result (AreMarks nodes numbers.new.items queue.new.items) }
    ensures here { OnOk result (v < nodes → Contains queue.new.items v) }
    ensures kept { OnOk result (Extends queue.old.items queue.new.items) }
    ensures only { OnOk result (AreOldOr v queue.old.items queue.new.items) }
{
    if v < nodes && numbers[v as usize] == 0 {
        numbers[v as usize] = 1;
        queue.push(v)?;
    }
    Ok(())
}

/// Marks the nodes from which entries lead down to a marked node.
fn follow(
    h: &Hierarchy,
    nodes: u32,
    targets: &[u32],
    x: u32,
    numbers: &mut Vec<u32>,
    queue: &mut Vec<u32>,
) -> Result<(), AllocError>
    requires below { AreBelow h.now nodes }
    requires marked { IsMarked h.now targets.now x }
    requires marking { IsMarking h.now targets.now nodes numbers.old.items queue.old.items }
    ensures marking { OnOk result (IsMarking h.now targets.now nodes numbers.new.items queue.new.items) }
    ensures followed { OnOk result (IsFollowed h.now queue.new.items x) }
    ensures kept { OnOk result (Extends queue.old.items queue.new.items) }
{
    for fall in h.falls_into(x) {
        mark(nodes, fall.from, numbers, queue)?;
    }
    Ok(())
}
