//! The main loop: product states are explored by buckets of their times, and again where a better way to one was found, until
//! nothing before the best end waits.

ghost use Rattle.std.specs.Prelude.{◌≡◌, ◌<◌, ◌^◌, ◌&&◌, IfOk};
ghost use Rattle.std.specs.BTreeSet as sorted;
ghost use Rattle.std.specs.Ordering.{nat_cmp};
ghost use Rattle.product_search.specs.Questions.{question_of};
ghost use Rattle.product_search.specs.inside.Searching.{IsExploredWithin, end_arrival, until_of};

use crate::ahead::read_ahead;
use crate::chains::Chains;
use crate::ends::Ends;
use crate::explore::explore;
use crate::frontier::{Frontier, Scan};
use crate::limit::{Limited, Pace, passed_before};
use crate::question::Question;
use crate::start::offer_starts;
use crate::workspace::Workspace;
use search_laws::{GivenRuns, Graph, Labels, Time};
use std::alloc::{AllocError, Global};

/// What a search has reached, and the best end that it has come to, if any, unless it was given up.
#[derive(Drop)]
pub(crate) struct Explored {
    pub frontier: Frontier,
    pub end: Limited<Option<Scan>>,
    /// What was read ahead.
    pub read: u32,
}

/// Explores product states from the starts on, until none waits that is reached before the best end. That is given up where
/// more than the limit are known to have labels.
pub(crate) fn explore_all<G: Graph, L: Labels>(
    alloc: Global,
    workspace: Workspace,
    question: &Question<'_, G, L>,
    limit: Option<u64>,
) -> Result<Explored, AllocError>
    ensures { IfOk result (λ e. IsExploredWithin (question_of question.now) limit e.frontier e.end) }
{
    let (graph, machine) = (question.graph, question.machine);
    let labels = &machine.labels;
    let ends = Ends::of(alloc, question.targets)?;
    let chains = Chains::of(graph.nodes(), labels.states(), question.meets_few);
    let base = question.dep as u64;
    let until = until_of(question.dep, question.bound);
    let workspace = workspace.with_room(graph.nodes())?;
    let mut frontier = Frontier::new(workspace, chains, base, until);
    offer_starts(&mut frontier, labels, question.starts)?;
    let mut given = GivenRuns::new(alloc);
    let mut ways = Vec::new(alloc);
    let mut pace = Pace::new();
    let mut read = 0;
    let mut end = None;
    'search: while let Some(scan) = frontier.take()? {
        if is_end(labels, &ends, scan) {
            frontier.until = scan.delay;
            end = Some(scan);
            continue;
        }
        read = read_ahead(graph, &frontier, read);
        explore(&mut frontier, &mut given, &mut ways, graph, machine, scan)?;
        if let Some(most) = passed_before(limit, &mut pace, &frontier) {
            return Ok(Explored {
                frontier,
                end: Limited::Stopped(most),
                read,
            });
        }
    }
    Ok(Explored {
        frontier,
        end: Limited::Ended(end),
        read,
    })
}

/// From which delay on nothing is within the bound: 1 ms past it; or the greatest delay where there is none.
fn until_of(dep: Time, bound: Option<Time>) -> u64
    requires { dep < 2 ^ 64 }
    ensures { result ≡ until_of dep bound }
{
    match bound {
        None => u64::MAX,
        Some(last) => last.saturating_sub(dep).min(0xffff_ffff_ffff_fffe) as u64 + 1,
    }
}

/// When a search arrives that has come to an end.
pub(crate) fn arrival_of(frontier: &Frontier, end: Option<Scan>) -> Option<Time>
    ensures { result ≡ end_arrival frontier.now end }
{
    Some(frontier.time(end?.delay))
}

/// Whether a product state is a target in an accepting state.
fn is_end<L: Labels>(labels: &L, ends: &Ends, scan: Scan) -> bool
    requires { scan.state < (L.automaton labels.now).states }
    ensures { result ≡ ((L.automaton labels.now).accepts scan.state && sorted.contains nat_cmp ends.now
        scan.node) }
{
    labels.accepts(scan.state) && ends.contains(scan.node)
}
