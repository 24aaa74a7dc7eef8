//! The product states that are reached as a list of labels.

ghost use Rattle.std.specs.Prelude.{◌≡◌, ◌↔◌, IfOk, filter_map, IsSorted, IsPermutation, IsTrue, OnOk, ◌++◌, length, option_to_list};
ghost use Rattle.product_search.specs.Listed.{label_order};
ghost use Rattle.product_search.specs.Reach.{IsBefore, is_before};
ghost use Rattle.product_search.specs.inside.Searching.{label_of_row};
ghost use Rattle.product_search.specs.inside.Waiting.{rows};

use crate::frontier::Frontier;
use crate::label::Label;
use crate::row::Row;
use search_laws::Time;
use std::alloc::{AllocError, Global};

/// Lists what is reached before a delay, by node and then by state.
pub(crate) fn list_labels(
    alloc: Global,
    frontier: &Frontier,
    until: u64,
) -> Result<Vec<Label>, AllocError>
    ensures sorted { IfOk result (λ v. IsSorted label_order v.items) }
    ensures labels { IfOk result (λ v. IsPermutation (filter_map (label_of_row frontier.now.base until)
        (rows frontier.now)) v.items) }
{
    let mut list = labels_before(alloc, frontier, until)?;
    list.sort_unstable();
    Ok(list)
}

/// How many labels there are of what is reached before a delay.
pub(crate) fn count_labels(frontier: &Frontier, until: u64) -> u64
    ensures { result ≡ length (filter_map (label_of_row frontier.now.base until) (rows frontier.now)) }
{
    let mut count = 0;
    for row in &frontier.rows {
        count += u64::from(row.delay < until);
    }
    count
}

/// The labels in the order of the rows.
fn labels_before(alloc: Global, frontier: &Frontier, until: u64) -> Result<Vec<Label>, AllocError>
    ensures labels { IfOk result (λ v. v.items ≡ filter_map (label_of_row frontier.now.base until)
        (rows frontier.now)) }
{
    let mut list = Vec::new(alloc);
    for row in &frontier.rows {
        push_some(&mut list, label_before(frontier, *row, until))?;
    }
    Ok(list)
}

/// Puts a label behind the others, if there is one.
fn push_some(list: &mut Vec<Label>, label: Option<Label>) -> Result<(), AllocError>
    ensures { OnOk result (list.new.items ≡ list.old.items ++ option_to_list label) }
{
    if let Some(label) = label {
        list.push(label)?;
    }
    Ok(())
}

/// The label of a product state, if that is reached before a delay.
fn label_before(frontier: &Frontier, row: Row, until: u64) -> Option<Label>
    ensures { result ≡ label_of_row frontier.now.base until row }
{
    if row.delay < until {
        Some(Label {
            node: row.node,
            state: row.state,
            at: frontier.time(row.delay),
        })
    } else {
        None
    }
}

/// Whether a time is before the arrival, if there is one.
pub(crate) fn is_before(arrival: Option<Time>, at: Time) -> bool
    ensures before { IsTrue result ↔ IsBefore arrival at }
    ensures value { result ≡ is_before arrival at }
{
    match arrival {
        None => true,
        Some(first) => at < first,
    }
}
