//! The verdict on a list of labels, beside its clauses tried one by one.

ghost use Rattle.std.specs.Prelude.{◌↔◌, ◌<◌, All, IsTrue, IfSome};
ghost use Rattle.search_laws.specs.Times.{time_bound};

use super::clauses::plain_verdict;
use super::searches::found_by;
use super::town::Asked;
use case_script::{Answer, words};
use product_search::{Found, Label, LabelClaim, LabelVerdict, check_labels};
use search_laws::Time;
use std::alloc::{AllocError, Global};

/// How many lists were tried, on how many the verdicts agree, and how many have each clause as the first that fails, or none
/// at 0. A list that there is no memory for is not tried, and then the counts are others.
#[derive(Clone, Copy)]
struct Verdicts {
    lists: u32,
    same: u32,
    of_clause: [u32; 10],
}

impl Verdicts {
    fn new() -> Verdicts {
        Verdicts {
            lists: 0,
            same: 0,
            of_clause: [0; 10],
        }
    }

    /// Notes the verdicts on a list.
    fn note(&mut self, verdict: LabelVerdict, plain: LabelVerdict) {
        self.lists = self.lists.saturating_add(1);
        self.same = self.same.saturating_add(u32::from(verdict == plain));
        let clause = match verdict {
            LabelVerdict::Closed => 0,
            LabelVerdict::Open { clause, at: _ } => clause as usize,
        };
        if let Some(count) = self.of_clause.get_mut(clause) {
            *count = count.saturating_add(1);
        }
    }
}

/// `lists COUNT`: on how many of the lists that searches over so many drawn graphs give, and of lists that differ from them in one
/// place, the verdict is that of the clauses tried one by one; and how many have each clause as the first that fails.
pub fn lists(out: &mut Answer, count: &[u8]) {
    let mut verdicts = Verdicts::new();
    for seed in 0..words::node(count).min(1000) {
        let asked = Asked::new(seed);
        if let Some(found) = found_by(out.alloc(), &asked, None) {
            try_found(out.alloc(), &asked, &found, &mut verdicts);
        }
    }
    print_verdicts(out, &verdicts);
}

fn print_verdicts(out: &mut Answer, verdicts: &Verdicts) {
    out.shown("", verdicts.same);
    out.shown(" of ", verdicts.lists);
    out.text(" lists have the verdict of the clauses tried one by one");
    for clause in 0..10 {
        let count = verdicts.of_clause[clause];
        if count > 0 {
            out.shown("\nclause ", clause);
            out.shown(": ", count);
        }
    }
}

/// Tries what a search lists, and lists that differ from it in one place.
fn try_found(alloc: Global, asked: &Asked, found: &Found, verdicts: &mut Verdicts) {
    let (arrival, list) = (found.arrival, found.labels.as_slice());
    try_list(asked, arrival, list, verdicts);
    try_changed(alloc, asked, arrival, list, verdicts);
    try_longer(alloc, asked, arrival, list, verdicts);
}

fn in_time(list: &[Label]) -> bool
    ensures { IsTrue result ↔ All (λ x. x.at < time_bound) list.now }
{
    list.iter()
        .all(|x| x.at < 1_000_000_000_000_000_000_000_000_000_000)
}

/// Tries a list.
fn try_list(asked: &Asked, arrival: Option<Time>, list: &[Label], verdicts: &mut Verdicts) {
    if in_time(list) && arrival.unwrap_or(0) < 1000 {
        let verdict = verdict(asked, arrival, list);
        verdicts.note(verdict, plain_verdict(asked, arrival, list));
    }
}

/// The verdict on a list.
fn verdict(asked: &Asked, arrival: Option<Time>, list: &[Label]) -> LabelVerdict
    requires times { All (λ x. x.at < time_bound) list.now }
    requires arrival { IfSome arrival (λ a. a < time_bound) }
{
    let claim = LabelClaim {
        starts: &asked.starts,
        targets: &asked.targets,
        departure: Time::from(asked.dep),
        arrival,
        list,
    };
    check_labels(&asked.town, &asked.rules, &claim)
}

/// Tries a list that was made, if there was memory for it.
fn try_made(
    asked: &Asked,
    arrival: Option<Time>,
    made: Result<Vec<Label>, AllocError>,
    verdicts: &mut Verdicts,
) {
    if let Ok(list) = made {
        try_list(asked, arrival, &list, verdicts);
    }
}

/// Tries the list without each of its labels, and with each a moment later.
fn try_changed(
    alloc: Global,
    asked: &Asked,
    arrival: Option<Time>,
    list: &[Label],
    verdicts: &mut Verdicts,
) {
    for k in 0..list.len() {
        try_made(asked, arrival, without(alloc, list, k), verdicts);
        try_made(asked, arrival, with_later(alloc, list, k), verdicts);
    }
}

/// The list without the label at a place.
fn without(alloc: Global, list: &[Label], k: usize) -> Result<Vec<Label>, AllocError> {
    let mut fewer = Vec::from_slice(alloc, list)?;
    if k < fewer.len() {
        fewer.remove(k);
    }
    Ok(fewer)
}

/// The list with the label at a place a moment later.
fn with_later(alloc: Global, list: &[Label], k: usize) -> Result<Vec<Label>, AllocError> {
    let mut later = Vec::from_slice(alloc, list)?;
    if let Some(label) = later.get_mut(k) {
        label.at = label.at.saturating_add(1);
    }
    Ok(later)
}

/// The list with one more label.
fn with(alloc: Global, list: &[Label], label: Label) -> Result<Vec<Label>, AllocError> {
    let mut more = Vec::from_slice(alloc, list)?;
    more.push(label)?;
    Ok(more)
}

/// Tries the list with a label of no node, without an arrival, and with a later one; and a list of the target's labels alone.
fn try_longer(
    alloc: Global,
    asked: &Asked,
    arrival: Option<Time>,
    list: &[Label],
    verdicts: &mut Verdicts,
) {
    let beyond = label_at(asked.town.nodes, 0, asked.dep);
    try_made(asked, arrival, with(alloc, list, beyond), verdicts);
    try_list(asked, None, list, verdicts);
    if let Some(first) = arrival {
        try_list(asked, Some(first.saturating_add(1)), list, verdicts);
        try_made(asked, arrival, ends(alloc, asked), verdicts);
    }
}

fn label_at(node: u32, state: u32, moment: u32) -> Label {
    Label {
        node,
        state,
        at: Time::from(moment),
    }
}

/// The labels of the last node, which is the target, in each state at the start of all time.
fn ends(alloc: Global, asked: &Asked) -> Result<Vec<Label>, AllocError> {
    let mut ends = Vec::new(alloc);
    for state in 0..asked.rules.states {
        ends.push(label_at(asked.town.nodes.saturating_sub(1), state, 0))?;
    }
    Ok(ends)
}
