//! A journey told step by step.

ghost use Rattle.std.specs.Prelude.{◌≡◌, OnOk, IfOk, ◌<◌, ◌++◌, length, All};
ghost use Rattle.plain_texts.specs.Lines.{with_feed};
ghost use Rattle.mode_network.specs.NetworkLists.{nodes_of};
ghost use Rattle.search_laws.specs.Times.{time_bound};
ghost use Rattle.journey.specs.inside.Words.{repeats_road, appended, with_letter};
ghost use Rattle.journey.specs.Texts.{IsThere, step_text};
ghost use Rattle.journey.specs.Ends.{HasTime, AreTaken};
ghost use Rattle.journey.specs.inside.Telling.{IsTold};

use crate::rides::keeps_rules;
use crate::step_ends::{StepEnd, step_end};
use crate::texts::push_step;
use mode_network::{Network, Step};
use plan_base::Time;
use std::alloc::{AllocError, Global};

/// Whether a letter goes on with the one before it: both are one road mode.
fn goes_on(last: Option<u8>, letter: u8) -> bool
    ensures { result ≡ repeats_road last letter }
{
    match last {
        None => false,
        Some(last) => last == letter && last < 3,
    }
}

/// Writes a letter after a word that is collapsed.
fn append_letter(word: &mut Vec<u8>, letter: u8) -> Result<(), AllocError>
    ensures { OnOk result (word.new.items ≡ appended word.old.items letter) }
{
    if !goes_on(word.last().copied(), letter) {
        word.push(letter)?;
    }
    Ok(())
}

/// Writes a letter, if there is one, after a word that is collapsed.
pub(crate) fn append(word: &mut Vec<u8>, letter: Option<u8>) -> Result<(), AllocError>
    ensures { OnOk result (word.new.items ≡ with_letter word.old.items letter) }
{
    match letter {
        Some(letter) => append_letter(word, letter),
        None => Ok(()),
    }
}

/// A journey as far as it is told: where and when it is, its word, and the lines of its steps.
#[derive(Drop)]
pub(crate) struct Told {
    pub node: u32,
    pub at: Time,
    pub word: Vec<u8>,
    pub lines: Vec<u8>,
}

/// Tells one more step, which ends so.
fn tell_step(told: &mut Told, network: &Network, step: Step, end: StepEnd) -> Result<(), AllocError>
    requires node { end.node < length (nodes_of network.now) }
    requires there { IsThere network.now step }
    ensures node { OnOk result (told.new.node ≡ end.node) }
    ensures at { OnOk result (told.new.at ≡ end.at) }
    ensures word { OnOk result (told.new.word.items ≡ with_letter told.old.word.items end.letter) }
    ensures lines { OnOk result (told.new.lines.items ≡ told.old.lines.items ++ with_feed
        (step_text network.now step end.node end.at)) }
{
    append(&mut told.word, end.letter)?;
    push_step(&mut told.lines, network, step, end.node, end.at)?;
    told.node = end.node;
    told.at = end.at;
    Ok(())
}

/// Tells the steps of a journey that can be taken from `start` at the time `at`.
pub(crate) fn tell(
    alloc: Global,
    network: &Network,
    start: u32,
    at: Time,
    steps: &[Step],
) -> Result<Told, AllocError>
    requires node { start < length (nodes_of network.now) }
    requires at { at < time_bound }
    requires waits { All HasTime steps.now }
    requires taken { AreTaken network.now start at steps.now }
    ensures { IfOk result (IsTold network.now start at steps.now) }
{
    keeps_rules(network);
    let mut told = Told {
        node: start,
        at,
        word: Vec::new(alloc),
        lines: Vec::new(alloc),
    };
    for step in steps {
        let Some(end) = step_end(network, told.node, told.at, *step) else {
            unreachable!();
        };
        tell_step(&mut told, network, *step, end)?;
    }
    Ok(told)
}
