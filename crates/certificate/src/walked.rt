//! A journey walked step by step, and the states of an automaton that its letters are read to.

ghost use Rattle.std.specs.Prelude.{◌≡◌, ◌<◌, ◌++◌, [], List, ℕ, All, option_to_list};
ghost use Rattle.search_laws.specs.Times.{time_bound};
ghost use Rattle.journey.specs.Ends.{HasTime, HasTimes};
ghost use Rattle.certificate.specs.StateSets.{AreAfter};
ghost use Rattle.certificate.specs.Walked.{IsWalkedThrough};

use crate::state_sets::StateSets;
use journey::{StepEnd, keeps_rules, step_end};
use mode_network::{Journey, Network, Step};
use plan_base::Time;
use search_laws::Labels;

/// A journey as far as it was walked: where and when it is, and the states that its letters are read to.
#[derive(Drop)]
pub struct Walked {
    pub node: u32,
    pub at: Time,
    pub states: StateSets,
}

impl Walked {
    /// Walks one step more, which ends so.
    fn go_on<L: Labels>(&mut self, labels: &L, end: StepEnd)
        requires { (letters : List ℕ) × AreAfter (L.automaton labels.now) letters self.old.states }
        ensures node { self.new.node ≡ end.node }
        ensures at { self.new.at ≡ end.at }
        ensures states { (letters : List ℕ) → AreAfter (L.automaton labels.now) letters self.old.states
            → AreAfter (L.automaton labels.now) (letters ++ option_to_list end.letter) self.new.states }
    {
        if let Some(letter) = end.letter {
            self.states.read(labels, letter);
        }
        self.node = end.node;
        self.at = end.at;
    }
}

/// Walks a journey; or answers the place of its first step that is none.
///
/// Takes no memory.
pub fn walk<L: Labels>(
    network: &Network,
    labels: &L,
    journey: &Journey,
    states: StateSets,
) -> Result<Walked, u64>
    requires times { HasTimes journey.now }
    requires states { AreAfter (L.automaton labels.now) [] states }
    ensures { IsWalkedThrough network.now (L.automaton labels.now) journey.now.start journey.now.at
        journey.now.steps result }
{
    walk_steps(
        network,
        labels,
        journey.start,
        journey.at,
        &journey.steps,
        states,
    )
}

/// Walks the steps that begin at `start` at the time `at`; or answers the place of the first that is none.
fn walk_steps<L: Labels>(
    network: &Network,
    labels: &L,
    start: u32,
    at: Time,
    steps: &[Step],
    states: StateSets,
) -> Result<Walked, u64>
    requires at { at < time_bound }
    requires waits { All HasTime steps.now }
    requires states { AreAfter (L.automaton labels.now) [] states }
    ensures { IsWalkedThrough network.now (L.automaton labels.now) start at steps.now result }
{
    keeps_rules(network);
    let mut walked = Walked {
        node: start,
        at,
        states,
    };
    let mut place = 0;
    for step in steps {
        let Some(end) = step_end(network, walked.node, walked.at, *step) else {
            return Err(place);
        };
        walked.go_on(labels, end);
        place += 1;
    }
    Ok(walked)
}
