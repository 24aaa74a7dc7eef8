//! What is asked of rounds, and how they answer it.

ghost use Rattle.std.specs.Prelude.{◌+◌, ◌<◌, ◌^◌, All, IfOk, IfSome, IsTrue};
ghost use Rattle.rounds.specs.inside.Rows.{never};
ghost use Rattle.std.proofs.Props.{props};

use crate::delays::NEVER;
use crate::riding::Pass;
use crate::rounds::Rounds;
use crate::turning::Turn;
use product_search::{Label, Machine};
use search_laws::{RoadLabels, Time};
use std::alloc::{AllocError, Global};

/// After how many rounds they are given up.
const MOST_ROUNDS: u32 = 100_000;

/// What is reached from these starts at `dep`, in ms.
#[derive(Drop)]
pub(crate) struct Asked<'a, L: RoadLabels> {
    pub rounds: &'a Rounds<'a>,
    pub machine: &'a Machine<L>,
    pub starts: &'a [u32],
    pub dep: Time,
}

/// How long after the departure product states are reached.
#[derive(Drop)]
pub(crate) struct Reached {
    /// By turn, and by place in the sheet of its layer.
    pub walks: Vec<Vec<u32>>,
    /// By state, and by place among the crossings.
    pub crossings: Vec<Vec<u32>>,
}

impl<L: RoadLabels> Asked<'_, L> {
    ghost use Rattle.std.specs.Prelude.{◌≡◌, ◌<◌, ◌^◌, IfOk, IfSome, OnOk, true};
    ghost use Rattle.phase_graph.specs.InUseGraph.{meaning_in_use};
    ghost use Rattle.rounds.specs.Rounds.{AreRounds, AreStarts};
    ghost use Rattle.rounds.specs.Reached.{AreReachedLabels};
    ghost use Rattle.rounds.specs.inside.{asked_of, AreFirsts, AreTurns, HaveRoom, AreSettled};

    /// All product states that are reached, each with a time at which it is; if all fit.
    pub fn labels(&self, alloc: Global) -> Result<Option<Vec<Label>>, AllocError>
        requires is { AreRounds self.now.rounds.now }
        requires starts { AreStarts self.now.rounds.now self.now.starts.now }
        requires early { self.now.dep < 2 ^ 64 }
        ensures { IfOk result (λ found. IfSome found (λ labels. AreReachedLabels
            (meaning_in_use self.now.rounds.now.graph) (L.automaton self.now.machine.now.labels)
            self.now.starts.now self.now.dep labels.items)) }
    {
        self.rounds.network.known();
        self.rounds.hierarchy.known();
        let turns = self.turns(alloc)?;
        let Some(firsts) = self.firsts(alloc, &turns)? else {
            return Ok(None);
        };
        let Some(reached) = self.reach(alloc, &firsts, &turns)? else {
            return Ok(None);
        };
        let labels = self.list(firsts, &turns, &reached)?;
        Ok(Some(labels))
    }

    /// What is reached from the first labels on, if it fits.
    fn reach(
        &self,
        alloc: Global,
        firsts: &[Label],
        turns: &[Turn],
    ) -> Result<Option<Reached>, AllocError>
        requires is { AreRounds self.now.rounds.now }
        requires early { self.now.dep < 2 ^ 64 }
        requires firsts { AreFirsts (asked_of self.now) firsts.now }
        requires turns { AreTurns (L.automaton self.now.machine.now.labels) turns.now }
        ensures { IfOk result (λ found. IfSome found (λ r. AreSettled (asked_of self.now) firsts.now turns.now
            r.walks.items r.crossings.items)) }
    {
        let Some(mut reached) = self.begin(alloc, firsts, turns)? else {
            return Ok(None);
        };
        let mut visits = self.no_crossings(alloc)?;
        let mut ways = Vec::new(alloc);
        let mut rides = self.no_crossings(alloc)?;
        let mut pass = Pass::new(alloc);
        for _ in 0..MOST_ROUNDS {
            let walked = self.walk_all(turns, &mut reached);
            let Some(crossed) = self.visit_all(
                alloc,
                &mut reached.crossings,
                &mut visits,
                &mut ways,
            )?
            else {
                return Ok(None);
            };
            let Some(ridden) = self.ride_all(alloc, &mut reached.crossings, &mut rides, &mut pass)?
            else {
                return Ok(None);
            };
            if !walked && !crossed && !ridden {
                return Ok(self.with_room(reached));
            }
        }
        Ok(None)
    }

    /// What is reached, if all is so early that one more entry along the core fits.
    fn with_room(&self, reached: Reached) -> Option<Reached>
        ensures { IfSome result (λ r. (r ≡ reached) × HaveRoom self.now.rounds.now.longest reached.walks.items) }
    {
        for k in 0..reached.walks.len() {
            if !has_room(&reached.walks[k], self.rounds.longest) {
                return None;
            }
        }
        Some(reached)
    }
}

/// Whether each of these delays but never is so short that one more that is no longer than this is less than never.
fn has_room(delays: &[u32], longest: u32) -> bool
    ensures { IsTrue result → All (λ t. t < never → t + longest < never) delays.now }
{
    for delay in delays {
        if *delay != NEVER && *delay >= NEVER - longest {
            return false;
        }
    }
    true
}
