//! The command `requests`: the reply to each line of a file.

ghost use Rattle.std.specs.Prelude.{IfSome, option_map};
ghost use Rattle.hierarchy.specs.Soundness.{IsSound};
ghost use Rattle.run_steps.specs.declared.outcome.FileRole.TheVariants.{Requests};
ghost use Rattle.run_steps.specs.InTurn.{AnswersFile};
ghost use Rattle.run_steps.specs.Scene.{scene};
ghost use Rattle.run_steps.specs.Sayings.{end_of};
ghost use Rattle.request_commands.specs.Requests.{IsReply};
ghost use Rattle.request_commands.specs.Commands.{SaysRequests};

use crate::replies::Replies;
use answer_commands::read_both;
use departures::LeastTimes;
use hierarchy::Hierarchy;
use latest_departure::Backwards;
use mode_network::Network;
use plan_base::{Caps, Shelf, Sink};
use run_steps::{FileRole, Limits, Outcome, Ports, answer_file};

/// Reads the region of this name and the hierarchy, if one is named, and writes the reply within the limits to each line of
/// the requests file as soon as that has been read whole.
#[tactic(auto, using(answer_commands::proofs::LentLemmas::lent_sound))]
pub fn requests<F: Shelf, O: Sink, E: Sink>(
    ports: &mut Ports<F, O, E>,
    region: &str,
    file: &str,
    hierarchy: Option<&str>,
    limits: Limits,
    caps: &Caps,
) -> Result<(), Outcome>
    ensures { SaysRequests caps.now limits region.now file.now (option_map (λ it. it.now) hierarchy.entry)
        (scene (F.meaning ports.old.shelf) (O.meaning ports.old.out))
        (scene (F.meaning ports.new.shelf) (O.meaning ports.new.out)) (end_of result) }
{
    let alloc = ports.alloc;
    let (shelf, notes) = (&mut ports.shelf, &mut ports.notes);
    let (network, hierarchy) = read_both(alloc, region, hierarchy, shelf, notes, caps)?;
    reply_over(ports, &network, hierarchy.as_ref(), limits, file)
}

/// Replies to the lines of the requests file of this path, by the hierarchy, if there is one.
fn reply_over<F: Shelf, O: Sink, E: Sink>(
    ports: &mut Ports<F, O, E>,
    network: &Network,
    hierarchy: Option<&Hierarchy>,
    limits: Limits,
    path: &str,
) -> Result<(), Outcome>
    requires { IfSome hierarchy (λ h. IsSound network.now h.now) }
    ensures { AnswersFile Requests path.now (IsReply network.now (option_map (λ h. h.now) hierarchy.entry)
        limits) (scene (F.meaning ports.old.shelf) (O.meaning ports.old.out))
        (scene (F.meaning ports.new.shelf) (O.meaning ports.new.out)) (end_of result) }
{
    let backwards = Backwards::new(ports.alloc, network)?;
    let least = LeastTimes::new(ports.alloc, network)?;
    let replies = Replies {
        network,
        hierarchy,
        limits,
        backwards: &backwards,
        least: &least,
    };
    answer_file(ports, &replies, FileRole::Requests, path)
}
