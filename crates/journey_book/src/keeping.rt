//! The commands `keep` and `drop`, which change the book.

ghost use Rattle.std.specs.Prelude.{IfErr, IfOk, IfSome, option_map};
ghost use Rattle.plan_base.specs.Sinks.{SinkMeaning};
ghost use Rattle.plan_base.specs.Shelves.{ShelfMeaning};
ghost use Rattle.hierarchy.specs.Soundness.{IsSound};
ghost use Rattle.run_steps.specs.Scene.{scene_of};
ghost use Rattle.journey_book.specs.Books.{kept};
ghost use Rattle.journey_book.specs.Commands.{book_says};
ghost use Rattle.journey_book.specs.Requests.{asked_keeping, drop};
ghost use Rattle.journey_book.specs.Sayings.{Changes, HasValid, IsCertificateOutcome, OnValid, book_end_of};

use crate::keeper::Keeper;
use crate::outcome::BookOutcome;
use crate::steps::outcome_of_keeper;
use crate::words::Keeping;
use answer_commands::{BestCertificates, read_both, verified};
use hierarchy::Hierarchy;
use mode_network::Network;
use plan_base::{Caps, Shelf, Sink};
use run_steps::{FileRole, Outcome, Ports, read_file, tell_unverified};
use std::alloc::Global;

/// Reads a region, the hierarchy, if one is named, and a certificate, and keeps the certificate's bytes under the name,
/// if it is valid.
#[tactic(auto, using(answer_commands::proofs::LentLemmas::lent_sound))]
pub(crate) fn keep<F: Shelf, K: Keeper, O: Sink, E: Sink>(
    ports: &mut Ports<F, O, E>,
    what: Keeping<'_>,
    keeper: &mut K,
    caps: &Caps,
) -> Result<(), BookOutcome>
    ensures { book_says caps.now (asked_keeping what.entry)
        (scene_of (F.meaning ports.old.shelf) (O.meaning ports.old.out) (K.meaning keeper.old))
        (scene_of (F.meaning ports.new.shelf) (O.meaning ports.new.out) (K.meaning keeper.new))
        (book_end_of result) }
{
    let Keeping {
        name,
        region,
        certificate,
        hierarchy,
    } = what;
    let alloc = ports.alloc;
    let (shelf, notes) = (&mut ports.shelf, &mut ports.notes);
    let (network, hierarchy) = read_both(alloc, region, hierarchy, shelf, notes, caps)?;
    keep_over(
        ports,
        name,
        &network,
        hierarchy.as_ref(),
        certificate,
        keeper,
    )
}

/// Reads a certificate, whose labels are over the hierarchy, if there is one, and keeps its bytes under the name, if it
/// is valid.
fn keep_over<F: Shelf, K: Keeper, O: Sink, E: Sink>(
    ports: &mut Ports<F, O, E>,
    name: &str,
    network: &Network,
    hierarchy: Option<&Hierarchy>,
    certificate: &str,
    keeper: &mut K,
) -> Result<(), BookOutcome>
    requires { IfSome hierarchy (λ h. IsSound network.now h.now) }
    ensures { OnValid network.now (option_map (λ h. h.now) hierarchy.entry)
        certificate.now (λ bytes. Changes (λ book. Unit {0}) (kept name.now bytes))
        (scene_of (F.meaning ports.old.shelf) (O.meaning ports.old.out) (K.meaning keeper.old))
        (scene_of (F.meaning ports.new.shelf) (O.meaning ports.new.out) (K.meaning keeper.new))
        (book_end_of result) }
{
    let alloc = ports.alloc;
    let (shelf, notes) = (&mut ports.shelf, &mut ports.notes);
    let bytes = read_valid(alloc, network, hierarchy, certificate, shelf, notes)?;
    put(name, bytes.as_slice(), keeper)
}

/// Keeps bytes under a name.
fn put<K: Keeper>(name: &str, bytes: &[u8], keeper: &mut K) -> Result<(), BookOutcome>
    ensures { (shelf : ShelfMeaning) (out : SinkMeaning) → Changes (λ book. Unit {0})
        (kept name.now bytes.now) (scene_of shelf out (K.meaning keeper.old))
        (scene_of shelf out (K.meaning keeper.new)) (book_end_of result) }
{
    match keeper.put(name, bytes) {
        Ok(()) => Ok(()),
        Err(fault) => Err(outcome_of_keeper(fault)),
    }
}

/// The bytes of the certificate of the file of this path, which is valid. If there is none, `notes` is told why.
fn read_valid<F: Shelf, E: Sink>(
    alloc: Global,
    network: &Network,
    hierarchy: Option<&Hierarchy>,
    path: &str,
    shelf: &mut F,
    notes: &mut E,
) -> Result<Vec<u8>, Outcome>
    requires { IfSome hierarchy (λ h. IsSound network.now h.now) }
    ensures ok { IfOk result (λ bytes. HasValid network.now (option_map (λ h. h.now) hierarchy.entry)
        (F.meaning shelf.old) (F.meaning shelf.new) path.now bytes.items) }
    ensures err { IfErr result (IsCertificateOutcome network.now (option_map (λ h. h.now) hierarchy.entry)
        (F.meaning shelf.old) (F.meaning shelf.new) path.now) }
{
    let bytes = read_file(alloc, shelf, path, FileRole::Certificate, notes)?;
    let text = bytes.as_slice();
    match verified(alloc, network, hierarchy, text) {
        Ok(_) => Ok(bytes),
        Err(outcome) => {
            let best = BestCertificates { network, hierarchy };
            tell_unverified(alloc, &best, path, text, outcome, notes);
            Err(outcome)
        }
    }
}

/// Removes a name.
pub(crate) fn drop_name<K: Keeper>(
    name: &str,
    keeper: &mut K,
    caps: &Caps,
) -> Result<(), BookOutcome>
    ensures { (shelf : ShelfMeaning) (out : SinkMeaning) → book_says caps.now (drop name.now)
        (scene_of shelf out (K.meaning keeper.old)) (scene_of shelf out (K.meaning keeper.new))
        (book_end_of result) }
{
    match keeper.remove(name) {
        Ok(true) => Ok(()),
        Ok(false) => Err(BookOutcome::Absent),
        Err(fault) => Err(outcome_of_keeper(fault)),
    }
}
