//! Reports: what is said of each certificate that is kept.

ghost use Rattle.std.specs.Prelude.{◌≡◌, ◌≤◌, ◌++◌, ◌&&◌, codes, map, option_map, string_bytes, IfErr, IfOk, OnOk};
ghost use Rattle.plain_texts.specs.Lines.{with_feed};
ghost use Rattle.journey.specs.Blocks.{AddsText};
ghost use Rattle.certificate.specs.Valid.{HaveTimes};
ghost use Rattle.journey_book.specs.Keepers.{BookStays, IsKeepFault};
ghost use Rattle.journey_book.specs.Reports.{HasReported, IsReport, IsSaid, IsSaidOn};
ghost use Rattle.journey_book.specs.Rules.{MayReport, rule_of};

use crate::keeper::{KeepFault, Keeper};
use crate::rechecking::{push_judged, says_valid};
use crate::reviewing::{is_no_later, push_reviewed};
use crate::words::ReportKind;
use certificate::{CertFault, Certificate, read};
use hierarchy::Hierarchy;
use mode_network::Network;
use plain_texts::{push_decimal, push_line_feed};
use planning::Room;
use std::alloc::{AllocError, Global};

/// A report of a kind, by a network, and over a hierarchy, if there is one.
#[derive(Drop)]
pub(crate) struct Report<'a> {
    pub(crate) kind: ReportKind,
    pub(crate) network: &'a Network,
    pub(crate) hierarchy: Option<&'a Hierarchy>,
}

impl Report<'_> {
    /// Appends words that are right for a certificate. Searches use the room.
    fn push_words(
        &self,
        alloc: Global,
        room: &mut Room,
        certificate: &Certificate,
        text: &mut Vec<u8>,
    ) -> Result<(), AllocError>
        requires may { MayReport self.now }
        requires times { HaveTimes certificate.now }
        ensures { OnOk result (AddsText ((rule_of self.now).AreRight certificate.now)
            text.old.items text.new.items) }
    {
        match self.kind {
            ReportKind::Recheck => push_judged(alloc, self, certificate, text),
            ReportKind::Review => push_reviewed(alloc, room, self, certificate, text),
        }
    }

    /// Whether the words of a line are well.
    fn is_well(&self, words: &[u8]) -> bool
        ensures { result ≡ (rule_of self.now).is_well words.now }
    {
        match self.kind {
            ReportKind::Recheck => says_valid(words),
            ReportKind::Review => is_no_later(words),
        }
    }
}

/// The lines of a report, and whether all of them are well.
#[derive(Drop)]
pub(crate) struct Reported {
    pub(crate) text: Vec<u8>,
    pub(crate) well: bool,
}

/// What is said of all that a keeper keeps: a line for each name, ascending by bytes, with what is said of the certificate
/// that is kept under it, or `bad LINE` where that is none; and whether all lines are well.
///
/// # Errors
///
/// Where the keeper fails, or memory is refused.
pub(crate) fn report_of<K: Keeper>(
    alloc: Global,
    report: &Report<'_>,
    keeper: &mut K,
) -> Result<Reported, KeepFault>
    requires { MayReport report.now }
    ensures later { (K.meaning keeper.old).faults ≤ (K.meaning keeper.new).faults }
    ensures ok { IfOk result (λ it. IsReport (rule_of report.now) (K.meaning keeper.old)
        it.text.items it.well) }
    ensures same { BookStays (K.meaning keeper.old) (K.meaning keeper.new) }
    ensures cause { IfErr result (IsKeepFault (K.meaning keeper.old) (K.meaning keeper.new)) }
{
    let names = keeper.names()?;
    report_all(alloc, report, keeper, &names)
}

/// A line for each of these names, in order.
fn report_all<K: Keeper>(
    alloc: Global,
    report: &Report<'_>,
    keeper: &mut K,
    names: &[String],
) -> Result<Reported, KeepFault>
    requires { MayReport report.now }
    ensures later { (K.meaning keeper.old).faults ≤ (K.meaning keeper.new).faults }
    ensures ok { IfOk result (λ it. HasReported (rule_of report.now) (K.meaning keeper.old)
        (map string_bytes names.now) it.text.items it.well) }
    ensures same { BookStays (K.meaning keeper.old) (K.meaning keeper.new) }
    ensures cause { IfErr result (IsKeepFault (K.meaning keeper.old) (K.meaning keeper.new)) }
{
    let mut room = Room::new(alloc);
    let mut text = Vec::new(alloc);
    let mut well = true;
    for name in names {
        let key = name.as_str();
        let held = keeper.get(key)?;
        let words = said_on(alloc, report, &mut room, &held)?;
        let said = words.as_slice();
        push_line(key, said, &mut text)?;
        well = both(well, report.is_well(said));
    }
    Ok(Reported { text, well })
}

fn both(one: bool, other: bool) -> bool
    ensures { result ≡ (one && other) }
{
    one && other
}

/// A line on what is kept under a name.
fn push_line(name: &str, words: &[u8], text: &mut Vec<u8>) -> Result<(), AllocError>
    ensures { OnOk result (text.new.items
        ≡ text.old.items ++ with_feed (name.now ++ codes " " ++ words.now)) }
{
    text.extend_from_slice(name.as_bytes())?;
    text.push(b' ')?;
    text.extend_from_slice(words)?;
    push_line_feed(text)
}

/// What is said of what is kept under a name.
fn said_on(
    alloc: Global,
    report: &Report<'_>,
    room: &mut Room,
    held: &Option<Vec<u8>>,
) -> Result<Vec<u8>, AllocError>
    requires { MayReport report.now }
    ensures { IfOk result (λ words. IsSaidOn (rule_of report.now).AreRight
        (option_map (λ body. body.items) held.now) words.items) }
{
    let mut words = Vec::new(alloc);
    push_held(alloc, report, room, held, &mut words)?;
    Ok(words)
}

/// What is said of what is kept under a name.
fn push_held(
    alloc: Global,
    report: &Report<'_>,
    room: &mut Room,
    held: &Option<Vec<u8>>,
    text: &mut Vec<u8>,
) -> Result<(), AllocError>
    requires { MayReport report.now }
    ensures { OnOk result (AddsText
        (IsSaidOn (rule_of report.now).AreRight (option_map (λ body. body.items) held.now))
        text.old.items text.new.items) }
{
    match held {
        Some(bytes) => push_said(alloc, report, room, bytes, text),
        None => text.extend_from_slice(b"absent"),
    }
}

/// What is said of bytes.
fn push_said(
    alloc: Global,
    report: &Report<'_>,
    room: &mut Room,
    bytes: &[u8],
    text: &mut Vec<u8>,
) -> Result<(), AllocError>
    requires { MayReport report.now }
    ensures { OnOk result (AddsText (IsSaid (rule_of report.now).AreRight bytes.now)
        text.old.items text.new.items) }
{
    match read(alloc, bytes) {
        Ok(certificate) => report.push_words(alloc, room, &certificate, text),
        Err(CertFault::BadLine { line }) => {
            text.extend_from_slice(b"bad ")?;
            push_decimal(text, u128::from(line))
        }
        Err(CertFault::OutOfMemory) => Err(AllocError),
    }
}
