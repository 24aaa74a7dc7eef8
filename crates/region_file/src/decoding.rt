//! From bytes to a network.

ghost use Rattle.std.specs.Prelude.{◌≡◌, option_map, IfOk, IfErr};
ghost use Rattle.std.specs.Result.{result_map_both};
ghost use Rattle.plain_texts.specs.Course.{lines_from};
ghost use Rattle.plain_texts.specs.Lines.{pieces};
ghost use Rattle.mode_network.specs.NetworkLists.{NetworkLists};
ghost use Rattle.mode_network.specs.Rules.{AreParts, first_fault};
ghost use Rattle.region_file.specs.Sections.{behind_days, is_end, line_at, start};
ghost use Rattle.region_file.specs.Regions.{Gives, HasCause, IsDecoded, IsRefusedRegion, behind_head, lists_by, lists_in_text, or_fault, put_all, region_of};
ghost use Rattle.region_file.specs.Records.{lists_in};
ghost use Rattle.region_file.specs.declared.lines.Line.TheVariants as line;

use crate::fault::RegionFault;
use crate::fronts::head_front;
use crate::kinds::line_of;
use crate::lines::{HEAD, Line};
use crate::reading::parts_of;
use crate::records::{no_parts, put};
use crate::section::Progress;
use file_records::Halt;
use mode_network::{NetFault, Network, Parts};
use plain_texts::next_line;
use plan_base::Caps;
use service_days::Days;
use std::alloc::{AllocError, Global};

/// The line that a text spells, if it may stand here, and the place behind it. The words of the text are left in
/// `words`.
#[inline(always)]
#[tactic(auto, unfolding(crate::specs::Sections::line_at))]
fn line_behind<'a>(
    alloc: Global,
    words: &mut Vec<&'a [u8]>,
    before: Progress,
    text: &'a [u8],
) -> Result<Option<(Line, Progress)>, AllocError>
    ensures { IfOk result (λ read. read ≡ line_at before text.now) }
{
    let Some(line) = line_of(alloc, words, text)? else {
        return Ok(None);
    };
    if before.may_follow(&line) {
        let behind = before.behind(&line);
        Ok(Some((line, behind)))
    } else {
        Ok(None)
    }
}

/// Puts to the parts what the lines of `rest` say, where the first of them is line 3 of a region text and
/// stands behind `progress`.
fn read_lines<'a>(
    alloc: Global,
    words: &mut Vec<&'a [u8]>,
    parts: &mut Parts,
    mut progress: Progress,
    mut rest: &'a [u8],
) -> Result<(), RegionFault>
    ensures { Gives (result_map_both (λ _. parts.new) (λ fault. fault) result)
        (put_all parts.old (lines_from line_at is_end progress 3 (pieces rest.now))) }
{
    let mut at = 3;
    loop {
        let Some((line, behind)) = next_line(rest) else {
            return Err(RegionFault::BadRecord { at });
        };
        let Some((line, next)) = line_behind(alloc, words, progress, line)? else {
            return Err(RegionFault::BadRecord { at });
        };
        put(alloc, parts, line)?;
        rest = behind;
        progress = next;
        at += 1;
        if progress.is_end() {
            if !rest.is_empty() {
                return Err(RegionFault::Trailing { at });
            }
            return Ok(());
        }
    }
}

/// The days that a text spells, if it is a line of days.
fn first_line<'a>(
    alloc: Global,
    words: &mut Vec<&'a [u8]>,
    text: &'a [u8],
) -> Result<Option<Days>, AllocError>
    ensures { IfOk result (λ read. option_map (λ days. (line.Days days, behind_days)) read ≡ line_at start
        text.now) }
{
    match line_behind(alloc, words, Progress::start(), text)? {
        Some((line, _)) => match line {
            Line::Days(days) => Ok(Some(days)),
            _ => Ok(None),
        },
        None => Ok(None),
    }
}

/// The parts that the text behind the head line spells. The words of its lines are put in `words`, in turn.
#[tactic(auto, unfolding(crate::specs::Regions::lists_in_text))]
fn read_parts<'a>(
    alloc: Global,
    words: &mut Vec<&'a [u8]>,
    text: &'a [u8],
) -> Result<Parts, RegionFault>
    ensures { Gives result (lists_in_text text.now) }
{
    let Some((line, rest)) = next_line(text) else {
        return Err(RegionFault::BadRecord { at: 2 });
    };
    match first_line(alloc, words, line)? {
        Some(days) => {
            let mut parts = no_parts(alloc, days);
            read_lines(alloc, words, &mut parts, Progress::behind_days(), rest)?;
            Ok(parts)
        }
        None => Err(RegionFault::BadRecord { at: 2 }),
    }
}

/// The network of these parts, or the first rule that they break.
fn build(alloc: Global, parts: Parts, caps: &Caps) -> Result<Network, RegionFault>
    requires { AreParts parts }
    ensures { Gives result (or_fault parts (first_fault caps.now parts)) }
{
    match Network::build(alloc, parts, caps) {
        Ok(network) => Ok(network),
        Err(NetFault::OutOfMemory) => Err(RegionFault::OutOfMemory),
        Err(fault) => Err(RegionFault::Network(fault)),
    }
}

/// The text behind the head line.
#[tactic(auto, unfolding(crate::specs::Regions::behind_head))]
fn behind_head(bytes: &[u8]) -> Option<&[u8]>
    ensures { option_map (λ text. text.now) result ≡ behind_head bytes.now }
{
    bytes.strip_prefix(HEAD)
}

/// The parts that the records of bytes spell.
#[tactic(auto, unfolding(crate::specs::Records::lists_in))]
fn read_records(alloc: Global, bytes: &[u8]) -> Result<Parts, RegionFault>
    ensures { Gives result (lists_in bytes.now) }
{
    let Some(((days, counts), rest)) = head_front(alloc, bytes)? else {
        return Err(RegionFault::BadHead);
    };
    match parts_of(alloc, days, counts, rest) {
        Err(Halt::Memory) => Err(RegionFault::OutOfMemory),
        Err(Halt::Left(left)) => Err(RegionFault::BadRecord {
            at: (bytes.len() as u64).saturating_sub(left),
        }),
        Ok((parts, behind)) => {
            if behind.is_empty() {
                Ok(parts)
            } else {
                Err(RegionFault::Trailing {
                    at: (bytes.len() as u64).saturating_sub(behind.len() as u64),
                })
            }
        }
    }
}

/// The parts that bytes spell: as text where they begin with its head line, and else as records.
fn read_either(alloc: Global, bytes: &[u8]) -> Result<Parts, RegionFault>
    ensures { Gives result (lists_by bytes.now (behind_head bytes.now)) }
{
    match behind_head(bytes) {
        Some(text) => read_parts(alloc, &mut Vec::new(alloc), text),
        None => read_records(alloc, bytes),
    }
}

/// The network of the parts that bytes spell, if it keeps the rules and is within the limits.
#[tactic(auto, unfolding(crate::specs::Regions::region_of))]
fn read_region(alloc: Global, bytes: &[u8], caps: &Caps) -> Result<Network, RegionFault>
    ensures { Gives result (region_of caps.now bytes.now) }
{
    let parts = read_either(alloc, bytes)?;
    build(alloc, parts, caps)
}

/// The network that the bytes of a region spell, in either [`Format`](crate::Format).
///
/// A text is read as lines. The first is the head line `modeplan region 1`, and the others are those of
/// the days, the nodes, the arcs, the links and the trips, in this order, and the line `end`; behind the line
/// of a trip come exactly as many lines of calls as it says.
///
/// Other bytes are read as a head and records. The head is the magic `MPREGN02`, or `MPREGZ02` where the days have a
/// zone rule; the first date and the count of days; the counts of road nodes, stops, switches, arcs, links and
/// trips; and the zone rule behind its length, if there is one. The records follow in the order of the counts, and
/// behind the record of a trip come exactly as many records of calls as it says.
///
/// Each network has exactly one spelling in each format, and other bytes are refused: first where the head is not
/// there, then at the first line or record that may not stand where it does, then where bytes follow the end, and at
/// last where the network breaks a rule of [`Network::build`] or is past a limit of `caps`. 2^32 stops are refused
/// like want of memory, since no network numbers so many nodes. No more room is taken than the lines or records need
/// that are there, but for calls of the last trip of a text, 65,536 at most, which its line has told.
pub fn decode(alloc: Global, bytes: &[u8], caps: &Caps) -> Result<Network, RegionFault>
    // What is read is a network that keeps the rules, and is spelled so.
    ensures found { IfOk result (IsDecoded caps.now bytes.now) }
    // The network that is spelled so is read, unless memory runs out.
    ensures only { (n : NetworkLists) → IsDecoded caps.now bytes.now n → Gives result (Ok n) }
    // Each refusal has its cause.
    ensures cause { IfErr result (HasCause caps.now bytes.now) }
    // And where there is one, no network within the limits is spelled so.
    ensures none { IfErr result (IsRefusedRegion caps.now bytes.now) }
    // Which one comes first.
    ensures exact { Gives result (region_of caps.now bytes.now) }
{
    read_region(alloc, bytes, caps)
}
