//! The reply to a line.

ghost use Rattle.std.specs.Prelude.{◌≡◌, IfOk, IfSome, option_map};
ghost use Rattle.hierarchy.specs.Soundness.{IsSound};
ghost use Rattle.request_commands.specs.Requests.{IsReply, IsReplyOf, IsReplyWithin};

use crate::asked::{LineCommand, asked_by};
use answer_commands::certified_within;
use departures::{LeastTimes, profile_block};
use few_boardings::{Counting, few_block};
use hierarchy::Hierarchy;
use journey::{framed, large_block};
use kept_automata::Kept;
use late_commands::certified_late_within;
use latest_departure::{Backwards, LateRoom, late_block_within};
use mode_network::Network;
use planning::block_within;
use run_steps::{Limits, LineBlocks};
use std::alloc::{AllocError, Global};

/// What is kept from line to line, for all commands.
#[derive(Drop)]
pub(crate) struct ReplyRoom {
    late: LateRoom,
    counting: Kept<Counting>,
}

impl ReplyRoom {
    /// Takes no memory.
    fn new(alloc: Global) -> ReplyRoom {
        ReplyRoom {
            late: LateRoom::new(alloc),
            counting: Kept::new(alloc),
        }
    }
}

/// The replies to lines: what the commands write within the limits that they name. Best journeys are found by the hierarchy,
/// if there is one.
#[derive(Drop)]
pub(crate) struct Replies<'a> {
    pub(crate) network: &'a Network,
    pub(crate) hierarchy: Option<&'a Hierarchy>,
    pub(crate) limits: Limits,
    pub(crate) backwards: &'a Backwards<'a>,
    pub(crate) least: &'a LeastTimes<'a>,
}

impl LineBlocks for Replies<'_> {
    ghost use Rattle.std.specs.Prelude.{◌≡◌, IfSome, option_map};
    ghost use Rattle.hierarchy.specs.Soundness.{IsSound};
    ghost use Rattle.late_commands.specs.Commands.{CountsNothing};
    ghost use Rattle.request_commands.specs.Requests.{IsReply};

    ghost may = { λ it. IfSome it.hierarchy (λ h. IsSound it.network.now h.now)
        × (it.backwards.now.network ≡ it.network.now) × (it.least.now.plain.network.now ≡ it.network.now) };

    ghost is_block = { λ it. IsReply it.network.now (option_map (λ h. h.now) it.hierarchy) it.limits };

    ghost counts = { λ _. CountsNothing };

    type Room = ReplyRoom;

    fn room(&self, alloc: Global) -> ReplyRoom {
        ReplyRoom::new(alloc)
    }

    fn block_of(
        &self,
        alloc: Global,
        room: &mut ReplyRoom,
        line: &[u8],
    ) -> Result<(Vec<u8>, u64), AllocError> {
        let reply = self.reply_to(alloc, room, line)?;
        Ok((reply, 0))
    }

    fn called(&self) -> Option<&'static str> {
        Some("a reply")
    }
}

impl Replies<'_> {
    /// The reply to a line.
    fn reply_to(
        &self,
        alloc: Global,
        room: &mut ReplyRoom,
        line: &[u8],
    ) -> Result<Vec<u8>, AllocError>
        requires sound { IfSome self.now.hierarchy (λ h. IsSound self.now.network.now h.now) }
        requires same { self.now.backwards.now.network ≡ self.now.network.now }
        requires least { self.now.least.now.plain.network.now ≡ self.now.network.now }
        ensures { IfOk result (λ reply. IsReply self.now.network.now
            (option_map (λ h. h.now) self.now.hierarchy) self.now.limits line.now reply.items) }
    {
        match asked_by(line) {
            Some((command, query)) => self.reply_of(alloc, room, command, query),
            None => framed(alloc, line, b"refused command\n"),
        }
    }

    /// What the command writes for this query line within the limits.
    fn reply_of(
        &self,
        alloc: Global,
        room: &mut ReplyRoom,
        command: LineCommand,
        query: &[u8],
    ) -> Result<Vec<u8>, AllocError>
        requires sound { IfSome self.now.hierarchy (λ h. IsSound self.now.network.now h.now) }
        requires same { self.now.backwards.now.network ≡ self.now.network.now }
        requires least { self.now.least.now.plain.network.now ≡ self.now.network.now }
        ensures { IfOk result (λ reply. IsReplyOf self.now.network.now
            (option_map (λ h. h.now) self.now.hierarchy) self.now.limits command query.now reply.items) }
    {
        if let Some(refusal) = large_block(alloc, self.network, self.limits.places, query)? {
            return Ok(refusal);
        }
        self.reply_within(alloc, room, command, query)
    }

    /// What it writes where the search may have so many labels as the limits say.
    fn reply_within(
        &self,
        alloc: Global,
        room: &mut ReplyRoom,
        command: LineCommand,
        query: &[u8],
    ) -> Result<Vec<u8>, AllocError>
        requires sound { IfSome self.now.hierarchy (λ h. IsSound self.now.network.now h.now) }
        requires same { self.now.backwards.now.network ≡ self.now.network.now }
        requires least { self.now.least.now.plain.network.now ≡ self.now.network.now }
        ensures { IfOk result (λ reply. IsReplyWithin self.now.network.now
            (option_map (λ h. h.now) self.now.hierarchy) self.now.limits.labels command query.now
            reply.items) }
    {
        let (network, hierarchy) = (self.network, self.hierarchy);
        let labels = self.limits.labels;
        let ReplyRoom { late, counting } = room;
        match command {
            LineCommand::Answer => {
                let forward = &mut late.forward;
                let (block, _) = block_within(alloc, forward, network, hierarchy, query, labels)?;
                Ok(block)
            }
            LineCommand::Few => {
                let workspace = &mut late.forward.workspace;
                few_block(alloc, workspace, counting, network, query)
            }
            LineCommand::Latest => late_block_within(alloc, late, self.backwards, query, labels),
            LineCommand::Profile { window } => {
                let workspace = &mut late.forward.workspace;
                profile_block(alloc, workspace, counting, self.least, query, window)
            }
            LineCommand::Certify => {
                let forward = &mut late.forward;
                certified_within(alloc, forward, network, hierarchy, labels, query)
            }
            LineCommand::CertifyLatest => {
                certified_late_within(alloc, late, self.backwards, labels, query)
            }
        }
    }
}
