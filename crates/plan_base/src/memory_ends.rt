//! A shelf and a sink in memory, which tell all that they hold and fail where they are told to.

ghost use Rattle.std.specs.Prelude.{◌≡◌, ◌<◌, ◌≤◌, ◌-◌, vec_len, vec_capacity, min, length, take, Some, IfOk, OnErr, IfErr};
ghost use Rattle.plan_base.specs.Counts.{Rose};
ghost use Rattle.plan_base.specs.Shelves.{AreBytesAt, IsLater, Gave};
ghost use Rattle.plan_base.specs.ShelfCauses.{HasCause};
ghost use Rattle.plan_base.specs.Sinks.{Appended, Stays};
ghost use Rattle.plan_base.specs.MemoryAnswers.{count_after, counts_after, faults_after, read_answer, write_answer};
ghost use Rattle.plan_base.specs.MemoryFiles.{files_of};

use crate::reading::{Shelf, ShelfError};
use crate::writing::{Sink, SinkFailed};
use std::alloc::{AllocError, Global};
use std::collections::BTreeMap;

/// Files in memory.
#[derive(Drop)]
pub struct MemoryShelf {
    files: BTreeMap<String, Vec<u8>>,
    fail: Vec<u64>,
    reads: u64,
    misses: u64,
    faults: u64,
}

impl MemoryShelf {
    ghost use Rattle.plan_base.specs.MemoryStates.{shelf_counts, shelf_files, shelf_fails, shelf_reads};

    /// A shelf of these files. The reads whose numbers, from 1, are in `fail` answer that reading failed.
    pub fn new(files: BTreeMap<String, Vec<u8>>, fail: Vec<u64>) -> MemoryShelf
        ensures files { shelf_files result ≡ files_of files }
        ensures fail { shelf_fails result ≡ fail.items }
        ensures reads { shelf_reads result ≡ 0 }
        ensures counts { shelf_counts result ≡ (0, 0) }
    {
        MemoryShelf {
            files,
            fail,
            reads: 0,
            misses: 0,
            faults: 0,
        }
    }
}

impl Shelf for MemoryShelf {
    ghost use Rattle.plan_base.specs.MemoryStates.{shelf_counts, shelf_meaning, shelf_files, shelf_fails, shelf_reads};

    ghost meaning = { shelf_meaning };

    /// A read gives the lesser of the room in `into` and of what is left of the file.
    fn read(&mut self, name: &str, from: u64, into: &mut [u8]) -> Result<usize, ShelfError>
        ensures later { IsLater (shelf_meaning self.old) (shelf_meaning self.new) }
        ensures within { IfOk result (λ n. n ≤ length into.old) }
        ensures bytes { IfOk result (λ n. Gave (shelf_meaning self.old) name.now from n into.new) }
        ensures cause { IfErr result (HasCause (shelf_meaning self.old) (shelf_meaning self.new) name.now) }
        ensures exact { result ≡ read_answer (shelf_fails self.old) (shelf_reads self.new)
            (shelf_files self.old name.now) from (length into.old) }
        ensures reads { shelf_reads self.new ≡ count_after (shelf_reads self.old) }
        ensures fails { shelf_fails self.new ≡ shelf_fails self.old }
        ensures counts { shelf_counts self.new ≡ counts_after result (shelf_counts self.old) }
    {
        self.reads = self.reads.saturating_add(1);
        if self.fail.contains(&self.reads) {
            self.faults = self.faults.saturating_add(1);
            return Err(ShelfError::Failed);
        }
        match self.files.get(name) {
            None => {
                self.misses = self.misses.saturating_add(1);
                Err(ShelfError::Missing)
            }
            Some(file) => Ok(copy_from(file, from, into)),
        }
    }
}

/// Copies the bytes of the file from there on, as many as there is room for.
fn copy_from(file: &[u8], from: u64, into: &mut [u8]) -> usize
    ensures count { result ≡ min (length into.old) (length file.now - from) }
    ensures bytes { AreBytesAt file.now from result into.new }
{
    let start = file.len().min(from as usize);
    let rest = &file[start..];
    let n = into.len().min(rest.len());
    into[..n].copy_from_slice(&rest[..n]);
    n
}

/// Bytes in memory, with room for so many.
#[derive(Drop)]
pub struct MemorySink {
    written: Vec<u8>,
    room: usize,
    most: usize,
    fail: Vec<u64>,
    writes: u64,
    faults: u64,
    ghost takes: { 1 ≤ most },
    ghost holds: { room ≤ vec_capacity written },
    ghost within: { vec_len written ≤ room },
}

impl MemorySink {
    ghost use Rattle.plan_base.specs.MemoryStates.{IsEmptySink, written_of};

    /// A sink with room for `room` bytes, which takes at most `most` of them at a time. The writes whose
    /// numbers, from 1, are in `fail` fail, and so does one that finds the room full.
    pub fn new(
        alloc: Global,
        room: usize,
        most: usize,
        fail: Vec<u64>,
    ) -> Result<MemorySink, AllocError>
        requires { 1 ≤ most }
        ensures ok { IfOk result (IsEmptySink room most fail.items) }
    {
        Ok(MemorySink {
            written: Vec::with_capacity(alloc, room)?,
            room,
            most,
            fail,
            writes: 0,
            faults: 0,
        })
    }

    /// The bytes that were written.
    pub fn bytes(&self) -> &[u8]
        ensures { result.now ≡ written_of self.now }
    {
        &self.written
    }
}

impl Sink for MemorySink {
    ghost use Rattle.plan_base.specs.MemoryStates.{KeepsSink, sink_meaning, sink_fails, sink_faults, sink_writes, sink_most, sink_left};

    ghost meaning = { sink_meaning };

    /// A write takes the least of the piece's length, of the most at a time and of the room left.
    fn write(&mut self, piece: &[u8]) -> Result<usize, SinkFailed>
        ensures later { (sink_meaning self.old).faults ≤ (sink_meaning self.new).faults }
        ensures some { 0 < length piece.now → IfOk result (λ n. 0 < n) }
        ensures within { IfOk result (λ n. n ≤ length piece.now) }
        ensures ok { IfOk result (λ n. Appended (sink_meaning self.old) (sink_meaning self.new)
            (take n piece.now)) }
        ensures same { OnErr result (Stays (sink_meaning self.old) (sink_meaning self.new)) }
        ensures cause { OnErr result (Rose (sink_meaning self.old).faults (sink_meaning self.new).faults) }
        ensures exact { result ≡ write_answer (sink_fails self.old) (sink_writes self.new)
            (sink_most self.old) (sink_left self.old) (length piece.now) }
        ensures writes { sink_writes self.new ≡ count_after (sink_writes self.old) }
        ensures kept { KeepsSink self.old self.new }
        ensures faults { sink_faults self.new ≡ faults_after result (sink_faults self.old) }
    {
        self.writes = self.writes.saturating_add(1);
        let left = self.room.saturating_sub(self.written.len());
        let n = piece.len().min(self.most).min(left);
        if self.fail.contains(&self.writes)
            || left == 0
            || self.written.extend_from_slice(&piece[..n]).is_err()
        {
            self.faults = self.faults.saturating_add(1);
            return Err(SinkFailed);
        }
        Ok(n)
    }
}
