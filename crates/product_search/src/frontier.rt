//! What a search has reached, and the queue of those product states whose arcs it has not explored since they were reached last.

ghost use Rattle.std.specs.Prelude.{◌≡◌, ◌≢◌, ℕ, ◌<◌, ◌≤◌, ◌^◌, [], IfSome, IfNone, IfOk, OnOk, MatchOption, slice_index, ◌+◌, ◌-◌, length};
ghost use Rattle.product_search.specs.inside.Exploring.{IsGiven, IsReachedIfWanted, Offers};
ghost use Rattle.product_search.specs.inside.Waiting.{IsFrontier, IsReachedBy, IsAt, IsNowhere, IsClear, HasChainsFrom, IsScanOf, IsPassedOver, Takes, TakesNone, IsReady, GivesItem, PutsAgain, Rearranges, Waits, rows, taken_as, delay_at};

use crate::chains::Chains;
use crate::queue::{Item, Queue};
use crate::row::{Reached, Row, Taken};
use crate::workspace::Workspace;
use search_laws::Time;
use std::alloc::{AllocError, Global};

/// A product state that was taken from the queue, to explore its arcs.
#[derive(Clone, Copy)]
pub(crate) struct Scan {
    pub node: u32,
    pub state: u32,
    /// How long after the departure it is reached, in ms.
    pub delay: u64,
    /// The number of the way to it, and 1.
    pub link: u32,
}

/// The product states that are reached, each with a number, and all ways that were taken to them. Of each whose arcs are to be
/// explored there is an item in the queue.
///
/// An item stays in the queue where a better way is found later, and is passed over when it comes up, or when its lot is put in
/// again.
#[derive(Drop)]
pub(crate) struct Frontier {
    /// The departure, from which delays are counted.
    pub base: u64,
    /// The delay from which on nothing is wanted; or the greatest one, where everything is.
    pub until: u64,
    pub rows: Vec<Row>,
    /// Each goes on from one before it.
    pub ways: Vec<Taken>,
    /// For each chain the number of its last row, and 1; or 0. Chains past its end have none.
    pub first: Vec<u32>,
    pub chains: Chains,
    pub queue: Queue,
}

impl Frontier {
    /// A frontier with nothing reached, with these chains. It uses the lists, the table and the queue of a workspace.
    pub fn new(workspace: Workspace, chains: Chains, base: u64, until: u64) -> Frontier
        ensures right { IsFrontier result }
        ensures base { result.base ≡ base }
        ensures until { result.until ≡ until }
        ensures no_rows { result.rows.items ≡ [] }
        ensures no_ways { result.ways.items ≡ [] }
    {
        let Workspace {
            rows,
            ways,
            first,
            queue,
            read: _read,
        } = workspace;
        Frontier {
            base,
            until,
            rows,
            ways,
            first,
            chains,
            queue,
        }
    }

    /// The time of a delay.
    #[inline(always)]
    pub fn time(&self, delay: u64) -> Time
        ensures at { result ≡ self.now.base + delay }
        ensures soon { delay < 2 ^ 64 }
        ensures early { result < 2 ^ 127 }
    {
        Time::from(self.base) + Time::from(delay)
    }

    /// How long after the departure a time is, in ms, or the greatest number where it is longer.
    #[inline(always)]
    pub fn delay(&self, at: Time) -> u64
        ensures { result ≡ delay_at self.now.base at }
    {
        let delay = at.saturating_sub(Time::from(self.base));
        delay.min(Time::from(u64::MAX)) as u64
    }

    /// The number of a product state that is reached.
    #[inline(always)]
    fn find(&self, node: u32, state: u32) -> Option<u32>
        requires { IsFrontier self.now }
        ensures { MatchOption result (IsNowhere (rows self.now) node state)
            (IsAt (rows self.now) node state) }
    {
        let mut cursor = self.head(self.chains.place(node, state));
        'chain: while cursor != 0 {
            let row = &self.rows[(cursor - 1) as usize];
            if row.state == state {
                return Some(cursor - 1);
            }
            cursor = row.next;
        }
        None
    }

    /// The number of the last row of a chain, and 1; or 0.
    #[inline(always)]
    fn head(&self, chain: usize) -> u32
        ensures { result ≡ slice_index self.now.first.items chain }
    {
        match self.first.get(chain) {
            None => 0,
            Some(cursor) => *cursor,
        }
    }

    /// Takes a way to a product state, if that is wanted, and it is the first or better than the one that is known.
    ///
    /// Fails where memory runs out, where 2^32 - 1 product states are reached or ways taken, and where everything is wanted and
    /// the way arrives 2^64 - 1 ms after the departure or later: half a billion years.
    #[inline(always)]
    pub fn offer(&mut self, node: u32, state: u32, way: Reached) -> Result<(), AllocError>
        requires { IsFrontier self.old }
        ensures right { OnOk result (IsFrontier self.new) }
        ensures offers { OnOk result (Offers self.old self.new (IsGiven node state way)) }
        ensures reached { OnOk result ((t : ℕ) → self.new.base ≤ t → way.delay ≡ delay_at self.new.base t
            → IsReachedIfWanted self.new node state t) }
    {
        if way.delay >= self.until {
            return self.refuse();
        }
        match self.find(node, state) {
            None => self.add(node, state, way),
            Some(number) => self.improve(node, state, number, way),
        }
    }

    /// Passes over a way that arrives at the end of what is wanted or later. Fails where everything is wanted.
    fn refuse(&self) -> Result<(), AllocError>
        ensures { OnOk result (self.now.until ≢ 2 ^ 64 - 1) }
    {
        if self.until == u64::MAX {
            Err(AllocError)
        } else {
            Ok(())
        }
    }

    /// Takes the first way to a product state.
    #[inline(always)]
    fn add(&mut self, node: u32, state: u32, way: Reached) -> Result<(), AllocError>
        requires right { IsFrontier self.old }
        requires soon { way.delay < 2 ^ 64 - 1 }
        requires nowhere { IsNowhere (rows self.old) node state }
        ensures right { OnOk result (IsFrontier self.new) }
        ensures offers { OnOk result (Offers self.old self.new (IsGiven node state way)) }
        ensures reached { OnOk result (IsReachedBy self.new node state (self.new.base + way.delay)) }
    {
        let number = number_of(self.rows.len())?;
        let link = number_of(self.ways.len())?;
        let chain = self.chains.place(node, state);
        let next = self.head(chain);
        grow(&mut self.first, chain)?;
        self.rows.push(Row {
            node,
            state,
            next,
            way: link,
            delay: way.delay,
        })?;
        self.first[chain] = number + 1;
        self.ways.push(taken_by(way, number))?;
        self.queue.push(
            way.delay,
            Item {
                row: number,
                way: link,
            },
        )
    }

    /// Takes a way to a product state that is reached, if it is better.
    #[inline(always)]
    fn improve(
        &mut self,
        node: u32,
        state: u32,
        number: u32,
        way: Reached,
    ) -> Result<(), AllocError>
        requires right { IsFrontier self.old }
        requires soon { way.delay < 2 ^ 64 - 1 }
        requires there { IsAt (rows self.old) node state number }
        ensures right { OnOk result (IsFrontier self.new) }
        ensures offers { OnOk result (Offers self.old self.new (IsGiven node state way)) }
        ensures reached { OnOk result (IsReachedBy self.new node state (self.new.base + way.delay)) }
    {
        if self.rows[number as usize].delay <= way.delay {
            return Ok(());
        }
        let link = number_of(self.ways.len())?;
        let row = &mut self.rows[number as usize];
        row.way = link;
        row.delay = way.delay;
        self.ways.push(taken_by(way, number))?;
        self.queue.push(
            way.delay,
            Item {
                row: number,
                way: link,
            },
        )
    }

    /// Takes a product state from the queue that is wanted and waits since it was reached last.
    #[inline(always)]
    pub fn take(&mut self) -> Result<Option<Scan>, AllocError>
        requires { IsFrontier self.old }
        ensures some { IfOk result (λ r. IfSome r (Takes self.old self.new)) }
        ensures none { IfOk result (λ r. IfNone r (TakesNone self.old self.new)) }
    {
        while let Some(item) = self.next_item()? {
            if let Some(scan) = self.scan_of(item) {
                return Ok(Some(scan));
            }
        }
        Ok(None)
    }

    /// Takes an item from the queue, if any waits for a delay that is wanted.
    #[inline(always)]
    fn next_item(&mut self) -> Result<Option<Item>, AllocError>
        requires { IsFrontier self.old }
        ensures some { IfOk result (λ r. IfSome r (GivesItem self.old self.new)) }
        ensures none { IfOk result (λ r. IfNone r (TakesNone self.old self.new)) }
    {
        if self.queue.is_spent() {
            self.next_lot()?;
        }
        Ok(self.queue.pop())
    }

    /// Has the queue take the next lot, from narrower buckets where it is crowded.
    #[inline(never)]
    fn next_lot(&mut self) -> Result<(), AllocError>
        requires right { IsFrontier self.old }
        requires spent { self.old.queue.current.items ≡ [] }
        ensures keeps { OnOk result (Rearranges self.old self.new) }
        ensures ready { OnOk result (IsReady self.new) }
    {
        self.queue.next_lot(self.until)?;
        if self.queue.is_spent() || !self.queue.is_crowded() {
            return Ok(());
        }
        self.spread()?;
        self.queue.next_lot(self.until)
    }

    /// Has the queue cut the bucket in turn, and puts its lot in again, without the items that are stale.
    fn spread(&mut self) -> Result<(), AllocError>
        requires { IsFrontier self.old }
        ensures keeps { OnOk result (Rearranges self.old self.new) }
        ensures spent { OnOk result (self.new.queue.current.items ≡ []) }
    {
        let mut lot = self.queue.narrow()?;
        'lot: while let Some(item) = lot.pop() {
            self.put_again(item)?;
        }
        Ok(())
    }

    /// Puts an item in again, if no better way was found since.
    fn put_again(&mut self, item: Item) -> Result<(), AllocError>
        requires { IsFrontier self.old }
        ensures { OnOk result (PutsAgain self.old self.new item) }
    {
        let Some(row) = self.rows.get(item.row as usize) else {
            return Ok(());
        };
        if row.way == item.way {
            self.queue.push(row.delay, item)
        } else {
            Ok(())
        }
    }

    /// The product state of an item, if no better way to it was found since and it is wanted.
    #[inline(always)]
    fn scan_of(&self, item: Item) -> Option<Scan>
        requires { IsFrontier self.now }
        ensures some { IfSome result (IsScanOf self.now item) }
        ensures none { IfNone result (IsPassedOver self.now item) }
    {
        let row = *self.rows.get(item.row as usize)?;
        if row.way == item.way && row.delay < self.until {
            Some(Scan {
                node: row.node,
                state: row.state,
                delay: row.delay,
                link: row.way + 1,
            })
        } else {
            None
        }
    }

    /// A delay that nothing waits for, and nothing before it.
    pub fn floor(&self) -> u64
        requires { IsFrontier self.now }
        ensures { (k : ℕ) (r : Row) → Waits self.now k r → result ≤ r.delay }
    {
        self.queue.floor()
    }
}

/// A way to the product state of a row.
#[inline(always)]
fn taken_by(way: Reached, row: u32) -> Taken
    ensures { result ≡ taken_as way row }
{
    Taken {
        delay: way.delay,
        arc: way.arc,
        parent: way.parent,
        row,
    }
}

/// A count as a number of 32 bits. At 2^32 - 1 it fails as if memory had run out: a link, which is a number and 1, would not
/// fit.
pub(crate) fn number_of(count: usize) -> Result<u32, AllocError>
    ensures count { IfOk result (λ n. n ≡ count) }
    ensures small { IfOk result (λ n. n + 1 < 2 ^ 32) }
{
    if count < 0xffff_ffff {
        Ok(count as u32)
    } else {
        Err(AllocError)
    }
}

/// A table as it was before there were rows.
pub(crate) fn cleared(rows: &[Row], chains: Chains, first: Vec<u32>) -> Vec<u32>
    requires { HasChainsFrom chains.count rows.now first.items 0 }
    ensures { IsClear result.items }
{
    let mut first = first;
    for row in rows {
        clear_at(&mut first, chains.place(row.node, row.state));
    }
    first
}

/// Clears what a table has for a chain.
fn clear_at(first: &mut Vec<u32>, chain: usize)
    ensures here { slice_index first.new.items chain ≡ 0 }
    ensures others { (v : ℕ) → v ≢ chain → slice_index first.new.items v ≡ slice_index first.old.items v }
{
    if chain < first.len() {
        first[chain] = 0;
    }
}

/// Makes a table of numbers long enough for a chain.
pub(crate) fn grow(first: &mut Vec<u32>, chain: usize) -> Result<(), AllocError>
    ensures same { OnOk result ((v : ℕ) → slice_index first.new.items v ≡ slice_index first.old.items v) }
    ensures long { OnOk result (chain < length first.new.items) }
{
    'grow: while first.len() <= chain {
        first.push(0)?;
    }
    Ok(())
}
