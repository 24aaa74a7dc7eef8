//! The queue of the product states that wait: buckets of those whose times are near to each other.

ghost use Rattle.std.specs.Prelude.{◌≡◌, ◌≢◌, ◌↔◌, ◌+◌, ◌*◌, ◌^◌, ◌<◌, ◌≤◌, ℕ, [], All, Contains, IfOk, IfSome, IfNone, IsTrue, OnOk, length, map};
ghost use Rattle.product_search.specs.inside.Queued.{Queued, AreBuckets, IsQueue, IsEmptyQueue, TakesIn, Gives, PutsAt, PutsLater, Moves, Turns, Narrows, begin_of, bucket_of, bucketed_len};

use std::alloc::{AllocError, Global};
use std::mem;

/// What waits: the row of a product state, and the last way to it at the time when it began to wait.
#[derive(Clone, Copy)]
pub(crate) struct Item {
    pub row: u32,
    pub way: u32,
}

/// What waits for a bucket past the last one.
#[derive(Clone, Copy)]
pub(crate) struct LateItem {
    pub delay: u64,
    pub item: Item,
}

/// How many buckets there are: those of the first round have nine hours together.
const BUCKETS: u64 = 1 << 10;

/// The first width of a bucket is 2^15 ms, half a minute. From 2^13 to 2^16 it hardly matters.
const FIRST_BITS: u32 = 15;

/// With buckets of 2^54 ms a round has all times.
const MOST_BITS: u32 = 54;

/// A bucket that has given more lots than that is cut.
const MOST_LOTS: u32 = 16;

/// A bucket is cut into 2^5 narrower ones, or into those of 1 ms where it is not that wide.
const FEWER_BITS: u32 = 5;

/// Items by their delays, given out lot by lot. A lot is what a bucket had when its turn came, or came again, in the order in which
/// that came in; what comes into the bucket in turn meanwhile is of its next lot. Delays past the last bucket wait for the next
/// round of buckets, which begins with the least of them.
///
/// Where much lies in one bucket, better ways to it are found from within, and each lot explores it once more. So a bucket that
/// has given many lots is cut into narrower ones, which begin a round.
#[derive(Drop)]
pub(crate) struct Queue {
    /// What is left of the lot in turn, the first one last.
    pub current: Vec<Item>,
    /// What has come into each bucket. Those past the end have none.
    pub buckets: Vec<Vec<Item>>,
    /// The place of the bucket in turn. Those before it have none.
    pub turn: usize,
    /// The delay with which the first bucket begins, which also has all before.
    pub start: u64,
    /// A bucket has the delays of 2^bits ms.
    pub bits: u32,
    /// The same in the next round.
    pub next_bits: u32,
    /// What waits for a later round, in no order.
    pub later: Vec<LateItem>,
    /// How many lots the bucket in turn has given.
    pub lots: u32,
}

impl Queue {
    /// An empty queue. Takes no memory.
    pub fn new(alloc: Global) -> Queue
        ensures right { IsQueue result }
        ensures empty { IsEmptyQueue result }
    {
        Queue {
            current: Vec::new(alloc),
            buckets: Vec::new(alloc),
            turn: 0,
            start: 0,
            bits: FIRST_BITS,
            next_bits: FIRST_BITS,
            later: Vec::new(alloc),
            lots: 0,
        }
    }

    /// The same queue without its items.
    pub fn cleared(self) -> Queue
        requires { IsQueue self }
        ensures right { IsQueue result }
        ensures empty { IsEmptyQueue result }
    {
        let Queue {
            mut current,
            mut buckets,
            turn: _turn,
            start: _start,
            bits: _bits,
            next_bits: _next_bits,
            mut later,
            lots: _lots,
        } = self;
        current.clear();
        clear_all(&mut buckets);
        later.clear();
        Queue {
            current,
            buckets,
            turn: 0,
            start: 0,
            bits: FIRST_BITS,
            next_bits: FIRST_BITS,
            later,
            lots: 0,
        }
    }

    /// Takes in an item that waits for a delay.
    #[inline(always)]
    pub fn push(&mut self, delay: u64, item: Item) -> Result<(), AllocError>
        requires { IsQueue self.old }
        ensures { OnOk result (TakesIn self.old self.new delay item) }
    {
        let place = self.place(delay);
        if place < BUCKETS {
            self.push_at(place as usize, item)
        } else {
            self.later.push(LateItem { delay, item })?;
            Ok(())
        }
    }

    /// The place of the bucket of a delay.
    #[inline(always)]
    fn place(&self, delay: u64) -> u64
        requires { self.now.bits ≤ 54 }
        ensures begins { begin_of self.now result ≤ delay }
        ensures past { 2 ^ 10 ≤ result → self.now.start + 2 ^ 10 * 2 ^ self.now.bits ≤ delay }
    {
        delay.saturating_sub(self.start) >> self.bits
    }

    /// Puts an item into a bucket.
    #[inline(always)]
    fn push_at(&mut self, place: usize, item: Item) -> Result<(), AllocError>
        requires right { AreBuckets self.old }
        requires place { place < 2 ^ 10 }
        ensures { OnOk result (PutsAt self.old self.new place item) }
    {
        grow(&mut self.buckets, place)?;
        self.turn = self.turn.min(place);
        self.buckets[place].push(item)?;
        Ok(())
    }

    /// Gives out an item of the lot in turn, if that has any left.
    #[inline(always)]
    pub fn pop(&mut self) -> Option<Item>
        requires { IsQueue self.old }
        ensures right { IsQueue self.new }
        ensures some { IfSome result (Gives self.old self.new) }
        ensures none { IfNone result (self.old.current.items ≡ []) }
    {
        self.current.pop()
    }

    /// How many items are left of the lot in turn.
    #[inline(always)]
    pub fn left(&self) -> usize {
        self.current.len()
    }

    /// Those that come up next, at most so many, the first one last.
    #[inline(always)]
    pub fn next(&self, count: usize) -> &[Item] {
        let left = self.current.len();
        &self.current[left - left.min(count)..]
    }

    /// Whether nothing is left of the lot in turn.
    #[inline(always)]
    pub fn is_spent(&self) -> bool
        ensures { IsTrue result ↔ (self.now.current.items ≡ []) }
    {
        self.current.is_empty()
    }

    /// Whether the bucket in turn has given so many lots that it should be cut.
    pub fn is_crowded(&self) -> bool {
        self.lots > MOST_LOTS && self.bits > 0
    }

    /// When the bucket in turn begins: nothing waits for a delay before that.
    pub fn floor(&self) -> u64
        requires { IsQueue self.now }
        ensures { (t : ℕ) (x : Item) → Queued self.now t x → result ≤ t }
    {
        self.begin(self.turn)
    }

    /// When the bucket at a place begins.
    fn begin(&self, place: usize) -> u64
        requires { self.now.bits ≤ 54 }
        ensures { result ≤ begin_of self.now place }
    {
        if place == 0 {
            0
        } else {
            self.start.saturating_add((place as u64) << self.bits)
        }
    }

    /// Takes the next lot: what is in the first bucket that has any, unless that begins at `until` or later.
    pub fn next_lot(&mut self, until: u64) -> Result<(), AllocError>
        requires right { IsQueue self.old }
        requires empty { self.old.current.items ≡ [] }
        ensures { OnOk result (Turns self.old self.new until) }
    {
        let before = self.turn;
        self.find_bucket()?;
        self.lots = if self.turn == before {
            self.lots.saturating_add(1)
        } else {
            1
        };
        if self.turn < self.buckets.len() && self.floor() < until {
            mem::swap(&mut self.current, &mut self.buckets[self.turn]);
            self.current.reverse();
        }
        Ok(())
    }

    /// Begins a round of narrower buckets with the one in turn, and gives out its lot, which has to be put in again.
    pub fn narrow(&mut self) -> Result<Vec<Item>, AllocError>
        requires { IsQueue self.old }
        ensures { IfOk result (λ lot. Narrows self.old self.new lot.items) }
    {
        let alloc = *self.current.allocator();
        let lot = mem::replace(&mut self.current, Vec::new(alloc));
        self.put_off()?;
        self.start = self.begin(self.turn).max(self.start);
        self.turn = 0;
        self.bits = self.bits.saturating_sub(FEWER_BITS);
        self.next_bits = self.bits;
        self.lots = 0;
        self.move_due()?;
        Ok(lot)
    }

    /// Puts off what is in buckets, each item to when its bucket begins.
    fn put_off(&mut self) -> Result<(), AllocError>
        requires { AreBuckets self.old }
        ensures right { OnOk result (AreBuckets self.new) }
        ensures moves { OnOk result (Moves self.old self.new) }
        ensures none { OnOk result ((k : ℕ) → bucket_of self.new.buckets.items k ≡ []) }
    {
        for place in 0..self.buckets.len() {
            let delay = self.begin(place);
            put_later(&mut self.buckets[place], &mut self.later, delay)?;
        }
        Ok(())
    }

    /// Passes over the buckets that have none, into the next round where none has any.
    fn find_bucket(&mut self) -> Result<(), AllocError>
        requires right { IsQueue self.old }
        requires empty { self.old.current.items ≡ [] }
        ensures right { OnOk result (IsQueue self.new) }
        ensures moves { OnOk result (Moves self.old self.new) }
        ensures some { OnOk result (self.new.turn < length self.new.buckets.items
            → bucket_of self.new.buckets.items self.new.turn ≢ []) }
        ensures none { OnOk result (length self.new.buckets.items ≤ self.new.turn → IsEmptyQueue self.new) }
    {
        self.skip_empty();
        if self.turn < self.buckets.len() || self.later.is_empty() {
            return Ok(());
        }
        self.next_round()?;
        self.skip_empty();
        Ok(())
    }

    /// Passes over the buckets that have none.
    fn skip_empty(&mut self)
        requires right { IsQueue self.old }
        requires empty { self.old.current.items ≡ [] }
        ensures right { IsQueue self.new }
        ensures moves { Moves self.old self.new }
        ensures start { self.new.start ≡ self.old.start }
        ensures some { self.new.turn < length self.new.buckets.items
            → bucket_of self.new.buckets.items self.new.turn ≢ [] }
    {
        'empty: while self.turn < self.buckets.len() && self.buckets[self.turn].is_empty() {
            self.turn += 1;
        }
    }

    /// Begins a round of buckets at the least of the later delays.
    fn next_round(&mut self) -> Result<(), AllocError>
        requires right { IsQueue self.old }
        requires empty { self.old.current.items ≡ [] }
        requires none { (k : ℕ) → bucket_of self.old.buckets.items k ≡ [] }
        requires some { self.old.later.items ≢ [] }
        ensures right { OnOk result (IsQueue self.new) }
        ensures moves { OnOk result (Moves self.old self.new) }
        ensures begins { OnOk result ((x : Item) × Queued self.new self.new.start x) }
    {
        let waiting = self.later.len();
        self.start = least_delay(&self.later);
        self.bits = self.next_bits;
        self.turn = 0;
        self.move_due()?;
        self.next_bits = bits_after(self.bits, waiting, self.later.len());
        Ok(())
    }

    /// Puts into buckets what has one in this round.
    fn move_due(&mut self) -> Result<(), AllocError>
        requires { AreBuckets self.old }
        ensures right { OnOk result (IsQueue self.new) }
        ensures moves { OnOk result (Moves self.old self.new) }
        ensures start { OnOk result (self.new.start ≡ self.old.start) }
    {
        let mut i = 0;
        'due: while i < self.later.len() {
            let late = self.later[i];
            let place = self.place(late.delay);
            if place < BUCKETS {
                self.later.swap_remove(i);
                self.push_at(place as usize, late.item)?;
            } else {
                i += 1;
            }
        }
        Ok(())
    }
}

/// The width of the buckets of the next round. They are twice as wide after a round to which fewer than one in sixteen of those
/// that waited came: else, with times far apart, there would be a look at all later ones for each.
fn bits_after(bits: u32, waiting: usize, left: usize) -> u32
    requires { bits ≤ 54 }
    ensures { result ≤ 54 }
{
    if left > waiting - waiting / 16 {
        MOST_BITS.min(bits + 1)
    } else {
        bits
    }
}

/// The least delay of some items, or the greatest of all where there are none.
fn least_delay(items: &[LateItem]) -> u64
    ensures there { items.now ≢ [] → Contains (map (λ x. x.delay) items.now) result }
    ensures least { All (λ x. result ≤ x.delay) items.now }
{
    items
        .iter()
        .map(|late| late.delay)
        .min()
        .unwrap_or(u64::MAX)
}

/// Puts what is in a bucket to the later ones, to wait for a delay.
fn put_later(
    bucket: &mut Vec<Item>,
    later: &mut Vec<LateItem>,
    delay: u64,
) -> Result<(), AllocError>
    ensures none { OnOk result (bucket.new.items ≡ []) }
    ensures later { OnOk result (PutsLater delay bucket.old.items bucket.new.items later.old.items later.new.items) }
{
    'items: while let Some(item) = bucket.pop() {
        later.push(LateItem { delay, item })?;
    }
    Ok(())
}

/// Makes buckets up to a place, if there are none.
#[inline(always)]
fn grow(buckets: &mut Vec<Vec<Item>>, place: usize) -> Result<(), AllocError>
    requires few { length buckets.old.items ≤ 2 ^ 10 }
    requires place { place < 2 ^ 10 }
    ensures same { OnOk result ((k : ℕ) → bucket_of buckets.new.items k ≡ bucket_of buckets.old.items k) }
    ensures as_many { OnOk result (bucketed_len buckets.new.items ≡ bucketed_len buckets.old.items) }
    ensures few { OnOk result (length buckets.new.items ≤ 2 ^ 10) }
    ensures long { OnOk result (place < length buckets.new.items) }
{
    let alloc = *buckets.allocator();
    'grow: while buckets.len() <= place {
        buckets.push(Vec::new(alloc))?;
    }
    Ok(())
}

/// Clears buckets.
fn clear_all(buckets: &mut Vec<Vec<Item>>)
    ensures none { (k : ℕ) → bucket_of buckets.new.items k ≡ [] }
    ensures same { length buckets.new.items ≡ length buckets.old.items }
{
    for i in 0..buckets.len() {
        buckets[i].clear();
    }
}
