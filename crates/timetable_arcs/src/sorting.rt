//! The order in which runs are put into patterns.

ghost use Rattle.std.specs.Prelude.{◌≡◌, ◌<◌, ◌^◌, [], length, IfOk, IsPermutation, slice_index_or, slice_set};
ghost use Rattle.std.specs.Bool.{OnTrue};
ghost use Rattle.timetable_arcs.specs.Patterns.{plain_table, trip_at, AreAlike};
ghost use Rattle.timetable_arcs.specs.inside.Sorting.{AreHeads, HaveSameHead};
ghost use Rattle.std.specs.List.{range_with_len};

use crate::runs::have_alike_calls;
use crate::trips::{Call, Trip};
use std::alloc::{AllocError, Global};
use std::cmp::Ordering;

fn compare_calls(a: &[Call], b: &[Call]) -> Ordering {
    for (x, y) in a.iter().zip(b) {
        let order = (x.stop, x.board, x.alight).cmp(&(y.stop, y.board, y.alight));
        if order.is_ne() {
            return order;
        }
    }
    a.len().cmp(&b.len())
}

/// Compares trips by what the trips of a pattern have in common.
fn compare_trips(trips: &[Trip], a: u32, b: u32) -> Ordering {
    match (trips.get(a as usize), trips.get(b as usize)) {
        (Some(a), Some(b)) => a
            .letter
            .cmp(&b.letter)
            .then_with(|| compare_calls(&a.calls, &b.calls)),
        _ => a.cmp(&b),
    }
}

/// When a trip departs from its first call, if it has one.
fn first_departure(trips: &[Trip], trip: u32) -> Option<u32> {
    let first = trips.get(trip as usize)?.calls.first()?;
    Some(first.dep)
}

/// The numbers below one.
fn places_below(alloc: Global, count: u32) -> Result<Vec<u32>, AllocError>
    ensures { IfOk result (λ places. places.items ≡ range_with_len 0 count) }
{
    let mut places = Vec::with_capacity(alloc, count as usize)?;
    for place in 0..count {
        places.push(place)?;
    }
    Ok(places)
}

/// What is held of a trip, its head or its rank, or the trip itself where nothing is.
fn number_at(numbers: &[u32], trip: u32) -> u32
    ensures { result ≡ slice_index_or numbers.now trip trip }
{
    numbers.get(trip as usize).copied().unwrap_or(trip)
}

/// The trips that are their own heads, in the order of what the trips of a pattern have in common.
fn own_heads(alloc: Global, trips: &[Trip], heads: &[u32]) -> Result<Vec<u32>, AllocError>
    requires { length trips.now < 2 ^ 32 }
{
    let mut own = places_below(alloc, trips.len() as u32)?;
    own.retain(|trip| number_at(heads, *trip) == *trip);
    own.sort_by(|a, b| compare_trips(trips, *a, *b))?;
    Ok(own)
}

/// For each trip that is its own head its rank, which is its place among these in order.
fn ranks_of(alloc: Global, trips: &[Trip], heads: &[u32]) -> Result<Vec<u32>, AllocError>
    requires { length trips.now < 2 ^ 32 }
{
    let mut ranks = places_below(alloc, trips.len() as u32)?;
    let own = own_heads(alloc, trips, heads)?;
    for (head, rank) in own.iter().zip(0..trips.len() as u32) {
        set_number(&mut ranks, *head, rank);
    }
    Ok(ranks)
}

/// The places of the trips: those with one head side by side, in the order of [`own_heads`], and of these
/// before the others those that depart first.
pub(crate) fn trips_in_order(
    alloc: Global,
    trips: &[Trip],
    heads: &[u32],
) -> Result<Vec<u32>, AllocError>
    requires { length trips.now < 2 ^ 32 }
    ensures { IfOk result (λ places. IsPermutation (range_with_len 0 (length trips.now)) places.items) }
{
    let ranks = ranks_of(alloc, trips, heads)?;
    let mut places = places_below(alloc, trips.len() as u32)?;
    places.sort_by_cached_key(|trip| {
        (
            number_at(&ranks, number_at(heads, *trip)),
            first_departure(trips, *trip),
        )
    })?;
    Ok(places)
}

/// For each trip one that is alike, its head: the same for all that are alike. Alike trips mostly stand side
/// by side, so the heads of such blocks are found first, and these alone are sorted by their calls.
pub(crate) fn heads_of(alloc: Global, trips: &[Trip]) -> Result<Vec<u32>, AllocError>
    requires { length trips.now < 2 ^ 32 }
    ensures { IfOk result (λ heads. AreHeads trips.now heads.items) }
{
    let mut heads = heads_along(alloc, trips, &places_below(alloc, trips.len() as u32)?)?;
    let of_blocks = heads_along(alloc, trips, &own_heads(alloc, trips, &heads)?)?;
    join_heads(trips, &mut heads, &of_blocks);
    Ok(heads)
}

/// Puts in place of each head the head of it.
#[tactic(auto, using(crate::proofs::HeadLemmas::heads_joined))]
fn join_heads(trips: &[Trip], heads: &mut Vec<u32>, of_heads: &[u32])
    requires count { length trips.now < 2 ^ 32 }
    requires heads { AreHeads trips.now heads.old.items }
    requires of_heads { AreHeads trips.now of_heads.now }
    ensures { AreHeads trips.now heads.new.items }
{
    for trip in 0..trips.len() as u32 {
        let head = number_at(of_heads, number_at(heads, trip));
        set_number(heads, trip, head);
    }
}

/// For each trip one that is alike: of those that are alike and stand side by side along these, the first.
fn heads_along(alloc: Global, trips: &[Trip], order: &[u32]) -> Result<Vec<u32>, AllocError>
    requires { length trips.now < 2 ^ 32 }
    ensures { IfOk result (λ heads. AreHeads trips.now heads.items) }
{
    let mut heads = places_below(alloc, trips.len() as u32)?;
    let mut head = 0;
    for trip in order {
        head = head_after(trips, head, *trip);
        set_number(&mut heads, *trip, head);
    }
    Ok(heads)
}

/// The head of a trip that stands behind one with this head.
fn head_after(trips: &[Trip], head: u32, trip: u32) -> u32
    ensures { AreAlike (trip_at (plain_table [] trips.now) result) (trip_at (plain_table [] trips.now) trip) }
{
    if have_alike_calls(trips, head, trip) {
        head
    } else {
        trip
    }
}

fn set_number(numbers: &mut Vec<u32>, trip: u32, number: u32)
    ensures { numbers.new.items ≡ slice_set numbers.old.items trip number }
{
    if let Some(held) = numbers.get_mut(trip as usize) {
        *held = number;
    }
}

/// Whether two trips have the same head.
pub(crate) fn have_same_head(heads: &[u32], a: u32, b: u32) -> bool
    ensures { OnTrue result (HaveSameHead heads.now a b) }
{
    match (heads.get(a as usize), heads.get(b as usize)) {
        (Some(a), Some(b)) => a == b,
        _ => false,
    }
}
