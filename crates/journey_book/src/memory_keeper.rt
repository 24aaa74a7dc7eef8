//! A keeper in memory, which tells all that it keeps and fails where it is told to.

ghost use Rattle.std.specs.Prelude.{◌≡◌, ◌≤◌, ℕ, List, Some, is_some, option_map, map as each, string_bytes, IfErr, IfOk, OnErr, OnOk};
ghost use Rattle.journey_book.specs.Books.{AreNamesOf, dropped, kept};
ghost use Rattle.journey_book.specs.Keepers.{Becomes, BookStays, IsKeepFault, Tells};
ghost use Rattle.journey_book.specs.Memory.{IsCounted, IsUncalled, book_of, has_failed, memory_meaning};

use crate::keeper::{KeepFault, Keeper};
use std::alloc::{AllocError, Global};
use std::collections::BTreeMap;

/// A book in memory.
#[derive(Drop)]
pub struct MemoryKeeper {
    alloc: Global,
    map: BTreeMap<String, Vec<u8>>,
    fail: Vec<u64>,
    calls: u64,
    faults: u64,
}

impl MemoryKeeper {
    /// A keeper of this book. The calls whose numbers, from 1, are in `fail` fail.
    pub fn new(alloc: Global, map: BTreeMap<String, Vec<u8>>, fail: Vec<u64>) -> MemoryKeeper
        ensures book { memory_meaning result ≡ record { book = Some (book_of map); faults = 0 } }
        ensures calls { IsUncalled result fail.items }
    {
        MemoryKeeper {
            alloc,
            map,
            fail,
            calls: 0,
            faults: 0,
        }
    }

    /// Counts a call, which fails where it is told to.
    fn begin(&mut self) -> Result<(), KeepFault>
        ensures same { self.new.map ≡ self.old.map }
        ensures later { self.old.faults ≤ self.new.faults }
        ensures cause { IfErr result (IsKeepFault (memory_meaning self.old) (memory_meaning self.new)) }
        ensures counted { IsCounted self.old self.new (has_failed result) }
    {
        self.calls = self.calls.saturating_add(1);
        if self.fail.contains(&self.calls) {
            self.faults = self.faults.saturating_add(1);
            return Err(KeepFault::Failed);
        }
        Ok(())
    }
}

/// Puts bytes under a name.
fn put_in(
    alloc: Global,
    map: &mut BTreeMap<String, Vec<u8>>,
    name: &str,
    body: &[u8],
) -> Result<(), AllocError>
    ensures ok { OnOk result ((other : List ℕ) → book_of map.new other ≡ kept name.now body.now
        (book_of map.old) other) }
    ensures same { OnErr result ((other : List ℕ) → book_of map.new other ≡ book_of map.old other) }
{
    let key = String::from_str(alloc, name)?;
    let body = Vec::from_slice(alloc, body)?;
    match map.insert(key, body) {
        Ok(_) => Ok(()),
        Err(_) => Err(AllocError),
    }
}

/// Removes a name, and answers whether it was there.
fn remove_from(map: &mut BTreeMap<String, Vec<u8>>, name: &str) -> bool
    ensures rest { (other : List ℕ) → book_of map.new other ≡ dropped name.now (book_of map.old) other }
    ensures was { is_some (book_of map.old name.now) ≡ result }
{
    map.remove(name).is_some()
}

/// A copy of what is kept under a name.
fn get_from(
    alloc: Global,
    map: &BTreeMap<String, Vec<u8>>,
    name: &str,
) -> Result<Option<Vec<u8>>, AllocError>
    ensures { IfOk result (λ held. book_of map.now name.now ≡ option_map (λ body. body.items) held) }
{
    match map.get(name) {
        None => Ok(None),
        Some(body) => Ok(Some(Vec::from_slice(alloc, body)?)),
    }
}

/// Copies of all names, in order.
fn names_of(alloc: Global, map: &BTreeMap<String, Vec<u8>>) -> Result<Vec<String>, AllocError>
    ensures { IfOk result (λ names. AreNamesOf (book_of map.now) (each string_bytes names.items)) }
{
    let mut names = Vec::new(alloc);
    for name in map.keys() {
        names.push(String::from_str(alloc, name)?)?;
    }
    Ok(names)
}

impl Keeper for MemoryKeeper {
    ghost meaning = { memory_meaning };

    fn put(&mut self, name: &str, body: &[u8]) -> Result<(), KeepFault>
        ensures later { (memory_meaning self.old).faults ≤ (memory_meaning self.new).faults }
        ensures ok { OnOk result (Becomes (memory_meaning self.old) (memory_meaning self.new)
            (kept name.now body.now)) }
        ensures same { OnErr result (BookStays (memory_meaning self.old) (memory_meaning self.new)) }
        ensures cause { IfErr result (IsKeepFault (memory_meaning self.old) (memory_meaning self.new)) }
        ensures counted { IsCounted self.old self.new (has_failed result) }
    {
        self.begin()?;
        put_in(self.alloc, &mut self.map, name, body)?;
        Ok(())
    }

    fn remove(&mut self, name: &str) -> Result<bool, KeepFault>
        ensures later { (memory_meaning self.old).faults ≤ (memory_meaning self.new).faults }
        ensures ok { OnOk result (Becomes (memory_meaning self.old) (memory_meaning self.new)
            (dropped name.now)) }
        ensures was { IfOk result (λ was. Tells (memory_meaning self.old)
            (λ book. is_some (book name.now) ≡ was)) }
        ensures same { OnErr result (BookStays (memory_meaning self.old) (memory_meaning self.new)) }
        ensures cause { IfErr result (IsKeepFault (memory_meaning self.old) (memory_meaning self.new)) }
        ensures counted { IsCounted self.old self.new (has_failed result) }
    {
        self.begin()?;
        Ok(remove_from(&mut self.map, name))
    }

    fn get(&mut self, name: &str) -> Result<Option<Vec<u8>>, KeepFault>
        ensures later { (memory_meaning self.old).faults ≤ (memory_meaning self.new).faults }
        ensures ok { IfOk result (λ held. Tells (memory_meaning self.old)
            (λ book. book name.now ≡ option_map (λ body. body.items) held)) }
        ensures same { BookStays (memory_meaning self.old) (memory_meaning self.new) }
        ensures cause { IfErr result (IsKeepFault (memory_meaning self.old) (memory_meaning self.new)) }
        ensures counted { IsCounted self.old self.new (has_failed result) }
    {
        self.begin()?;
        Ok(get_from(self.alloc, &self.map, name)?)
    }

    fn names(&mut self) -> Result<Vec<String>, KeepFault>
        ensures later { (memory_meaning self.old).faults ≤ (memory_meaning self.new).faults }
        ensures ok { IfOk result (λ names. Tells (memory_meaning self.old)
            (λ book. AreNamesOf book (each string_bytes names.items))) }
        ensures same { BookStays (memory_meaning self.old) (memory_meaning self.new) }
        ensures cause { IfErr result (IsKeepFault (memory_meaning self.old) (memory_meaning self.new)) }
        ensures counted { IsCounted self.old self.new (has_failed result) }
    {
        self.begin()?;
        Ok(names_of(self.alloc, &self.map)?)
    }
}
