ghost use Rattle.std.specs.Prelude.{◌≡◌, ◌≤◌, ◌<◌, ◌↔◌, ℕ, List, map, length, None, Some, IsTrue, IsSomeAnd, OnOk, OnErr, MatchOption};
ghost use Rattle.std.specs.Option.{option_copied};
ghost use Rattle.sl_io.specs.Counts.{Rose};
ghost use Rattle.sl_io.specs.FaultPlan.{is_failing, after_call};
ghost use Rattle.sl_io.specs.Fetch.{IfBytes, OnMissing, OnLong, OnFailed, UnlessFailed};
ghost use Rattle.sl_io.specs.Files.{Binds};
ghost use Rattle.sl_io.specs.Held.{stored, file_in, IsNumberOf};
ghost use Rattle.sl_io.specs.Put.{OnDone, OnPutFailed, OnPutMemory, UnlessPutFailed};

use crate::fault_plan::FaultPlan;
use crate::{Fetch, Put, Shelf};
use sl_base::Name;
use sqlite_items::Items;
use std::alloc::{AllocError, Global};
use std::marker::Model;

/// Files in memory, with a plan of the calls that fail.
#[derive(Debug, Drop)]
pub struct MemShelf {
    files: Vec<(Name, Vec<u8>)>,
    plan: FaultPlan,
}

impl Model for MemShelf {
    ghost use Rattle.std.specs.Prelude.{map};
    ghost use Rattle.sl_io.specs.Held.{Held, stored};

    ghost Value = { Held };

    ghost view = { λ s. record { files = map stored s.files.items; plan = s.plan } };
}

impl MemShelf {
    /// A shelf with these files, of which the first with a name counts. The listed calls of
    /// `fetch` and `put`, numbered from 1 over both, fail.
    pub fn new(files: Vec<(Name, Vec<u8>)>, failing: Vec<u32>) -> MemShelf
        ensures telling { IsTrue (⟦<MemShelf as Shelf>⟧.tells result) }
        ensures files { result.files ≡ map stored files.items }
        ensures file { (name : List ℕ) →
            ⟦<MemShelf as Shelf>⟧.file result name ≡ file_in (map stored files.items) name }
        ensures plan { result.plan ≡ record { failing = failing.items; calls = 0; faults = 0 } }
        ensures counts { (name : List ℕ) → ⟦<MemShelf as Shelf>⟧.faults result name ≡ 0 }
    {
        MemShelf {
            files,
            plan: FaultPlan::new(failing),
        }
    }

    /// The bytes of a name's file, if it has one.
    pub fn get(&self, name: &str) -> Option<&[u8]>
        ensures { option_copied result ≡ file_in self.now.files name.now }
    {
        match number_of(&self.files, name) {
            Some(i) => Some(self.files[i].1.as_slice()),
            None => None,
        }
    }

    /// How many calls of `fetch` and `put` came; it stands still at 2^32 - 1.
    pub fn calls(&self) -> u32
        ensures { result ≡ self.now.plan.calls }
    {
        self.plan.calls()
    }
}

// The number of the first file with this name, from 0.
fn number_of(files: &[(Name, Vec<u8>)], name: &str) -> Option<usize>
    ensures { MatchOption result (file_in (map stored files.now) name.now ≡ None)
        (IsNumberOf (map stored files.now) name.now) }
{
    for (i, file) in files.iter().enumerate() {
        if file.0.as_str() == name {
            return Some(i);
        }
    }
    None
}

// Makes the bytes the first file with this name, or a new last one.
fn store(
    files: &mut Vec<(Name, Vec<u8>)>,
    alloc: Global,
    name: &str,
    bytes: &[u8],
) -> Result<(), AllocError>
    ensures ok { OnOk result (Binds (file_in (map stored files.old.items))
        (file_in (map stored files.new.items)) name.now bytes.now) }
    ensures err { OnErr result (files.new.items ≡ files.old.items) }
{
    let copy = Vec::from_slice(alloc, bytes)?;
    match number_of(files, name) {
        Some(i) => files[i].1 = copy,
        None => files.push((Name::from_text(alloc, name)?, copy))?,
    }
    Ok(())
}

impl Shelf for MemShelf {
    ghost use Rattle.std.specs.Prelude.{true};
    ghost use Rattle.sl_io.specs.Held.{file_in};

    ghost tells = { λ _. true };

    ghost file = { λ s. file_in s.files };

    ghost faults = { λ s _. s.plan.faults };

    fn fetch(&mut self, alloc: Global, name: &str, most: u32) -> Fetch
        ensures files { self.new.files ≡ self.old.files }
        ensures counts { self.old.plan.faults ≤ self.new.plan.faults }
        ensures bound { IfBytes result (λ bytes. length bytes ≤ most) }
        ensures bytes { IfBytes result (λ bytes. file_in self.old.files name.now ≡ Some bytes) }
        ensures missing { OnMissing result (file_in self.old.files name.now ≡ None) }
        ensures long { OnLong result
            (IsSomeAnd (file_in self.old.files name.now) (λ bytes. most < length bytes)) }
        ensures failed { OnFailed result (Rose self.old.plan.faults self.new.plan.faults) }
        ensures quiet { UnlessFailed result (self.new.plan.faults ≡ self.old.plan.faults) }
        ensures fails { (result ≡ Fetch.Failed) ↔ IsTrue (is_failing self.old.plan) }
        ensures plan { self.new.plan ≡ after_call self.old.plan }
    {
        if self.plan.fails_next() {
            return Fetch::Failed;
        }
        let Some(bytes) = self.get(name) else {
            return Fetch::Missing;
        };
        if bytes.len() > most as usize {
            return Fetch::Long;
        }
        match Items::from_slice(alloc, bytes) {
            Ok(bytes) => Fetch::Bytes(bytes),
            Err(_) => Fetch::Memory,
        }
    }

    fn put(&mut self, alloc: Global, name: &str, bytes: &[u8]) -> Put
        ensures counts { self.old.plan.faults ≤ self.new.plan.faults }
        ensures done { OnDone result
            (Binds (file_in self.old.files) (file_in self.new.files) name.now bytes.now) }
        ensures failed { OnPutFailed result (Rose self.old.plan.faults self.new.plan.faults) }
        ensures quiet { UnlessPutFailed result (self.new.plan.faults ≡ self.old.plan.faults) }
        ensures kept { OnPutFailed result (self.new.files ≡ self.old.files) }
        ensures memory { OnPutMemory result (self.new.files ≡ self.old.files) }
        ensures fails { (result ≡ Put.Failed) ↔ IsTrue (is_failing self.old.plan) }
        ensures plan { self.new.plan ≡ after_call self.old.plan }
    {
        if self.plan.fails_next() {
            return Put::Failed;
        }
        match store(&mut self.files, alloc, name, bytes) {
            Ok(()) => Put::Done,
            Err(_) => Put::Memory,
        }
    }
}
