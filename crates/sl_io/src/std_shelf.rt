ghost use Rattle.std.specs.Prelude.{◌≡◌, ◌≤◌, ℕ, List, false, length};
ghost use Rattle.sl_io.specs.Counts.{raised_if};
ghost use Rattle.sl_io.specs.Fetch.{IfBytes, is_failed};
ghost use Rattle.sl_io.specs.Put.{is_put_failed};

use crate::whole_file::{open_fault, read_whole};
use crate::{Fetch, Put, Shelf};
use std::alloc::Global;
use std::fs;
use std::rt::Files;

/// The files of the system. It counts its errors, but for want of memory.
#[derive(Drop)]
pub struct StdShelf<'a, R> {
    rt: &'a R,
    faults: u64,
}

impl<'a, R: Files + AllocGlobal> StdShelf<'a, R> {
    /// A shelf over the files that the runtime reaches.
    pub fn new(rt: &'a R) -> StdShelf<'a, R>
        ensures telling { ⟦<StdShelf<'a, R> as Shelf>⟧.tells result ≡ false }
        ensures counts { (name : List ℕ) → ⟦<StdShelf<'a, R> as Shelf>⟧.faults result name ≡ 0 }
    {
        StdShelf { rt, faults: 0 }
    }
}

// The bytes of a file of the system.
fn fetch_file<R: Files>(rt: &R, alloc: Global, name: &str, most: u32) -> Fetch
    ensures bound { IfBytes result (λ bytes. length bytes ≤ most) }
{
    match fs::open(rt, name) {
        Ok(mut file) => read_whole(alloc, &mut file, most),
        Err(error) => open_fault(&error),
    }
}

impl<'a, R: Files + AllocGlobal> Shelf for StdShelf<'a, R> {
    ghost use Rattle.std.specs.Prelude.{false, None};

    ghost tells = { λ _. false };

    ghost file = { λ _ _. None };

    ghost faults = { λ s _. s.faults };

    fn fetch(&mut self, alloc: Global, name: &str, most: u32) -> Fetch
        ensures bound { IfBytes result (λ bytes. length bytes ≤ most) }
        ensures counts { self.old.faults ≤ self.new.faults }
        ensures count { self.new.faults ≡ raised_if (is_failed result) self.old.faults }
    {
        match fetch_file(self.rt, alloc, name, most) {
            Fetch::Failed => {
                self.faults = self.faults.saturating_add(1);
                Fetch::Failed
            }
            answer => answer,
        }
    }

    fn put(&mut self, _alloc: Global, name: &str, bytes: &[u8]) -> Put
        ensures counts { self.old.faults ≤ self.new.faults }
        ensures count { self.new.faults ≡ raised_if (is_put_failed result) self.old.faults }
    {
        match fs::write(self.rt, name, bytes) {
            Ok(()) => Put::Done,
            Err(_) => {
                self.faults = self.faults.saturating_add(1);
                Put::Failed
            }
        }
    }
}
