//! The command `check`.

ghost use Rattle.std.specs.Prelude.{◌≡◌, ◌≤◌, ◌⊎◌, length};
ghost use Rattle.sl_io.specs.Files.{SameFiles};
ghost use Rattle.sl_top.specs.declared.outcome.Outcome.TheVariants.{Memory};
ghost use Rattle.sl_top.specs.Check.{IsFound, IsChecked};
ghost use Rattle.sl_top.specs.Outside.{shelf_over};

use crate::outcome::Outcome;
use crate::source_file::{SOURCE_LIMIT, source};
use sl_io::Shelf;
use sl_source::{SourceFault, read_source};
use std::alloc::Global;
use ty_prog::Name;

/// Checks the file of a name.
pub fn check_file<F: Shelf>(alloc: Global, name: &Name, shelf: &mut F) -> Outcome
    ensures files { SameFiles (F.file shelf.old) (F.file shelf.new) }
    ensures checked { IsChecked (shelf_over F.tells F.file F.faults shelf.old shelf.new) name.now result }
{
    match source(alloc, name, shelf) {
        Err(outcome) => outcome,
        Ok(bytes) => found(alloc, bytes.as_slice()),
    }
}

// What is found of the bytes of a file.
fn found(alloc: Global, bytes: &[u8]) -> Outcome
    requires { length bytes.now ≤ SOURCE_LIMIT }
    ensures { (result ≡ Memory) ⊎ IsFound bytes.now result }
{
    match read_source(alloc, bytes) {
        Ok(_source) => Outcome::NotBuilt,
        Err(SourceFault::Refused(refusal)) => Outcome::Refused(refusal),
        Err(SourceFault::Memory) => Outcome::Memory,
    }
}
