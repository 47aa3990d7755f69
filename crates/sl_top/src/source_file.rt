ghost use Rattle.std.specs.Prelude.{◌≡◌, IfOk, IfErr, OnOk};
ghost use Rattle.sl_io.specs.Files.{SameFiles};
ghost use Rattle.sl_top.specs.Outside.{shelf_over, IsCalm};
ghost use Rattle.sl_top.specs.Fetched.{IsSource, IsUnread};

use crate::outcome::Outcome;
use sl_io::{Fetch, Shelf};
use sqlite_items::Items;
use std::alloc::Global;
use ty_prog::Name;

/// The most bytes of a source file.
pub const SOURCE_LIMIT: u32 = 1_048_576;

// The bytes of the file of a name, or why they weren't had.
pub fn source<F: Shelf>(alloc: Global, name: &Name, shelf: &mut F) -> Result<Items<u8>, Outcome>
    ensures telling { F.tells shelf.new ≡ F.tells shelf.old }
    ensures files { SameFiles (F.file shelf.old) (F.file shelf.new) }
    ensures calm { OnOk result (IsCalm (shelf_over F.tells F.file F.faults shelf.old shelf.new)) }
    ensures given { IfOk result (λ bytes. IsSource (F.tells shelf.old) (F.file shelf.old) name.now bytes) }
    ensures cause { IfErr result (λ outcome.
        IsUnread outcome (shelf_over F.tells F.file F.faults shelf.old shelf.new) name.now) }
{
    match shelf.fetch(alloc, name.as_str(), SOURCE_LIMIT) {
        Fetch::Bytes(bytes) => Ok(bytes),
        Fetch::Missing => Err(Outcome::Missing),
        Fetch::Long => Err(Outcome::Long),
        Fetch::Failed => Err(Outcome::ShelfFault),
        Fetch::Memory => Err(Outcome::Memory),
    }
}
