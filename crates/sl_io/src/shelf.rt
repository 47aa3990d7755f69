ghost use Rattle.std.specs.Prelude.{◌≡◌, ◌≤◌, ℕ, Bool, List, Option, None, Some, length, IsTrue, IsSomeAnd, ◌<◌};
ghost use Rattle.sl_io.specs.Counts.{Rose, NeverFalls, SameCounts};
ghost use Rattle.sl_io.specs.Fetch.{IfBytes, OnMissing, OnLong, OnFailed, UnlessFailed};
ghost use Rattle.sl_io.specs.Files.{SameFiles, SameButAt, Binds};
ghost use Rattle.sl_io.specs.Put.{OnDone, OnPutFailed, OnPutMemory, UnlessPutFailed};

use crate::{Fetch, Put};
use std::alloc::Global;

/// Files by their names, in the outside. Clauses name a file by the UTF-8 bytes of its name.
pub trait Shelf {
    // Whether contracts know the files.
    ghost tells: { Self → Bool };

    // The bytes of a name's file, if it has one; they count only where the shelf tells.
    ghost file: { Self → List ℕ → Option (List ℕ) };

    // The faults that were met at a name.
    ghost faults: { Self → List ℕ → ℕ };

    /// The bytes of a file of at most `most` bytes.
    fn fetch(&mut self, alloc: Global, name: &str, most: u32) -> Fetch
        ensures telling { tells self.new ≡ tells self.old }
        ensures files { SameFiles (file self.old) (file self.new) }
        ensures counts { NeverFalls (faults self.old) (faults self.new) }
        ensures bound { IfBytes result (λ bytes. length bytes ≤ most) }
        ensures bytes { IsTrue (tells self.old) →
            IfBytes result (λ bytes. file self.old name.now ≡ Some bytes) }
        ensures missing { IsTrue (tells self.old) →
            OnMissing result (file self.old name.now ≡ None) }
        ensures long { IsTrue (tells self.old) →
            OnLong result (IsSomeAnd (file self.old name.now) (λ bytes. most < length bytes)) }
        ensures failed { OnFailed result (Rose (faults self.old name.now) (faults self.new name.now)) }
        // no fault was met, at any name, where it didn't fail
        ensures quiet { UnlessFailed result (SameCounts (faults self.old) (faults self.new)) };

    /// Makes `bytes` the file of this name, instead of the one that it had.
    fn put(&mut self, alloc: Global, name: &str, bytes: &[u8]) -> Put
        ensures telling { tells self.new ≡ tells self.old }
        ensures counts { NeverFalls (faults self.old) (faults self.new) }
        ensures done { IsTrue (tells self.old) →
            OnDone result (Binds (file self.old) (file self.new) name.now bytes.now) }
        ensures failed { OnPutFailed result (Rose (faults self.old name.now) (faults self.new name.now)) }
        ensures others { OnPutFailed result (SameButAt (file self.old) (file self.new) name.now) }
        ensures memory { OnPutMemory result (SameFiles (file self.old) (file self.new)) }
        ensures quiet { UnlessPutFailed result (SameCounts (faults self.old) (faults self.new)) };
}
