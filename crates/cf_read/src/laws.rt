//! Laws of reading. Their functions have empty bodies: the contracts are the laws.

ghost use Rattle.std.specs.Prelude.{◌≡◌, ◌≢◌, ◌↔◌, ◌++◌, ◌<◌, List, ℕ, length};
ghost use Rattle.cf_form.specs.ClassFiles.{Reads};
ghost use Rattle.cf_form.specs.declared.class_file.ClassFile.{ClassFile};
ghost use Rattle.cf_read.specs.FileFaults.{IsFileFault, HasOtherMagic, HasOtherVersion};

use crate::file_fault::{FileFault, FileKind};

/// Bytes have one fault at most, want of memory aside, and none where they are a class file.
pub fn faults()
    ensures one { (bytes : List ℕ) (f g : FileFault) → IsFileFault bytes f → IsFileFault bytes g
        → f.kind ≢ FileKind.Memory → g.kind ≢ FileKind.Memory → f ≡ g }
    ensures apart { (bytes : List ℕ) (f : FileFault) (file : ClassFile) → IsFileFault bytes f
        → f.kind ≢ FileKind.Memory → Reads bytes file → ⊥ }
{}

/// Bytes say one class file.
pub fn reading()
    ensures { (bytes : List ℕ) (f g : ClassFile) → Reads bytes f → Reads bytes g → f ≡ g }
{}

/// What the simple kinds of fault are. Magic comes exactly where the first four bytes are there and aren't the magic, at the
/// first of them. Version comes exactly where the magic is right and the major version, which is there, isn't one that is
/// read, at its first byte. Cut comes where the way through the file, without a fault so far, needs more bytes than are left
/// (`some_at` and `u1_at` of `Reading`); it stands at the end. Rest stands before the end, and comes where bytes follow those of
/// a file.
pub fn simple_kinds()
    ensures magic { (bytes : List ℕ) (at : ℕ) → IsFileFault bytes (record { at = at; kind = FileKind.Magic }) ↔ ((at ≡ 0) × HasOtherMagic bytes) }
    ensures version { (bytes : List ℕ) (at : ℕ) → IsFileFault bytes (record { at = at; kind = FileKind.Version }) ↔ ((at ≡ 6) × HasOtherVersion bytes) }
    ensures cut { (bytes : List ℕ) (at : ℕ) → IsFileFault bytes (record { at = at; kind = FileKind.Cut }) → at ≡ length bytes }
    ensures rest { (bytes : List ℕ) (at : ℕ) → IsFileFault bytes (record { at = at; kind = FileKind.Rest }) → at < length bytes }
    ensures longer { (file more : List ℕ) (f : ClassFile) → Reads file f → 0 < length more
        → IsFileFault (file ++ more) (record { at = length file; kind = FileKind.Rest }) }
{}
