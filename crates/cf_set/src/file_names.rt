//! The names of the files' classes, each once.

ghost use Rattle.std.specs.Prelude.{◌≡◌, map, IfOk, MatchOption};
ghost use Rattle.cf_link.specs.BuiltIns.{built_ins};
ghost use Rattle.cf_link.specs.Faults.{HasNone};
ghost use Rattle.cf_link.specs.OfFiles.{names_of};
ghost use Rattle.cf_link.specs.declared.fault.LinkKind.TheVariants.{Twice};
ghost use Rattle.cf_set.specs.First.{IsFirstTwice};

use crate::names::Names;
use crate::pool::name_of;
use cf_form::ClassFile;
use std::alloc::{AllocError, Global};

/// Puts the names of the files' classes behind those of the built-in ones. The number of the first file whose class has the
/// name of a built-in one or of an earlier file's; None exactly where there is none.
pub fn add_files(
    alloc: Global,
    files: &[ClassFile],
    names: &mut Names,
) -> Result<Option<usize>, AllocError>
    requires { names.old ≡ map (λ b. b.name) built_ins }
    ensures { IfOk result (λ again. MatchOption again (HasNone files.now Twice × (names.new ≡ names_of files.now)) (IsFirstTwice files.now)) }
{
    for i in 0..files.len() {
        if !names.add(alloc, name_of(&files[i]))? {
            return Ok(Some(i));
        }
    }
    Ok(None)
}
