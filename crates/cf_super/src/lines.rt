//! The linearisations of the classes, or a class that is its own ancestor.

ghost use Rattle.std.specs.Prelude.{◌≡◌, ℕ, List, IfOk, MatchResult};
ghost use Rattle.std.specs.List.{All};
ghost use Rattle.ty_linear.specs.Linear.{rows, AreLinearisations};
ghost use Rattle.cf_link.specs.Faults.{AreSupertypes, HasNone};
ghost use Rattle.cf_link.specs.OfFiles.{names_of};
ghost use Rattle.cf_link.specs.declared.fault.LinkKind.TheVariants.{Twice, NoClass, Cyclic};
ghost use Rattle.cf_set.specs.Indexes.{IsIndexed};
ghost use Rattle.cf_super.specs.First.{IsFirstCyclic};

use crate::rows::supertypes;
use cf_form::ClassFile;
use cf_link::built_in::BUILT_INS;
use cf_set::Names;
use std::alloc::{AllocError, Global};
use ty_linear::{LinearFault, linearise};

/// The linearisation of each class over its superclass and superinterfaces, or the number of the first file whose class is
/// its own ancestor, exactly where there is one.
pub fn lines_of(
    alloc: Global,
    names: &Names,
    files: &[ClassFile],
) -> Result<Result<Vec<Vec<u32>>, usize>, AllocError>
    requires names { names.now ≡ names_of files.now }
    requires indexed { All IsIndexed files.now }
    requires different { HasNone files.now Twice }
    requires there { HasNone files.now NoClass }
    ensures { IfOk result (λ found. MatchResult found
        (λ lists. HasNone files.now Cyclic × (table : List (List ℕ)) × AreSupertypes files.now table × AreLinearisations table (rows lists.items))
        (IsFirstCyclic files.now)) }
{
    let table = supertypes(alloc, names, files)?;
    match linearise(alloc, table.as_slice()) {
        Ok(lists) => Ok(Ok(lists)),
        Err(LinearFault::Cyclic { class }) => Ok(Err(class as usize - BUILT_INS as usize)),
        Err(LinearFault::Memory) => Err(AllocError),
    }
}
