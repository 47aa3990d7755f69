//! Laws of the definitions. The function has an empty body: its contract is the law.

ghost use Rattle.std.specs.Prelude.{◌≡◌, Some, codes, length, map, slice_get};
ghost use Rattle.cf_link.specs.BuiltIns.{built_ins};

use crate::built_in::{BUILT_INS, CELLS, LAZY_CYCLE, THROWABLE};

/// The built-in classes are named by their numbers.
pub fn built_in_numbers()
    ensures count { length built_ins ≡ BUILT_INS }
    ensures throwable { slice_get (map (λ b. b.name) built_ins) THROWABLE ≡ Some (codes "java/lang/Throwable") }
    ensures cycle { slice_get (map (λ b. b.name) built_ins) LAZY_CYCLE ≡ Some (codes "lazyrt/LazyCycle") }
    ensures cells { slice_get (map (λ b. b.name) built_ins) CELLS ≡ Some (codes "lazyrt/Cells") }
{}
