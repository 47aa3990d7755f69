//! Entries of the constant pool by their index.

ghost use Rattle.std.specs.Prelude.{◌≡◌};
ghost use Rattle.std.specs.Option.{option_copied};
ghost use Rattle.cf_form.specs.Pool.{entry as entry_of, names};

use crate::constant::Const;
use crate::kind::{Kind, is_of};

/// The entry of this index; None for 0 and past the last.
pub fn entry(pool: &[Const], index: u16) -> Option<&Const>
    ensures { option_copied result ≡ entry_of pool.now index }
{
    if index == 0 {
        None
    } else {
        pool.get(usize::from(index) - 1)
    }
}

/// Whether this index names an entry of this kind.
pub fn names(pool: &[Const], needed: Kind, index: u16) -> bool
    ensures { result ≡ names pool.now needed index }
{
    match entry(pool, index) {
        Some(constant) => is_of(needed, constant),
        None => false,
    }
}
