//! The classes of a program's own.

ghost use Rattle.std.specs.Prelude.{◌≡◌};
ghost use Rattle.ty_complete.specs.Complete.{own_classes};

use ty_prog::prelude_number::PRELUDE_LEN;
use ty_prog::{Class, Program};

/// The classes behind those of the prelude.
pub(crate) fn own_classes(p: &Program) -> &[Class]
    ensures { result.now ≡ own_classes p.now }
{
    let classes = p.classes.as_slice();
    match classes.get(PRELUDE_LEN as usize..) {
        Some(rest) => rest,
        None => &[],
    }
}
