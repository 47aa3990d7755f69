//! Names of plain characters.

ghost use Rattle.std.specs.Prelude.{◌≡◌, IfOk, IsTrue};
ghost use Rattle.std.specs.Char.{is_ascii};
ghost use Rattle.std.specs.List.{list_all};

use sl_base::Name;
use std::alloc::{AllocError, Global};

/// The name with this text, whose characters are its bytes.
pub(crate) fn plain_name(alloc: Global, text: &str) -> Result<Name, AllocError>
    requires { IsTrue (list_all is_ascii text.now) }
    ensures { IfOk result (λ name. name ≡ text.now) }
{
    Name::from_text(alloc, text)
}
