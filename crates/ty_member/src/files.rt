//! Names of class files.

ghost use Rattle.std.specs.Prelude.{◌≡◌, IfOk};
ghost use Rattle.ty_member.specs.Names as spec;

use sl_base::Name;
use std::alloc::{AllocError, Global};

/// The name of the class file of an object.
pub fn object_file(alloc: Global, name: &Name) -> Result<Name, AllocError>
    ensures { IfOk result (λ file. file ≡ spec.object_file name.now) }
{
    let mut text = String::from_str(alloc, name.as_str())?;
    text.push_str("$")?;
    Ok(Name::from_string(text))
}
