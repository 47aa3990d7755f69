//! A class file's one spelling (JVMS 4).
#![tactic(auto)]

ghost use Rattle.std.specs.Prelude.{ℕ, List, IfOk};
ghost use Rattle.cf_form.specs.ClassFiles.{Spelled};

mod code_name;
mod codes;
mod constants;
mod fields;
mod file;
mod interfaces;
mod laws;
mod methods;
mod numbers;
#[cfg(test)]
mod tests;

use crate::file::put_file;
use cf_form::ClassFile;
pub use laws::{rewriting, spelling};
pub use sl_base::NoMemory;
use std::alloc::Global;

/// The one spelling of a class file (JVMS 4), in its own version and with no attribute but Code.
pub fn write(alloc: Global, file: &ClassFile) -> Result<Vec<u8>, NoMemory>
    requires { (bytes : List ℕ) × Spelled file.now bytes }
    ensures { IfOk result (λ v. Spelled file.now v.items) }
{
    let mut bytes = Vec::new(alloc);
    put_file(alloc, &mut bytes, file)?;
    Ok(bytes)
}
