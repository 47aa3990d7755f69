//! Class files, read from bytes (JVMS 4).
#![tactic(auto)]

ghost use Rattle.std.specs.Prelude.{◌≡◌, ◌<◌, ◌^◌, length, IfOk, IfErr, MatchResult};
ghost use Rattle.cf_form.specs.ClassFiles.{Reads};
ghost use Rattle.cf_form.specs.declared.class_file.ClassFile.{ClassFile as File};
ghost use Rattle.cf_read.specs.FileFaults.{IsFileFault};

mod attributes;
mod code_attribute;
mod codes;
mod constants;
mod fault;
mod file;
mod file_fault;
mod handlers;
mod head;
mod laws;
mod members;
mod method_attributes;
mod methods;
mod naming;
mod numbers;
mod outline;
mod parts;
mod pool;
mod references;
mod seen;
#[cfg(test)]
mod tests;
mod text_numbers;

use crate::file::{fault_of, read_whole};
use cf_form::ClassFile;
pub use file_fault::{FileFault, FileKind};
pub use laws::{faults, reading, simple_kinds};
use std::alloc::Global;

/// The class file that the bytes are (JVMS 4), attributes other than Code left out. A fault is the first one: indexes of the
/// pool are looked at after the whole pool, and codes after the whole file.
pub fn read(alloc: Global, bytes: &[u8]) -> Result<ClassFile, FileFault>
    requires { length bytes.now < 2 ^ 32 }
    // What is read is what the bytes say.
    ensures found { IfOk result (λ file. Reads bytes.now file) }
    // What they say is read, unless memory runs out.
    ensures only { (file : File) → Reads bytes.now file → MatchResult result (λ f. f ≡ file) (λ fault. fault.kind ≡ FileKind.Memory) }
    // Which fault it is.
    ensures faults { IfErr result (λ fault. IsFileFault bytes.now fault) }
{
    match read_whole(alloc, bytes) {
        Ok(file) => Ok(file),
        Err(stop) => Err(fault_of(bytes, stop)),
    }
}
