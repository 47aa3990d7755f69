//! A class file as bytes.

ghost use Rattle.std.specs.Prelude.{◌≡◌, ◌++◌, OnOk};
ghost use Rattle.cf_form.specs.Outline.{counted};
ghost use Rattle.cf_form.specs.Pool.{u2};
ghost use Rattle.cf_write.specs.Spelling.{head, spelling};
ghost use Rattle.cf_write.specs.Writable.{IsWritable};

use crate::NoMemory;
use crate::code_name::first_code;
use crate::constants::put_pool;
use crate::fields::put_fields;
use crate::interfaces::put_interfaces;
use crate::methods::put_methods;
use crate::numbers::put_two;
use cf_form::ClassFile;
use std::alloc::Global;

/// Appends a class file (JVMS 4.1).
#[tactic(auto, unfolding(crate::specs::Spelling::spelling))]
pub(crate) fn put_file(alloc: Global, into: &mut Vec<u8>, file: &ClassFile) -> Result<(), NoMemory>
    requires { IsWritable file.now }
    ensures { OnOk result (into.new.items ≡ into.old.items ++ spelling file.now) }
{
    put_head(into, file)?;
    put_class(into, file)?;
    put_fields(into, file.fields.as_slice())?;
    let name = first_code(file.pool.as_slice());
    put_methods(alloc, into, name, file.methods.as_slice())?;
    put_two(into, 0)
}

// Appends the magic, the version and the pool.
fn put_head(into: &mut Vec<u8>, file: &ClassFile) -> Result<(), NoMemory>
    requires { IsWritable file.now }
    ensures { OnOk result (into.new.items ≡ into.old.items ++ head file.now) }
{
    into.extend_from_slice(&[0xCA, 0xFE, 0xBA, 0xBE])?;
    put_two(into, file.minor)?;
    put_two(into, file.major)?;
    put_pool(into, file.pool.as_slice())
}

// Appends the class, its parent and its interfaces.
fn put_class(into: &mut Vec<u8>, file: &ClassFile) -> Result<(), NoMemory>
    requires { IsWritable file.now }
    ensures { OnOk result (into.new.items ≡ into.old.items ++ u2 file.now.access ++ u2 file.now.this ++ u2 file.now.parent ++ counted u2 file.now.interfaces) }
{
    put_two(into, file.access)?;
    put_two(into, file.this)?;
    put_two(into, file.parent)?;
    put_interfaces(into, file.interfaces.as_slice())
}
