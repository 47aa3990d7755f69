//! The methods of a class.

ghost use Rattle.std.specs.Prelude.{◌≡◌, ◌++◌, length, OnOk};
ghost use Rattle.std.specs.List.{flat_map, AllByRecursion};
ghost use Rattle.cf_form.specs.Pool.{Fits2};
ghost use Rattle.cf_form.specs.Outline.{counted};
ghost use Rattle.cf_write.specs.Spelling.{attributes_bytes, method_bytes};
ghost use Rattle.cf_write.specs.Writable.{CodeIsWritableOrNone, MethodIsWritable};

use crate::NoMemory;
use crate::codes::put_code;
use crate::numbers::put_two;
use cf_form::{Code, MethodInfo};
use std::alloc::Global;

/// Appends the methods after their count (JVMS 4.1, 4.6). `name` is the index of the text `Code`.
pub fn put_methods(
    alloc: Global,
    into: &mut Vec<u8>,
    name: u16,
    methods: &[MethodInfo],
) -> Result<(), NoMemory>
    requires count { Fits2 (length methods.now) }
    requires codes { AllByRecursion MethodIsWritable methods.now }
    ensures { OnOk result (into.new.items ≡ into.old.items ++ counted (method_bytes name) methods.now) }
{
    put_two(into, methods.len() as u16)?;
    put_each_method(alloc, into, name, methods)
}

// Appends the methods.
fn put_each_method(
    alloc: Global,
    into: &mut Vec<u8>,
    name: u16,
    methods: &[MethodInfo],
) -> Result<(), NoMemory>
    requires { AllByRecursion MethodIsWritable methods.now }
    ensures { OnOk result (into.new.items ≡ into.old.items ++ flat_map (method_bytes name) methods.now) }
{
    for method in methods {
        put_method(alloc, into, name, method)?;
    }
    Ok(())
}

// Appends a method.
fn put_method(
    alloc: Global,
    into: &mut Vec<u8>,
    name: u16,
    method: &MethodInfo,
) -> Result<(), NoMemory>
    requires { MethodIsWritable method.now }
    ensures { OnOk result (into.new.items ≡ into.old.items ++ method_bytes name method.now) }
{
    put_two(into, method.access)?;
    put_two(into, method.name)?;
    put_two(into, method.descriptor)?;
    put_attributes(alloc, into, name, &method.code)
}

// Appends the attributes of a method: Code, or none.
fn put_attributes(
    alloc: Global,
    into: &mut Vec<u8>,
    name: u16,
    code: &Option<Code>,
) -> Result<(), NoMemory>
    requires { CodeIsWritableOrNone code.now }
    ensures { OnOk result (into.new.items ≡ into.old.items ++ attributes_bytes name code.now) }
{
    match code {
        None => put_two(into, 0),
        Some(code) => put_code(alloc, into, name, code),
    }
}
