//! The interfaces of a class.

ghost use Rattle.std.specs.Prelude.{◌≡◌, ◌++◌, length, OnOk};
ghost use Rattle.std.specs.List.{flat_map};
ghost use Rattle.cf_form.specs.Pool.{u2, Fits2};
ghost use Rattle.cf_form.specs.Outline.{counted};

use crate::NoMemory;
use crate::numbers::put_two;

/// Appends the interfaces after their count (JVMS 4.1).
pub fn put_interfaces(into: &mut Vec<u8>, interfaces: &[u16]) -> Result<(), NoMemory>
    requires { Fits2 (length interfaces.now) }
    ensures { OnOk result (into.new.items ≡ into.old.items ++ counted u2 interfaces.now) }
{
    put_two(into, interfaces.len() as u16)?;
    put_each_interface(into, interfaces)
}

// Appends the interfaces.
fn put_each_interface(into: &mut Vec<u8>, interfaces: &[u16]) -> Result<(), NoMemory>
    ensures { OnOk result (into.new.items ≡ into.old.items ++ flat_map u2 interfaces.now) }
{
    for interface in interfaces {
        put_two(into, *interface)?;
    }
    Ok(())
}
