//! The fields of a class.

ghost use Rattle.std.specs.Prelude.{◌≡◌, ◌++◌, length, OnOk};
ghost use Rattle.std.specs.List.{flat_map};
ghost use Rattle.cf_form.specs.Pool.{Fits2};
ghost use Rattle.cf_form.specs.Outline.{counted};
ghost use Rattle.cf_write.specs.Spelling.{field_bytes};

use crate::NoMemory;
use crate::numbers::put_two;
use cf_form::FieldInfo;

/// Appends the fields after their count (JVMS 4.1, 4.5).
pub fn put_fields(into: &mut Vec<u8>, fields: &[FieldInfo]) -> Result<(), NoMemory>
    requires { Fits2 (length fields.now) }
    ensures { OnOk result (into.new.items ≡ into.old.items ++ counted field_bytes fields.now) }
{
    put_two(into, fields.len() as u16)?;
    put_each_field(into, fields)
}

// Appends the fields.
fn put_each_field(into: &mut Vec<u8>, fields: &[FieldInfo]) -> Result<(), NoMemory>
    ensures { OnOk result (into.new.items ≡ into.old.items ++ flat_map field_bytes fields.now) }
{
    for field in fields {
        put_field(into, field)?;
    }
    Ok(())
}

// Appends a field, which has no attribute.
fn put_field(into: &mut Vec<u8>, field: &FieldInfo) -> Result<(), NoMemory>
    ensures { OnOk result (into.new.items ≡ into.old.items ++ field_bytes field.now) }
{
    put_two(into, field.access)?;
    put_two(into, field.name)?;
    put_two(into, field.descriptor)?;
    put_two(into, 0)
}
