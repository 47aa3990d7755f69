//! The constant pool.

ghost use Rattle.std.specs.Prelude.{◌≡◌, ◌+◌, ◌∷◌, ◌++◌, length, OnOk};
ghost use Rattle.std.specs.List.{flat_map, AllByRecursion};
ghost use Rattle.std.specs.Str.{chars};
ghost use Rattle.cf_mutf8.specs.ModifiedUtf8.{encoded};
ghost use Rattle.cf_form.specs.Pool.{u2, Fits2, constant_bytes};
ghost use Rattle.cf_write.specs.Writable.{TextFits};

use crate::NoMemory;
use crate::numbers::{put_tag_eight, put_tag_four, put_tag_pair, put_tag_two, put_two};
use cf_form::Const;

/// Appends the count and the entries of a pool (JVMS 4.1, 4.4). The count is one more than the entries.
pub fn put_pool(into: &mut Vec<u8>, pool: &[Const]) -> Result<(), NoMemory>
    requires count { Fits2 (1 + length pool.now) }
    requires texts { AllByRecursion TextFits pool.now }
    ensures { OnOk result (into.new.items ≡ into.old.items ++ u2 (1 + length pool.now) ++ flat_map constant_bytes pool.now) }
{
    put_two(into, (1 + pool.len()) as u16)?;
    put_constants(into, pool)
}

// Appends the entries.
fn put_constants(into: &mut Vec<u8>, pool: &[Const]) -> Result<(), NoMemory>
    requires { AllByRecursion TextFits pool.now }
    ensures { OnOk result (into.new.items ≡ into.old.items ++ flat_map constant_bytes pool.now) }
{
    for constant in pool {
        put_constant(into, constant)?;
    }
    Ok(())
}

// Appends an entry (JVMS 4.4).
fn put_constant(into: &mut Vec<u8>, constant: &Const) -> Result<(), NoMemory>
    requires { TextFits constant.now }
    ensures { OnOk result (into.new.items ≡ into.old.items ++ constant_bytes constant.now) }
{
    match constant {
        Const::Utf8(text) => put_text(into, text.as_str()),
        Const::Int(number) => put_tag_four(into, 3, number.cast_unsigned()),
        Const::Float(bits) => put_tag_four(into, 4, *bits),
        Const::Long(number) => put_tag_eight(into, 5, number.cast_unsigned()),
        Const::Double(bits) => put_tag_eight(into, 6, *bits),
        Const::Class(name) => put_tag_two(into, 7, *name),
        Const::Text(text) => put_tag_two(into, 8, *text),
        Const::Field(class, member) => put_tag_pair(into, 9, *class, *member),
        Const::Method(class, member) => put_tag_pair(into, 10, *class, *member),
        Const::Interface(class, member) => put_tag_pair(into, 11, *class, *member),
        Const::NameType(name, descriptor) => put_tag_pair(into, 12, *name, *descriptor),
        Const::Rest => Ok(()),
    }
}

// Appends a text: its tag, the count of its bytes, and its bytes (JVMS 4.4.7).
fn put_text(into: &mut Vec<u8>, text: &str) -> Result<(), NoMemory>
    requires { Fits2 (length (encoded (chars text.now))) }
    ensures { OnOk result (into.new.items ≡ into.old.items ++ 1 ∷ u2 (length (encoded (chars text.now))) ++ encoded (chars text.now)) }
{
    put_tag_two(into, 1, cf_mutf8::length(text) as u16)?;
    cf_mutf8::put_onto(text, into)?;
    Ok(())
}
