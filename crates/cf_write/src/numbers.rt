//! Numbers as bytes, the high one first.

ghost use Rattle.std.specs.Prelude.{◌≡◌, ◌++◌, ◌∷◌, OnOk};
ghost use Rattle.std.specs.Int.{w64, to_be_bytes};
ghost use Rattle.cf_form.specs.Pool.{u2, u4};

use crate::NoMemory;

/// Appends a number in two bytes.
pub fn put_two(into: &mut Vec<u8>, number: u16) -> Result<(), NoMemory>
    ensures { OnOk result (into.new.items ≡ into.old.items ++ u2 number) }
{
    into.extend_from_slice(&number.to_be_bytes())?;
    Ok(())
}

/// Appends a number in four bytes.
pub fn put_four(into: &mut Vec<u8>, number: u32) -> Result<(), NoMemory>
    ensures { OnOk result (into.new.items ≡ into.old.items ++ u4 number) }
{
    into.extend_from_slice(&number.to_be_bytes())?;
    Ok(())
}

/// Appends a tag and two bytes.
pub fn put_tag_two(into: &mut Vec<u8>, tag: u8, number: u16) -> Result<(), NoMemory>
    ensures { OnOk result (into.new.items ≡ into.old.items ++ tag ∷ u2 number) }
{
    into.push(tag)?;
    into.extend_from_slice(&number.to_be_bytes())?;
    Ok(())
}

/// Appends a tag and twice two bytes.
pub fn put_tag_pair(into: &mut Vec<u8>, tag: u8, one: u16, other: u16) -> Result<(), NoMemory>
    ensures { OnOk result (into.new.items ≡ into.old.items ++ tag ∷ u2 one ++ u2 other) }
{
    into.push(tag)?;
    into.extend_from_slice(&one.to_be_bytes())?;
    into.extend_from_slice(&other.to_be_bytes())?;
    Ok(())
}

/// Appends a tag and four bytes.
pub fn put_tag_four(into: &mut Vec<u8>, tag: u8, number: u32) -> Result<(), NoMemory>
    ensures { OnOk result (into.new.items ≡ into.old.items ++ tag ∷ u4 number) }
{
    into.push(tag)?;
    into.extend_from_slice(&number.to_be_bytes())?;
    Ok(())
}

/// Appends a tag and eight bytes.
pub fn put_tag_eight(into: &mut Vec<u8>, tag: u8, number: u64) -> Result<(), NoMemory>
    ensures { OnOk result (into.new.items ≡ into.old.items ++ tag ∷ to_be_bytes w64 number) }
{
    into.push(tag)?;
    into.extend_from_slice(&number.to_be_bytes())?;
    Ok(())
}
