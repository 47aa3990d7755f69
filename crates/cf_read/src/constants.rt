//! Entries of the constant pool (JVMS 4.4).

ghost use Rattle.std.specs.Prelude.{◌≡◌, ◌≤◌, length, IfErr, IfOk};
ghost use Rattle.cf_mutf8.specs.Decoded.{decoded};
ghost use Rattle.cf_form.specs.declared.constant.Const.TheVariants.{Int, Float, Long, Double, Class, Text, Field, Method, Interface, NameType};
ghost use Rattle.cf_read.specs.Giving.{Gives};
ghost use Rattle.cf_read.specs.Reading.{text_constant_at, indexed_at, paired_at, int_at, float_at, long_at, double_at, tagged_at, constant_at};

use crate::fault::{Stop, refused};
use crate::file_fault::FileKind;
use crate::numbers::{some_at, two_at, u1_at, u2_at, u4_at, u8_at};
use cf_form::Const;
use cf_mutf8::{Utf8Fault, get};
use sl_base::Name;
use std::alloc::Global;

/// A constant. Where it takes the last entry of the pool, it may take no second one.
#[tactic(auto, unfolding(crate::specs::Reading::constant_at))]
pub(crate) fn constant_at(
    alloc: Global,
    is_last: bool,
    bytes: &[u8],
) -> Result<(Const, &[u8]), Stop>
    ensures { Gives (λ x. (x.0, x.1.now)) result (constant_at is_last bytes.now) }
{
    let (tag, rest) = u1_at(bytes)?;
    if is_last && (tag == 5 || tag == 6) {
        return Err(refused(FileKind::Index, bytes));
    }
    tagged_at(alloc, tag, bytes, rest)
}

// What stands behind a tag, in a constant that begins at `from`.
#[tactic(auto, unfolding(crate::specs::Reading::tagged_at))]
fn tagged_at<'a>(
    alloc: Global,
    tag: u8,
    from: &[u8],
    bytes: &'a [u8],
) -> Result<(Const, &'a [u8]), Stop>
    ensures { Gives (λ x. (x.0, x.1.now)) result (tagged_at tag from.now bytes.now) }
{
    match tag {
        1 => text_constant_at(alloc, from, bytes),
        3 => int_at(bytes),
        4 => float_at(bytes),
        5 => long_at(bytes),
        6 => double_at(bytes),
        7 => read_class(bytes),
        8 => read_text(bytes),
        9 => read_field(bytes),
        10 => read_method(bytes),
        11 => read_interface(bytes),
        12 => read_name_type(bytes),
        _ => Err(refused(FileKind::Tag, from)),
    }
}

// A text, in a constant that begins at `from`.
#[tactic(auto, unfolding(crate::specs::Reading::text_constant_at))]
fn text_constant_at<'a>(
    alloc: Global,
    from: &[u8],
    bytes: &'a [u8],
) -> Result<(Const, &'a [u8]), Stop>
    ensures { Gives (λ x. (x.0, x.1.now)) result (text_constant_at from.now bytes.now) }
{
    let (count, rest) = u2_at(bytes)?;
    let (text, rest) = some_at(usize::from(count), rest)?;
    match text_of(alloc, text)? {
        Some(name) => Ok((Const::Utf8(name), rest)),
        None => Err(refused(FileKind::Utf, from)),
    }
}

// The text that the bytes spell, if they spell one.
fn text_of(alloc: Global, bytes: &[u8]) -> Result<Option<Name>, Stop>
    requires { length bytes.now ≤ 65535 }
    ensures found { IfOk result (λ text. decoded bytes.now ≡ text) }
    ensures stops { IfErr result (λ stop. stop ≡ Stop.Memory) }
{
    match get(alloc, bytes) {
        Ok(text) => Ok(Some(Name::from_string(text))),
        Err(Utf8Fault::BadUtf { at: _at }) => Ok(None),
        Err(Utf8Fault::Memory) => Err(Stop::Memory),
    }
}

#[tactic(auto, unfolding(crate::specs::Reading::int_at))]
fn int_at(bytes: &[u8]) -> Result<(Const, &[u8]), Stop>
    ensures { Gives (λ x. (x.0, x.1.now)) result (int_at bytes.now) }
{
    let (number, rest) = u4_at(bytes)?;
    Ok((Const::Int(number.cast_signed()), rest))
}

#[tactic(auto, unfolding(crate::specs::Reading::float_at))]
fn float_at(bytes: &[u8]) -> Result<(Const, &[u8]), Stop>
    ensures { Gives (λ x. (x.0, x.1.now)) result (float_at bytes.now) }
{
    let (bits, rest) = u4_at(bytes)?;
    Ok((Const::Float(bits), rest))
}

#[tactic(auto, unfolding(crate::specs::Reading::long_at))]
fn long_at(bytes: &[u8]) -> Result<(Const, &[u8]), Stop>
    ensures { Gives (λ x. (x.0, x.1.now)) result (long_at bytes.now) }
{
    let (number, rest) = u8_at(bytes)?;
    Ok((Const::Long(number.cast_signed()), rest))
}

#[tactic(auto, unfolding(crate::specs::Reading::double_at))]
fn double_at(bytes: &[u8]) -> Result<(Const, &[u8]), Stop>
    ensures { Gives (λ x. (x.0, x.1.now)) result (double_at bytes.now) }
{
    let (bits, rest) = u8_at(bytes)?;
    Ok((Const::Double(bits), rest))
}

#[tactic(auto, unfolding(crate::specs::Reading::indexed_at))]
fn read_class(bytes: &[u8]) -> Result<(Const, &[u8]), Stop>
    ensures { Gives (λ x. (x.0, x.1.now)) result (indexed_at Class bytes.now) }
{
    let (name, rest) = u2_at(bytes)?;
    Ok((Const::Class(name), rest))
}

#[tactic(auto, unfolding(crate::specs::Reading::indexed_at))]
fn read_text(bytes: &[u8]) -> Result<(Const, &[u8]), Stop>
    ensures { Gives (λ x. (x.0, x.1.now)) result (indexed_at Text bytes.now) }
{
    let (text, rest) = u2_at(bytes)?;
    Ok((Const::Text(text), rest))
}

#[tactic(auto, unfolding(crate::specs::Reading::paired_at))]
fn read_field(bytes: &[u8]) -> Result<(Const, &[u8]), Stop>
    ensures { Gives (λ x. (x.0, x.1.now)) result (paired_at Field bytes.now) }
{
    let (class, member, rest) = two_at(bytes)?;
    Ok((Const::Field(class, member), rest))
}

#[tactic(auto, unfolding(crate::specs::Reading::paired_at))]
fn read_method(bytes: &[u8]) -> Result<(Const, &[u8]), Stop>
    ensures { Gives (λ x. (x.0, x.1.now)) result (paired_at Method bytes.now) }
{
    let (class, member, rest) = two_at(bytes)?;
    Ok((Const::Method(class, member), rest))
}

#[tactic(auto, unfolding(crate::specs::Reading::paired_at))]
fn read_interface(bytes: &[u8]) -> Result<(Const, &[u8]), Stop>
    ensures { Gives (λ x. (x.0, x.1.now)) result (paired_at Interface bytes.now) }
{
    let (class, member, rest) = two_at(bytes)?;
    Ok((Const::Interface(class, member), rest))
}

#[tactic(auto, unfolding(crate::specs::Reading::paired_at))]
fn read_name_type(bytes: &[u8]) -> Result<(Const, &[u8]), Stop>
    ensures { Gives (λ x. (x.0, x.1.now)) result (paired_at NameType bytes.now) }
{
    let (name, descriptor, rest) = two_at(bytes)?;
    Ok((Const::NameType(name, descriptor), rest))
}
