//! What fields and methods begin with, and fields (JVMS 4.5, 4.6).

ghost use Rattle.std.specs.Prelude.{◌≡◌, ◌<◌, [], map, OnOk};
ghost use Rattle.std.specs.List.{list_any};
ghost use Rattle.cf_read.specs.Giving.{Gives};
ghost use Rattle.cf_read.specs.Reading.{same_text, same_key, key_of, front_at, field_at, field_key, members_at, fields_at};
ghost use Rattle.cf_form.specs.Pool.{text_at};
ghost use Rattle.cf_read.specs.Seen.{AreKept, NumbersTexts, NumbersIfAny};
ghost use Rattle.cf_read.specs.Views.{front_of, key_at};

use crate::attributes::attributes_at;
use crate::fault::{Stop, refused};
use crate::file_fault::FileKind;
use crate::numbers::u2_at;
use crate::parts::FrontParts;
use crate::references::index_at;
use crate::seen::{Members, is_among, keep, no_members, room_for};
use crate::text_numbers::number_for;
use cf_form::{Const, FieldInfo, Kind};
use std::alloc::Global;

/// The access, the name and the descriptor of a member that is like none of these members.
#[tactic(auto, unfolding(crate::specs::Reading::front_at))]
pub(crate) fn front_at<'a>(
    pool: &[Const],
    texts: &[u16],
    members: &Members,
    bytes: &'a [u8],
) -> Result<(FrontParts, &'a [u8]), Stop>
    requires { AreKept pool.now texts.now members.now }
    ensures { Gives (λ x. (front_of x.0, x.1.now)) result (front_at pool.now (map (key_at pool.now) members.now.keys.items) bytes.now) }
{
    let (access, rest) = u2_at(bytes)?;
    let (name, rest) = index_at(pool, Kind::Utf8, rest)?;
    let (descriptor, rest) = index_at(pool, Kind::Utf8, rest)?;
    if is_among(pool, texts, members, name, descriptor) {
        return Err(refused(FileKind::Double, bytes));
    }
    let front = FrontParts {
        access,
        name,
        descriptor,
    };
    Ok((front, rest))
}

/// The fields, after their count. `texts` has the numbers of the pool's texts, once they are made.
#[tactic(auto, unfolding(crate::specs::Reading::fields_at))]
pub(crate) fn fields_at<'a>(
    alloc: Global,
    pool: &[Const],
    texts: &mut Vec<u16>,
    bytes: &'a [u8],
) -> Result<(Vec<FieldInfo>, &'a [u8]), Stop>
    requires { NumbersIfAny pool.now texts.old.items }
    ensures read { Gives (λ x. (x.0.items, x.1.now)) result (fields_at pool.now bytes.now) }
    ensures texts { OnOk result (NumbersIfAny pool.now texts.new.items) }
{
    let (count, rest) = u2_at(bytes)?;
    number_for(alloc, pool, count, texts)?;
    read_all_fields(alloc, pool, texts, count, rest)
}

// So many fields.
fn read_all_fields<'a>(
    alloc: Global,
    pool: &[Const],
    texts: &[u16],
    count: u16,
    bytes: &'a [u8],
) -> Result<(Vec<FieldInfo>, &'a [u8]), Stop>
    requires { 1 < count → NumbersTexts pool.now texts.now }
    ensures { Gives (λ x. (x.0.items, x.1.now)) result (members_at (field_at pool.now) (field_key pool.now) count [] bytes.now) }
{
    let room = room_for(count, bytes);
    let mut fields = Vec::with_capacity(alloc, room)?;
    let mut members = no_members(alloc, texts, room)?;
    let mut rest = bytes;
    for _ in 0..count {
        let (field, after) = field_at(pool, texts, &members, rest)?;
        keep(texts, &mut members, field.name, field.descriptor)?;
        fields.push(field)?;
        rest = after;
    }
    Ok((fields, rest))
}

// A field that is like none of these members.
#[tactic(auto, unfolding(crate::specs::Reading::field_at))]
fn field_at<'a>(
    pool: &[Const],
    texts: &[u16],
    members: &Members,
    bytes: &'a [u8],
) -> Result<(FieldInfo, &'a [u8]), Stop>
    requires { AreKept pool.now texts.now members.now }
    ensures { Gives (λ x. (x.0, x.1.now)) result (field_at pool.now (map (key_at pool.now) members.now.keys.items) bytes.now) }
{
    let (front, rest) = front_at(pool, texts, members, bytes)?;
    let rest = attributes_at(rest)?;
    let field = FieldInfo {
        access: front.access,
        name: front.name,
        descriptor: front.descriptor,
    };
    Ok((field, rest))
}
