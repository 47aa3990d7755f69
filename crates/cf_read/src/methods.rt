//! Methods before their codes are looked into (JVMS 4.6).

ghost use Rattle.std.specs.Prelude.{◌≡◌, ◌<◌, [], map, OnOk};
ghost use Rattle.cf_read.specs.Giving.{Gives};
ghost use Rattle.cf_read.specs.Reading.{method_at, method_key, members_at, methods_at};
ghost use Rattle.cf_read.specs.Seen.{AreKept, NumbersTexts, NumbersIfAny};
ghost use Rattle.cf_read.specs.Views.{method_of, key_at};

use crate::fault::{Stop, refused};
use crate::file_fault::FileKind;
use crate::members::front_at;
use crate::method_attributes::{is_without_code, method_attributes_at};
use crate::numbers::u2_at;
use crate::parts::MethodParts;
use crate::seen::{Members, keep, no_members, room_for};
use crate::text_numbers::number_for;
use cf_form::Const;
use std::alloc::Global;

/// The methods, after their count. `texts` has the numbers of the pool's texts, once they are made.
#[tactic(auto, unfolding(crate::specs::Reading::methods_at))]
pub(crate) fn methods_at<'a>(
    alloc: Global,
    pool: &[Const],
    texts: &mut Vec<u16>,
    bytes: &'a [u8],
) -> Result<(Vec<MethodParts<'a>>, &'a [u8]), Stop>
    requires { NumbersIfAny pool.now texts.old.items }
    ensures { Gives (λ x. (map method_of x.0.items, x.1.now)) result (methods_at pool.now bytes.now) }
{
    let (count, rest) = u2_at(bytes)?;
    number_for(alloc, pool, count, texts)?;
    read_all_methods(alloc, pool, texts, count, rest)
}

// So many methods.
fn read_all_methods<'a>(
    alloc: Global,
    pool: &[Const],
    texts: &[u16],
    count: u16,
    bytes: &'a [u8],
) -> Result<(Vec<MethodParts<'a>>, &'a [u8]), Stop>
    requires { 1 < count → NumbersTexts pool.now texts.now }
    ensures { Gives (λ x. (map method_of x.0.items, x.1.now)) result (members_at (method_at pool.now) (method_key pool.now) count [] bytes.now) }
{
    let room = room_for(count, bytes);
    let mut methods = Vec::with_capacity(alloc, room)?;
    let mut members = no_members(alloc, texts, room)?;
    let mut rest = bytes;
    for _ in 0..count {
        let (method, after) = method_at(alloc, pool, texts, &members, rest)?;
        keep(texts, &mut members, method.name, method.descriptor)?;
        methods.push(method)?;
        rest = after;
    }
    Ok((methods, rest))
}

// A method that is like none of these members. It has code exactly where it is neither abstract nor native.
#[tactic(auto, unfolding(crate::specs::Reading::method_at))]
fn method_at<'a>(
    alloc: Global,
    pool: &[Const],
    texts: &[u16],
    members: &Members,
    bytes: &'a [u8],
) -> Result<(MethodParts<'a>, &'a [u8]), Stop>
    requires { AreKept pool.now texts.now members.now }
    ensures { Gives (λ x. (method_of x.0, x.1.now)) result (method_at pool.now (map (key_at pool.now) members.now.keys.items) bytes.now) }
{
    let (front, rest) = front_at(pool, texts, members, bytes)?;
    let (count, rest) = u2_at(rest)?;
    let (code, rest) = method_attributes_at(alloc, pool, front.access, count, rest)?;
    if !is_without_code(front.access) && code.is_none() {
        return Err(refused(FileKind::Code, bytes));
    }
    let method = MethodParts {
        access: front.access,
        name: front.name,
        descriptor: front.descriptor,
        code,
    };
    Ok((method, rest))
}
