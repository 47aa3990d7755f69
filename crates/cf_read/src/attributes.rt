//! Attributes that are passed over (JVMS 4.7), and interfaces.

ghost use Rattle.std.specs.Prelude.{◌≡◌};
ghost use Rattle.cf_form.specs.declared.kind.Kind.TheVariants as kind;
ghost use Rattle.cf_read.specs.Giving.{Gives};
ghost use Rattle.cf_read.specs.Reading.{info_at, passed_one_at, passed_at, attributes_at, index_at, many_at, interfaces_at};

use crate::fault::Stop;
use crate::numbers::{some_at, u2_at, u4_at};
use crate::references::index_at;
use cf_form::{Const, Kind};
use std::alloc::Global;

/// The bytes behind an attribute, which begins after its name.
#[tactic(auto, unfolding(crate::specs::Reading::info_at))]
pub(crate) fn info_at(bytes: &[u8]) -> Result<(&[u8], &[u8]), Stop>
    ensures { Gives (λ x. (x.0.now, x.1.now)) result (info_at bytes.now) }
{
    let (count, rest) = u4_at(bytes)?;
    let (info, rest) = some_at(count as usize, rest)?;
    Ok((info, rest))
}

/// The bytes behind attributes.
#[tactic(auto, unfolding(crate::specs::Reading::attributes_at))]
pub(crate) fn attributes_at(bytes: &[u8]) -> Result<&[u8], Stop>
    ensures { Gives (λ x. (tt, x.now)) result (attributes_at bytes.now) }
{
    let (count, rest) = u2_at(bytes)?;
    passed_at(count, rest)
}

// The bytes behind so many attributes.
fn passed_at(count: u16, bytes: &[u8]) -> Result<&[u8], Stop>
    ensures { Gives (λ x. (tt, x.now)) result (passed_at count bytes.now) }
{
    let mut rest = bytes;
    for _ in 0..count {
        rest = passed_one_at(rest)?;
    }
    Ok(rest)
}

// The bytes behind an attribute.
#[tactic(auto, unfolding(crate::specs::Reading::passed_one_at))]
fn passed_one_at(bytes: &[u8]) -> Result<&[u8], Stop>
    ensures { Gives (λ x. (tt, x.now)) result (passed_one_at bytes.now) }
{
    let (_name, rest) = u2_at(bytes)?;
    let (_info, rest) = info_at(rest)?;
    Ok(rest)
}

/// The interfaces, after their count.
#[tactic(auto, unfolding(crate::specs::Reading::interfaces_at))]
pub(crate) fn interfaces_at<'a>(
    alloc: Global,
    pool: &[Const],
    bytes: &'a [u8],
) -> Result<(Vec<u16>, &'a [u8]), Stop>
    ensures { Gives (λ x. (x.0.items, x.1.now)) result (interfaces_at pool.now bytes.now) }
{
    let (count, rest) = u2_at(bytes)?;
    read_classes(alloc, pool, count, rest)
}

// So many classes.
fn read_classes<'a>(
    alloc: Global,
    pool: &[Const],
    count: u16,
    bytes: &'a [u8],
) -> Result<(Vec<u16>, &'a [u8]), Stop>
    ensures { Gives (λ x. (x.0.items, x.1.now)) result (many_at (index_at pool.now kind.Class) count bytes.now) }
{
    let mut classes = Vec::new(alloc);
    let mut rest = bytes;
    for _ in 0..count {
        let (class, after) = index_at(pool, Kind::Class, rest)?;
        classes.push(class)?;
        rest = after;
    }
    Ok((classes, rest))
}
