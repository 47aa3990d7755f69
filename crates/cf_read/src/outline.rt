//! A class file before its codes are looked into (JVMS 4.1).

ghost use Rattle.std.specs.Prelude.{◌≡◌};
ghost use Rattle.cf_read.specs.Giving.{Gives};
ghost use Rattle.cf_read.specs.Reading.{head_at, outline_of};
ghost use Rattle.cf_read.specs.Views.{file_of};

use crate::attributes::{attributes_at, interfaces_at};
use crate::fault::{Stop, refused};
use crate::file_fault::FileKind;
use crate::head::{magic_at, version_at};
use crate::members::fields_at;
use crate::methods::methods_at;
use crate::numbers::{skip, u2_at};
use crate::parts::FileParts;
use crate::pool::pool_at;
use crate::references::{all_references_at, index_at};
use cf_form::{Const, Kind};
use std::alloc::Global;

// What stands before the access flags: the version and the pool.
#[derive(Drop)]
struct Head {
    minor: u16,
    major: u16,
    pool: Vec<Const>,
}

// The magic, the version and the constant pool.
#[tactic(auto, unfolding(crate::specs::Reading::head_at))]
fn head_at(alloc: Global, bytes: &[u8]) -> Result<(Head, &[u8]), Stop>
    ensures { Gives (λ x. (((x.0.minor, x.0.major), x.0.pool.items), x.1.now)) result (head_at bytes.now) }
{
    let rest = magic_at(bytes)?;
    let (minor, major, from_major) = version_at(rest)?;
    let (pool, rest) = pool_at(alloc, from_major)?;
    all_references_at(&pool, skip(2, from_major))?;
    Ok((Head { minor, major, pool }, rest))
}

/// All of the bytes.
#[tactic(auto, unfolding(crate::specs::Reading::outline_of))]
pub(crate) fn outline_of(alloc: Global, bytes: &[u8]) -> Result<FileParts<'_>, Stop>
    ensures { Gives file_of result (outline_of bytes.now) }
{
    let (head, rest) = head_at(alloc, bytes)?;
    let Head { minor, major, pool } = head;
    let (access, rest) = u2_at(rest)?;
    let (this, rest) = index_at(&pool, Kind::Class, rest)?;
    let (parent, rest) = index_at(&pool, Kind::Class, rest)?;
    let (interfaces, rest) = interfaces_at(alloc, &pool, rest)?;
    let mut texts = Vec::new(alloc);
    let (fields, rest) = fields_at(alloc, &pool, &mut texts, rest)?;
    let (methods, rest) = methods_at(alloc, &pool, &mut texts, rest)?;
    let rest = attributes_at(rest)?;
    if !rest.is_empty() {
        return Err(refused(FileKind::Rest, rest));
    }
    Ok(FileParts {
        minor,
        major,
        pool,
        access,
        this,
        parent,
        interfaces,
        fields,
        methods,
    })
}
