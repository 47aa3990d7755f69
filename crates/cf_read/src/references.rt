//! The references of a constant pool, which are looked at after it (JVMS 4.4).

ghost use Rattle.std.specs.Prelude.{◌≡◌, length, drop};
ghost use Rattle.cf_form.specs.Pool.{constant_bytes};
ghost use Rattle.cf_read.specs.Giving.{Gives};
ghost use Rattle.cf_read.specs.Reading.{index_at, indexes_at, references_at, all_references_at};

use crate::fault::{Stop, refused};
use crate::file_fault::FileKind;
use crate::numbers::{skip, u2_at};
use cf_form::{Const, Kind, names};

/// An index of an entry of this kind.
#[tactic(auto, unfolding(crate::specs::Reading::index_at))]
pub(crate) fn index_at<'a>(
    pool: &[Const],
    needed: Kind,
    bytes: &'a [u8],
) -> Result<(u16, &'a [u8]), Stop>
    ensures { Gives (λ x. (x.0, x.1.now)) result (index_at pool.now needed bytes.now) }
{
    let (index, rest) = u2_at(bytes)?;
    if names(pool, needed, index) {
        Ok((index, rest))
    } else {
        Err(refused(FileKind::Index, bytes))
    }
}

// Two indexes, and what is behind them.
#[tactic(auto, unfolding(crate::specs::Reading::indexes_at))]
fn indexes_at<'a>(pool: &[Const], one: Kind, other: Kind, bytes: &'a [u8]) -> Result<&'a [u8], Stop>
    ensures { Gives (λ x. (tt, x.now)) result (indexes_at pool.now one other bytes.now) }
{
    let (_one, rest) = index_at(pool, one, bytes)?;
    let (_other, rest) = index_at(pool, other, rest)?;
    Ok(rest)
}

// Looks at the references of a constant, which stand behind its tag.
#[tactic(auto, unfolding(crate::specs::Reading::references_at))]
fn references_at(pool: &[Const], constant: &Const, bytes: &[u8]) -> Result<(), Stop>
    ensures { Gives (λ _. tt) result (references_at pool.now constant.now bytes.now) }
{
    match constant {
        Const::Class(_) | Const::Text(_) => {
            let (_index, _rest) = index_at(pool, Kind::Utf8, bytes)?;
            Ok(())
        }
        Const::Field(_, _) | Const::Method(_, _) | Const::Interface(_, _) => {
            let _rest = indexes_at(pool, Kind::Class, Kind::NameType, bytes)?;
            Ok(())
        }
        Const::NameType(_, _) => {
            let _rest = indexes_at(pool, Kind::Utf8, Kind::Utf8, bytes)?;
            Ok(())
        }
        _ => Ok(()),
    }
}

/// Looks at the references of all constants of a pool, which begin the bytes.
pub(crate) fn all_references_at(pool: &[Const], bytes: &[u8]) -> Result<(), Stop>
    ensures { Gives (λ _. tt) result (all_references_at pool.now pool.now bytes.now) }
{
    let mut rest = bytes;
    for constant in pool {
        references_at(pool, constant, skip(1, rest))?;
        rest = behind(constant, rest);
    }
    Ok(())
}

// The bytes behind a constant, which begins them.
fn behind<'a>(constant: &Const, bytes: &'a [u8]) -> &'a [u8]
    ensures { result.now ≡ drop (length (constant_bytes constant.now)) bytes.now }
{
    match constant {
        Const::Utf8(name) => skip(cf_mutf8::length(name.as_str()) as usize, skip(3, bytes)),
        Const::Rest => bytes,
        Const::Class(_) | Const::Text(_) => skip(3, bytes),
        Const::Long(_) | Const::Double(_) => skip(9, bytes),
        _ => skip(5, bytes),
    }
}
