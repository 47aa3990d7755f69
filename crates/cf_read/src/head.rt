//! What a class file begins with: the magic and the version (JVMS 4.1).

ghost use Rattle.std.specs.Prelude.{◌≡◌};
ghost use Rattle.cf_read.specs.Giving.{Gives};
ghost use Rattle.cf_read.specs.Reading.{magic_at, version_at};

use crate::fault::{Stop, refused};
use crate::file_fault::FileKind;
use crate::numbers::{u2_at, u4_at};
use cf_form::is_version;

/// The bytes behind the magic.
#[tactic(auto, unfolding(crate::specs::Reading::magic_at))]
pub(crate) fn magic_at(bytes: &[u8]) -> Result<&[u8], Stop>
    ensures { Gives (λ x. (tt, x.now)) result (magic_at bytes.now) }
{
    let (magic, rest) = u4_at(bytes)?;
    if magic != 0xCAFEBABE {
        return Err(refused(FileKind::Magic, bytes));
    }
    Ok(rest)
}

/// The minor and the major version.
#[tactic(auto, unfolding(crate::specs::Reading::version_at))]
pub(crate) fn version_at(bytes: &[u8]) -> Result<(u16, u16, &[u8]), Stop>
    ensures { Gives (λ x. ((x.0, x.1), x.2.now)) result (version_at bytes.now) }
{
    let (minor, from) = u2_at(bytes)?;
    let (major, rest) = u2_at(from)?;
    if !is_version(major) {
        return Err(refused(FileKind::Version, from));
    }
    Ok((minor, major, rest))
}
