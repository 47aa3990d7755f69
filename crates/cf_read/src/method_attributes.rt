//! The attributes of a method, of which one may be its Code (JVMS 4.6).

ghost use Rattle.std.specs.Prelude.{◌≡◌, option_map, None};
ghost use Rattle.cf_form.specs.Pool.{text_at};
ghost use Rattle.cf_read.specs.Giving.{Gives};
ghost use Rattle.cf_read.specs.Reading.{is_code_name, is_without_code, method_code_at, other_at, attribute_at, method_attributes_at};
ghost use Rattle.cf_read.specs.Views.{found_of};

use crate::attributes::info_at;
use crate::code_attribute::code_at;
use crate::fault::{Stop, refused};
use crate::file_fault::FileKind;
use crate::numbers::u2_at;
use crate::parts::CodeParts;
use cf_form::{Const, entry};
use std::alloc::Global;

/// So many attributes of a method with this access, with its Code, if one of them is.
pub(crate) fn method_attributes_at<'a>(
    alloc: Global,
    pool: &[Const],
    access: u16,
    count: u16,
    bytes: &'a [u8],
) -> Result<(Option<CodeParts<'a>>, &'a [u8]), Stop>
    ensures { Gives (λ x. (option_map found_of x.0, x.1.now)) result (method_attributes_at count pool.now access None bytes.now) }
{
    let mut code = None;
    let mut rest = bytes;
    for _ in 0..count {
        let (next, after) = attribute_at(alloc, pool, access, code, rest)?;
        code = next;
        rest = after;
    }
    Ok((code, rest))
}

// An attribute of a method, behind others of which one, or none, was its Code.
#[tactic(auto, unfolding(crate::specs::Reading::attribute_at, crate::specs::Reading::other_at))]
fn attribute_at<'a>(
    alloc: Global,
    pool: &[Const],
    access: u16,
    before: Option<CodeParts<'a>>,
    bytes: &'a [u8],
) -> Result<(Option<CodeParts<'a>>, &'a [u8]), Stop>
    ensures { Gives (λ x. (option_map found_of x.0, x.1.now)) result (attribute_at pool.now access (option_map found_of before.entry) bytes.now) }
{
    let (name, rest) = u2_at(bytes)?;
    if is_code_name(pool, name) {
        method_code_at(alloc, access, before, bytes, rest)
    } else {
        let (_info, rest) = info_at(rest)?;
        Ok((before, rest))
    }
}

// The Code, which begins at `from`, of a method with this access, behind another one or none.
#[tactic(auto, unfolding(crate::specs::Reading::method_code_at))]
fn method_code_at<'a>(
    alloc: Global,
    access: u16,
    before: Option<CodeParts<'a>>,
    from: &[u8],
    bytes: &'a [u8],
) -> Result<(Option<CodeParts<'a>>, &'a [u8]), Stop>
    ensures { Gives (λ x. (option_map found_of x.0, x.1.now)) result (method_code_at access (option_map found_of before.entry) from.now bytes.now) }
{
    if is_without_code(access) || before.is_some() {
        return Err(refused(FileKind::Code, from));
    }
    let (found, rest) = code_at(alloc, bytes)?;
    Ok((Some(found), rest))
}

/// Whether ACC_ABSTRACT or ACC_NATIVE is set.
pub(crate) fn is_without_code(access: u16) -> bool
    ensures { result ≡ is_without_code access }
{
    access & 0x0500 != 0
}

// Whether this index names the text `Code`.
fn is_code_name(pool: &[Const], name: u16) -> bool
    ensures { result ≡ is_code_name (text_at pool.now name) }
{
    match entry(pool, name) {
        Some(Const::Utf8(text)) => text.as_str() == "Code",
        _ => false,
    }
}
