//! What indexes of constant pools name.

ghost use Rattle.std.specs.Prelude.{◌≡◌};
ghost use Rattle.std.specs.Option.{option_copied};
ghost use Rattle.std.specs.Str.{chars};
ghost use Rattle.cf_form.specs.Pool.{text_at};
ghost use Rattle.cf_link.specs.OfFiles.{class_named, name_of};
ghost use Rattle.cf_set.specs.Indexes.{number_at};

use crate::names::Names;
use cf_form::{ClassFile, Const, entry};
use sl_base::Name;

/// The text at an index; None where it names no text.
pub fn text_at(pool: &[Const], index: u16) -> Option<&Name>
    ensures { option_copied result ≡ text_at pool.now index }
{
    match entry(pool, index) {
        Some(Const::Utf8(text)) => Some(text),
        _ => None,
    }
}

/// The name of the class that an index names.
pub fn class_named(pool: &[Const], index: u16) -> Option<&Name>
    ensures { option_copied result ≡ class_named pool.now index }
{
    match entry(pool, index) {
        Some(Const::Class(name)) => text_at(pool, *name),
        Some(Const::Text(text)) => text_at(pool, *text),
        _ => None,
    }
}

/// The number of the class that an index names; None where there is no such class.
pub fn number_at(names: &Names, pool: &[Const], index: u16) -> Option<usize>
    ensures { result ≡ number_at names.now pool.now index }
{
    match class_named(pool, index) {
        Some(name) => names.number_of(name),
        None => None,
    }
}

/// The name of the class of a file; nothing where it names none.
pub fn name_of(file: &ClassFile) -> &str
    ensures { chars result.now ≡ name_of file.now }
{
    match class_named(file.pool.as_slice(), file.this) {
        Some(name) => name.as_str(),
        None => "",
    }
}
