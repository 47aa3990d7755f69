//! Classes that pools name and that aren't there.

ghost use Rattle.std.specs.Prelude.{◌≡◌, length, MatchOption};
ghost use Rattle.cf_link.specs.Faults.{HasNone};
ghost use Rattle.cf_link.specs.OfFiles.{names_of};
ghost use Rattle.cf_link.specs.declared.fault.LinkKind.TheVariants.{NoClass};
ghost use Rattle.cf_set.specs.First.{lacks_class, LacksAt, IfFirst, IsFirstNoClass};

use crate::names::Names;
use crate::pool::text_at;
use cf_form::{ClassFile, Const};

/// The file of the first entry that names a class that isn't there, and the entry's number in its pool, which is its index
/// less 1; None exactly where each is there.
pub fn first_missing(names: &Names, files: &[ClassFile]) -> Option<(usize, usize)>
    requires { names.now ≡ names_of files.now }
    ensures { MatchOption result (HasNone files.now NoClass) (IsFirstNoClass files.now) }
{
    for i in 0..files.len() {
        match missing_in(names, files[i].pool.as_slice()) {
            Some(number) => return Some((i, number)),
            None => {}
        }
    }
    None
}

// The number of the first entry of a pool that names a class that isn't there.
fn missing_in(names: &Names, pool: &[Const]) -> Option<usize>
    ensures { IfFirst (LacksAt names.now pool.now) (length pool.now) result }
{
    for i in 0..pool.len() {
        if is_missing(names, pool, &pool[i]) {
            return Some(i);
        }
    }
    None
}

// Whether an entry names a class that has none of the names.
fn is_missing(names: &Names, pool: &[Const], entry: &Const) -> bool
    ensures { result ≡ lacks_class names.now pool.now entry.now }
{
    match entry {
        Const::Class(text) => match text_at(pool, *text) {
            Some(name) => names.number_of(name).is_none(),
            None => false,
        },
        _ => false,
    }
}
