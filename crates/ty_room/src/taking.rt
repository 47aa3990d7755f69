//! What a class takes from the traits that it mixes in.

ghost use Rattle.std.specs.Prelude.{◌≡◌, sum_by};
ghost use Rattle.std.specs.List.{count_by};
ghost use Rattle.ty_room.specs.Capped.{capped};
ghost use Rattle.ty_room.specs.Room.{is_taken, trait_entries, taken_entries};

use crate::ahead::Ahead;
use crate::capping::{plus, times};
use crate::class_numbers::{
    MIXIN_ENTRIES, SUPER_ENTRIES, TAKEN_CELL_ENTRIES, TAKEN_FIELD_ENTRIES, TAKEN_METHOD_ENTRIES,
};
use crate::trees::class_size;
use sqlite_items::at;
use ty_prog::{Class, Method};

/// The entries of what a class takes from these traits.
pub(crate) fn all_taken(ahead: Ahead, classes: &[Class], mixins: &[u32]) -> u32
    ensures { result ≡ capped (sum_by (taken_entries ahead classes.now) mixins.now) }
{
    let mut so_far = 0;
    for class in mixins {
        so_far = plus(so_far, taken_entries(ahead, classes, *class));
    }
    so_far
}

// What one trait brings.
fn taken_entries(ahead: Ahead, classes: &[Class], class: u32) -> u32
    ensures { result ≡ capped (taken_entries ahead classes.now class) }
{
    match at(classes, class as usize) {
        Some(mixed) => trait_entries(ahead, mixed),
        None => 0,
    }
}

fn trait_entries(ahead: Ahead, mixed: &Class) -> u32
    ensures { result ≡ capped (trait_entries ahead mixed.now) }
{
    let fields = times(TAKEN_FIELD_ENTRIES, mixed.fields.len());
    let cells = times(TAKEN_CELL_ENTRIES, mixed.cells.len());
    let methods = times(
        TAKEN_METHOD_ENTRIES,
        taken_methods(mixed.methods.as_slice()),
    );
    let supers = times(SUPER_ENTRIES, class_size(ahead, mixed).supers as usize);
    plus(
        plus(plus(plus(MIXIN_ENTRIES, fields), cells), methods),
        supers,
    )
}

// How many methods have a body and aren't static.
fn taken_methods(methods: &[Method]) -> usize
    ensures { result ≡ count_by is_taken methods.now }
{
    let mut count = 0usize;
    for method in methods {
        if is_taken(method) {
            count += 1;
        }
    }
    count
}

/// A method that a class takes from a trait.
pub(crate) fn is_taken(method: &Method) -> bool
    ensures { result ≡ is_taken method.now }
{
    method.body.is_some() && !method.is_static
}
