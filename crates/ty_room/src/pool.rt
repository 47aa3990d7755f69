//! The entries of a class's constant pool.

ghost use Rattle.std.specs.Prelude.{◌≡◌, ◌↔◌, ◌≤◌, ◌+◌, ◌*◌, ℕ, IsTrue, sum_by, if◌then◌else◌};
ghost use Rattle.ty_room.specs.Capped.{capped};
ghost use Rattle.ty_room.specs.Room.{MOST_ENTRIES, METHOD_ENTRIES, STATEMENTS_ENTRIES, ACCESSOR_ENTRIES, is_taken, trait_method_entries, method_entries, part_entries, coming_entries, class_entries};

use crate::ahead::Ahead;
use crate::capping::{plus, times, within};
use crate::class_numbers::{
    ACCESSOR_ENTRIES, BODY_ENTRIES, CELL_ENTRIES, FILE_ENTRIES, METHOD_ENTRIES, MOST_ENTRIES,
    NAMED_ENTRIES, OBJECT_ENTRIES, PARAMETER_ENTRIES, STATEMENTS_ENTRIES, field_entries,
};
use crate::taking::{all_taken, is_taken};
use crate::trees::class_size;
use ty_prog::{Class, Kind, Method};

/// Whether the pool of a class has room.
pub(crate) fn pool_has_room(ahead: Ahead, classes: &[Class], class: &Class) -> bool
    ensures { IsTrue result ↔ (class_entries ahead classes.now class.now ≤ MOST_ENTRIES) }
{
    within(class_entries(ahead, classes, class), MOST_ENTRIES)
}

// The entries of a class.
fn class_entries(ahead: Ahead, classes: &[Class], class: &Class) -> u32
    ensures { result ≡ capped (class_entries ahead classes.now class.now) }
{
    let named = plus(FILE_ENTRIES, times(NAMED_ENTRIES, classes.len()));
    let parts = part_entries(ahead, class);
    let taken = all_taken(ahead, classes, class.mixins.as_slice());
    let trees = class_size(ahead, class);
    plus(
        plus(plus(plus(named, parts), taken), trees.entries),
        coming_entries(ahead, trees.supers),
    )
}

// What lowerings that are to come add to a class.
fn coming_entries(ahead: Ahead, supers: u32) -> u32
    ensures { (whole : ℕ) → supers ≡ capped whole → result ≡ capped (coming_entries ahead whole) }
{
    let object = if ahead.objects { OBJECT_ENTRIES } else { 0 };
    plus(object, of_traits(ahead, supers))
}

// The same of the lowering of traits.
fn of_traits(ahead: Ahead, supers: u32) -> u32
    ensures { (whole : ℕ) → supers ≡ capped whole
        → result ≡ capped (if ahead.traits then STATEMENTS_ENTRIES + ACCESSOR_ENTRIES * whole else 0) }
{
    if ahead.traits {
        plus(STATEMENTS_ENTRIES, times(ACCESSOR_ENTRIES, supers as usize))
    } else {
        0
    }
}

// What the parts of a class bring without its trees.
fn part_entries(ahead: Ahead, class: &Class) -> u32
    ensures { result ≡ capped (part_entries ahead class.now) }
{
    let params = times(PARAMETER_ENTRIES, class.params.len());
    let fields = times(field_entries(ahead), class.fields.len());
    let cells = times(CELL_ENTRIES, class.cells.len());
    let methods = all_methods(ahead, class.kind, class.methods.as_slice());
    plus(plus(plus(params, fields), cells), methods)
}

// The entries of some methods.
fn all_methods(ahead: Ahead, kind: Kind, methods: &[Method]) -> u32
    ensures { result ≡ capped (sum_by (method_entries ahead kind) methods.now) }
{
    let mut so_far = 0;
    for method in methods {
        so_far = plus(so_far, method_entries(ahead, kind, method));
    }
    so_far
}

fn method_entries(ahead: Ahead, kind: Kind, method: &Method) -> u32
    ensures { result ≡ method_entries ahead kind method.now }
{
    match kind {
        Kind::Trait => trait_method_entries(ahead, method),
        Kind::Class | Kind::Abstract | Kind::Object => METHOD_ENTRIES,
    }
}

// The entries of a trait's method.
fn trait_method_entries(ahead: Ahead, method: &Method) -> u32
    ensures { result ≡ trait_method_entries ahead method.now }
{
    if !ahead.traits {
        return forwarding_entries(method);
    }
    if method.body.is_some() {
        METHOD_ENTRIES + BODY_ENTRIES
    } else {
        METHOD_ENTRIES
    }
}

// The same when the traits are lowered.
fn forwarding_entries(method: &Method) -> u32
    ensures { result ≡ (if is_taken method.now then 0 else METHOD_ENTRIES) }
{
    if is_taken(method) { 0 } else { METHOD_ENTRIES }
}
