//! Fields that texts name (`lazyrt/Cells`).

ghost use Rattle.std.specs.Prelude.{◌≡◌, ◌++◌, ◌+◌, ◌<◌, List, ℕ, codes, false, IfSome, length, MatchOption};
ghost use Rattle.std.specs.List.{position_from};
ghost use Rattle.std.specs.Option.{option_copied};
ghost use Rattle.std.specs.Str.{bytes_eq};
ghost use Rattle.cf_link.specs.Classes.{chain_of};
ghost use Rattle.vm_state.specs.Natives.{names_field, slot_in, slot_among};

use cf_link::{Linked, LinkedClass, LinkedField, chain_of};
use sl_base::Name;

/// What follows these bytes in others, where they are in front there.
fn rest<'a>(bytes: &'a [u8], front: &[u8]) -> Option<&'a [u8]>
    ensures { MatchOption result
        ((more : List ℕ) → bytes_eq bytes.now (front.now ++ more) ≡ false)
        (λ found. (more : List ℕ) → bytes_eq bytes.now (front.now ++ more) ≡ bytes_eq found.now more) }
{
    bytes.strip_prefix(front)
}

/// Whether bytes are those of a class, a dot and those of a field.
fn is_joined(bytes: &[u8], class: &[u8], field: &[u8]) -> bool
    ensures { result ≡ bytes_eq bytes.now (class.now ++ (codes "." ++ field.now)) }
{
    match rest(bytes, class) {
        None => false,
        Some(found) => match rest(found, b".") {
            None => false,
            Some(found) => found == field,
        },
    }
}

/// Whether a field is of class Object.
fn is_object(descriptor: &Name) -> bool
    ensures { result ≡ bytes_eq descriptor.now (codes "Ljava/lang/Object;") }
{
    descriptor.as_str() == "Ljava/lang/Object;"
}

/// Whether a text names a field of a class.
fn names_field(text: &Name, c: &LinkedClass, field: &LinkedField) -> bool
    ensures { result ≡ names_field text.now c.now field.now }
{
    is_joined(
        text.as_str().as_bytes(),
        c.name.as_str().as_bytes(),
        field.name.as_str().as_bytes(),
    ) && is_object(&field.descriptor)
}

/// The number of the field that a text names, among those that its class declares.
fn position(text: &Name, c: &LinkedClass) -> Option<usize>
    ensures position { result ≡ position_from (names_field text.now c.now) 0 c.now.fields }
    ensures below { IfSome result (λ i. i < length c.now.fields) }
{
    for (i, field) in c.fields.as_slice().iter().enumerate() {
        if names_field(text, c, field) {
            return Some(i);
        }
    }
    None
}

/// The number of the field that a text names, among all fields of its class's objects.
fn slot_in(text: &Name, c: Option<&LinkedClass>) -> Option<usize>
    ensures { result ≡ slot_in text.now (option_copied c.entry) }
{
    match c {
        None => None,
        Some(c) => match position(text, c) {
            None => None,
            Some(i) => {
                let inherited = c.slots.len().saturating_sub(c.fields.len());
                Some(inherited + i)
            }
        },
    }
}

/// The same in the first class that has one.
fn slot_among(k: &Linked, text: &Name, chain: &[u32]) -> Option<usize>
    ensures { result ≡ slot_among k.now text.now chain.now }
{
    for class in chain {
        if let Some(n) = slot_in(text, k.classes.get(*class as usize)) {
            return Some(n);
        }
    }
    None
}

/// The number of the field that a text names, among all fields of the objects of a class.
pub fn field_named(k: &Linked, text: &Name, class: u32) -> Option<usize>
    ensures { result ≡ slot_among k.now text.now (chain_of k.now.classes class) }
{
    slot_among(k, text, chain_of(k.classes.as_slice(), class))
}
