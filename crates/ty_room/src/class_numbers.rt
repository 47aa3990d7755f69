//! The numbers of a class: bytes of its constructor and entries of its members, at most.

ghost use Rattle.std.specs.Prelude.{◌≡◌};
ghost use Rattle.ty_room.specs.Room.{field_entries};

use crate::ahead::Ahead;

/// The most that a body may weigh.
pub const MOST_WEIGHT: u32 = 32_000;

/// The most entries that a class may bring.
pub const MOST_ENTRIES: u32 = 64_000;

/// What ends a body.
pub(crate) const RETURN_WEIGHT: u32 = 2;

/// What a constructor does with each class parameter.
pub(crate) const PARAMETER_WEIGHT: u32 = 8;

/// What a constructor does with each trait.
pub(crate) const MIXIN_WEIGHT: u32 = 8;

/// What stores the reference of an object.
pub(crate) const OBJECT_WEIGHT: u32 = 12;

/// What every class file may name.
pub(crate) const FILE_ENTRIES: u32 = 1000;

/// What each class of the program brings where it is named.
pub(crate) const NAMED_ENTRIES: u32 = 3;

/// What each class parameter brings.
pub(crate) const PARAMETER_ENTRIES: u32 = 3;

/// What each lazy member brings.
pub(crate) const CELL_ENTRIES: u32 = 32;

/// What stores the reference of an object.
pub(crate) const OBJECT_ENTRIES: u32 = 2;

/// The static method that runs a trait's statements.
pub(crate) const STATEMENTS_ENTRIES: u32 = 2;

/// What each call by `super` makes a trait have.
pub(crate) const ACCESSOR_ENTRIES: u32 = 2;

/// What each method brings.
pub(crate) const METHOD_ENTRIES: u32 = 2;

/// What each method of a trait with a body brings beside.
pub(crate) const BODY_ENTRIES: u32 = 4;

/// What each trait brings that is mixed in.
pub(crate) const MIXIN_ENTRIES: u32 = 5;

/// What each field brings that is taken from a trait.
pub(crate) const TAKEN_FIELD_ENTRIES: u32 = 20;

/// What each method brings that is taken from a trait.
pub(crate) const TAKEN_METHOD_ENTRIES: u32 = 12;

/// What each lazy member brings that is taken from a trait.
pub(crate) const TAKEN_CELL_ENTRIES: u32 = 36;

/// What each call by `super` brings that stands in a trait that is mixed in.
pub(crate) const SUPER_ENTRIES: u32 = 12;

/// What each field brings.
pub(crate) fn field_entries(ahead: Ahead) -> u32
    ensures { result ≡ field_entries ahead }
{
    if ahead.traits { 8 } else { 1 }
}
