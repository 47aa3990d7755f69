//! Which method a call runs (JVMS 5.4.6, 6.5: invokevirtual, invokespecial, invokeinterface).

ghost use Rattle.std.specs.Prelude.{◌≡◌, ◌+◌, ◌∷◌, ◌&&◌, drop, length, slice_get};
ghost use Rattle.std.specs.Option.{option_copied};
ghost use Rattle.cf_link.specs.Selection.{chosen_at};
ghost use Rattle.vm_state.specs.Methods.{are_arguments, is_of};
ghost use Rattle.vm_state.specs.Local.{selection};

use crate::action::Invocation;
use crate::linkage::is_of;
use crate::operands::Operands;
use cf_link::{Linked, ValueKind, chosen, conforms, method_at, methods_of, target};

/// The method that a class selects for one of a class or interface.
pub fn chosen_at(k: &Linked, class: u32, of: u32, number: u32) -> Option<(u32, u32)>
    ensures { result ≡ chosen_at k.now.classes class of number }
{
    let classes = k.classes.as_slice();
    if conforms(classes, class, of) && (number as usize) < methods_of(classes, of).len() {
        target(k, class, of, number)
    } else {
        chosen_by_name(k, class, of, number)
    }
}

/// The same, found by name, for an object of a class that doesn't conform.
fn chosen_by_name(k: &Linked, class: u32, of: u32, number: u32) -> Option<(u32, u32)>
    ensures { result ≡ chosen_at k.now.classes class of number }
{
    match method_at(k.classes.as_slice(), of, number) {
        Some(m) => chosen(k.classes.as_slice(), class, m),
        None => None,
    }
}

/// The method that runs: the one that is named, or the one that the object's class selects.
#[inline(always)]
pub fn selection(
    k: &Linked,
    how: Invocation,
    class: u32,
    of: u32,
    number: u32,
) -> Option<(u32, u32)>
    ensures { result ≡ selection k.now how class of number }
{
    match how {
        Invocation::Special => Some((of, number)),
        _ => chosen_at(k, class, of, number),
    }
}

/// Whether the operands are arguments of these kinds, the last on top.
#[inline(always)]
pub fn are_arguments(kinds: &[ValueKind], stack: &Operands) -> bool
    ensures { result ≡ are_arguments kinds.now stack.now.values }
{
    let mut left = kinds.len();
    for kind in kinds {
        left -= 1;
        if !is_of(*kind, stack.get(left)) {
            return false;
        }
    }
    true
}
