//! Which method a call on an object of a class runs (JVMS 5.4.6).

ghost use Rattle.std.specs.Prelude.{◌≡◌, ◌↔◌, IsTrue, option_and_then, if◌then◌else◌, None, option_to_list, option_copied};
ghost use Rattle.std.specs.List.{list_any};
ghost use Rattle.std.specs.Option.{option_or};
ghost use Rattle.cf_link.specs.Classes.{number_of};
ghost use Rattle.cf_link.specs.Selection.{is_wanted, is_concrete, only, declared_in, inherited, declares_again, if_concrete, default_of, defaults, selected, chosen};

use crate::classes::{
    chain_of, is_abstract, is_in, is_interface, is_static, line_of, method_at, methods_of, number,
};
use crate::linked_class::LinkedClass;
use crate::member::LinkedMethod;
use sl_base::Name;

/// What a class selects for a method, unless that is static.
pub fn chosen(classes: &[LinkedClass], class: u32, method: &LinkedMethod) -> Option<(u32, u32)>
    ensures { result ≡ chosen classes.now class method.now }
{
    if is_static(method.access) {
        None
    } else {
        selected(classes, &method.name, &method.descriptor, class)
    }
}

/// The method of a name and a descriptor that a call on an object of a class runs (JVMS 5.4.6), by its class and its
/// number: the first one that isn't static in the class and its superclasses; where there is none, the one of the
/// interfaces above that isn't abstract and that no interface below it declares again, if it is one.
pub fn selected(
    classes: &[LinkedClass],
    name: &Name,
    descriptor: &Name,
    class: u32,
) -> Option<(u32, u32)>
    ensures { result ≡ selected classes.now name.now descriptor.now class }
{
    match inherited(classes, name, descriptor, chain_of(classes, class)) {
        Some(found) => Some(found),
        None => only_default(classes, name, descriptor, line_of(classes, class)),
    }
}

// The first of a chain.
fn inherited(
    classes: &[LinkedClass],
    name: &Name,
    descriptor: &Name,
    chain: &[u32],
) -> Option<(u32, u32)>
    ensures { result ≡ inherited classes.now name.now descriptor.now chain.now }
{
    for class in chain {
        if let Some(found) = declared_in(classes, name, descriptor, *class) {
            return Some(found);
        }
    }
    None
}

/// The method of that name and descriptor that a class declares and that isn't static.
pub(crate) fn declared_in(
    classes: &[LinkedClass],
    name: &Name,
    descriptor: &Name,
    class: u32,
) -> Option<(u32, u32)>
    ensures { result ≡ declared_in classes.now name.now descriptor.now class }
{
    match wanted_in(methods_of(classes, class), name, descriptor) {
        Some(number) => Some((class, number)),
        None => None,
    }
}

// The number of the first method of this name and descriptor that isn't static.
fn wanted_in(methods: &[LinkedMethod], name: &Name, descriptor: &Name) -> Option<u32>
    ensures { result ≡ number_of (is_wanted name.now descriptor.now) methods.now }
{
    for (i, m) in methods.iter().enumerate() {
        if is_wanted(name, descriptor, m) {
            return number(i);
        }
    }
    None
}

// A method that isn't static, of this name and descriptor.
fn is_wanted(name: &Name, descriptor: &Name, m: &LinkedMethod) -> bool
    ensures { result ≡ is_wanted name.now descriptor.now m.now }
{
    !is_static(m.access) && *name == m.name && *descriptor == m.descriptor
}

/// The one default method of a line, if it is one.
pub(crate) fn only_default(
    classes: &[LinkedClass],
    name: &Name,
    descriptor: &Name,
    line: &[u32],
) -> Option<(u32, u32)>
    ensures { result ≡ only (defaults classes.now name.now descriptor.now line.now line.now) }
{
    let mut one = None;
    for class in line {
        if let Some(found) = default_of(classes, name, descriptor, line, *class) {
            if one.is_some() {
                return None;
            }
            one = Some(found);
        }
    }
    one
}

// The method of an interface that isn't abstract and that no interface of a line below it declares again.
fn default_of(
    classes: &[LinkedClass],
    name: &Name,
    descriptor: &Name,
    all: &[u32],
    class: u32,
) -> Option<(u32, u32)>
    ensures { option_to_list result ≡ default_of classes.now name.now descriptor.now all.now class }
{
    if is_interface(classes, class) && !is_declared_again(classes, name, descriptor, all, class) {
        if_concrete(classes, declared_in(classes, name, descriptor, class))
    } else {
        None
    }
}

// Whether an interface of a line, below this one, declares the method again.
fn is_declared_again(
    classes: &[LinkedClass],
    name: &Name,
    descriptor: &Name,
    all: &[u32],
    class: u32,
) -> bool
    ensures { result ≡ list_any (declares_again classes.now name.now descriptor.now class) all.now }
{
    all.iter().any(|lower| declares_again(classes, name, descriptor, class, *lower))
}

// Whether an interface below another declares the method again.
fn declares_again(
    classes: &[LinkedClass],
    name: &Name,
    descriptor: &Name,
    interface: u32,
    lower: u32,
) -> bool
    ensures { result ≡ declares_again classes.now name.now descriptor.now interface lower }
{
    lower != interface
        && is_interface(classes, lower)
        && is_in(line_of(classes, lower), interface)
        && declared_in(classes, name, descriptor, lower).is_some()
}

// The method, if it isn't abstract.
fn if_concrete(classes: &[LinkedClass], found: Option<(u32, u32)>) -> Option<(u32, u32)>
    ensures { option_to_list result ≡ if_concrete classes.now found }
{
    match found {
        Some(method) => {
            if is_concrete(classes, method.0, method.1) {
                found
            } else {
                None
            }
        }
        None => None,
    }
}

// Whether the method with these numbers isn't abstract.
fn is_concrete(classes: &[LinkedClass], class: u32, number: u32) -> bool
    ensures { result ≡ is_concrete classes.now class number }
{
    match method_at(classes, class, number) {
        Some(m) => !is_abstract(m.access),
        None => false,
    }
}
