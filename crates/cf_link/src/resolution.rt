//! What references to fields and methods resolve to (JVMS 5.4.3).

ghost use Rattle.std.specs.Prelude.{◌≡◌, ◌+◌, option_map};
ghost use Rattle.cf_link.specs.Classes.{number, number_of, statics_of};
ghost use Rattle.cf_link.specs.Resolution.{is_field, is_method, instance_in, field_in, method_in, in_interface, offered_in, of_interfaces, first_found, resolved_field, resolved_method};
ghost use Rattle.cf_link.specs.declared.reference.LinkedRef.TheVariants.{Field, Static};

use crate::built_in::BUILT_INS;
use crate::classes::{
    chain_of, fields_of, is_interface, line_of, methods_of, number, slots_of, statics_of,
};
use crate::linked_class::LinkedClass;
use crate::member::{LinkedField, LinkedMethod};
use crate::reference::LinkedRef;
use crate::selection::{declared_in, only_default};
use sl_base::Name;

/// What a reference to a field of a class resolves to (JVMS 5.4.3.2).
pub fn resolved_field(
    classes: &[LinkedClass],
    class: u32,
    name: &Name,
    descriptor: &Name,
) -> Option<LinkedRef>
    ensures { result ≡ resolved_field classes.now class name.now descriptor.now }
{
    match field_of_chain(classes, chain_of(classes, class), name, descriptor) {
        Some(found) => Some(found),
        None => field_of_interfaces(classes, line_of(classes, class), name, descriptor),
    }
}

// The first field of this name and descriptor along a chain.
fn field_of_chain(
    classes: &[LinkedClass],
    chain: &[u32],
    name: &Name,
    descriptor: &Name,
) -> Option<LinkedRef>
    ensures { result ≡ first_found (field_in classes.now name.now descriptor.now) chain.now }
{
    for class in chain {
        if let Some(found) = field_in(classes, *class, name, descriptor) {
            return Some(found);
        }
    }
    None
}

// The first field of this name and descriptor in the interfaces of a line.
fn field_of_interfaces(
    classes: &[LinkedClass],
    line: &[u32],
    name: &Name,
    descriptor: &Name,
) -> Option<LinkedRef>
    ensures { result ≡ first_found (in_interface classes.now (field_in classes.now name.now descriptor.now)) line.now }
{
    for class in line {
        if is_interface(classes, *class) {
            if let Some(found) = field_in(classes, *class, name, descriptor) {
                return Some(found);
            }
        }
    }
    None
}

// The field that a class of a file declares.
fn field_in(
    classes: &[LinkedClass],
    class: u32,
    name: &Name,
    descriptor: &Name,
) -> Option<LinkedRef>
    ensures { result ≡ field_in classes.now name.now descriptor.now class }
{
    if class < BUILT_INS {
        return None;
    }
    match instance_in(classes, class, name, descriptor) {
        Some(found) => Some(found),
        None => static_in(classes, class, name, descriptor),
    }
}

// The instance field that a class declares.
fn instance_in(
    classes: &[LinkedClass],
    class: u32,
    name: &Name,
    descriptor: &Name,
) -> Option<LinkedRef>
    ensures { result ≡ instance_in classes.now name.now descriptor.now class }
{
    let slots = slots_of(classes, class).len();
    let fields = fields_of(classes, class);
    let inherited = if fields.len() <= slots {
        slots - fields.len()
    } else {
        0
    };
    match position_of_field(fields, name, descriptor) {
        Some(i) => field_at(class, inherited, i),
        None => None,
    }
}

// A field of an object, where its number has 32 bits.
fn field_at(class: u32, inherited: usize, i: u32) -> Option<LinkedRef>
    ensures { result ≡ option_map (λ n. Field class n) (number (inherited + i)) }
{
    if inherited >= 1 << 32 {
        return None;
    }
    match number(inherited + i as usize) {
        Some(n) => Some(LinkedRef::Field(class, n)),
        None => None,
    }
}

// The static field that a class declares.
fn static_in(
    classes: &[LinkedClass],
    class: u32,
    name: &Name,
    descriptor: &Name,
) -> Option<LinkedRef>
    ensures { result ≡ option_map (λ i. Static class i) (number_of (is_field name.now descriptor.now) (statics_of classes.now class)) }
{
    match position_of_field(statics_of(classes, class), name, descriptor) {
        Some(i) => Some(LinkedRef::Static(class, i)),
        None => None,
    }
}

// The number of the first field of this name and descriptor.
fn position_of_field(fields: &[LinkedField], name: &Name, descriptor: &Name) -> Option<u32>
    ensures { result ≡ number_of (is_field name.now descriptor.now) fields.now }
{
    for (i, f) in fields.iter().enumerate() {
        if *name == f.name && *descriptor == f.descriptor {
            return number(i);
        }
    }
    None
}

/// What a reference to a method of a class or interface resolves to (JVMS 5.4.3.3, 5.4.3.4); none to the initialiser of a
/// class.
pub fn resolved_method(
    classes: &[LinkedClass],
    class: u32,
    name: &Name,
    descriptor: &Name,
) -> Option<LinkedRef>
    ensures { result ≡ resolved_method classes.now class name.now descriptor.now }
{
    if name.as_str() == "<clinit>" {
        return None;
    }
    match method_of_chain(classes, chain_of(classes, class), name, descriptor) {
        Some(found) => Some(found),
        None => of_interfaces(classes, line_of(classes, class), name, descriptor),
    }
}

// The first method of this name and descriptor along a chain.
fn method_of_chain(
    classes: &[LinkedClass],
    chain: &[u32],
    name: &Name,
    descriptor: &Name,
) -> Option<LinkedRef>
    ensures { result ≡ first_found (method_in classes.now name.now descriptor.now) chain.now }
{
    for class in chain {
        if let Some(found) = method_in(classes, *class, name, descriptor) {
            return Some(found);
        }
    }
    None
}

// The method of the interfaces of a line: the one default, if it is one, else the first that isn't static.
fn of_interfaces(
    classes: &[LinkedClass],
    line: &[u32],
    name: &Name,
    descriptor: &Name,
) -> Option<LinkedRef>
    ensures { result ≡ of_interfaces classes.now name.now descriptor.now line.now }
{
    match only_default(classes, name, descriptor, line) {
        Some((class, number)) => Some(LinkedRef::Method(class, number)),
        None => first_offered(classes, line, name, descriptor),
    }
}

// The first method that an interface of a line declares and that isn't static.
fn first_offered(
    classes: &[LinkedClass],
    line: &[u32],
    name: &Name,
    descriptor: &Name,
) -> Option<LinkedRef>
    ensures { result ≡ first_found (offered_in classes.now name.now descriptor.now) line.now }
{
    for class in line {
        if let Some(found) = offered_in(classes, *class, name, descriptor) {
            return Some(found);
        }
    }
    None
}

// The method that an interface declares and that isn't static.
fn offered_in(
    classes: &[LinkedClass],
    class: u32,
    name: &Name,
    descriptor: &Name,
) -> Option<LinkedRef>
    ensures { result ≡ offered_in classes.now name.now descriptor.now class }
{
    if !is_interface(classes, class) {
        return None;
    }
    match declared_in(classes, name, descriptor, class) {
        Some((of, number)) => Some(LinkedRef::Method(of, number)),
        None => None,
    }
}

// The method that a class declares.
fn method_in(
    classes: &[LinkedClass],
    class: u32,
    name: &Name,
    descriptor: &Name,
) -> Option<LinkedRef>
    ensures { result ≡ method_in classes.now name.now descriptor.now class }
{
    match position_of_method(methods_of(classes, class), name, descriptor) {
        Some(i) => Some(LinkedRef::Method(class, i)),
        None => None,
    }
}

// The number of the first method of this name and descriptor.
fn position_of_method(methods: &[LinkedMethod], name: &Name, descriptor: &Name) -> Option<u32>
    ensures { result ≡ number_of (is_method name.now descriptor.now) methods.now }
{
    for (i, m) in methods.iter().enumerate() {
        if *name == m.name && *descriptor == m.descriptor {
            return number(i);
        }
    }
    None
}
