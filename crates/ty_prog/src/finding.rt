//! Members by linearisation.

ghost use Rattle.std.specs.Prelude.{◌≡◌, slice_get};
ghost use Rattle.std.specs.Option.{option_and_then};
ghost use Rattle.std.specs.List.{position_from};
ghost use Rattle.ty_prog.specs.Find.{is_concrete, number, own, first_in, behind, find, super_find};

use crate::class::Class;
use crate::method::Method;
use crate::program::Program;
use sl_base::Name;

/// The member of this name that an object of the class has: the first concrete method of the name in the class's
/// linearisation, as the numbers of its class and of itself (SLS 5.1.3). None exactly where there is none.
pub fn find(p: &Program, class: u32, name: &Name) -> Option<(u32, u32)>
    ensures { result ≡ find p.now class name.now }
{
    let classes = p.classes.as_slice();
    match p.classes.get(class as usize) {
        Some(class) => first_in(classes, class.linear.as_slice(), name),
        None => None,
    }
}

/// The method that `super` with this name means in the template `after`, for an object of the class: the first
/// concrete one behind the template in the class's linearisation (SLS 6.5). None exactly where there is none.
pub fn super_find(p: &Program, class: u32, after: u32, name: &Name) -> Option<(u32, u32)>
    ensures { result ≡ super_find p.now class after name.now }
{
    let classes = p.classes.as_slice();
    match p.classes.get(class as usize) {
        Some(class) => first_in(classes, behind(class.linear.as_slice(), after), name),
        None => None,
    }
}

fn first_in(classes: &[Class], linear: &[u32], name: &Name) -> Option<(u32, u32)>
    ensures { result ≡ first_in classes.now name.now linear.now }
{
    for class in linear {
        if let Some(found) = own(classes, *class, name) {
            return Some(found);
        }
    }
    None
}

fn own(classes: &[Class], class: u32, name: &Name) -> Option<(u32, u32)>
    ensures { result ≡ own classes.now name.now class }
{
    match classes.get(class as usize) {
        Some(c) => match concrete(c.methods.as_slice(), name) {
            Some(method) => Some((class, method)),
            None => None,
        },
        None => None,
    }
}

// The number of the first concrete method of a name.
fn concrete(methods: &[Method], name: &Name) -> Option<u32>
    ensures { result ≡ option_and_then number (position_from (is_concrete name.now) 0 methods.now) }
{
    for (i, method) in methods.iter().enumerate() {
        if is_concrete(method, name) {
            return number(i);
        }
    }
    None
}

fn is_concrete(method: &Method, name: &Name) -> bool
    ensures { result ≡ is_concrete name.now method.now }
{
    method.body.is_some() && !method.is_static && method.name == *name
}

fn number(i: usize) -> Option<u32>
    ensures { result ≡ number i }
{
    if i < 1 << 32 { Some(i as u32) } else { None }
}

// What stands behind a class.
fn behind(linear: &[u32], after: u32) -> &[u32]
    ensures { result.now ≡ behind after linear.now }
{
    let mut rest = linear;
    while let Some((class, more)) = rest.split_first() {
        if *class == after {
            return more;
        }
        rest = more;
    }
    rest
}
