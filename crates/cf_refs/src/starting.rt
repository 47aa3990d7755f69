//! The method at which a program starts.

ghost use Rattle.std.specs.Prelude.{◌≡◌, codes, IfOk};
ghost use Rattle.cf_link.specs.Classes.{number, number_of};
ghost use Rattle.cf_refs.specs.Main.{is_start, main_in};
ghost use Rattle.cf_set.specs.Names.{number_in};

use crate::entries::narrowed;
use cf_link::{LinkedClass, LinkedMethod, is_static, methods_of};
use cf_set::Names;
use sl_base::Name;
use std::alloc::{AllocError, Global};

/// The class and number of `static main([Ljava/lang/String;)V` with code in `Main`; None exactly where there is none. A set
/// of 2^32 classes or more is answered as want of memory.
pub fn main_method(
    alloc: Global,
    names: &Names,
    classes: &[LinkedClass],
) -> Result<Option<(u32, u32)>, AllocError>
    ensures { IfOk result (λ found. found ≡ main_in names.now classes.now) }
{
    let class = main_class(alloc, names)?;
    match class {
        Some(class) => {
            let number = start_of(alloc, methods_of(classes, class))?;
            match number {
                Some(number) => Ok(Some((class, number))),
                None => Ok(None),
            }
        }
        None => Ok(None),
    }
}

// The number of the class `Main`.
fn main_class(alloc: Global, names: &Names) -> Result<Option<u32>, AllocError>
    ensures { IfOk result (λ number. number ≡ number_in names.now (codes "Main")) }
{
    let main = Name::from_text(alloc, "Main")?;
    let number = narrowed(names.number_of(&main))?;
    Ok(number)
}

// The number of the method at which a program starts, among those of its class.
fn start_of(alloc: Global, methods: &[LinkedMethod]) -> Result<Option<u32>, AllocError>
    ensures { IfOk result (λ number. number ≡ number_of (is_start (codes "main") (codes "([Ljava/lang/String;)V")) methods.now) }
{
    let name = Name::from_text(alloc, "main")?;
    let descriptor = Name::from_text(alloc, "([Ljava/lang/String;)V")?;
    let number = start_in(methods, &name, &descriptor);
    Ok(number)
}

fn start_in(methods: &[LinkedMethod], name: &Name, descriptor: &Name) -> Option<u32>
    ensures { result ≡ number_of (is_start name.now descriptor.now) methods.now }
{
    for (i, m) in methods.iter().enumerate() {
        if is_start(name, descriptor, m) {
            return number(i);
        }
    }
    None
}

// Whether a method is static, has code, and has this name and descriptor.
fn is_start(name: &Name, descriptor: &Name, m: &LinkedMethod) -> bool
    ensures { result ≡ is_start name.now descriptor.now m.now }
{
    *name == m.name && *descriptor == m.descriptor && is_static(m.access) && m.code.is_some()
}

// A number of 32 bits.
fn number(i: usize) -> Option<u32>
    ensures { result ≡ number i }
{
    if i < 1 << 32 { Some(i as u32) } else { None }
}
