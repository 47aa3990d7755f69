//! Which method a call on an object of a class runs, and whether it is the first one of the linearisation.

ghost use Rattle.std.specs.Prelude.{◌≡◌, ◌↔◌, ◌&&◌, ◌∷◌, [], IsTrue, IfOk, option_and_then, if◌then◌else◌, None, codes, option_to_list, option_copied};
ghost use Rattle.std.specs.Char.{is_ascii};
ghost use Rattle.std.specs.List.{list_all, list_any, position_from};
ghost use Rattle.std.specs.Str.{bytes_eq};
ghost use Rattle.std.specs.Option.{option_or};
ghost use Rattle.ty_conform.specs.Kinds.{is_trait};
ghost use Rattle.ty_prog.specs.declared.ty.Ty.TheVariants as ty;
ghost use Rattle.ty_prog.specs.Find.{number};
ghost use Rattle.ty_typed.specs.Members.{method_at};
ghost use Rattle.ty_good.specs.Selection.{is_plain, alike, results_alike, params_alike, is_same_member, is_built_in, otherwise, declared_in, inherited, declares_again, has_body, if_concrete, default_of, defaults, only, selected, is_found, selects_if_found, selects_method, selects_all_of, SelectsFound};

use crate::NoMemory;
use crate::each::{ClassRule, each_class};
use sqlite_items::at;
use std::alloc::Global;
use ty_complete::is_text;
use ty_conform::{inherits, is_trait, is_trait_kind};
use ty_prog::{Class, Method, Name, Program, Ty, find};

/// The method of the program that a call on an object of a class runs (JVMS 5.4.6), of the name and the descriptor of
/// another, by its class and its number: the first one that isn't static in the class and its superclasses; where there
/// is none, and Object has none, the one concrete method of a trait that no trait below it declares again, if it is one.
/// None also for `toString` and `equals` of Object, which are built in.
pub fn selected(classes: &[Class], wanted: &Method, class: u32) -> Option<(u32, u32)>
    ensures { result ≡ selected classes.now wanted.now class }
{
    match at(classes, class as usize) {
        Some(found) => selected_in(classes, wanted, found.linear.as_slice()),
        None => None,
    }
}

// The method that is selected along a linearisation.
fn selected_in(classes: &[Class], wanted: &Method, linear: &[u32]) -> Option<(u32, u32)>
    ensures { result ≡ option_or (inherited classes.now wanted.now linear.now) (otherwise classes.now wanted.now linear.now) }
{
    match inherited(classes, wanted, linear) {
        Some(found) => Some(found),
        None => otherwise(classes, wanted, linear),
    }
}

// What is selected where no class of a linearisation declares the method.
fn otherwise(classes: &[Class], wanted: &Method, linear: &[u32]) -> Option<(u32, u32)>
    ensures { result ≡ otherwise classes.now wanted.now linear.now }
{
    if is_built_in(wanted) {
        None
    } else {
        only_default(classes, wanted, linear)
    }
}

// Whether Object has a method of the name and the descriptor of another.
fn is_built_in(m: &Method) -> bool
    ensures { result ≡ is_built_in m.now }
{
    is_to_string(m) || is_equals(m)
}

// Whether a method is `toString` of AnyRef.
fn is_to_string(m: &Method) -> bool
    ensures { result ≡ (bytes_eq m.now.name (codes "toString") && params_alike m.now.params [] && results_alike m.now.result ty.Text) }
{
    is_called(&m.name, "toString")
        && params_alike(m.params.as_slice(), &[])
        && results_alike(m.result, Ty::Text)
}

// Whether a method is `equals` of AnyRef.
fn is_equals(m: &Method) -> bool
    ensures { result ≡ (bytes_eq m.now.name (codes "equals") && params_alike m.now.params (ty.Any ∷ []) && results_alike m.now.result ty.Boolean) }
{
    is_called(&m.name, "equals")
        && params_alike(m.params.as_slice(), &[Ty::Any])
        && results_alike(m.result, Ty::Boolean)
}

// Whether a name is this text.
fn is_called(name: &Name, text: &str) -> bool
    requires { IsTrue (list_all is_ascii text.now) }
    ensures { result ≡ bytes_eq name.now text.now }
{
    is_text(name, text)
}

// The first of a linearisation that a class that isn't a trait declares.
fn inherited(classes: &[Class], wanted: &Method, linear: &[u32]) -> Option<(u32, u32)>
    ensures { result ≡ inherited classes.now wanted.now linear.now }
{
    for class in linear {
        if let Some(found) = declared_by_class(classes, wanted, *class) {
            return Some(found);
        }
    }
    None
}

// The member of this name and these parameters that a class declares, if it is no trait.
fn declared_by_class(classes: &[Class], wanted: &Method, class: u32) -> Option<(u32, u32)>
    ensures { result ≡ (if is_trait classes.now class then None else declared_in classes.now wanted.now class) }
{
    if is_trait(classes, class) {
        None
    } else {
        declared_in(classes, wanted, class)
    }
}

// The method of that name and descriptor that a class declares.
fn declared_in(classes: &[Class], wanted: &Method, class: u32) -> Option<(u32, u32)>
    ensures { result ≡ declared_in classes.now wanted.now class }
{
    match at(classes, class as usize) {
        Some(found) => match member_in(wanted, found.methods.as_slice()) {
            Some(method) => Some((class, method)),
            None => None,
        },
        None => None,
    }
}

// The first method of a list that is the wanted member.
fn member_in(wanted: &Method, methods: &[Method]) -> Option<u32>
    ensures { result ≡ option_and_then number (position_from (is_same_member wanted.now) 0 methods.now) }
{
    for (i, m) in methods.iter().enumerate() {
        if is_same_member(wanted, m) {
            return number(i);
        }
    }
    None
}

fn number(i: usize) -> Option<u32>
    ensures { result ≡ number i }
{
    if i < 1 << 32 { Some(i as u32) } else { None }
}

// Whether a method isn't static, and has the name and the descriptor of another.
fn is_same_member(wanted: &Method, m: &Method) -> bool
    ensures { result ≡ is_same_member wanted.now m.now }
{
    !m.is_static
        && wanted.name == m.name
        && params_alike(wanted.params.as_slice(), m.params.as_slice())
        && results_alike(wanted.result, m.result)
}

fn params_alike(ones: &[Ty], others: &[Ty]) -> bool
    ensures { result ≡ params_alike ones.now others.now }
{
    let mut rest = others;
    for one in ones {
        match rest.split_first() {
            Some((other, more)) => {
                if !alike(*one, *other) {
                    return false;
                }
                rest = more;
            }
            None => return false,
        }
    }
    rest.is_empty()
}

fn results_alike(one: Ty, other: Ty) -> bool
    ensures { result ≡ results_alike one other }
{
    if matches!(one, Ty::Unit) {
        matches!(other, Ty::Unit)
    } else {
        !matches!(other, Ty::Unit) && alike(one, other)
    }
}

// Whether a descriptor writes two types alike.
fn alike(one: Ty, other: Ty) -> bool
    ensures { result ≡ alike one other }
{
    match one {
        Ty::Boolean => matches!(other, Ty::Boolean),
        Ty::Int => matches!(other, Ty::Int),
        Ty::Long => matches!(other, Ty::Long),
        Ty::Text => matches!(other, Ty::Text),
        Ty::Array => matches!(other, Ty::Array),
        Ty::Class(one) => match other {
            Ty::Class(other) => one == other,
            _ => false,
        },
        Ty::Any | Ty::AnyRef | Ty::Nothing | Ty::Null | Ty::Unit => is_plain(other),
    }
}

// Whether a descriptor writes a type as Object.
fn is_plain(ty: Ty) -> bool
    ensures { result ≡ is_plain ty }
{
    matches!(ty, Ty::Any | Ty::AnyRef | Ty::Nothing | Ty::Null | Ty::Unit)
}

// The one default method of a linearisation, if it is one.
fn only_default(classes: &[Class], wanted: &Method, linear: &[u32]) -> Option<(u32, u32)>
    ensures { result ≡ only (defaults classes.now wanted.now linear.now linear.now) }
{
    let mut one = None;
    for class in linear {
        if let Some(found) = default_of(classes, wanted, linear, *class) {
            if one.is_some() {
                return None;
            }
            one = Some(found);
        }
    }
    one
}

// The concrete method of a trait that no trait of a linearisation below it declares again.
fn default_of(classes: &[Class], wanted: &Method, all: &[u32], class: u32) -> Option<(u32, u32)>
    ensures { option_to_list result ≡ default_of classes.now wanted.now all.now class }
{
    if is_trait(classes, class) && !is_declared_again(classes, wanted, all, class) {
        if_concrete(classes, declared_in(classes, wanted, class))
    } else {
        None
    }
}

// Whether a class of a list below declares the member again.
fn is_declared_again(classes: &[Class], wanted: &Method, all: &[u32], class: u32) -> bool
    ensures { result ≡ list_any (declares_again classes.now wanted.now class) all.now }
{
    all.iter()
        .any(|lower| declares_again(classes, wanted, class, *lower))
}

// Whether a trait below another declares the method again.
fn declares_again(classes: &[Class], wanted: &Method, above: u32, lower: u32) -> bool
    ensures { result ≡ declares_again classes.now wanted.now above lower }
{
    lower != above
        && is_trait(classes, lower)
        && inherits(classes, lower, above)
        && declared_in(classes, wanted, lower).is_some()
}

fn if_concrete(classes: &[Class], found: Option<(u32, u32)>) -> Option<(u32, u32)>
    ensures { option_to_list result ≡ if_concrete classes.now found }
{
    match found {
        Some(found) => {
            if has_body(classes, found) {
                Some(found)
            } else {
                None
            }
        }
        None => None,
    }
}

fn has_body(classes: &[Class], found: (u32, u32)) -> bool
    ensures { result ≡ has_body classes.now found }
{
    match method_at(classes, found) {
        Some(method) => method.body.is_some(),
        None => false,
    }
}

fn method_at<'a>(classes: &'a [Class], found: (u32, u32)) -> Option<&'a Method>
    ensures { option_copied result ≡ method_at classes.now found.0 found.1 }
{
    match at(classes, found.0 as usize) {
        Some(class) => class.methods.get(found.1 as usize),
        None => None,
    }
}

/// Whether, from the lowering of traits on, each class that isn't a trait selects, for each name of which `find` gives it
/// a method, that method; k is from 0 to 4. Errors: want of memory, for more than 2^32 classes.
pub fn selects_found(alloc: Global, k: u32, p: &Program) -> Result<bool, NoMemory>
    ensures { IfOk result (λ answer. IsTrue answer ↔ SelectsFound k p.now) }
{
    if k < 2 {
        return Ok(true);
    }
    each_class(alloc, &Selecting { p }, p)
}

// A class selects what it finds.
#[derive(Clone, Copy)]
struct Selecting<'a> {
    p: &'a Program,
}

impl ClassRule for Selecting<'_> {
    ghost use Rattle.std.specs.Prelude.{IsTrue};
    ghost use Rattle.ty_good.specs.Selection.{class_selects};

    ghost keeps = { λ rule number class. IsTrue (class_selects rule.p.now number class) };

    fn keeps(&self, _alloc: Global, number: u32, class: &Class) -> Result<bool, NoMemory> {
        Ok(is_trait_kind(class.kind) || selects_all(self.p, number, class.linear.as_slice()))
    }
}

// Whether a class selects, for each method of the classes of a list, the one that is found.
fn selects_all(p: &Program, class: u32, linear: &[u32]) -> bool
    ensures { result ≡ list_all (selects_all_of p.now class) linear.now }
{
    linear.iter().all(|above| selects_all_of(p, class, *above))
}

fn selects_all_of(p: &Program, class: u32, above: u32) -> bool
    ensures { result ≡ selects_all_of p.now class above }
{
    match at(p.classes.as_slice(), above as usize) {
        Some(found) => selects_each(p, class, found.methods.as_slice()),
        None => true,
    }
}

// Whether it does for each of these methods.
fn selects_each(p: &Program, class: u32, methods: &[Method]) -> bool
    ensures { result ≡ list_all (selects_method p.now class) methods.now }
{
    methods.iter().all(|m| selects_method(p, class, m))
}

fn selects_method(p: &Program, class: u32, m: &Method) -> bool
    ensures { result ≡ selects_method p.now class m.now }
{
    m.is_static || selects_if_found(p, class, find(p, class, &m.name))
}

// Whether a class selects the method that it finds, if it finds one.
fn selects_if_found(p: &Program, class: u32, found: Option<(u32, u32)>) -> bool
    ensures { result ≡ selects_if_found p.now class found }
{
    match found {
        Some(found) => match method_at(p.classes.as_slice(), found) {
            Some(m) => is_found(found, selected(p.classes.as_slice(), m, class)),
            None => true,
        },
        None => true,
    }
}

fn is_found(found: (u32, u32), other: Option<(u32, u32)>) -> bool
    ensures { result ≡ is_found found other }
{
    match other {
        Some(other) => found.0 == other.0 && found.1 == other.1,
        None => false,
    }
}
