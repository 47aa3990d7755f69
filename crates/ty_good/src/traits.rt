//! What traits and the classes that mix them in have before and after the lowering of traits.

ghost use Rattle.std.specs.Prelude.{◌≡◌, ◌↔◌, ◌≤◌, ◌++◌, ◌&&◌, [], IsTrue, IsFalse, IfOk, nat_le, not, drop, reverse, codes, true, false, option_map, slice_get, length};
ghost use Rattle.std.specs.List.{All, filter, list_all};
ghost use Rattle.std.specs.Option.{unwrap_or};
ghost use Rattle.std.specs.Str.{bytes_eq};
ghost use Rattle.ty_prog.specs.declared.expr.Expr.{out-Expr};
ghost use Rattle.ty_walk.specs.Everywhere.{AllNodesOf};
ghost use Rattle.ty_complete.specs.Words.{is_empty};
ghost use Rattle.ty_prog.specs.Node.{tree_of};
ghost use Rattle.ty_good.specs.Traits.{is_mixed_in, mixins_of, MixinsFit, calls_from, SupersStand, has_room, TraitsHaveRoom, level_is_local, are_locals, hands_on, level_forwards, method_lowered, trait_lowered, class_lowered, TraitsLowered};

use crate::NoMemory;
use crate::each::{ClassRule, each_class};
use sqlite_items::{Items, at};
use std::alloc::{AllocError, Global};
use ty_complete::longer;
use ty_conform::{is_trait, is_trait_kind, reaches, superclass};
use ty_prog::{Class, Expr, Method, Name, Node, Program};
use ty_walk::{Rule, holds_in_class};

/// The traits whose statements the constructor of a class runs, in the order in which it does (SLS 5.1): of its
/// linearisation those that its superclass lacks, the last one first. Errors: want of memory.
pub fn mixins_of(alloc: Global, classes: &[Class], class: &Class) -> Result<Vec<u32>, NoMemory>
    ensures { IfOk result (λ mixins. mixins.items ≡ mixins_of classes.now class.now) }
{
    let mut mixins = Vec::new(alloc);
    if is_trait_kind(class.kind) {
        return Ok(mixins);
    }
    let above = superclass(classes, class.parents.as_slice());
    for number in behind_first(class.linear.as_slice()) {
        if is_mixed_in(classes, above, *number) {
            mixins.push(*number)?;
        }
    }
    mixins.reverse();
    Ok(mixins)
}

// A list without its first item.
fn behind_first(list: &[u32]) -> &[u32]
    ensures { result.now ≡ drop 1 list.now }
{
    match list.split_first() {
        Some((_, rest)) => rest,
        None => list,
    }
}

fn is_mixed_in(classes: &[Class], above: Option<u32>, class: u32) -> bool
    ensures { result ≡ is_mixed_in classes.now above class }
{
    is_trait(classes, class) && !reaches(classes, above, class)
}

/// Whether each class has its mixins before the lowering of traits, and none from it on; k is from 0 to 4. Errors: want
/// of memory.
pub fn mixins_fit(alloc: Global, k: u32, p: &Program) -> Result<bool, NoMemory>
    ensures { IfOk result (λ answer. IsTrue answer ↔ MixinsFit k p.now) }
{
    let classes = p.classes.as_slice();
    if k >= 2 {
        Ok(have_no_mixins(classes))
    } else {
        have_mixins(alloc, classes, classes)
    }
}

// Whether some classes mix in no trait.
fn have_no_mixins(some: &[Class]) -> bool
    ensures { IsTrue result ↔ All (λ class. class.mixins ≡ []) some.now }
{
    some.iter().all(has_no_mixins)
}

// Whether a class mixes in no trait.
fn has_no_mixins(class: &Class) -> bool
    ensures { IsTrue result ↔ (class.now.mixins ≡ []) }
{
    class.mixins.is_empty()
}

// Whether some classes mix in what they must.
fn have_mixins(alloc: Global, classes: &[Class], some: &[Class]) -> Result<bool, NoMemory>
    ensures { IfOk result (λ answer. IsTrue answer ↔ All (λ class. class.mixins ≡ mixins_of classes.now class) some.now) }
{
    for class in some {
        if !has_mixins(alloc, classes, class)? {
            return Ok(false);
        }
    }
    Ok(true)
}

// Whether a class mixes in what it must.
fn has_mixins(alloc: Global, classes: &[Class], class: &Class) -> Result<bool, NoMemory>
    ensures { IfOk result (λ answer. IsTrue answer ↔ (class.now.mixins ≡ mixins_of classes.now class.now)) }
{
    let wanted = mixins_of(alloc, classes, class)?;
    Ok(same_list(class.mixins.as_slice(), wanted.as_slice()))
}

// Whether two lists of numbers are one.
fn same_list(ones: &[u32], others: &[u32]) -> bool
    ensures { IsTrue result ↔ (ones.now ≡ others.now) }
{
    ones == others
}

/// Whether each call by `super` names the template in which it stands (SLS 6.5). Errors: want of memory, for more than
/// 2^32 classes.
pub fn supers_stand(alloc: Global, p: &Program) -> Result<bool, NoMemory>
    ensures { IfOk result (λ answer. IsTrue answer ↔ SupersStand p.now) }
{
    each_class(alloc, &SuperStands, p)
}

#[derive(Clone, Copy)]
struct SuperStands;

impl ClassRule for SuperStands {
    ghost use Rattle.std.specs.Prelude.{IsTrue};
    ghost use Rattle.ty_walk.specs.Everywhere.{AllNodesOf};
    ghost use Rattle.ty_good.specs.Traits.{calls_from};

    ghost keeps = { λ rule number class. AllNodesOf (λ node. IsTrue (calls_from number node)) class };

    fn keeps(&self, _alloc: Global, number: u32, class: &Class) -> Result<bool, NoMemory> {
        Ok(holds_in_class(&CallsFrom { number }, class))
    }
}

// A node calls by `super` from the class with a number alone.
#[derive(Clone, Copy)]
struct CallsFrom {
    number: u32,
}

impl Rule for CallsFrom {
    ghost use Rattle.ty_good.specs.Traits.{calls_from};

    ghost holds = { λ rule. calls_from rule.number };

    fn holds(&self, node: Node<'_>) -> bool {
        match node {
            Node::Expr(Expr::SuperCall { after, .. }) => *after == self.number,
            _ => true,
        }
    }
}

/// Whether each method of a trait has at most 120 parameters, before the lowering of traits; k is from 0 to 4.
pub fn traits_have_room(k: u32, p: &Program) -> bool
    ensures { IsTrue result ↔ TraitsHaveRoom k p.now }
{
    k >= 2 || have_room(p.classes.as_slice())
}

// Whether the methods of traits have room for one more parameter.
fn have_room(classes: &[Class]) -> bool
    ensures { IsTrue result ↔ All (λ class. IsTrue (has_room class)) classes.now }
{
    classes.iter().all(has_room)
}

// Whether those of a class have, if it is a trait.
fn has_room(class: &Class) -> bool
    ensures { result ≡ has_room class.now }
{
    !is_trait_kind(class.kind) || have_few(class.methods.as_slice())
}

// Whether methods have few enough parameters for one more.
fn have_few(methods: &[Method]) -> bool
    ensures { result ≡ list_all (λ m. nat_le (length m.params) 120) methods.now }
{
    methods.iter().all(|method| method.params.len() <= 120)
}

/// Whether each trait has, from its lowering on, nothing but static methods, deferred ones, and methods m that call `m$`;
/// k is from 0 to 4. Errors: want of memory, also for more than 2^32 classes.
pub fn traits_lowered(alloc: Global, k: u32, p: &Program) -> Result<bool, NoMemory>
    ensures { IfOk result (λ answer. IsTrue answer ↔ TraitsLowered k p.now) }
{
    if k < 2 {
        return Ok(true);
    }
    each_class(alloc, &Lowered, p)
}

#[derive(Clone, Copy)]
struct Lowered;

impl ClassRule for Lowered {
    ghost use Rattle.std.specs.Prelude.{IsTrue};
    ghost use Rattle.ty_good.specs.Traits.{class_lowered};

    ghost keeps = { λ rule number class. IsTrue (class_lowered number class) };

    fn keeps(&self, alloc: Global, number: u32, class: &Class) -> Result<bool, NoMemory> {
        if is_trait_kind(class.kind) {
            trait_lowered(alloc, number, class)
        } else {
            Ok(true)
        }
    }
}

fn trait_lowered(alloc: Global, number: u32, class: &Class) -> Result<bool, NoMemory>
    ensures { IfOk result (λ answer. IsTrue answer ↔ IsTrue (trait_lowered number class.now)) }
{
    if !is_bare(class) {
        return Ok(false);
    }
    let methods = class.methods.as_slice();
    Ok(methods_lowered(alloc, number, methods, methods)?)
}

// Whether a class has nothing but methods.
fn is_bare(class: &Class) -> bool
    ensures { result ≡ (is_empty class.now.fields && is_empty class.now.cells && is_empty class.now.super_args && is_empty class.now.body) }
{
    class.fields.is_empty()
        && class.cells.is_empty()
        && class.super_args.is_empty()
        && class.body.is_empty()
}

// Whether some methods of a trait are lowered.
fn methods_lowered(
    alloc: Global,
    number: u32,
    methods: &[Method],
    some: &[Method],
) -> Result<bool, AllocError>
    ensures { IfOk result (λ answer. answer ≡ list_all (method_lowered number methods.now) some.now) }
{
    for method in some {
        if !method_lowered(alloc, number, methods, method)? {
            return Ok(false);
        }
    }
    Ok(true)
}

// Whether a method of a trait is.
fn method_lowered(
    alloc: Global,
    number: u32,
    methods: &[Method],
    method: &Method,
) -> Result<bool, AllocError>
    ensures { IfOk result (λ answer. answer ≡ method_lowered number methods.now method.now) }
{
    let name = longer(alloc, &method.name, "$")?;
    match &method.body {
        Some(body) => Ok(
            method.is_static || forwards(number, methods, &name, method.params.len(), body),
        ),
        None => Ok(true),
    }
}

// Whether an expression calls the trait's own static method of a name with `this` and so many parameters.
fn forwards(number: u32, methods: &[Method], name: &Name, count: usize, body: &Expr) -> bool
    ensures { result ≡ level_forwards number methods.now name.now count (out-Expr body.now) }
{
    match body {
        Expr::StaticCall {
            class,
            method,
            args,
        } => *class == number
            && hands_on(count, args.as_slice())
            && is_named(methods, *method, name),
        _ => false,
    }
}

// Whether the method with this number has this name.
fn is_named(methods: &[Method], method: u32, name: &Name) -> bool
    ensures { result ≡ unwrap_or (option_map (λ m. bytes_eq m.name name.now) (slice_get methods.now method)) false }
{
    match at(methods, method as usize) {
        Some(method) => method.name == *name,
        None => false,
    }
}

// Whether arguments are `this` and then so many locals from 0 on.
fn hands_on(count: usize, args: &[Expr]) -> bool
    ensures { result ≡ hands_on count args.now }
{
    match args.split_first() {
        Some((first, rest)) => {
            matches!(*first, Expr::This) && rest.len() == count && are_locals(rest)
        }
        None => false,
    }
}

fn are_locals(args: &[Expr]) -> bool
    ensures { result ≡ are_locals 0 args.now }
{
    for (number, e) in args.iter().enumerate() {
        if !is_local(number, e) {
            return false;
        }
    }
    true
}

// Whether an expression reads this local.
fn is_local(number: usize, e: &Expr) -> bool
    ensures { result ≡ level_is_local number (out-Expr e.now) }
{
    match e {
        Expr::Local(local) => *local as usize == number,
        _ => false,
    }
}
