//! Whether the parents of each class fit each other. Plain, for tests on small programs.

ghost use Rattle.std.specs.Prelude.{◌≡◌, ◌↔◌, ◌≢◌, IsTrue, drop, not, nat_eq};
ghost use Rattle.std.specs.List.{All, AllPairs, list_all};
ghost use Rattle.ty_complete.specs.Complete.{superclass_fits, fits_below, parents_fit, ParentsDiffer, ParentsFit, ParentsAreNoObjects, ParentsAreNoThreads, THREAD};
ghost use Rattle.ty_conform.specs.Kinds.{is_trait, is_object, superclass, superclass_of, reaches};

use ty_conform::{is_object, is_trait, reaches, superclass, superclass_of};
use ty_prog::prelude_number::THREAD;
use ty_prog::{Class, Program};

/// Whether no class has one parent twice (SLS 5.1).
pub fn parents_differ(p: &Program) -> bool
    ensures { IsTrue result ↔ ParentsDiffer p.now }
{
    p.classes
        .as_slice()
        .iter()
        .all(|class| all_apart(class.parents.as_slice()))
}

// Whether no two numbers are one.
fn all_apart(numbers: &[u32]) -> bool
    ensures { IsTrue result ↔ AllPairs (λ one other. one ≢ other) numbers.now }
{
    for (i, number) in numbers.iter().enumerate() {
        if !is_none_of(*number, &numbers[i + 1..]) {
            return false;
        }
    }
    true
}

// Whether a number is none of some others.
fn is_none_of(number: u32, others: &[u32]) -> bool
    ensures { IsTrue result ↔ All (λ other. number ≢ other) others.now }
{
    others.iter().all(|other| number != *other)
}

/// Whether each parent after the first is a trait, and the superclass of each trait is in the linearisation of the
/// superclass of each class that has the trait (SLS 5.1).
pub fn parents_fit(p: &Program) -> bool
    ensures { IsTrue result ↔ ParentsFit p.now }
{
    let classes = p.classes.as_slice();
    classes.iter().all(|class| fit(classes, class))
}

// Whether the parents of a class fit.
fn fit(classes: &[Class], class: &Class) -> bool
    ensures { result ≡ parents_fit classes.now class.now }
{
    let parents = class.parents.as_slice();
    are_traits(classes, behind_first(parents))
        && fit_below(
            classes,
            superclass(classes, parents),
            class.linear.as_slice(),
        )
}

fn behind_first(parents: &[u32]) -> &[u32]
    ensures { result.now ≡ drop 1 parents.now }
{
    match parents.split_first() {
        Some((_, rest)) => rest,
        None => parents,
    }
}

fn are_traits(classes: &[Class], list: &[u32]) -> bool
    ensures { result ≡ list_all (is_trait classes.now) list.now }
{
    list.iter().all(|class| is_trait(classes, *class))
}

// Whether the traits of a linearisation fit below a superclass.
fn fit_below(classes: &[Class], above: Option<u32>, linear: &[u32]) -> bool
    ensures { result ≡ list_all (fits_below classes.now above) linear.now }
{
    linear
        .iter()
        .all(|class| fits_below(classes, above, *class))
}

fn fits_below(classes: &[Class], above: Option<u32>, class: u32) -> bool
    ensures { result ≡ fits_below classes.now above class }
{
    !is_trait(classes, class) || superclass_fits(classes, above, superclass_of(classes, class))
}

fn superclass_fits(classes: &[Class], above: Option<u32>, wanted: Option<u32>) -> bool
    ensures { result ≡ superclass_fits classes.now above wanted }
{
    match wanted {
        Some(wanted) => reaches(classes, above, wanted),
        None => true,
    }
}

/// Whether no class has an object as a parent (SLS 5.5).
pub fn parents_are_no_objects(p: &Program) -> bool
    ensures { IsTrue result ↔ ParentsAreNoObjects p.now }
{
    let classes = p.classes.as_slice();
    classes
        .iter()
        .all(|class| are_no_objects(classes, class.parents.as_slice()))
}

// Whether no parent is an object definition's class.
fn are_no_objects(classes: &[Class], parents: &[u32]) -> bool
    ensures { result ≡ list_all (λ parent. not (is_object classes.now parent)) parents.now }
{
    parents.iter().all(|parent| !is_object(classes, *parent))
}

/// Whether no class has Thread as a parent.
pub fn parents_are_no_threads(p: &Program) -> bool
    ensures { IsTrue result ↔ ParentsAreNoThreads p.now }
{
    p.classes
        .as_slice()
        .iter()
        .all(|class| are_no_threads(class.parents.as_slice()))
}

fn are_no_threads(parents: &[u32]) -> bool
    ensures { result ≡ list_all (λ parent. not (nat_eq THREAD parent)) parents.now }
{
    parents.iter().all(|parent| THREAD != *parent)
}
