//! Whether methods of one name agree. Plain, for tests on small programs: each method is compared with all.

ghost use Rattle.std.specs.Prelude.{◌≡◌, ◌↔◌, IsTrue};
ghost use Rattle.std.specs.List.{All};
ghost use Rattle.ty_complete.specs.Complete.{Agrees, MembersAgree};
ghost use Rattle.ty_complete.specs.Finding.{HoldsOf, MethodsAgree, ListsAgree, AgreesWith};

use sqlite_items::at;
use ty_prog::{Class, Method, Program, Ty};

/// Whether methods of one name that aren't static have the same parameters and result, in the linearisation of each
/// class and trait (SLS 5.1.3, 5.1.4).
pub fn members_agree(p: &Program) -> bool
    ensures { IsTrue result ↔ MembersAgree p.now }
{
    p.classes
        .as_slice()
        .iter()
        .all(|class| agrees(p, class.linear.as_slice()))
}

// Whether members of one name agree along a linearisation.
fn agrees(p: &Program, linear: &[u32]) -> bool
    ensures { IsTrue result ↔ Agrees p.now linear.now }
{
    all_agree(p.classes.as_slice(), linear)
}

// Whether any two methods of one name that aren't static, of any two classes of a list, agree.
fn all_agree(classes: &[Class], linear: &[u32]) -> bool
    ensures { IsTrue result ↔ All (HoldsOf classes.now (AgreesWith classes.now linear.now)) linear.now }
{
    linear
        .iter()
        .all(|number| number_agrees(classes, linear, *number))
}

// Whether the members of this class agree with those of each class of a linearisation.
fn number_agrees(classes: &[Class], linear: &[u32], number: u32) -> bool
    ensures { IsTrue result ↔ HoldsOf classes.now (AgreesWith classes.now linear.now) number }
{
    match at(classes, number as usize) {
        Some(class) => agrees_with(classes, linear, class),
        None => true,
    }
}

// The same of a class.
fn agrees_with(classes: &[Class], linear: &[u32], class: &Class) -> bool
    ensures { IsTrue result ↔ AgreesWith classes.now linear.now class.now }
{
    let methods = class.methods.as_slice();
    linear
        .iter()
        .all(|number| agrees_with_number(classes, *number, methods))
}

// Whether methods agree with those of the class with this number.
fn agrees_with_number(classes: &[Class], number: u32, methods: &[Method]) -> bool
    ensures { IsTrue result ↔ HoldsOf classes.now (λ other. ListsAgree methods.now other.methods) number }
{
    match at(classes, number as usize) {
        Some(class) => lists_agree(methods, class.methods.as_slice()),
        None => true,
    }
}

// Whether each method of one list agrees with each of another.
fn lists_agree(ones: &[Method], others: &[Method]) -> bool
    ensures { IsTrue result ↔ ListsAgree ones.now others.now }
{
    ones.iter().all(|one| method_agrees(one, others))
}

// Whether a method agrees with each of a list.
fn method_agrees(one: &Method, others: &[Method]) -> bool
    ensures { IsTrue result ↔ All (MethodsAgree one.now) others.now }
{
    others.iter().all(|two| methods_agree(one, two))
}

// Whether two methods of one name have one signature.
fn methods_agree(one: &Method, two: &Method) -> bool
    ensures { IsTrue result ↔ MethodsAgree one.now two.now }
{
    one.is_static || two.is_static || one.name != two.name || same_types(one, two)
}

// Whether two methods have the same parameters and result.
fn same_types(one: &Method, two: &Method) -> bool
    ensures { IsTrue result ↔ (one.now.params ≡ two.now.params) × (one.now.result ≡ two.now.result) }
{
    same_list(one.params.as_slice(), two.params.as_slice()) && same_type(one.result, two.result)
}

// Whether two lists of types are one.
fn same_list(ones: &[Ty], others: &[Ty]) -> bool
    ensures { IsTrue result ↔ (ones.now ≡ others.now) }
{
    ones == others
}

// Whether two types are one.
fn same_type(one: Ty, other: Ty) -> bool
    ensures { IsTrue result ↔ (one ≡ other) }
{
    one == other
}
