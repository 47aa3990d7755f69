//! Whether a class finds what it inherits and what `super` means in it. Plain, for tests on small programs.

ghost use Rattle.std.specs.Prelude.{◌≡◌, ◌↔◌, IsTrue, true, is_some, option_map};
ghost use Rattle.std.specs.List.{list_all};
ghost use Rattle.std.specs.Option.{unwrap_or};
ghost use Rattle.ty_prog.specs.declared.expr.Expr.{out-Expr};
ghost use Rattle.ty_prog.specs.Find.{super_find};
ghost use Rattle.ty_walk.specs.Everywhere.{AllNodesOf};
ghost use Rattle.ty_complete.specs.Complete.{level_super};
ghost use Rattle.ty_complete.specs.Finding.{method_found, methods_found, super_found, HoldsOf, SupersFound};

use sqlite_items::at;
use ty_prog::{Expr, Method, Node, Program, find, super_find};
use ty_walk::{Rule, holds_in_class};

/// Whether the class finds each method of the classes of a list that isn't static.
pub(crate) fn all_found(p: &Program, class: u32, linear: &[u32]) -> bool
    ensures { result ≡ list_all (methods_found p.now class) linear.now }
{
    linear.iter().all(|number| methods_found(p, class, *number))
}

fn methods_found(p: &Program, class: u32, number: u32) -> bool
    ensures { result ≡ methods_found p.now class number }
{
    match at(p.classes.as_slice(), number as usize) {
        Some(above) => each_found(p, class, above.methods.as_slice()),
        None => true,
    }
}

// Whether each method of a list is found by its name.
fn each_found(p: &Program, class: u32, methods: &[Method]) -> bool
    ensures { result ≡ list_all (method_found p.now class) methods.now }
{
    methods.iter().all(|method| method_found(p, class, method))
}

fn method_found(p: &Program, class: u32, method: &Method) -> bool
    ensures { result ≡ method_found p.now class method.now }
{
    method.is_static || find(p, class, &method.name).is_some()
}

/// Whether what each class of a list calls by `super` is found from the class.
pub(crate) fn supers_found(p: &Program, class: u32, linear: &[u32]) -> bool
    ensures { IsTrue result ↔ SupersFound p.now class linear.now }
{
    linear
        .iter()
        .all(|number| supers_found_of(p, class, *number))
}

// Whether the calls by `super` in this class find their methods.
fn supers_found_of(p: &Program, class: u32, number: u32) -> bool
    ensures { IsTrue result ↔ HoldsOf p.now.classes (AllNodesOf (λ node. IsTrue (super_found p.now class node))) number }
{
    match at(p.classes.as_slice(), number as usize) {
        Some(above) => holds_in_class(&FoundSuper { p, class }, above),
        None => true,
    }
}

// What a node calls by `super` is found from the class.
#[derive(Clone, Copy)]
struct FoundSuper<'a> {
    p: &'a Program,
    class: u32,
}

impl<'a> Rule for FoundSuper<'a> {
    ghost use Rattle.ty_complete.specs.Finding.{super_found};

    ghost holds = { λ rule. super_found rule.p.now rule.class };

    fn holds(&self, node: Node<'_>) -> bool {
        match node {
            Node::Expr(e) => call_found(self.p, self.class, e),
            _ => true,
        }
    }
}

// Whether what `super` means is found, in a call by `super`.
fn call_found(p: &Program, class: u32, e: &Expr) -> bool
    ensures { result ≡ unwrap_or (option_map (λ s. is_some (super_find p.now class s.0 s.1)) (level_super (out-Expr e.now))) true }
{
    match e {
        Expr::SuperCall { after, name, .. } => super_find(p, class, *after, name).is_some(),
        _ => true,
    }
}
