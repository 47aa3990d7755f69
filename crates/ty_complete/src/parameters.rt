//! Whether parameters are few enough. Plain, for tests on small programs.

ghost use Rattle.std.specs.Prelude.{◌≡◌, ◌↔◌, ◌≤◌, IsTrue, length};
ghost use Rattle.std.specs.List.{All};
ghost use Rattle.ty_complete.specs.Complete.{HasFewParameters, ParametersFit, params_allowed, OnlyClassesHaveParameters};

use ty_prog::{Class, Kind, Method, Program};

/// Whether each class and each method has at most 121 parameters.
pub fn parameters_fit(p: &Program) -> bool
    ensures { IsTrue result ↔ ParametersFit p.now }
{
    p.classes.as_slice().iter().all(has_few)
}

// Whether the methods and the constructor of a class have few enough parameters.
fn has_few(class: &Class) -> bool
    ensures { IsTrue result ↔ HasFewParameters class.now }
{
    class.params.len() <= 121 && methods_have_few(class.methods.as_slice())
}

// Whether its methods have.
fn methods_have_few(methods: &[Method]) -> bool
    ensures { IsTrue result ↔ All (λ m. length m.params ≤ 121) methods.now }
{
    methods.iter().all(|method| method.params.len() <= 121)
}

/// Whether no trait and no object has class parameters (SLS 5.3.3, 5.5).
pub fn only_classes_have_parameters(p: &Program) -> bool
    ensures { IsTrue result ↔ OnlyClassesHaveParameters p.now }
{
    p.classes.as_slice().iter().all(|class| params_allowed(class.kind, class.params.as_slice()))
}

fn params_allowed(kind: Kind, params: &[u32]) -> bool
    ensures { result ≡ params_allowed kind params.now }
{
    match kind {
        Kind::Class | Kind::Abstract => true,
        Kind::Trait | Kind::Object => params.is_empty(),
    }
}
