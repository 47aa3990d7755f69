//! Whether the numbers of declarations are in range.

ghost use Rattle.std.specs.Prelude.{◌≡◌, ◌↔◌, IsTrue, length};
ghost use Rattle.std.specs.List.{All, list_all};
ghost use Rattle.ty_conform.specs.Kinds.{is_known};
ghost use Rattle.ty_good.specs.Numbers.{are_below, method_in_range, class_in_range, NumbersInRange};

use ty_conform::is_known;
use ty_prog::{Cell, Class, Field, Method, Program, Ty};

/// Whether the numbers of parents, linearisations and class parameters are in range, and the types of members name
/// classes that are there.
pub fn numbers_in_range(p: &Program) -> bool
    ensures { IsTrue result ↔ NumbersInRange p.now }
{
    let classes = p.classes.as_slice();
    (p.main as usize) < classes.len() && all_in_range(classes, classes)
}

// Whether the numbers in some classes are in range.
fn all_in_range(classes: &[Class], some: &[Class]) -> bool
    ensures { IsTrue result ↔ All (λ class. IsTrue (class_in_range classes.now class)) some.now }
{
    some.iter().all(|class| class_in_range(classes, class))
}

// Whether those in a class are.
fn class_in_range(classes: &[Class], class: &Class) -> bool
    ensures { result ≡ class_in_range classes.now class.now }
{
    are_below(classes.len(), class.parents.as_slice())
        && are_below(classes.len(), class.linear.as_slice())
        && are_below(class.fields.len(), class.params.as_slice())
        && fields_known(classes, class.fields.as_slice())
        && cells_known(classes, class.cells.as_slice())
        && methods_in_range(classes, class.methods.as_slice())
}

// Whether some numbers are below a count.
fn are_below(count: usize, numbers: &[u32]) -> bool
    ensures { result ≡ are_below count numbers.now }
{
    numbers.iter().all(|number| (*number as usize) < count)
}

// Whether the types of fields do.
fn fields_known(classes: &[Class], fields: &[Field]) -> bool
    ensures { result ≡ list_all (λ f. is_known classes.now f.ty) fields.now }
{
    fields.iter().all(|field| is_known(classes, field.ty))
}

// Whether the types of lazy members name classes that are there.
fn cells_known(classes: &[Class], cells: &[Cell]) -> bool
    ensures { result ≡ list_all (λ c. is_known classes.now c.ty) cells.now }
{
    cells.iter().all(|cell| is_known(classes, cell.ty))
}

// Whether the numbers in some methods are in range.
fn methods_in_range(classes: &[Class], methods: &[Method]) -> bool
    ensures { result ≡ list_all (method_in_range classes.now) methods.now }
{
    methods
        .iter()
        .all(|method| method_in_range(classes, method))
}

// Whether those in a method are.
fn method_in_range(classes: &[Class], method: &Method) -> bool
    ensures { result ≡ method_in_range classes.now method.now }
{
    types_known(classes, method.params.as_slice()) && is_known(classes, method.result)
}

// Whether some types name classes that are there.
fn types_known(classes: &[Class], types: &[Ty]) -> bool
    ensures { result ≡ list_all (is_known classes.now) types.now }
{
    types.iter().all(|ty| is_known(classes, *ty))
}
