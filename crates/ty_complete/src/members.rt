//! Whether the members of each class have names of their own. Plain, for tests on small programs: each name is
//! compared with all behind it.

ghost use Rattle.std.specs.Prelude.{◌≡◌, ◌↔◌, IsTrue};
ghost use Rattle.std.specs.List.{list_any};
ghost use Rattle.std.specs.Str.{bytes_eq};
ghost use Rattle.ty_complete.specs.Complete.{differ, members_differ, MembersDiffer};

use ty_prog::{Cell, Class, Field, Method, Name, Program};

/// Whether no two fields, no two cells and no two methods of a class have one name.
pub fn members_differ(p: &Program) -> bool
    ensures { IsTrue result ↔ MembersDiffer p.now }
{
    p.classes.as_slice().iter().all(have_names)
}

// Whether the names of each kind of member of a class differ.
fn have_names(class: &Class) -> bool
    ensures { result ≡ members_differ class.now }
{
    fields_differ(class.fields.as_slice())
        && cells_differ(class.cells.as_slice())
        && methods_differ(class.methods.as_slice())
}

// Whether the names of fields differ.
fn fields_differ(fields: &[Field]) -> bool
    ensures { result ≡ differ (λ f. f.name) fields.now }
{
    let mut rest = fields;
    while let Some((first, more)) = rest.split_first() {
        if is_field(more, &first.name) {
            return false;
        }
        rest = more;
    }
    true
}

// Whether a field has this name.
fn is_field(fields: &[Field], name: &Name) -> bool
    ensures { result ≡ list_any (λ f. bytes_eq name.now f.name) fields.now }
{
    fields.iter().any(|field| *name == field.name)
}

// Whether the names of lazy members differ.
fn cells_differ(cells: &[Cell]) -> bool
    ensures { result ≡ differ (λ c. c.name) cells.now }
{
    let mut rest = cells;
    while let Some((first, more)) = rest.split_first() {
        if is_cell(more, &first.name) {
            return false;
        }
        rest = more;
    }
    true
}

// Whether a lazy member has this name.
fn is_cell(cells: &[Cell], name: &Name) -> bool
    ensures { result ≡ list_any (λ c. bytes_eq name.now c.name) cells.now }
{
    cells.iter().any(|cell| *name == cell.name)
}

// Whether the names of methods differ.
fn methods_differ(methods: &[Method]) -> bool
    ensures { result ≡ differ (λ m. m.name) methods.now }
{
    let mut rest = methods;
    while let Some((first, more)) = rest.split_first() {
        if is_method(more, &first.name) {
            return false;
        }
        rest = more;
    }
    true
}

// Whether a method has this name.
fn is_method(methods: &[Method], name: &Name) -> bool
    ensures { result ≡ list_any (λ m. bytes_eq name.now m.name) methods.now }
{
    methods.iter().any(|method| *name == method.name)
}
