//! Whether names fit a class file. Plain, for tests on small programs.

ghost use Rattle.std.specs.Prelude.{◌≡◌, ◌↔◌, ◌≢◌, ◌≤◌, IsTrue, codes, length};
ghost use Rattle.std.specs.List.{All};
ghost use Rattle.std.specs.Str.{chars};
ghost use Rattle.ty_complete.specs.Complete.{is_plain, IsName, HasNames, NamesFit};

use crate::own_classes::own_classes;
use crate::plain_text::is_text;
use ty_prog::{Cell, Class, Field, Method, Name, Program};

/// Whether the names outside the prelude have characters that a class file takes, and few enough of them.
pub fn names_fit(p: &Program) -> bool
    ensures { IsTrue result ↔ NamesFit p.now }
{
    own_classes(p).iter().all(has_names)
}

// Whether the names of a class and of its members fit.
fn has_names(class: &Class) -> bool
    ensures { IsTrue result ↔ HasNames class.now }
{
    is_name(86, &class.name)
        && fields_fit(class.fields.as_slice())
        && cells_fit(class.cells.as_slice())
        && methods_fit(class.methods.as_slice())
        && none_is_module(class.fields.as_slice())
}

// Whether the names of fields fit.
fn fields_fit(fields: &[Field]) -> bool
    ensures { IsTrue result ↔ All (λ f. IsName 200 f.name) fields.now }
{
    fields.iter().all(|field| is_name(200, &field.name))
}

// Whether the names of lazy members fit.
fn cells_fit(cells: &[Cell]) -> bool
    ensures { IsTrue result ↔ All (λ c. IsName 200 c.name) cells.now }
{
    cells.iter().all(|cell| is_name(200, &cell.name))
}

// Whether the names of methods fit.
fn methods_fit(methods: &[Method]) -> bool
    ensures { IsTrue result ↔ All (λ m. IsName 200 m.name) methods.now }
{
    methods.iter().all(|method| is_name(200, &method.name))
}

// Whether no field is called `MODULE$`.
fn none_is_module(fields: &[Field]) -> bool
    ensures { IsTrue result ↔ All (λ f. f.name ≢ codes "MODULE$") fields.now }
{
    fields.iter().all(|field| !is_module(&field.name))
}

// Whether a name is that of the field that holds an object.
fn is_module(name: &Name) -> bool
    ensures { IsTrue result ↔ (name.now ≡ codes "MODULE$") }
{
    is_text(name, "MODULE$")
}

// Whether a name of at most so many characters fits.
fn is_name(most: usize, name: &Name) -> bool
    ensures { IsTrue result ↔ IsName most name.now }
{
    let text = name.as_str();
    let count = characters(text);
    1 <= count && count <= most && are_plain(text)
}

// How many characters a text has.
fn characters(text: &str) -> usize
    ensures { result ≡ length (chars text.now) }
{
    text.chars().count()
}

// Whether all characters of a name are plain.
fn are_plain(text: &str) -> bool
    ensures { IsTrue result ↔ All (λ character. IsTrue (is_plain character)) (chars text.now) }
{
    text.chars().all(is_plain)
}

fn is_plain(character: char) -> bool
    ensures { result ≡ is_plain character }
{
    !matches!(character, '.' | ';' | '[' | '/' | '<' | '>' | '(' | ')')
}
