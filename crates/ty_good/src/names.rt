//! Which names a program may have after so many of the lowerings.

ghost use Rattle.std.specs.Prelude.{◌≡◌, ◌↔◌, ◌∷◌, [], IsTrue, IfOk, nat_le};
ghost use Rattle.std.specs.List.{list_all};
ghost use Rattle.ty_complete.specs.Words.{words, is_own, is_none, is_super, is_eq, is_init, is_lzy, is_low};
ghost use Rattle.ty_good.specs.Names.{class_name_made_by, cell_name_made_by, field_name_made_by, method_name_made_by, ends_static, is_as, method_named, class_named, NamesMade};

use crate::NoMemory;
use std::alloc::{AllocError, Global};
use ty_complete::{Word, words};
use ty_prog::{Cell, Class, Field, Method, Program};

// No lowering makes such a name.
const NEVER: u32 = 5;

/// Whether the names of a program are its own, or made by the first k lowerings; k is from 0 to 4. Errors: want of
/// memory.
pub fn names_made(alloc: Global, k: u32, p: &Program) -> Result<bool, NoMemory>
    ensures { IfOk result (λ answer. IsTrue answer ↔ NamesMade k p.now) }
{
    Ok(classes_named(alloc, k, p.classes.as_slice())?)
}

// Whether the names of some classes and of their members do.
fn classes_named(alloc: Global, k: u32, classes: &[Class]) -> Result<bool, AllocError>
    ensures { IfOk result (λ answer. answer ≡ list_all (class_named k) classes.now) }
{
    for class in classes {
        if !class_named(alloc, k, class)? {
            return Ok(false);
        }
    }
    Ok(true)
}

// Whether the names of a class and of its members do.
fn class_named(alloc: Global, k: u32, class: &Class) -> Result<bool, AllocError>
    ensures { IfOk result (λ answer. answer ≡ class_named k class.now) }
{
    let name = words(alloc, &class.name)?;
    if class_name_made_by(name.as_slice()) > k {
        return Ok(false);
    }
    if !fields_named(alloc, k, class.fields.as_slice())? {
        return Ok(false);
    }
    if !cells_named(alloc, k, class.cells.as_slice())? {
        return Ok(false);
    }
    methods_named(alloc, k, class.methods.as_slice())
}

// Whether the names of fields do.
fn fields_named(alloc: Global, k: u32, fields: &[Field]) -> Result<bool, AllocError>
    ensures { IfOk result (λ answer. answer ≡ list_all (λ f. nat_le (field_name_made_by (words f.name)) k) fields.now) }
{
    for field in fields {
        let name = words(alloc, &field.name)?;
        if field_name_made_by(name.as_slice()) > k {
            return Ok(false);
        }
    }
    Ok(true)
}

// Whether the names of lazy members stand after k lowerings.
fn cells_named(alloc: Global, k: u32, cells: &[Cell]) -> Result<bool, AllocError>
    ensures { IfOk result (λ answer. answer ≡ list_all (λ c. nat_le (cell_name_made_by (words c.name)) k) cells.now) }
{
    for cell in cells {
        let name = words(alloc, &cell.name)?;
        if cell_name_made_by(name.as_slice()) > k {
            return Ok(false);
        }
    }
    Ok(true)
}

// Whether the names of methods do.
fn methods_named(alloc: Global, k: u32, methods: &[Method]) -> Result<bool, AllocError>
    ensures { IfOk result (λ answer. answer ≡ list_all (method_named k) methods.now) }
{
    for method in methods {
        if !method_named(alloc, k, method)? {
            return Ok(false);
        }
    }
    Ok(true)
}

// Whether the name of a method does.
fn method_named(alloc: Global, k: u32, method: &Method) -> Result<bool, AllocError>
    ensures { IfOk result (λ answer. answer ≡ method_named k method.now) }
{
    let name = words(alloc, &method.name)?;
    if method_name_made_by(name.as_slice()) > k {
        return Ok(false);
    }
    Ok(is_as(method.is_static, ends_static(name.as_slice())))
}

fn is_as(one: bool, other: bool) -> bool
    ensures { result ≡ is_as one other }
{
    if one { other } else { !other }
}

fn class_name_made_by(name: &[Word]) -> u32
    ensures { result ≡ class_name_made_by name.now }
{
    match name {
        [only] => if is_own(*only) { 0 } else { NEVER },
        _ => NEVER,
    }
}

fn cell_name_made_by(name: &[Word]) -> u32
    ensures { result ≡ cell_name_made_by name.now }
{
    match name {
        [only] => if is_own(*only) { 0 } else { NEVER },
        _ => NEVER,
    }
}

fn field_name_made_by(name: &[Word]) -> u32
    ensures { result ≡ field_name_made_by name.now }
{
    match name {
        [only] => if is_own(*only) { 0 } else { NEVER },
        [member, last] => if is_own(*member) && is_lzy(*last) {
            4
        } else {
            NEVER
        },
        [above, gap, member] => {
            if is_own(*above) && is_none(*gap) && is_own(*member) {
                2
            } else {
                NEVER
            }
        }
        _ => NEVER,
    }
}

fn method_name_made_by(name: &[Word]) -> u32
    ensures { result ≡ method_name_made_by name.now }
{
    match name {
        [only] => if is_own(*only) { 0 } else { NEVER },
        [member, last] => of_two(*member, *last),
        [first, second, last] => of_three(*first, *second, *last),
        [above, gap, third, last] => of_four(*above, *gap, *third, *last),
        [above, gap, third, member, last] => {
            if is_own(*above)
                && is_none(*gap)
                && is_super(*third)
                && is_low(*member)
                && is_eq(*last)
            {
                2
            } else {
                NEVER
            }
        }
        _ => NEVER,
    }
}

// A setter, a static method or the initialiser of a cell.
fn of_two(member: Word, last: Word) -> u32
    ensures { result ≡ method_name_made_by (member ∷ last ∷ []) }
{
    if is_low(member) && is_eq(last) {
        0
    } else if is_own(member) && is_none(last) {
        2
    } else if is_own(member) && is_init(last) {
        4
    } else {
        NEVER
    }
}

// What begins the fields of a trait, or the static method of a setter.
fn of_three(first: Word, second: Word, last: Word) -> u32
    ensures { result ≡ method_name_made_by (first ∷ second ∷ last ∷ []) }
{
    if is_none(last) && ((is_none(first) && is_init(second)) || (is_low(first) && is_eq(second))) {
        2
    } else {
        NEVER
    }
}

// The super accessor of a method, or the setter of a field of a trait.
fn of_four(above: Word, gap: Word, third: Word, last: Word) -> u32
    ensures { result ≡ method_name_made_by (above ∷ gap ∷ third ∷ last ∷ []) }
{
    if is_own(above)
        && is_none(gap)
        && ((is_super(third) && is_own(last)) || (is_low(third) && is_eq(last)))
    {
        2
    } else {
        NEVER
    }
}

// Whether the last word is empty.
fn ends_static(name: &[Word]) -> bool
    ensures { result ≡ ends_static name.now }
{
    match name.last() {
        Some(last) => is_none(*last),
        None => false,
    }
}

// Whether a definition may have the word as its name.
fn is_own(word: Word) -> bool
    ensures { result ≡ is_own word }
{
    !matches!(word, Word::Empty | Word::Super)
}

fn is_none(word: Word) -> bool
    ensures { result ≡ is_none word }
{
    matches!(word, Word::Empty)
}

fn is_super(word: Word) -> bool
    ensures { result ≡ is_super word }
{
    matches!(word, Word::Super)
}

fn is_eq(word: Word) -> bool
    ensures { result ≡ is_eq word }
{
    matches!(word, Word::Eq)
}

fn is_init(word: Word) -> bool
    ensures { result ≡ is_init word }
{
    matches!(word, Word::Init)
}

fn is_lzy(word: Word) -> bool
    ensures { result ≡ is_lzy word }
{
    matches!(word, Word::Lzy)
}

fn is_low(word: Word) -> bool
    ensures { result ≡ is_low word }
{
    matches!(word, Word::Low)
}
