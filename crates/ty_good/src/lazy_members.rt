//! Whether lazy members are read by the methods of their names, and those are found.

ghost use Rattle.std.specs.Prelude.{◌≡◌, ◌↔◌, ◌&&◌, IsTrue, IfOk};
ghost use Rattle.std.specs.List.{list_all};
ghost use Rattle.std.specs.Str.{bytes_eq};
ghost use Rattle.ty_good.specs.LazyMembers.{reads_lazy, is_read, cells_read, CellsRead, is_inherited, inherits_lazy, class_inherits_lazy, LazyMembersFound};

use crate::NoMemory;
use crate::accessors::finds_in;
use crate::each::{ClassRule, each_class};
use crate::lazy_gets::gets_own;
use sqlite_items::at;
use std::alloc::Global;
use ty_conform::is_trait_kind;
use ty_prog::{Cell, Class, Method, Program};

/// Whether, until the lowering of lazy members, each lazy member is read by the method of its name; k is from 0 to 4.
/// Errors: want of memory, for more than 2^32 classes.
pub fn cells_read(alloc: Global, k: u32, p: &Program) -> Result<bool, NoMemory>
    ensures { IfOk result (λ answer. IsTrue answer ↔ CellsRead k p.now) }
{
    if k >= 4 {
        return Ok(true);
    }
    each_class(alloc, &Reads, p)
}

/// Whether, until the lowering of lazy members, each class that isn't a trait finds the methods that read the lazy members
/// of the classes of its linearisation (SLS 5.1.4); k is from 0 to 4. Errors: want of memory, for more than 2^32
/// classes.
pub fn lazy_members_found(alloc: Global, k: u32, p: &Program) -> Result<bool, NoMemory>
    ensures { IfOk result (λ answer. IsTrue answer ↔ LazyMembersFound k p.now) }
{
    if k >= 4 {
        return Ok(true);
    }
    each_class(alloc, &Inherits { p }, p)
}

#[derive(Clone, Copy)]
struct Reads;

impl ClassRule for Reads {
    ghost use Rattle.std.specs.Prelude.{IsTrue};
    ghost use Rattle.ty_good.specs.LazyMembers.{cells_read};

    ghost keeps = { λ rule number class. IsTrue (cells_read number class) };

    fn keeps(&self, _alloc: Global, number: u32, class: &Class) -> Result<bool, NoMemory> {
        Ok(all_read(number, class))
    }
}

#[derive(Clone, Copy)]
struct Inherits<'a> {
    p: &'a Program,
}

impl ClassRule for Inherits<'_> {
    ghost use Rattle.std.specs.Prelude.{IsTrue};
    ghost use Rattle.ty_good.specs.LazyMembers.{class_inherits_lazy};

    ghost keeps = { λ rule number class. IsTrue (class_inherits_lazy rule.p.now number class) };

    fn keeps(&self, _alloc: Global, number: u32, class: &Class) -> Result<bool, NoMemory> {
        Ok(class_inherits_lazy(self.p, number, class))
    }
}

// Whether each lazy member of a class has the method that reads it.
fn all_read(number: u32, class: &Class) -> bool
    ensures { result ≡ cells_read number class.now }
{
    class
        .cells
        .as_slice()
        .iter()
        .all(|cell| is_read(number, class, cell))
}

fn is_read(number: u32, class: &Class, cell: &Cell) -> bool
    ensures { result ≡ is_read number class.now cell.now }
{
    class
        .methods
        .as_slice()
        .iter()
        .any(|m| is_reader(number, class, cell, m))
}

// Whether a method has the name of a lazy member and reads it.
fn is_reader(number: u32, class: &Class, cell: &Cell, m: &Method) -> bool
    ensures { result ≡ bytes_eq m.now.name cell.now.name && reads_lazy number class.now m.now }
{
    m.name == cell.name && reads_lazy(number, class, m)
}

fn reads_lazy(number: u32, class: &Class, m: &Method) -> bool
    ensures { result ≡ reads_lazy number class.now m.now }
{
    match &m.body {
        Some(body) => gets_own(number, class.cells.as_slice(), &m.name, body),
        None => false,
    }
}

fn class_inherits_lazy(p: &Program, number: u32, class: &Class) -> bool
    ensures { result ≡ class_inherits_lazy p.now number class.now }
{
    is_trait_kind(class.kind) || inherits_all(p, number, class.linear.as_slice())
}

// Whether a class keeps the lazy members of each class of a list.
fn inherits_all(p: &Program, class: u32, linear: &[u32]) -> bool
    ensures { result ≡ list_all (inherits_lazy p.now class) linear.now }
{
    linear.iter().all(|number| inherits_lazy(p, class, *number))
}

fn inherits_lazy(p: &Program, class: u32, number: u32) -> bool
    ensures { result ≡ inherits_lazy p.now class number }
{
    match at(p.classes.as_slice(), number as usize) {
        Some(above) => all_inherited(p, class, number, above),
        None => true,
    }
}

// Whether a class finds each method of another that reads a lazy member.
fn all_inherited(p: &Program, class: u32, number: u32, above: &Class) -> bool
    ensures { result ≡ list_all (is_inherited p.now class number above.now) above.now.methods }
{
    above
        .methods
        .as_slice()
        .iter()
        .all(|m| is_inherited(p, class, number, above, m))
}

fn is_inherited(p: &Program, class: u32, number: u32, above: &Class, m: &Method) -> bool
    ensures { result ≡ is_inherited p.now class number above.now m.now }
{
    !reads_lazy(number, above, m) || finds_in(p, class, number, m)
}
