//! The classes that every program begins with.

ghost use Rattle.std.specs.Prelude.{◌≡◌, ◌<◌, [], ◌∷◌, ◌++◌, take, drop, length, slice_index, IfOk, OnOk, IsTrue};
ghost use Rattle.std.specs.Char.{is_ascii};
ghost use Rattle.std.specs.List.{list_all};
ghost use Rattle.ty_prog.specs.Prelude.{runnable, thread, thread_fields, throwable, message, exception, exceptions, prelude};

use crate::NoMemory;
use crate::class::Class;
use crate::expr::Expr;
use crate::field::Field;
use crate::kind::Kind;
use crate::plain_name::plain_name;
use crate::prelude_methods::{method, start, throwable_methods};
use crate::ty::Ty;
use sqlite_items::Items;
use std::alloc::{AllocError, Global};

/// The classes of the prelude, in order: what every program begins with.
pub fn prelude(alloc: Global) -> Result<Items<Class>, NoMemory>
    ensures { IfOk result (λ classes. classes ≡ prelude) }
{
    let mut classes = Items::new(alloc);
    classes.push(runnable(alloc)?)?;
    classes.push(thread(alloc)?)?;
    classes.push(throwable(alloc)?)?;
    put_exceptions(alloc, &mut classes)?;
    put_errors(alloc, &mut classes)?;
    Ok(classes)
}

fn runnable(alloc: Global) -> Result<Class, AllocError>
    ensures { IfOk result (λ class. class ≡ runnable) }
{
    let mut methods = Items::new(alloc);
    methods.push(method(alloc, "run", Ty::Unit, None)?)?;
    Ok(Class {
        name: plain_name(alloc, "Runnable")?,
        kind: Kind::Trait,
        parents: Items::new(alloc),
        linear: Items::from_slice(alloc, &[0])?,
        params: Items::new(alloc),
        mixins: Items::new(alloc),
        fields: Items::new(alloc),
        cells: Items::new(alloc),
        methods,
        super_args: Items::new(alloc),
        body: Items::new(alloc),
        locals: 0,
    })
}

fn thread(alloc: Global) -> Result<Class, AllocError>
    ensures { IfOk result (λ class. class ≡ thread) }
{
    let mut methods = Items::new(alloc);
    methods.push(start(alloc)?)?;
    Ok(Class {
        name: plain_name(alloc, "Thread")?,
        kind: Kind::Class,
        parents: Items::new(alloc),
        linear: Items::from_slice(alloc, &[1])?,
        params: Items::from_slice(alloc, &[0])?,
        mixins: Items::new(alloc),
        fields: thread_fields(alloc)?,
        cells: Items::new(alloc),
        methods,
        super_args: Items::new(alloc),
        body: Items::new(alloc),
        locals: 1,
    })
}

fn thread_fields(alloc: Global) -> Result<Items<Field>, AllocError>
    ensures { IfOk result (λ fields. fields ≡ thread_fields) }
{
    let mut fields = Items::new(alloc);
    fields.push(Field {
        name: plain_name(alloc, "target")?,
        ty: Ty::Class(0),
    })?;
    fields.push(Field {
        name: plain_name(alloc, "started")?,
        ty: Ty::Boolean,
    })?;
    Ok(fields)
}

fn throwable(alloc: Global) -> Result<Class, AllocError>
    ensures { IfOk result (λ class. class ≡ throwable) }
{
    Ok(Class {
        name: plain_name(alloc, "Throwable")?,
        kind: Kind::Class,
        parents: Items::new(alloc),
        linear: Items::from_slice(alloc, &[2])?,
        params: Items::from_slice(alloc, &[0])?,
        mixins: Items::new(alloc),
        fields: message(alloc)?,
        cells: Items::new(alloc),
        methods: throwable_methods(alloc)?,
        super_args: Items::new(alloc),
        body: Items::new(alloc),
        locals: 1,
    })
}

// The fields of a throwable.
fn message(alloc: Global) -> Result<Items<Field>, AllocError>
    ensures { IfOk result (λ fields. fields ≡ message) }
{
    let mut fields = Items::new(alloc);
    fields.push(Field {
        name: plain_name(alloc, "message")?,
        ty: Ty::Text,
    })?;
    Ok(fields)
}

fn put_exceptions(alloc: Global, classes: &mut Items<Class>) -> Result<(), AllocError>
    ensures { OnOk result (classes.new ≡ classes.old ++ take 9 exceptions) }
{
    let class = Kind::Class;
    put(alloc, classes, "Exception", class, &[3, 2])?;
    put(alloc, classes, "RuntimeException", class, &[4, 3, 2])?;
    put(alloc, classes, "ArithmeticException", class, &[5, 4, 3, 2])?;
    put(alloc, classes, "NullPointerException", class, &[6, 4, 3, 2])?;
    put(alloc, classes, "ClassCastException", class, &[7, 4, 3, 2])?;
    put(
        alloc,
        classes,
        "IllegalStateException",
        class,
        &[8, 4, 3, 2],
    )?;
    put(alloc, classes, "MatchError", class, &[9, 4, 3, 2])?;
    put(
        alloc,
        classes,
        "IllegalArgumentException",
        class,
        &[10, 4, 3, 2],
    )?;
    put(
        alloc,
        classes,
        "IllegalThreadStateException",
        class,
        &[11, 10, 4, 3, 2],
    )
}

fn put_errors(alloc: Global, classes: &mut Items<Class>) -> Result<(), AllocError>
    ensures { OnOk result (classes.new ≡ classes.old ++ drop 9 exceptions) }
{
    let class = Kind::Class;
    put(alloc, classes, "Error", class, &[12, 2])?;
    put(alloc, classes, "LinkageError", class, &[13, 12, 2])?;
    put(
        alloc,
        classes,
        "ExceptionInInitializerError",
        class,
        &[14, 13, 12, 2],
    )?;
    put(
        alloc,
        classes,
        "NoClassDefFoundError",
        class,
        &[15, 13, 12, 2],
    )?;
    put(
        alloc,
        classes,
        "VirtualMachineError",
        Kind::Abstract,
        &[16, 12, 2],
    )?;
    put(alloc, classes, "OutOfMemoryError", class, &[17, 16, 12, 2])?;
    put(alloc, classes, "LazyCycle", class, &[18, 4, 3, 2])
}

// Appends a class of throwables, whose linearisation has the class, its parent and those above.
fn put(
    alloc: Global,
    classes: &mut Items<Class>,
    name: &str,
    kind: Kind,
    linear: &[u32],
) -> Result<(), AllocError>
    requires ascii { IsTrue (list_all is_ascii name.now) }
    requires parent { 1 < length linear.now }
    ensures { OnOk result (classes.new ≡ classes.old ++ exception name.now kind (slice_index linear.now 1) linear.now ∷ []) }
{
    let mut super_args = Items::new(alloc);
    super_args.push(Expr::Local(0))?;
    classes.push(Class {
        name: plain_name(alloc, name)?,
        kind,
        parents: Items::from_slice(alloc, &[linear[1]])?,
        linear: Items::from_slice(alloc, linear)?,
        params: Items::from_slice(alloc, &[0])?,
        mixins: Items::new(alloc),
        fields: message(alloc)?,
        cells: Items::new(alloc),
        methods: Items::new(alloc),
        super_args,
        body: Items::new(alloc),
        locals: 1,
    })
}
