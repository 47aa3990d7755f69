//! The names of the built-in classes.

ghost use Rattle.std.specs.Prelude.{◌≡◌, map, IfOk, OnOk};
ghost use Rattle.std.specs.Str.{chars};
ghost use Rattle.cf_link.specs.BuiltIns.{built_ins};
ghost use Rattle.cf_set.specs.Names.{with_names};

use crate::names::Names;
use std::alloc::{AllocError, Global};

// By their numbers.
const BUILT_IN_NAMES: [&str; 28] = [
    "java/lang/Object",
    "java/lang/String",
    "java/lang/Runnable",
    "java/lang/Thread",
    "java/lang/Throwable",
    "java/lang/Exception",
    "java/lang/RuntimeException",
    "java/lang/ArithmeticException",
    "java/lang/NullPointerException",
    "java/lang/ClassCastException",
    "java/lang/IllegalStateException",
    "scala/MatchError",
    "java/lang/IllegalArgumentException",
    "java/lang/IllegalThreadStateException",
    "java/lang/Error",
    "java/lang/LinkageError",
    "java/lang/ExceptionInInitializerError",
    "java/lang/NoClassDefFoundError",
    "java/lang/VirtualMachineError",
    "java/lang/OutOfMemoryError",
    "lazyrt/LazyCycle",
    "java/lang/Integer",
    "java/lang/Long",
    "java/lang/Boolean",
    "lazyrt/Unit",
    "lazyrt/Latch",
    "lazyrt/Evaluating",
    "lazyrt/Cells",
];

/// The names of the built-in classes, by their numbers.
pub fn built_in_names(alloc: Global) -> Result<Names, AllocError>
    ensures { IfOk result (λ names. names ≡ map (λ b. b.name) built_ins) }
{
    let mut names = Names::new(alloc);
    put_names(alloc, &BUILT_IN_NAMES, &mut names)?;
    Ok(names)
}

// Puts names behind others, each once.
fn put_names(alloc: Global, texts: &[&str], names: &mut Names) -> Result<(), AllocError>
    ensures { OnOk result (names.new ≡ with_names names.old (map (λ t. chars t.now) texts.now)) }
{
    for text in texts {
        names.add(alloc, text)?;
    }
    Ok(())
}
