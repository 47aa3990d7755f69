//! The numbers of the built-in classes, with which every linked set begins. Those of Runnable to LazyCycle are the numbers
//! of the prelude's classes in the language L, and two.

/// `java/lang/Object`.
pub const OBJECT: u32 = 0;
/// `java/lang/String`.
pub const STRING: u32 = 1;
/// `java/lang/Runnable`, an interface.
pub const RUNNABLE: u32 = 2;
/// `java/lang/Thread`.
pub const THREAD: u32 = 3;
/// `java/lang/Throwable`.
pub const THROWABLE: u32 = 4;
/// `java/lang/Exception`.
pub const EXCEPTION: u32 = 5;
/// `java/lang/RuntimeException`.
pub const RUNTIME_EXCEPTION: u32 = 6;
/// `java/lang/ArithmeticException`.
pub const ARITHMETIC_EXCEPTION: u32 = 7;
/// `java/lang/NullPointerException`.
pub const NULL_POINTER_EXCEPTION: u32 = 8;
/// `java/lang/ClassCastException`.
pub const CLASS_CAST_EXCEPTION: u32 = 9;
/// `java/lang/IllegalStateException`.
pub const ILLEGAL_STATE_EXCEPTION: u32 = 10;
/// `scala/MatchError`.
pub const MATCH_ERROR: u32 = 11;
/// `java/lang/IllegalArgumentException`.
pub const ILLEGAL_ARGUMENT_EXCEPTION: u32 = 12;
/// `java/lang/IllegalThreadStateException`.
pub const ILLEGAL_THREAD_STATE_EXCEPTION: u32 = 13;
/// `java/lang/Error`.
pub const ERROR: u32 = 14;
/// `java/lang/LinkageError`.
pub const LINKAGE_ERROR: u32 = 15;
/// `java/lang/ExceptionInInitializerError`.
pub const EXCEPTION_IN_INITIALIZER_ERROR: u32 = 16;
/// `java/lang/NoClassDefFoundError`.
pub const NO_CLASS_DEF_FOUND_ERROR: u32 = 17;
/// `java/lang/VirtualMachineError`.
pub const VIRTUAL_MACHINE_ERROR: u32 = 18;
/// `java/lang/OutOfMemoryError`.
pub const OUT_OF_MEMORY_ERROR: u32 = 19;
/// `lazyrt/LazyCycle`.
pub const LAZY_CYCLE: u32 = 20;
/// `java/lang/Integer`, whose values are boxes.
pub const INTEGER: u32 = 21;
/// `java/lang/Long`, whose values are boxes.
pub const LONG: u32 = 22;
/// `java/lang/Boolean`, whose values are boxes.
pub const BOOLEAN: u32 = 23;
/// `lazyrt/Unit`, whose value is the box of `()`.
pub const UNIT: u32 = 24;
/// `lazyrt/Latch`.
pub const LATCH: u32 = 25;
/// `lazyrt/Evaluating`.
pub const EVALUATING: u32 = 26;
/// `lazyrt/Cells`, which has the static methods that class files call.
pub const CELLS: u32 = 27;
/// How many classes are built in; those of the files begin with this number.
pub const BUILT_INS: u32 = 28;
