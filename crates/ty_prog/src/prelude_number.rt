//! The numbers of the classes that every program begins with.

/// `Runnable`.
pub const RUNNABLE: u32 = 0;
/// `Thread`.
pub const THREAD: u32 = 1;
/// `Throwable`.
pub const THROWABLE: u32 = 2;
/// `Exception`.
pub const EXCEPTION: u32 = 3;
/// `RuntimeException`.
pub const RUNTIME_EXCEPTION: u32 = 4;
/// `ArithmeticException`.
pub const ARITHMETIC_EXCEPTION: u32 = 5;
/// `NullPointerException`.
pub const NULL_POINTER_EXCEPTION: u32 = 6;
/// `ClassCastException`.
pub const CLASS_CAST_EXCEPTION: u32 = 7;
/// `IllegalStateException`.
pub const ILLEGAL_STATE_EXCEPTION: u32 = 8;
/// `MatchError`.
pub const MATCH_ERROR: u32 = 9;
/// `IllegalArgumentException`.
pub const ILLEGAL_ARGUMENT_EXCEPTION: u32 = 10;
/// `IllegalThreadStateException`.
pub const ILLEGAL_THREAD_STATE_EXCEPTION: u32 = 11;
/// `Error`.
pub const ERROR: u32 = 12;
/// `LinkageError`.
pub const LINKAGE_ERROR: u32 = 13;
/// `ExceptionInInitializerError`.
pub const EXCEPTION_IN_INITIALIZER_ERROR: u32 = 14;
/// `NoClassDefFoundError`.
pub const NO_CLASS_DEF_FOUND_ERROR: u32 = 15;
/// `VirtualMachineError`.
pub const VIRTUAL_MACHINE_ERROR: u32 = 16;
/// `OutOfMemoryError`.
pub const OUT_OF_MEMORY_ERROR: u32 = 17;
/// `LazyCycle`.
pub const LAZY_CYCLE: u32 = 18;
/// How many classes the prelude has; the classes of a program begin with this number.
pub const PRELUDE_LEN: u32 = 19;
