//! Methods of built-in classes.

/// A built-in method; in descriptors O stands for `Ljava/lang/Object;`, S for `Ljava/lang/String;`, H for
/// `Llazyrt/Latch;`.
#[derive(Clone, Copy, Debug, PartialEq, Eq)]
pub enum Native {
    /// `java/lang/Object.<init>()V`
    ObjectInit,
    /// `java/lang/Object.equals(O)Z`
    ObjectEquals,
    /// `java/lang/Object.toString()S`
    ObjectToString,
    /// `java/lang/String.length()I`
    StringLength,
    /// `java/lang/String.isEmpty()Z`
    StringIsEmpty,
    /// `java/lang/Thread.<init>(Ljava/lang/Runnable;)V`
    ThreadInit,
    /// `java/lang/Thread.start()V`
    ThreadStart,
    /// `java/lang/Throwable.<init>()V`
    ThrowableInit,
    /// `java/lang/Throwable.<init>(S)V`
    ThrowableInitText,
    /// `java/lang/Throwable.getMessage()S`
    ThrowableGetMessage,
    /// `java/lang/Throwable.toString()S`
    ThrowableToString,
    /// `lazyrt/Cells.cas(OSOO)Z`
    Cas,
    /// `lazyrt/Cells.latch(O)H`
    Latch,
    /// `lazyrt/Cells.countDown(H)V`
    CountDown,
    /// `lazyrt/Cells.await(H)V`
    Await,
    /// `lazyrt/Cells.ownedHere(O)Z`
    OwnedHere,
    /// `lazyrt/Cells.evaluating()O`
    Evaluating,
    /// `lazyrt/Cells.nullValue()O`
    NullValue,
    /// `lazyrt/Cells.boxInt(I)O`
    BoxInt,
    /// `lazyrt/Cells.boxLong(J)O`
    BoxLong,
    /// `lazyrt/Cells.boxBoolean(Z)O`
    BoxBoolean,
    /// `lazyrt/Cells.boxUnit()O`
    BoxUnit,
    /// `lazyrt/Cells.unboxInt(O)I`
    UnboxInt,
    /// `lazyrt/Cells.unboxLong(O)J`
    UnboxLong,
    /// `lazyrt/Cells.unboxBoolean(O)Z`
    UnboxBoolean,
    /// `lazyrt/Cells.text(O)S`
    Text,
    /// `lazyrt/Cells.concat(SS)S`
    Concat,
    /// `lazyrt/Cells.kindOf(O)S`
    KindOf,
    /// `lazyrt/Cells.println(S)V`
    Println,
}
