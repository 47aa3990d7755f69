//! Values.

ghost use Rattle.std.specs.Prelude.{◌≡◌};
ghost use Rattle.vm_state.specs.Values.{width, as_int, as_long, is_kind, is_null, is_text, tag, content, is_same, kind_width};

use cf_link::ValueKind;

/// A value of a local, an operand, a field or a static (JVMS 2.2). `Text`, `Latch` and `Ref` hold numbers in the heap.
#[derive(Clone, Copy, Debug)]
pub enum Value {
    Int(i32),
    Long(i64),
    Null,
    /// An object, with its class.
    Ref { at: u32, class: u32 },
    Text(u32),
    BoxInt(i32),
    BoxLong(i64),
    BoxBool(bool),
    BoxUnit,
    /// A latch, with the thread that it names.
    Latch { at: u32, owner: u32 },
    /// The control value that names a thread whose initialiser runs.
    Evaluating(u32),
    /// The control value that stands for a stored null.
    NullValue,
}

impl Value {
    /// How many units of depth it takes, or local variables: its category (JVMS 2.6.1, 2.6.2, 2.11.1).
    #[inline]
    pub fn width(self) -> usize
        ensures { result ≡ width self }
    {
        match self {
            Value::Long(_) => 2,
            _ => 1,
        }
    }

    /// The number of an Int.
    #[inline]
    pub fn as_int(self) -> Option<i32>
        ensures { result ≡ as_int self }
    {
        match self {
            Value::Int(n) => Some(n),
            _ => None,
        }
    }

    /// The number of a Long.
    #[inline]
    pub fn as_long(self) -> Option<i64>
        ensures { result ≡ as_long self }
    {
        match self {
            Value::Long(n) => Some(n),
            _ => None,
        }
    }

    /// Whether it is of this kind.
    #[inline]
    pub fn is_kind(self, kind: ValueKind) -> bool
        ensures { result ≡ is_kind kind self }
    {
        match self {
            Value::Int(_) => match kind {
                ValueKind::Int => true,
                _ => false,
            },
            Value::Long(_) => match kind {
                ValueKind::Long => true,
                _ => false,
            },
            _ => match kind {
                ValueKind::Reference => true,
                _ => false,
            },
        }
    }

    /// Whether it is null.
    #[inline]
    pub fn is_null(self) -> bool
        ensures { result ≡ is_null self }
    {
        match self {
            Value::Null => true,
            _ => false,
        }
    }

    /// Whether it is a text.
    #[inline]
    pub fn is_text(self) -> bool
        ensures { result ≡ is_text self }
    {
        match self {
            Value::Text(_) => true,
            _ => false,
        }
    }

    /// Which variant it is.
    #[inline]
    fn tag(self) -> u8
        ensures { result ≡ tag self }
    {
        match self {
            Value::Int(_) => 0,
            Value::Long(_) => 1,
            Value::Null => 2,
            Value::Ref { .. } => 3,
            Value::Text(_) => 4,
            Value::BoxInt(_) => 5,
            Value::BoxLong(_) => 6,
            Value::BoxBool(_) => 7,
            Value::BoxUnit => 8,
            Value::Latch { .. } => 9,
            Value::Evaluating(_) => 10,
            Value::NullValue => 11,
        }
    }

    /// What tells it from other values of its variant.
    #[inline]
    fn content(self) -> i64
        ensures { result ≡ content self }
    {
        match self {
            Value::Int(n) => n as i64,
            Value::Long(n) => n,
            Value::Ref { at, class: _ } => at as i64,
            Value::Text(at) => at as i64,
            Value::BoxInt(n) => n as i64,
            Value::BoxLong(n) => n,
            Value::BoxBool(true) => 1,
            Value::Latch { at, owner: _ } => at as i64,
            Value::Evaluating(thread) => thread as i64,
            _ => 0,
        }
    }

    /// Whether the two are one object, or boxes or control values of one content. Of texts it compares their numbers.
    #[inline]
    pub fn is_same(self, other: Value) -> bool
        ensures { result ≡ is_same self other }
    {
        self.tag() == other.tag() && self.content() == other.content()
    }
}

/// How many units of depth, or local variables, a value of this kind takes.
#[inline]
pub fn kind_width(kind: ValueKind) -> usize
    ensures { result ≡ kind_width kind }
{
    match kind {
        ValueKind::Long => 2,
        _ => 1,
    }
}
