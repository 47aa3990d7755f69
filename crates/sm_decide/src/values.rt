//! What is told of values alone.

ghost use Rattle.std.specs.Prelude.{◌≡◌};
ghost use Rattle.sm_rule.specs.Values.{alike, same, equal};

use sm_state::Value;

/// Whether two Booleans are equal.
pub(crate) fn alike(a: bool, b: bool) -> bool
    ensures { result ≡ alike a b }
{
    if a { b } else { !b }
}

/// Whether two values are one and the same.
pub fn same(a: &Value, b: &Value) -> bool
    ensures { result ≡ same a.now b.now }
{
    match (a, b) {
        (Value::Unit, Value::Unit) => true,
        (Value::Bool(a), Value::Bool(b)) => alike(*a, *b),
        (Value::Int(a), Value::Int(b)) => *a == *b,
        (Value::Long(a), Value::Long(b)) => *a == *b,
        (Value::Text(a), Value::Text(b)) => *a == *b,
        (Value::Null, Value::Null) => true,
        (Value::Ref(a), Value::Ref(b)) => *a == *b,
        (Value::Latch { at: a, .. }, Value::Latch { at: b, .. }) => *a == *b,
        (Value::Evaluating(a), Value::Evaluating(b)) => *a == *b,
        (Value::NullValue, Value::NullValue) => true,
        _ => false,
    }
}

/// `==` of a value that is no object.
pub fn equal(a: &Value, b: &Value) -> bool
    ensures { result ≡ equal a.now b.now }
{
    match (a, b) {
        (Value::Int(a), Value::Long(b)) => *a as i64 == *b,
        (Value::Long(a), Value::Int(b)) => *a == *b as i64,
        _ => same(a, b),
    }
}
