//! Division of `Long`s.

ghost use Rattle.std.specs.Prelude.{◌≡◌, ◌↔◌, pos, IsNone, IfSome};
ghost use Rattle.sl_num.specs.Division.{long_quotient, remainder};

/// `a / b` of two `Long`s (JVMS 6.5, ldiv), or `None` where `b` is 0.
pub fn long_div(a: i64, b: i64) -> Option<i64>
    ensures none { IsNone result ↔ (b ≡ pos 0) }
    ensures quotient { IfSome result (λ q. q ≡ long_quotient a b) }
{
    if b == 0 {
        return None;
    }
    Some(a.wrapping_div(b))
}

/// `a % b` of two `Long`s (JVMS 6.5, lrem), or `None` where `b` is 0.
pub fn long_rem(a: i64, b: i64) -> Option<i64>
    ensures none { IsNone result ↔ (b ≡ pos 0) }
    ensures remainder { IfSome result (λ r. r ≡ remainder a b) }
{
    match b {
        0 => None,
        _ => Some(a.wrapping_rem(b)),
    }
}
