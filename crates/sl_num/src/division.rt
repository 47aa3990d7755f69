//! Division of `Int`s.

ghost use Rattle.std.specs.Prelude.{◌≡◌, ◌↔◌, pos, IsNone, IfSome};
ghost use Rattle.sl_num.specs.Division.{int_quotient, remainder};

/// `a / b` of two `Int`s (JVMS 6.5, idiv), or `None` where `b` is 0.
pub fn int_div(a: i32, b: i32) -> Option<i32>
    ensures none { IsNone result ↔ (b ≡ pos 0) }
    ensures quotient { IfSome result (λ q. q ≡ int_quotient a b) }
{
    if b == 0 {
        return None;
    }
    Some(a.wrapping_div(b))
}

/// `a % b` of two `Int`s (JVMS 6.5, irem), or `None` where `b` is 0.
pub fn int_rem(a: i32, b: i32) -> Option<i32>
    ensures none { IsNone result ↔ (b ≡ pos 0) }
    ensures remainder { IfSome result (λ r. r ≡ remainder a b) }
{
    match b {
        0 => None,
        _ => Some(a.wrapping_rem(b)),
    }
}
