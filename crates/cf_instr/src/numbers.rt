//! Numbers at the front of bytes, the high byte first.

ghost use Rattle.std.specs.Prelude.{◌≡◌, ◌<◌, ◌++◌, length, MatchOption, FitsSigned};
ghost use Rattle.std.specs.Int.{w8, w16, w32};
ghost use Rattle.cf_form.specs.Instructions.{one, two, four, Is1, Is2};

/// A byte, and what is behind it.
#[inline(always)]
pub fn byte(bytes: &[u8]) -> Option<(i32, &[u8])>
    ensures { MatchOption result (length bytes.now < 1) (λ x. Is1 x.0 × (bytes.now ≡ one x.0 ++ x.1.now)) }
{
    match bytes {
        [x, rest @ ..] => Some((*x as i32, rest)),
        [] => None,
    }
}

/// A signed byte, and what is behind it.
#[inline(always)]
pub fn signed_byte(bytes: &[u8]) -> Option<(i32, &[u8])>
    ensures { MatchOption result (length bytes.now < 1) (λ x. FitsSigned w8 x.0 × (bytes.now ≡ one x.0 ++ x.1.now)) }
{
    match bytes {
        [x, rest @ ..] => Some((x.cast_signed() as i32, rest)),
        [] => None,
    }
}

/// Two bytes, and what is behind them.
#[inline(always)]
pub fn short(bytes: &[u8]) -> Option<(i32, &[u8])>
    ensures { MatchOption result (length bytes.now < 2) (λ x. Is2 x.0 × (bytes.now ≡ two x.0 ++ x.1.now)) }
{
    match bytes {
        [x, y, rest @ ..] => Some((u16::from_be_bytes([*x, *y]) as i32, rest)),
        _ => None,
    }
}

/// Two signed bytes, and what is behind them.
#[inline(always)]
pub fn signed_short(bytes: &[u8]) -> Option<(i32, &[u8])>
    ensures { MatchOption result (length bytes.now < 2) (λ x. FitsSigned w16 x.0 × (bytes.now ≡ two x.0 ++ x.1.now)) }
{
    match bytes {
        [x, y, rest @ ..] => Some((u16::from_be_bytes([*x, *y]).cast_signed() as i32, rest)),
        _ => None,
    }
}

/// Four signed bytes, and what is behind them.
#[inline(always)]
pub fn signed_int(bytes: &[u8]) -> Option<(i32, &[u8])>
    ensures { MatchOption result (length bytes.now < 4) (λ x. FitsSigned w32 x.0 × (bytes.now ≡ four x.0 ++ x.1.now)) }
{
    match bytes {
        [x, y, z, u, rest @ ..] => {
            Some((u32::from_be_bytes([*x, *y, *z, *u]).cast_signed(), rest))
        }
        _ => None,
    }
}
