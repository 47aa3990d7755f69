//! Sums that stay at the largest number.

ghost use Rattle.std.specs.Prelude.{◌≡◌, ◌↔◌, IsTrue, ℕ, ◌<◌, ◌≤◌, ◌+◌, ◌*◌};
ghost use Rattle.ty_room.specs.Capped.{capped};

/// The sum, or the largest number.
pub(crate) fn plus(a: u32, b: u32) -> u32
    ensures sum { result ≡ capped (a + b) }
    ensures whole { (x y : ℕ) → a ≡ capped x → b ≡ capped y → result ≡ capped (x + y) }
{
    a.saturating_add(b)
}

/// So many of one number, or the largest number.
pub(crate) fn times(each: u32, many: usize) -> u32
    ensures { result ≡ capped (each * many) }
{
    let product = u64::from(each).saturating_mul(many as u64);
    if product < 4_294_967_295 {
        product as u32
    } else {
        u32::MAX
    }
}

/// Whether a sum is at most a number.
pub(crate) fn within(sum: u32, most: u32) -> bool
    requires { most < 4294967295 }
    ensures { (whole : ℕ) → sum ≡ capped whole → IsTrue result ↔ (whole ≤ most) }
{
    sum <= most
}
