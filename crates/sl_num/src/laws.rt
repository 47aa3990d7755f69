//! What the definitions that the contracts cite are, as laws.

ghost use Rattle.std.specs.Prelude.{◌≡◌, ◌≢◌, ◌<◌, ℕ, ℤ, pos, unsigned_abs, FitsSigned, Bool, IsTrue, List};
ghost use Rattle.std.specs.Int.{w32, w64};
ghost use Rattle.sl_num.specs.declared.int_op.IntOp.TheVariants.{Add, Mul};
ghost use Rattle.sl_num.specs.Division.{int_quotient, long_quotient, remainder, HasSignOf};
ghost use Rattle.sl_num.specs.Int.{signed32, IsWrapped, int};
ghost use Rattle.sl_num.specs.Literal.{is_hex, is_long, digits, is_numeral};
ghost use Rattle.sl_num.specs.Long.{signed64, IsWrappedLong, long};
ghost use Rattle.sl_num.specs.Spelling.{IsSpelled};

/// Each whole number `x` differs by a multiple of 2^32 from one `Int`, `signed32 x`, and from no other.
pub fn wrapping()
    ensures wrapped { (x : ℤ) → IsWrapped x (signed32 x) }
    ensures only { (x r : ℤ) → IsWrapped x r → r ≡ signed32 x }
{}

/// Each whole number `x` differs by a multiple of 2^64 from one `Long`, `signed64 x`, and from no other.
pub fn wrapping_long()
    ensures wrapped { (x : ℤ) → IsWrappedLong x (signed64 x) }
    ensures only { (x r : ℤ) → IsWrappedLong x r → r ≡ signed64 x }
{}

/// A remainder is nearer to 0 than the divisor, and has the dividend's sign. `(a / b) * b + a % b` is `a`, in `Int`'s and
/// in `Long`'s arithmetic too, and also for the least number divided by -1.
pub fn dividing()
    ensures size { (a b : ℤ) → b ≢ pos 0 → unsigned_abs (remainder a b) < unsigned_abs b }
    ensures sign { (a b : ℤ) → HasSignOf a (remainder a b) }
    ensures int_whole { (a b : ℤ) → FitsSigned w32 a
        → int Add (int Mul (int_quotient a b) b) (remainder a b) ≡ a }
    ensures long_whole { (a b : ℤ) → FitsSigned w64 a
        → long Add (long Mul (long_quotient a b) b) (remainder a b) ≡ a }
{}

/// Each text is a beginning, digits and an end as `literal` takes it apart, and one of a number's form in no other way.
pub fn spelling()
    ensures some { (text : List ℕ) → IsSpelled text (is_hex text) (is_long text) (digits text) }
    ensures only { (text ds : List ℕ) (hex long : Bool)
        → IsTrue (is_numeral hex ds) → IsSpelled text hex long ds
        → (is_hex text ≡ hex) × (is_long text ≡ long) × (digits text ≡ ds) }
{}
