//! What the definitions that the contracts cite are, as laws.

ghost use Rattle.std.specs.Prelude.{◌≡◌, ◌⊎◌, ℕ, List};
ghost use Rattle.sl_text.specs.Utf8.{IsScalarValue, Encodes, Spells, IsWellFormed, IsIllFormedAt};
ghost use Rattle.sl_text.specs.Spot.{IsSpot};

/// UTF-8: each scalar value has one sequence and no other number has any; bytes spell one text or have
/// a first ill-formed sequence, never both, and only one such text or offset.
pub fn encoding()
    ensures all { (c : ℕ) → IsScalarValue c → (bytes : List ℕ) × Encodes bytes c }
    ensures scalar { (bytes : List ℕ) (c : ℕ) → Encodes bytes c → IsScalarValue c }
    ensures one { (xs ys : List ℕ) (c : ℕ) → Encodes xs c → Encodes ys c → xs ≡ ys }
    ensures text { (bytes xs ys : List ℕ) → Spells bytes xs → Spells bytes ys → xs ≡ ys }
    ensures either { (bytes : List ℕ) → IsWellFormed bytes ⊎ ((i : ℕ) × IsIllFormedAt bytes i) }
    ensures first { (bytes : List ℕ) (i j : ℕ) → IsIllFormedAt bytes i → IsIllFormedAt bytes j → i ≡ j }
    ensures apart { (bytes : List ℕ) (i : ℕ) → IsIllFormedAt bytes i → ¬ (IsWellFormed bytes) }
{}

/// An offset has one line and one column.
pub fn spots()
    ensures line { (text : List ℕ) (at l c m d : ℕ) → IsSpot text at l c → IsSpot text at m d → l ≡ m }
    ensures column { (text : List ℕ) (at l c m d : ℕ) → IsSpot text at l c → IsSpot text at m d → c ≡ d }
{}
