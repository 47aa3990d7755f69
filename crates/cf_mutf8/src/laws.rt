//! What the definitions that the contracts cite are, as laws.

ghost use Rattle.std.specs.Prelude.{◌≡◌, ◌↔◌, ℕ, List, Some};
ghost use Rattle.std.specs.Int.{IsInRange};
ghost use Rattle.std.specs.List.{All};
ghost use Rattle.cf_mutf8.specs.Decoded.{decoded};
ghost use Rattle.cf_mutf8.specs.ModifiedUtf8.{encoded, IsText, Spells, IsBadUnitAt};

/// No other text has the same modified UTF-8, and none of its bytes is 0 or past 0xEF.
pub fn encoding()
    ensures one { (xs ys : List ℕ) → IsText xs → IsText ys → encoded xs ≡ encoded ys → xs ≡ ys }
    ensures bytes { (text : List ℕ) → IsText text → All (IsInRange 0x01 0xEF) (encoded text) }
{}

/// Bytes have one first wrong unit at most, and none if they spell a text.
pub fn wrong_units()
    ensures one { (bytes : List ℕ) (i j : ℕ) → IsBadUnitAt bytes i → IsBadUnitAt bytes j → i ≡ j }
    ensures apart { (bytes text : List ℕ) (i : ℕ) → IsBadUnitAt bytes i → ¬ (Spells bytes text) }
{}

/// The text that bytes spell is the one that is found from their first character on.
pub fn decoding()
    ensures { (bytes text : List ℕ) → (decoded bytes ≡ Some text) ↔ Spells bytes text }
{}
