//! What the definition is that the contract of `separate` cites, as a law.

ghost use Rattle.std.specs.Prelude.{◌≡◌, ◌≤◌, ℕ, List, Option};
ghost use Rattle.std.specs.List.{AllByRecursion};
ghost use Rattle.sl_ast.specs.declared.token.Token.{Token};
ghost use Rattle.sl_newline.specs.declared.region.Region.{Region};
ghost use Rattle.sl_newline.specs.Regions.{Innermost, Separated};

/// One region is innermost before a token, and each list of tokens is exactly one list with newlines put in, which stands
/// within the same characters.
pub fn separated()
    ensures region { (ts b : List Token) (q r : Option Region) → Innermost ts b q → Innermost ts b r → q ≡ r }
    ensures some { (text : List ℕ) (ts : List Token) → (out : List Token) × Separated text ts out }
    ensures tokens { (text : List ℕ) (ts a b : List Token) → Separated text ts a → Separated text ts b → a ≡ b }
    ensures within { (text : List ℕ) (ts out : List Token) (n : ℕ) → Separated text ts out
        → AllByRecursion (λ t. (t.span.from ≤ n) × (t.span.to ≤ n)) ts → AllByRecursion (λ t. (t.span.from ≤ n) × (t.span.to ≤ n)) out }
{}
