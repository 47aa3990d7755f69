//! What the definitions are that the contract of `lex` cites, as laws.

ghost use Rattle.std.specs.Prelude.{◌≡◌, ◌≤◌, ◌⊎◌, ◌↔◌, ℕ, List, Some, length};
ghost use Rattle.std.specs.List.{AllByRecursion};
ghost use Rattle.sl_text.specs.declared.span.Span.{Span};
ghost use Rattle.sl_ast.specs.declared.token.Token.{Token};
ghost use Rattle.sl_ast.specs.declared.token.TokenKind.{TokenKind};
ghost use Rattle.sl_lexer.specs.declared.fault.LexKind.{LexKind};
ghost use Rattle.sl_lexer.specs.Comment.{IsComment, comment_end};
ghost use Rattle.sl_lexer.specs.Forms.{IsOne, IsForm};
ghost use Rattle.sl_lexer.specs.Lex.{Lex, Fault};

/// Each text has tokens or a fault, and never both; it has one list of tokens, and one
/// fault. All stand within the text.
pub fn lexing()
    ensures some { (text : List ℕ) → ((tokens : List Token) × Lex text tokens) ⊎ ((kind : LexKind) × (span : Span) × Fault text kind span) }
    ensures never_both { (text : List ℕ) (tokens : List Token) (kind : LexKind) (span : Span) → Lex text tokens → Fault text kind span → ⊥ }
    ensures tokens { (text : List ℕ) (ts us : List Token) → Lex text ts → Lex text us → ts ≡ us }
    ensures fault { (text : List ℕ) (k l : LexKind) (s t : Span) → Fault text k s → Fault text l t → (k ≡ l) × (s ≡ t) }
    ensures within { (text : List ℕ) (ts : List Token) → Lex text ts
        → AllByRecursion (λ t. (t.span.from ≤ length text) × (t.span.to ≤ length text)) ts }
    ensures begins { (text : List ℕ) (kind : LexKind) (span : Span) → Fault text kind span → span.from ≤ length text }
{}

/// What is found behind a comment is what stands behind a comment that nests.
pub fn nesting()
    ensures { (a r : List ℕ) → (comment_end 0 a ≡ Some r) ↔ IsComment a r }
{}

/// A text is one token of a kind exactly where it has the form of that kind.
pub fn forms()
    ensures { (kind : TokenKind) (text : List ℕ) → IsOne kind text ↔ IsForm kind text }
{}
