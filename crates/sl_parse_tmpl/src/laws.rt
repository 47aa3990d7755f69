//! What the definitions are that the contract of `parse` cites, as laws. Each function has an empty body.

ghost use Rattle.std.specs.Prelude.{◌≡◌, ◌≤◌, ◌⊎◌, ℕ, List, [], Some};
ghost use Rattle.std.specs.List.{AllByRecursion};
ghost use Rattle.sl_ast.specs.declared.token.Token.{Token};
ghost use Rattle.sl_ast.specs.declared.unit.Unit as file;
ghost use Rattle.sl_parse_tmpl.specs.declared.fault.ParseFault.{ParseFault};
ghost use Rattle.sl_parse_tmpl.specs.Faults as faults;
ghost use Rattle.sl_parse_tmpl.specs.Grammar.{Derives};
ghost use Rattle.sl_parse_tmpl.specs.Refusals.{Refuses};
ghost use Rattle.sl_parse_tmpl.specs.Rules as spec;

/// The rules give a tree of all tokens or a fault, and not both. A fault begins within the characters of the tokens.
pub fn parsing()
    ensures either { (tokens : List Token) →
        ((tree : file.Unit) × (Some tree ≡ faults.tree_of (spec.unit_to faults.nesting ([], tokens))))
        ⊎ ((fault : ParseFault) × (Some fault ≡ faults.fault_of tokens (spec.unit_to faults.nesting ([], tokens)))) }
    ensures never_both { (tokens : List Token) (tree : file.Unit) (fault : ParseFault)
        → Some tree ≡ faults.tree_of (spec.unit_to faults.nesting ([], tokens))
        → Some fault ≡ faults.fault_of tokens (spec.unit_to faults.nesting ([], tokens)) → ⊥ }
    ensures within { (tokens : List Token) (fault : ParseFault) (n : ℕ)
        → Some fault ≡ faults.fault_of tokens (spec.unit_to faults.nesting ([], tokens))
        → AllByRecursion (λ t. (t.span.from ≤ n) × (t.span.to ≤ n)) tokens → fault.span.from ≤ n }
{}

/// The rules give exactly the files of the grammar. Tokens have at most one tree as a file, however deep it nests.
pub fn files()
    ensures read { (tokens : List Token) (tree : file.Unit) → Derives faults.nesting tree tokens
        → Some tree ≡ faults.tree_of (spec.unit_to faults.nesting ([], tokens)) }
    ensures derived { (tokens : List Token) (tree : file.Unit)
        → Some tree ≡ faults.tree_of (spec.unit_to faults.nesting ([], tokens)) → Derives faults.nesting tree tokens }
    ensures one { (n m : ℕ) (tree other : file.Unit) (tokens : List Token) → Derives n tree tokens → Derives m other tokens → tree ≡ other }
{}

/// Where the rules stop the grammar does too. Of tokens one fault is told, at one of them, and none of tokens that have a
/// tree. It begins within the characters of the tokens.
pub fn refusals()
    ensures told { (tokens : List Token) (fault : ParseFault)
        → Some fault ≡ faults.fault_of tokens (spec.unit_to faults.nesting ([], tokens)) → Refuses tokens fault }
    ensures one { (tokens : List Token) (fault other : ParseFault) → Refuses tokens fault → Refuses tokens other → fault ≡ other }
    ensures never_both { (tokens : List Token) (tree : file.Unit) (fault : ParseFault) → Derives faults.nesting tree tokens → Refuses tokens fault → ⊥ }
    ensures within { (tokens : List Token) (fault : ParseFault) (n : ℕ) → Refuses tokens fault
        → AllByRecursion (λ t. (t.span.from ≤ n) × (t.span.to ≤ n)) tokens → fault.span.from ≤ n }
{}
