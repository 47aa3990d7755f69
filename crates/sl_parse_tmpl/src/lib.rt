//! Source files from tokens (SLS 4, 5, 9).
#![tactic(auto)]

ghost use Rattle.std.specs.Prelude.{◌≡◌, ◌⊎◌, ℕ, [], Some, IfOk, IfErr};
ghost use Rattle.sl_ast.specs.declared.unit.Unit as file;
ghost use Rattle.sl_parse_tmpl.specs.Faults as faults;
ghost use Rattle.sl_parse_tmpl.specs.Grammar.{Derives};
ghost use Rattle.sl_parse_tmpl.specs.Refusals.{Refuses};
ghost use Rattle.sl_parse_tmpl.specs.Rules as spec;

mod by_rules;
mod class_params;
mod classes;
mod definitions;
mod fault;
mod last_new;
mod laws;
mod members;
mod modifiers;
mod params;
mod spans;
mod stopping;
mod templates;
mod values;
mod words;

use by_rules::by_rules;
pub use fault::{ParseFault, ParseKind};
pub use laws::{files, parsing, refusals};
use sl_ast::{Token, Unit};
use std::alloc::Global;

/// The tree of a file, of all its tokens (SLS 4, 5, 9): the one that derives them by the grammar, with expressions and
/// patterns nested at most 200 deep. A fault: `Unexpected` at the first token that no file goes on with, or at the end
/// where tokens are missing; `TooDeep` at the first that lies deeper than 200 in each file that goes on with it; the first
/// of the two. `Memory` tells nothing of the tokens.
pub fn parse(alloc: Global, tokens: &[Token]) -> Result<Unit, ParseFault>
    ensures tree { IfOk result (λ tree. Some tree ≡ faults.tree_of (spec.unit_to faults.nesting ([], tokens.now))) }
    ensures derived { IfOk result (λ tree. Derives faults.nesting tree tokens.now) }
    ensures only { IfOk result (λ tree. (n : ℕ) (other : file.Unit) → Derives n other tokens.now → other ≡ tree) }
    ensures fault { IfErr result (λ fault. (fault.kind ≡ ParseKind.Memory) ⊎ (Some fault ≡ faults.fault_of tokens.now (spec.unit_to faults.nesting ([], tokens.now)))) }
    ensures complete { IfErr result (λ fault. (tree : file.Unit) → Derives faults.nesting tree tokens.now → fault.kind ≡ ParseKind.Memory) }
    ensures refused { IfErr result (λ fault. (fault.kind ≡ ParseKind.Memory) ⊎ Refuses tokens.now fault) }
{
    by_rules(alloc, tokens)
}
