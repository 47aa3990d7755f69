//! Files by the rules of the reader.

ghost use Rattle.std.specs.Prelude.{◌≡◌, ◌⊎◌, [], Some, IfOk, IfErr};
ghost use Rattle.sl_parse_tmpl.specs.Faults as faults;
ghost use Rattle.sl_parse_tmpl.specs.Rules as spec;

use crate::classes::unit;
use crate::fault::{ParseFault, ParseKind};
use crate::stopping::fault_at;
use sl_ast::{Token, Unit};
use sl_parse_expr::{Cursor, Stopped};
use std::alloc::Global;

// How deep expressions and patterns may nest.
const NESTING: usize = 200;

/// The tree that the rules give of all tokens, or the fault where they stop.
pub fn by_rules(alloc: Global, tokens: &[Token]) -> Result<Unit, ParseFault>
    ensures tree { IfOk result (λ tree. Some tree ≡ faults.tree_of (spec.unit_to faults.nesting ([], tokens.now))) }
    ensures fault { IfErr result (λ fault. (fault.kind ≡ ParseKind.Memory) ⊎ (Some fault ≡ faults.fault_of tokens.now (spec.unit_to faults.nesting ([], tokens.now)))) }
{
    let mut left = Cursor::new(tokens);
    match unit(alloc, &mut left, NESTING) {
        Ok(tree) => Ok(tree),
        Err(Stopped::Memory) => Err(fault_at(tokens, &left, ParseKind::Memory)),
        Err(Stopped::Unexpected) => Err(fault_at(tokens, &left, ParseKind::Unexpected)),
        Err(Stopped::TooDeep) => Err(fault_at(tokens, &left, ParseKind::TooDeep)),
    }
}
