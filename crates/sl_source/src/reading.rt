//! From a text to its tokens.

ghost use Rattle.std.specs.Prelude.{◌≡◌, ◌⊎◌, IfOk, IfErr};
ghost use Rattle.sl_lexer.specs.Lex.{Fault};
ghost use Rattle.sl_source.specs.Source.{AreTokens, IsTextCause};

use crate::refusal::{Refusal, SourceFault};
use sl_ast::Token;
use sl_lexer::{LexFault, LexKind, lex, lexing};
use sl_newline::separate;
use sl_text::{Text, spot_at};
use std::alloc::Global;

/// The tokens of a text with newlines between them, or its first fault.
pub fn tokens_in(alloc: Global, text: &Text) -> Result<Vec<Token>, SourceFault>
    ensures tokens { IfOk result (λ tokens. AreTokens text.now tokens.items) }
    ensures cause { IfErr result (IsTextCause text.now) }
{
    match lex(alloc, text) {
        Ok(tokens) => {
            let separated = separate(alloc, &tokens, text)?;
            Ok(separated)
        }
        Err(fault) => Err(refused(text, fault)),
    }
}

// What is told of a fault of the lexer.
fn refused(text: &Text, fault: LexFault) -> SourceFault
    requires found { (fault.kind ≡ LexKind.Memory) ⊎ Fault text.now fault.kind fault.span }
    ensures { IsTextCause text.now result }
{
    lexing();
    if fault.kind == LexKind::Memory {
        return SourceFault::Memory;
    }
    SourceFault::Refused(Refusal::Lex {
        fault,
        spot: spot_at(text, fault.span.from),
    })
}
