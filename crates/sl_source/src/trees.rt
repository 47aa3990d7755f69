//! From a text to its tree.

ghost use Rattle.std.specs.Prelude.{◌≡◌, ◌⊎◌, IfOk, IfErr};
ghost use Rattle.sl_source.specs.Source.{AreTokens, HasTree, IsParseFault, IsTextCause};

use crate::reading::tokens_in;
use crate::refusal::{Refusal, SourceFault};
use crate::source::Source;
use sl_ast::{Token, Unit};
use sl_lexer::lexing;
use sl_newline::separated;
use sl_parse_tmpl::{ParseFault, ParseKind, parse, refusals};
use sl_text::{Text, spot_at};
use std::alloc::Global;

/// The tree of a text beside the text, or its first fault.
pub fn source_of(alloc: Global, text: Text) -> Result<Source, SourceFault>
    ensures text { IfOk result (λ source. source.text ≡ text) }
    ensures tree { IfOk result (λ source. HasTree text source.tree) }
    ensures cause { IfErr result (IsTextCause text) }
{
    let tree = tree_in(alloc, &text)?;
    Ok(Source { text, tree })
}

// The tree of a text, or its first fault.
fn tree_in(alloc: Global, text: &Text) -> Result<Unit, SourceFault>
    ensures tree { IfOk result (λ tree. HasTree text.now tree) }
    ensures cause { IfErr result (IsTextCause text.now) }
{
    let tokens = tokens_in(alloc, text)?;
    match parse(alloc, tokens.as_slice()) {
        Ok(tree) => Ok(tree),
        Err(fault) => Err(refused(text, tokens.as_slice(), fault)),
    }
}

// What is told of a fault of the parser.
fn refused(text: &Text, tokens: &[Token], fault: ParseFault) -> SourceFault
    requires tokens { AreTokens text.now tokens.now }
    requires found { (fault.kind ≡ ParseKind.Memory) ⊎ IsParseFault tokens.now fault }
    ensures { IsTextCause text.now result }
{
    lexing();
    separated();
    refusals();
    if fault.kind == ParseKind::Memory {
        return SourceFault::Memory;
    }
    SourceFault::Refused(Refusal::Parse {
        fault,
        spot: spot_at(text, fault.span.from),
    })
}
