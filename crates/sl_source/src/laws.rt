//! What the definitions are that the contract of `read_source` cites, as a law.

ghost use Rattle.std.specs.Prelude.{◌≡◌, ℕ, List};
ghost use Rattle.sl_ast.specs.declared.unit.Unit as file;
ghost use Rattle.sl_source.specs.declared.refusal.Refusal.{Refusal};
ghost use Rattle.sl_source.specs.Source.{IsSource, FirstFault};

use sl_lexer::lexing;
use sl_newline::separated;
use sl_parse_tmpl::{files, refusals};
use sl_text::{encoding, spots};

/// Bytes have at most one tree and one first fault, and never both.
pub fn sources()
    ensures tree { (bytes : List ℕ) (one other : file.Unit) → IsSource bytes one → IsSource bytes other → one ≡ other }
    ensures fault { (bytes : List ℕ) (one other : Refusal) → FirstFault bytes one → FirstFault bytes other → one ≡ other }
    ensures never_both { (bytes : List ℕ) (tree : file.Unit) (r : Refusal) → IsSource bytes tree → FirstFault bytes r → ⊥ }
{
    encoding();
    spots();
    lexing();
    separated();
    files();
    refusals();
}
