//! Source files: from bytes to the tree, or to the first fault.
#![tactic(auto)]

ghost use Rattle.std.specs.Prelude.{◌≤◌, ◌^◌, length, IfOk, IfErr};
ghost use Rattle.sl_text.specs.Utf8.{Spells};
ghost use Rattle.sl_source.specs.Source.{HasTree, IsCause};

mod laws;
mod reading;
mod refusal;
mod source;
mod trees;

pub use laws::sources;
pub use refusal::{Refusal, SourceFault};
use sl_text::{TextFault, chars_of};
pub use source::Source;
use std::alloc::Global;
use trees::source_of;

/// The text and the tree of a source file (SLS 1, 4, 5). `Refused`: it has no tree, and this is its first fault. `Memory`
/// tells nothing of it.
pub fn read_source(alloc: Global, bytes: &[u8]) -> Result<Source, SourceFault>
    requires { length bytes.now ≤ 2 ^ 20 }
    ensures text { IfOk result (λ source. Spells bytes.now source.text) }
    ensures tree { IfOk result (λ source. HasTree source.text source.tree) }
    ensures cause { IfErr result (IsCause bytes.now) }
{
    match chars_of(alloc, bytes) {
        Ok(text) => source_of(alloc, text),
        Err(TextFault::NotUtf8 { at }) => Err(SourceFault::Refused(Refusal::NotUtf8 { at })),
        Err(TextFault::Memory) => Err(SourceFault::Memory),
    }
}
