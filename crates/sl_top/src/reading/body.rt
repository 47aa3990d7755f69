ghost use Rattle.std.specs.Prelude.{◌≡◌, List, MatchResult};
ghost use Rattle.sl_top.specs.declared.chain.Chain.{Chain};
ghost use Rattle.sl_top.specs.Reading.{IsBody};

use crate::chain::Chain;
use crate::reading::fault::ReadFault;
use crate::reading::line::is_end;
use crate::reading::term::chain;
use crate::reading::text::{behind, unindented};
use sqlite_items::Items;
use std::alloc::Global;

/// The chains that the lines behind the head print.
pub fn body(alloc: Global, bytes: &[u8]) -> Result<Items<Chain>, ReadFault>
    ensures { MatchResult result
        (λ chains. IsBody chains bytes.now ×
        ((others : List Chain) → IsBody others bytes.now → others ≡ chains))
        (λ e. e ≡ ReadFault.NotBuilt → (chains : List Chain) → IsBody chains bytes.now → ⊥) }
{
    let mut chains = Items::new(alloc);
    let mut rest = bytes;
    'lines: while let Some(inside) = behind(unindented(rest), b"println(") {
        let (next, after) = chain(alloc, inside)?;
        chains.push(next)?;
        rest = after;
    }
    if is_end(rest) {
        Ok(chains)
    } else {
        Err(ReadFault::NotBuilt)
    }
}
