ghost use Rattle.std.specs.Prelude.{◌≡◌, List, ◌≤◌, length, IfOk};
ghost use Rattle.sl_top.specs.declared.chain.Chain.{Chain};
ghost use Rattle.sl_top.specs.Listing.{IsListing};
ghost use Rattle.sl_top.specs.Value.{steps_of};

mod body;
mod fault;
mod line;
mod literal;
mod term;
mod text;

use crate::chain::Chain;
pub use fault::ReadFault;
use sqlite_items::Items;
use std::alloc::Global;

/// Reads the chains that a file prints, from the front, in one pass.
pub fn read(alloc: Global, bytes: &[u8]) -> Result<Items<Chain>, ReadFault>
    ensures found { IfOk result (λ chains. IsListing bytes.now chains) }
    // no other chains are spelled so
    ensures only { IfOk result (λ chains.
        (others : List Chain) → IsListing bytes.now others → others ≡ chains) }
    ensures not_built { result ≡ Err ReadFault.NotBuilt →
        (chains : List Chain) → IsListing bytes.now chains → ⊥ }
    // its run has no more steps than it has bytes
    ensures short { IfOk result (λ chains. steps_of chains ≤ length bytes.now) }
{
    let Some(lines) = line::head(bytes) else {
        return Err(ReadFault::NotBuilt);
    };
    body::body(alloc, lines)
}
