ghost use Rattle.std.specs.Prelude.{◌≡◌, ◌≢◌, ◌<◌, [], ◌∷◌, ◌↔◌, IsTrue, length, slice_index, codes, MatchOption};
ghost use Rattle.sl_top.specs.Listing.{AreLines};
ghost use Rattle.sl_top.specs.Reading.{LinesThen, NoSuchLines};

use crate::reading::text::{behind, unindented};

/// What stands behind a line with this text.
fn line<'a>(bytes: &'a [u8], text: &[u8]) -> Option<&'a [u8]>
    requires some { 0 < length text.now }
    requires no_space { slice_index text.now 0 ≢ 32 }
    ensures { let texts = text.now ∷ [] in
        MatchOption result (NoSuchLines texts bytes.now) (λ rest. LinesThen texts bytes.now rest.now) }
{
    behind(behind(unindented(bytes), text)?, b"\n")
}

/// The lines behind those that every file begins with.
pub fn head(bytes: &[u8]) -> Option<&[u8]>
    ensures { let texts = codes "object Main {" ∷ codes "def main(): Unit = {" ∷ [] in
        MatchOption result (NoSuchLines texts bytes.now) (λ rest. LinesThen texts bytes.now rest.now) }
{
    line(line(bytes, b"object Main {")?, b"def main(): Unit = {")
}

/// What stands behind the lines that every file ends with.
fn end(bytes: &[u8]) -> Option<&[u8]>
    ensures { let texts = codes "}" ∷ codes "}" ∷ [] in
        MatchOption result (NoSuchLines texts bytes.now) (λ rest. LinesThen texts bytes.now rest.now) }
{
    line(line(bytes, b"}")?, b"}")
}

/// Whether these are the last lines.
pub fn is_end(bytes: &[u8]) -> bool
    ensures { IsTrue result ↔ AreLines (codes "}" ∷ codes "}" ∷ []) bytes.now }
{
    match end(bytes) {
        Some(rest) => rest.is_empty(),
        None => false,
    }
}
