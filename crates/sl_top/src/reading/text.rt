ghost use Rattle.std.specs.Prelude.{◌≡◌, List, ℕ, ◌++◌, MatchOption};
ghost use Rattle.sl_top.specs.Reading.{unindented};

/// What stands behind a text at the front.
pub fn behind<'a>(bytes: &'a [u8], text: &[u8]) -> Option<&'a [u8]>
    ensures { MatchOption result ((rest : List ℕ) → bytes.now ≡ text.now ++ rest → ⊥)
        (λ rest. bytes.now ≡ text.now ++ rest.now) }
{
    bytes.strip_prefix(text)
}

/// The bytes without the spaces at the front.
pub fn unindented(bytes: &[u8]) -> &[u8]
    ensures { result.now ≡ unindented bytes.now }
{
    let mut rest = bytes;
    'space: while let Some(after) = behind(rest, b" ") {
        rest = after;
    }
    rest
}
