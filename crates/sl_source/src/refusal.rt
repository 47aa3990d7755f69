//! Why a source file is refused.

use sl_base::NoMemory;
use sl_lexer::LexFault;
use sl_parse_tmpl::ParseFault;
use sl_text::Spot;
use thiserror::Error;

/// The first fault of a source file, and the line and the column of its first character.
#[derive(Clone, Copy, Debug, PartialEq, Eq, Error)]
pub enum Refusal {
    /// The file isn't UTF-8, and the first ill-formed sequence begins at this byte.
    #[error("byte {at}: no UTF-8")]
    NotUtf8 { at: u32 },
    /// A fault of tokens (SLS 1).
    #[error("line {line}, column {column}: {kind}", line = .spot.line, column = .spot.column, kind = .fault.kind)]
    Lex { fault: LexFault, spot: Spot },
    /// A fault of the tree (SLS 4 to 6, 8).
    #[error("line {line}, column {column}: {kind}", line = .spot.line, column = .spot.column, kind = .fault.kind)]
    Parse { fault: ParseFault, spot: Spot },
}

/// Why bytes have no tree.
#[derive(Clone, Copy, Debug, PartialEq, Eq, Error)]
pub enum SourceFault {
    /// The first fault of the file.
    #[error(transparent)]
    Refused(Refusal),
    /// No memory was left.
    #[error("no memory was left")]
    Memory,
}

impl From<NoMemory> for SourceFault {
    ghost use Rattle.std.specs.Prelude.{◌≡◌};
    ghost use Rattle.sl_source.specs.declared.refusal.SourceFault.TheVariants.{Memory};

    ghost from_gives = { λ _ e. e ≡ Memory };

    fn from(_error: NoMemory) -> SourceFault {
        SourceFault::Memory
    }
}
