//! What the text of a number can write, and why a text writes none.

use thiserror::Error;

/// A number as its text writes it, without a sign: `hex` where the digits are hexadecimal.
#[derive(Clone, Copy, Debug, PartialEq, Eq)]
pub enum Numeral {
    Int { value: u32, hex: bool },
    Long { value: u64, hex: bool },
}

/// Why a text writes no number (SLS 1.3.1).
#[derive(Clone, Copy, Debug, PartialEq, Eq, Error)]
pub enum NumFault {
    /// The text has not the form of a number.
    #[error("no number")]
    Form,
    /// It has, and writes one above the greatest of its type.
    #[error("too large a number")]
    TooLarge,
}
