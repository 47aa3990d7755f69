//! Tokens.

/// The mark of a token.
#[derive(Drop)]
pub(crate) enum Mark {
    Open,
    Close,
    Word(String),
}

/// A parenthesis or a word, and its line.
#[derive(Drop)]
pub(crate) struct Token {
    pub line: u32,
    pub mark: Mark,
}
