//! The reserved words, and their numbers.

ghost use Rattle.std.specs.Prelude.{◌≡◌, ◌≤◌, length, position};
ghost use Rattle.std.specs.Str.{bytes_eq};

/// The keywords, in the order of their numbers (SLS 1.1).
pub const KEYWORD_TEXTS: [&str; 40] = [
    "abstract",
    "case",
    "catch",
    "class",
    "def",
    "do",
    "else",
    "extends",
    "false",
    "final",
    "finally",
    "for",
    "forSome",
    "if",
    "implicit",
    "import",
    "lazy",
    "macro",
    "match",
    "new",
    "null",
    "object",
    "override",
    "package",
    "private",
    "protected",
    "return",
    "sealed",
    "super",
    "this",
    "throw",
    "trait",
    "try",
    "true",
    "type",
    "val",
    "var",
    "while",
    "with",
    "yield",
];

/// The marks before the brackets, in the order of their numbers. All but the first are made of operator characters.
pub const MARK_TEXTS: [&str; 10] = ["_", ":", "=", "=>", "<-", "<:", "<%", ">:", "#", "@"];

/// The number of the text in the table.
pub fn number_in(table: &[&str], text: &str) -> Option<u8>
    requires { length table.now ≤ 255 }
    ensures { result ≡ position (λ word. bytes_eq word.now text.now) table.now }
{
    match index_in(table, text) {
        Some(number) => Some(number as u8),
        None => None,
    }
}

// The index of the text in the table.
fn index_in(table: &[&str], text: &str) -> Option<usize>
    ensures { result ≡ position (λ word. bytes_eq word.now text.now) table.now }
{
    table.iter().position(|word| same(word, text))
}

// Whether the two are one text.
fn same(word: &str, text: &str) -> bool
    ensures { result ≡ bytes_eq word.now text.now }
{
    word == text
}
