//! Tokens of one character each, and what stands between them with newlines put in, as a table.
use crate::separate;
use sl_ast::{Token, TokenKind};
use sl_base::Name;
use sl_text::{Span, chars_of};
use std::alloc::{AllocError, Global};
use std::test::Fail;

// A name, an operator, a number, or a keyword or mark by its number; none for white space.
fn kind_of(alloc: Global, c: char) -> Result<Option<TokenKind>, AllocError> {
    Ok(match c {
        'a' => Some(TokenKind::Id(Name::from_text(alloc, "a")?)),
        '+' => Some(TokenKind::Op(Name::from_text(alloc, "+")?)),
        't' => Some(TokenKind::Text(Name::from_text(alloc, "t")?)),
        'C' => Some(TokenKind::Key(1)),
        'K' => Some(TokenKind::Key(3)),
        'D' => Some(TokenKind::Key(4)),
        'E' => Some(TokenKind::Key(6)),
        'O' => Some(TokenKind::Key(21)),
        'T' => Some(TokenKind::Key(29)),
        '_' => Some(TokenKind::Mark(0)),
        '=' => Some(TokenKind::Mark(2)),
        '>' => Some(TokenKind::Mark(3)),
        '(' => Some(TokenKind::Mark(10)),
        ')' => Some(TokenKind::Mark(11)),
        '[' => Some(TokenKind::Mark(12)),
        ']' => Some(TokenKind::Mark(13)),
        '{' => Some(TokenKind::Mark(14)),
        '}' => Some(TokenKind::Mark(15)),
        ';' => Some(TokenKind::Mark(17)),
        _ => None,
    })
}

// The text with its white space left out and an `n` for each newline.
fn separated(alloc: Global, source: &str) -> Result<String, Fail> {
    if source.len() > 1_000 {
        return Ok(String::new(alloc));
    }
    let text = chars_of(alloc, source.as_bytes())?;
    let mut tokens = Vec::new(alloc);
    for (at, c) in text.as_slice().iter().enumerate() {
        if let Some(kind) = kind_of(alloc, *c)? {
            let from = at as u32;
            let span = Span { from, to: from + 1 };
            tokens.push(Token { kind, span })?;
        }
    }
    let all = separate(alloc, &tokens, &text)?;
    let mut shown = String::new(alloc);
    for token in &all {
        let at = token.span.from;
        if token.span.to == at {
            shown.push('n')?;
        } else if at < text.len() {
            shown.push(text.at(at))?;
        }
    }
    Ok(shown)
}

#[test]
fn newlines(rt: HostRuntime) -> Result<(), Fail> {
    for (source, want) in [
        ("", ""),
        ("a", "a"),
        ("\na\n", "a"),
        ("a a", "aa"),
        ("a\na", "ana"),
        ("a\ra", "aa"),
        ("a\r\na", "ana"),
        ("a\n\na", "anna"),
        ("a\n \t\n\n\na", "anna"),
        ("a\nx\na", "ana"),
        ("a\nx\n\na", "anna"),
        ("t\n+", "tn+"),
        ("+\na", "+na"),
        ("T\nD", "TnD"),
        ("_\na", "_na"),
        ("D\na", "Da"),
        ("=\na", "=a"),
        ("a\n=", "a="),
        ("a\nE", "aE"),
        ("a\n[", "a["),
        ("a\n(", "an("),
        ("a\n{", "an{"),
        ("(a\na)\na", "(aa)na"),
        ("[a\na]\na", "[aa]na"),
        ("({a\na}\na)", "({ana}a)"),
        ("{(a\na}\na", "{(aa}a"),
        ("(a\n", "(a"),
        (")\na", ")na"),
        ("{Ca\na>\na\na", "{Caa>ana"),
        ("a\nCa", "aCa"),
        ("a\nCK\na", "anCKa"),
        ("a\nCO a\na", "anCOana"),
        ("C(a>\na)\na>a\na", "C(a>a)a>ana"),
        ("C(>)\na", "C(>)a"),
        ("a\n}", "a}"),
        ("a\u{c}\na", "ana"),
        ("a\n\u{c}\r\na", "anna"),
        ("a\n\u{a0}\na", "ana"),
        ("a\n\n(\na\n\na)", "ann(aa)"),
        ("{\na\n}\n\n{\na}", "{a}nn{a}"),
        ("]\na", "]na"),
        ("a\n;\na", "a;a"),
        ("}\na", "}na"),
    ] {
        let found = separated(rt.alloc(), source)?;
        assert_eq!(rt; found.as_str(), want, "{source}");
    }
    Ok(())
}
