//! Texts and their tokens, as tables: each token with the characters at which it stands, or the fault.
use crate::lex;
use sl_ast::{Token, TokenKind};
use sl_text::chars_of;
use std::alloc::{AllocError, Global};
use std::fmt::Write;
use std::test::Fail;

fn shown(alloc: Global, token: &Token) -> Result<String, AllocError> {
    let from = token.span.from;
    let to = token.span.to;
    match &token.kind {
        TokenKind::Id(name) => format!(in alloc; " id {} {from}-{to}", name.as_str()),
        TokenKind::Op(name) => format!(in alloc; " op {} {from}-{to}", name.as_str()),
        TokenKind::Key(number) => format!(in alloc; " key {number} {from}-{to}"),
        TokenKind::Mark(number) => format!(in alloc; " mark {number} {from}-{to}"),
        TokenKind::Number(value) => format!(in alloc; " {value:?} {from}-{to}"),
        TokenKind::Text(value) => format!(in alloc; " {:?} {from}-{to}", value.as_str()),
        TokenKind::Newline => format!(in alloc; " newline {from}-{to}"),
    }
}

// What a text is read as.
fn read(alloc: Global, source: &str) -> Result<String, Fail> {
    if source.len() > 1_000_000 {
        return Ok(String::new(alloc));
    }
    let text = chars_of(alloc, source.as_bytes())?;
    match lex(alloc, &text) {
        Ok(tokens) => {
            let mut all = String::new(alloc);
            for token in &tokens {
                let one = shown(alloc, token)?;
                all.push_str(one.as_str())?;
            }
            Ok(all)
        }
        Err(fault) => {
            let kind = fault.kind;
            let from = fault.span.from;
            let to = fault.span.to;
            Ok(format!(in alloc; "{kind:?} {from}-{to}")?)
        }
    }
}

#[test]
fn texts(rt: HostRuntime) -> Result<(), Fail> {
    for (source, want) in [
        // Blanks and comments.
        ("", ""),
        (" \t\r\n\u{c}", ""),
        ("// a", ""),
        ("a//b\nc", " id a 0-1 id c 5-6"),
        ("a// b\rc\nd", " id a 0-1 id d 8-9"),
        ("/**/a", " id a 4-5"),
        ("/*/*a*/*/b", " id b 9-10"),
        ("/* // */a", " id a 8-9"),
        ("//*\na", " id a 4-5"),
        // Words.
        ("abstract yield", " key 0 0-8 key 39 9-14"),
        (
            "abstract case catch class def do else extends false final",
            " key 0 0-8 key 1 9-13 key 2 14-19 key 3 20-25 key 4 26-29 key 5 30-32 key 6 33-37 key 7 38-45 key 8 46-51 key 9 52-57",
        ),
        (
            "finally for forSome if implicit import lazy macro match new",
            " key 10 0-7 key 11 8-11 key 12 12-19 key 13 20-22 key 14 23-31 key 15 32-38 key 16 39-43 key 17 44-49 key 18 50-55 key 19 56-59",
        ),
        (
            "null object override package private protected return sealed",
            " key 20 0-4 key 21 5-11 key 22 12-20 key 23 21-28 key 24 29-36 key 25 37-46 key 26 47-53 key 27 54-60",
        ),
        (
            "super this throw trait try true type val var while with yield",
            " key 28 0-5 key 29 6-10 key 30 11-16 key 31 17-22 key 32 23-26 key 33 27-31 key 34 32-36 key 35 37-40 key 36 41-44 key 37 45-50 key 38 51-55 key 39 56-61",
        ),
        ("forSome for forx", " key 12 0-7 key 11 8-11 id forx 12-16"),
        ("_ __ _a a_1", " mark 0 0-1 id __ 2-4 id _a 5-7 id a_1 8-11"),
        ("λé", " id λé 0-2"),
        ("a_", " id a_ 0-2"),
        ("a_ +", " id a_ 0-2 op + 3-4"),
        ("a_//b", " id a_ 0-2"),
        ("a_(", " id a_ 0-2 mark 10 2-3"),
        // Operators and marks.
        ("+ -> ==>", " op + 0-1 op -> 2-4 op ==> 5-8"),
        ("+//b", " op + 0-1"),
        ("*/*b*/+", " op * 0-1 op + 6-7"),
        (
            ": = => <- <: <% >: # @",
            " mark 1 0-1 mark 2 2-3 mark 3 4-6 mark 4 7-9 mark 5 10-12 mark 6 13-15 mark 7 16-18 mark 8 19-20 mark 9 21-22",
        ),
        (
            "()[]{},;.",
            " mark 10 0-1 mark 11 1-2 mark 12 2-3 mark 13 3-4 mark 14 4-5 mark 15 5-6 mark 16 6-7 mark 17 7-8 mark 18 8-9",
        ),
        ("::", " op :: 0-2"),
        // Numbers.
        (
            "0 1_0 0x1F 2L",
            " Int { value: 0, hex: false } 0-1 Int { value: 10, hex: false } 2-5 Int { value: 31, hex: true } 6-10 Long { value: 2, hex: false } 11-13",
        ),
        ("2147483648", " Int { value: 2147483648, hex: false } 0-10"),
        (
            "1.a",
            " Int { value: 1, hex: false } 0-1 mark 18 1-2 id a 2-3",
        ),
        (
            "1..2",
            " Int { value: 1, hex: false } 0-1 mark 18 1-2 mark 18 2-3 Int { value: 2, hex: false } 3-4",
        ),
        // Text literals.
        ("\"\"", " \"\" 0-2"),
        ("\"a'b\"", " \"a'b\" 0-5"),
        ("\"\\t\\\"\\\\\"", " \"\\t\\\"\\\\\" 0-8"),
        ("\"\\u0041\\uuu0042\"", " \"AB\" 0-16"),
        // Faults, each where it stands.
        ("`a`", "BadChar 0-1"),
        ("a 'b'", "BadChar 2-3"),
        ("\"\"\"a\"\"\"", "BadChar 0-1"),
        ("a_+", "BadChar 2-3"),
        ("a$b", "Dollar 1-2"),
        ("$", "Dollar 0-1"),
        ("a + $", "Dollar 4-5"),
        ("\"ab", "OpenText 0-3"),
        ("\"ab\nc\"", "OpenText 0-3"),
        ("a \"b\\\n\"", "OpenText 2-5"),
        ("\"ab\r\"", "OpenText 0-3"),
        ("\"a\\qb\"", "BadEscape 0-5"),
        ("\"\\u00g0\"", "BadEscape 0-7"),
        ("\"\\ud800\"", "BadEscape 0-7"),
        ("\"a\\q\n", "BadEscape 0-4"),
        ("\"\\101\"", "BadEscape 0-5"),
        ("/*", "OpenComment 0-2"),
        ("a /* /* */", "OpenComment 2-10"),
        ("/*/", "OpenComment 0-3"),
        ("1a", "Number 0-2"),
        ("0123", "Number 0-4"),
        ("1.5", "Number 0-3"),
        ("1_", "Number 0-2"),
        ("0x", "Number 0-2"),
        ("0x_1", "Number 0-4"),
        ("2147483649", "Number 0-10"),
        ("a 9223372036854775809L", "Number 2-22"),
        ("0x100000000", "Number 0-11"),
    ] {
        let found = read(rt.alloc(), source)?;
        assert_eq!(rt; found.as_str(), want, "{source}");
    }
    Ok(())
}

fn repeated(alloc: Global, text: &str, count: u32) -> Result<String, AllocError> {
    let mut all = String::new(alloc);
    for _ in 0..count {
        all.push_str(text)?;
    }
    Ok(all)
}

#[test]
fn limits(rt: HostRuntime) -> Result<(), Fail> {
    let alloc = rt.alloc();
    for (front, text, count, back, want) in [
        ("", "a", 81, "", "LongText 0-81"),
        ("_", "a", 80, "", "LongText 0-81"),
        ("x + ", "é", 81, " y", "LongText 4-85"),
        ("\"", "a", 10_001, "\"", "LongText 0-10003"),
        ("\"", "\\n", 10_001, "\"", "LongText 0-20004"),
        ("\"", "a", 10_001, "", "OpenText 0-10002"),
        ("", ";", 262_145, "", "TooMany 262144-262145"),
        ("", "1;", 131_072, " object", "TooMany 262145-262151"),
        ("", ";", 262_144, "/* */\n\"ab\"", "TooMany 262150-262154"),
        ("", ";", 262_144, "$", "Dollar 262144-262145"),
    ] {
        let mut source = String::new(alloc);
        source.push_str(front)?;
        source.push_str(repeated(alloc, text, count)?.as_str())?;
        source.push_str(back)?;
        let found = read(alloc, source.as_str())?;
        assert_eq!(rt; found.as_str(), want, "{text} {count}");
    }
    for (front, text, count, back, more) in [
        ("", "a", 80, "", 10),
        ("\"", "a", 10_000, "\"", 10_000),
        ("", ";", 262_144, " // ;", 1_000_000),
    ] {
        let mut source = String::new(alloc);
        source.push_str(front)?;
        source.push_str(repeated(alloc, text, count)?.as_str())?;
        source.push_str(back)?;
        let found = read(alloc, source.as_str())?;
        assert!(rt; found.len() > more, "{text} {count}");
    }
    Ok(())
}
