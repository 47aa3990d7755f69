use super::*;
use std::alloc::{AllocError, Global};
use std::test::Fail;

// Texts and their bytes: each form's first and last character, and forms side by side.
static SPELLED: [(&str, &[u8]); 19] = [
    ("", b""),
    ("\u{0}", b"\xC0\x80"),
    ("\u{1}", b"\x01"),
    ("\u{7F}", b"\x7F"),
    ("\u{80}", b"\xC2\x80"),
    ("\u{7FF}", b"\xDF\xBF"),
    ("\u{800}", b"\xE0\xA0\x80"),
    ("\u{FFF}", b"\xE0\xBF\xBF"),
    ("\u{1000}", b"\xE1\x80\x80"),
    ("\u{D7FF}", b"\xED\x9F\xBF"),
    ("\u{E000}", b"\xEE\x80\x80"),
    ("\u{FFFF}", b"\xEF\xBF\xBF"),
    ("\u{10000}", b"\xED\xA0\x80\xED\xB0\x80"),
    ("\u{10FFFF}", b"\xED\xAF\xBF\xED\xBF\xBF"),
    ("\u{0}😀", b"\xC0\x80\xED\xA0\xBD\xED\xB8\x80"),
    ("java/lang/Object", b"java/lang/Object"),
    ("aß€z", b"a\xC3\x9F\xE2\x82\xACz"),
    ("a\u{0}b\u{0}", b"a\xC0\x80b\xC0\x80"),
    (
        "aß€😀bc😀",
        b"a\xC3\x9F\xE2\x82\xAC\xED\xA0\xBD\xED\xB8\x80bc\xED\xA0\xBD\xED\xB8\x80",
    ),
];

// Whether the text and the bytes are each other's, whichever is given.
fn are_pair(alloc: Global, text: &str, bytes: &[u8]) -> bool {
    if bytes.len() > 1000 || length(text) != bytes.len() as u64 {
        return false;
    }
    let (Ok(put), Ok(got)) = (put(alloc, text), get(alloc, bytes)) else {
        return false;
    };
    put.as_slice() == bytes && got.as_str() == text
}

#[test]
fn texts(rt: HostRuntime) -> Result<(), Fail> {
    for (text, bytes) in SPELLED.iter() {
        assert!(rt; are_pair(rt.alloc(), text, bytes), "{text:?}");
    }
    Ok(())
}

// Bytes that spell no text, and where their first wrong unit begins.
static WRONG: [(&[u8], u32); 38] = [
    // bytes that begin no unit
    (b"\x00", 0),
    (b"\x80", 0),
    (b"\xBF", 0),
    (b"\xF0\x9F\x98\x80", 0),
    (b"\xFF", 0),
    (b"a\x00b", 1),
    (b"abc\x80", 3),
    // units that are cut off
    (b"\xC2", 0),
    (b"\xE0", 0),
    (b"\xE0\xA0", 0),
    (b"ab\xC0", 2),
    (b"\xC3\x9F\xE2\x82", 2),
    // units with another byte inside
    (b"\xC2\x41", 0),
    (b"\xC2\xC2\x80", 0),
    (b"\xE1\x41\x80", 0),
    (b"\xE1\x80\x41", 0),
    (b"\xE1\x80\xC0", 0),
    // overlong forms
    (b"\xC0\x81", 0),
    (b"\xC1\xBF", 0),
    (b"\xE0\x80\x80", 0),
    (b"\xE0\x9F\xBF", 0),
    (b"\xC0\x80\xC0\xBF", 2),
    // a high surrogate with no low one
    (b"\xED\xA0\x80", 0),
    (b"\xED\xAF\xBF", 0),
    (b"\xED\xA0\xBDa", 0),
    (b"a\xED\xA0\xBD\xE2\x82\xAC", 1),
    (b"\xED\xA0\xBD\xC0\x80", 0),
    (b"\xED\xA0\xBD\xED\xA0\xBD\xED\xB8\x80", 0),
    (b"\xED\xA0\xBD\xED\x9F\xBF", 0),
    (b"\xED\xA0\xBD\xEE\x80\x80", 0),
    // a high surrogate and a low one that is cut off
    (b"\xED\xA0\xBD\xED", 0),
    (b"a\xED\xA0\xBD\xED\xB8", 1),
    // a low surrogate with no high one
    (b"\xED\xB0\x80", 0),
    (b"\xED\xBF\xBF", 0),
    (b"\xED\xB8\x80\xED\xA0\xBD", 0),
    (b"\xED\xA0\xBD\xED\xB8\x80\xED\xB8\x80", 6),
    // the first of several, and one behind forms of each length
    (b"a\x80\x00", 1),
    (b"\xC0\x80\xE2\x82\xAC\xED\xA0\xBD\xED\xB8\x80z\x80", 12),
];

// Why the bytes spell no text.
fn fault_of(alloc: Global, bytes: &[u8]) -> Option<Utf8Fault> {
    if bytes.len() > 1000 {
        return None;
    }
    get(alloc, bytes).err()
}

#[test]
fn wrong(rt: HostRuntime) -> Result<(), Fail> {
    for (bytes, at) in WRONG.iter() {
        let expected = Some(Utf8Fault::BadUtf { at: *at });
        assert_eq!(rt; fault_of(rt.alloc(), bytes), expected, "{bytes:?}");
    }
    Ok(())
}

// Bytes, with the texts behind them.
fn joined(alloc: Global) -> Result<Vec<u8>, AllocError> {
    let mut bytes = Vec::new(alloc);
    bytes.push(7)?;
    for text in ["ab", "\u{0}", "", "😀"] {
        if put_onto(text, &mut bytes).is_err() {
            return Ok(bytes);
        }
    }
    Ok(bytes)
}

#[test]
fn appended(rt: HostRuntime) -> Result<(), Fail> {
    let bytes = joined(rt.alloc())?;
    assert_eq!(rt;
        bytes.as_slice(),
        b"\x07ab\xC0\x80\xED\xA0\xBD\xED\xB8\x80".as_slice()
    );
    Ok(())
}
