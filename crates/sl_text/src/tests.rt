use super::*;
use std::alloc::{AllocError, Global};
use std::test::Fail;

// Bytes that begin with an ill-formed sequence, whatever stands behind them.
static ILL_FORMED: [&[u8]; 55] = [
    // continuation bytes with no first byte
    b"\x80",
    b"\xBF",
    b"\x80\x80\x80\x80",
    // bytes that no sequence has
    b"\xC0",
    b"\xC1",
    b"\xF5",
    b"\xF6",
    b"\xF7",
    b"\xF8",
    b"\xF9",
    b"\xFA",
    b"\xFB",
    b"\xFC",
    b"\xFD",
    b"\xFE",
    b"\xFF",
    b"\xFE\xFF",
    // overlong forms of two, three and four bytes
    b"\xC0\x80",
    b"\xC1\xBF",
    b"\xE0\x80\x80",
    b"\xE0\x9F\xBF",
    b"\xF0\x80\x80\x80",
    b"\xF0\x8F\xBF\xBF",
    // surrogates, alone and in a pair
    b"\xED\xA0\x80",
    b"\xED\xAF\xBF",
    b"\xED\xB0\x80",
    b"\xED\xBF\xBF",
    b"\xED\xA0\x80\xED\xB0\x80",
    // past U+10FFFF, and forms of five and six bytes
    b"\xF4\x90\x80\x80",
    b"\xF4\xBF\xBF\xBF",
    b"\xF5\x80\x80\x80",
    b"\xF7\xBF\xBF\xBF",
    b"\xF8\x88\x80\x80\x80",
    b"\xFC\x84\x80\x80\x80\x80",
    // sequences that are cut off
    b"\xC2",
    b"\xDF",
    b"\xE0",
    b"\xE0\xA0",
    b"\xE1\x80",
    b"\xED\x9F",
    b"\xEF\xBF",
    b"\xF0",
    b"\xF0\x90",
    b"\xF0\x90\x80",
    b"\xF1\x80\x80",
    b"\xF4",
    b"\xF4\x8F",
    b"\xF4\x8F\xBF",
    // sequences with another byte inside
    b"\xC2\x41",
    b"\xC2\xC2\x80",
    b"\xE2\x28\xA1",
    b"\xE2\x82\x28",
    b"\xF0\x28\x8C\xBC",
    b"\xF0\x90\x28\xBC",
    b"\xF0\x90\x8C\x28",
];

// Where the bytes begin behind so many letters and `front`, and what `chars_of` has against it all.
fn fault_in(
    alloc: Global,
    ascii: usize,
    front: &str,
    ill_formed: &[u8],
    behind: &str,
) -> Result<(usize, Option<TextFault>), AllocError> {
    let mut bytes = Vec::new(alloc);
    for _ in 0..ascii {
        bytes.push(b'a')?;
    }
    bytes.extend_from_slice(front.as_bytes())?;
    let at = bytes.len();
    bytes.extend_from_slice(ill_formed)?;
    bytes.extend_from_slice(behind.as_bytes())?;
    if bytes.len() > 2000 {
        return Ok((at, None));
    }
    Ok((at, chars_of(alloc, &bytes).err()))
}

// At each offset in a block of 64 bytes that matters, and in a part of 1024.
fn is_refused_everywhere(alloc: Global, ill_formed: &[u8]) -> Result<bool, AllocError> {
    for ascii in [0, 60, 61, 62, 63, 64, 1022, 1023, 1024] {
        for front in ["", "a", "\n", "ß", "€", "😀", "aß€😀"] {
            for behind in ["", "z", "ß", "€", "😀"] {
                let (begins, fault) = fault_in(alloc, ascii, front, ill_formed, behind)?;
                let Some(TextFault::NotUtf8 { at }) = fault else {
                    return Ok(false);
                };
                if at as usize != begins {
                    return Ok(false);
                }
            }
        }
    }
    Ok(true)
}

#[test]
fn first_ill_formed_sequence(rt: HostRuntime) -> Result<(), Fail> {
    for ill_formed in ILL_FORMED.iter() {
        assert!(rt;
            is_refused_everywhere(rt.alloc(), ill_formed)?,
            "{ill_formed:?}"
        );
    }
    Ok(())
}

// The bytes of a character and its code: the first and the last of each row of the table of well-formed
// sequences, and some more.
static SEQUENCES: [(&[u8], u32); 24] = [
    (b"\x00", 0x0),
    (b"\x7F", 0x7F),
    (b"\xC2\x80", 0x80),
    (b"\xDF\xBF", 0x7FF),
    (b"\xE0\xA0\x80", 0x800),
    (b"\xE0\xBF\xBF", 0xFFF),
    (b"\xE1\x80\x80", 0x1000),
    (b"\xEC\xBF\xBF", 0xCFFF),
    (b"\xED\x80\x80", 0xD000),
    (b"\xED\x9F\xBF", 0xD7FF),
    (b"\xEE\x80\x80", 0xE000),
    (b"\xEF\xBF\xBF", 0xFFFF),
    (b"\xF0\x90\x80\x80", 0x10000),
    (b"\xF0\xBF\xBF\xBF", 0x3FFFF),
    (b"\xF1\x80\x80\x80", 0x40000),
    (b"\xF3\xBF\xBF\xBF", 0xFFFFF),
    (b"\xF4\x80\x80\x80", 0x100000),
    (b"\xF4\x8F\xBF\xBF", 0x10FFFF),
    // a letter of each length, a byte order mark and a noncharacter
    (b"\x61", 0x61),
    (b"\xC3\x9F", 0xDF),
    (b"\xE2\x82\xAC", 0x20AC),
    (b"\xF0\x9F\x98\x80", 0x1F600),
    (b"\xEF\xBB\xBF", 0xFEFF),
    (b"\xEF\xBF\xBE", 0xFFFE),
];

#[test]
fn characters(rt: HostRuntime) -> Result<(), Fail> {
    let mut all = Vec::new(rt.alloc());
    for (bytes, _) in SEQUENCES.iter() {
        all.extend_from_slice(bytes)?;
    }
    assert!(rt; all.len() <= 1000);
    let Ok(text) = chars_of(rt.alloc(), &all) else {
        return Err(Fail::new("no text"));
    };
    assert_eq!(rt; text.len(), 24);
    for (i, (_, code)) in SEQUENCES.iter().enumerate() {
        let i = i as u32;
        assert!(rt; i < text.len());
        assert_eq!(rt; text.at(i) as u32, *code, "at {i}");
    }
    Ok(())
}

// Texts of 1 MiB: a piece whose bytes divide it, and the characters of the whole.
#[test]
fn whole_mebibytes(rt: HostRuntime) -> Result<(), Fail> {
    for (piece, count) in [("a", 1 << 20), ("ß", 1 << 19), ("ß€😀abcdefg", 655360)] {
        let mut bytes = Vec::new(rt.alloc());
        for _ in 0..1 << 20 {
            if bytes.len() < 1 << 20 {
                bytes.extend_from_slice(piece.as_bytes())?;
            }
        }
        assert!(rt; bytes.len() <= 1 << 20);
        let length = chars_of(rt.alloc(), &bytes).map(|text| text.len());
        assert_eq!(rt; length, Ok(count), "{piece}");
    }
    Ok(())
}

// Each row has a text, an offset in it, and the line and the column there.
#[test]
fn lines_and_columns(rt: HostRuntime) -> Result<(), Fail> {
    for (chars, at, line, column) in [
        ("", 0, 1, 1),
        ("abc", 0, 1, 1),
        ("abc", 2, 1, 3),
        ("abc", 3, 1, 4),
        ("a\nb", 1, 1, 2),
        ("a\nb", 2, 2, 1),
        ("a\nb", 3, 2, 2),
        ("\n", 0, 1, 1),
        ("\n", 1, 2, 1),
        ("\n\n\n", 2, 3, 1),
        ("ab\n\ncd\n", 3, 2, 1),
        ("ab\n\ncd\n", 5, 3, 2),
        ("ab\n\ncd\n", 7, 4, 1),
        // CR is a character of its line, before LF and alone
        ("a\r\nb", 2, 1, 3),
        ("a\r\nb", 3, 2, 1),
        ("a\rb", 2, 1, 3),
        // so are Unicode's other line ends, and a tab
        ("\u{85}\u{2028}\u{2029}\u{B}\u{C}b", 5, 1, 6),
        ("\tb", 1, 1, 2),
        // a character counts one, however many bytes it has
        ("ß€😀\nx", 3, 1, 4),
        ("ß€😀\nx", 5, 2, 2),
    ] {
        assert!(rt; chars.len() <= 100);
        let Ok(text) = chars_of(rt.alloc(), chars.as_bytes()) else {
            return Err(Fail::new("no text"));
        };
        assert!(rt; at <= text.len());
        assert_eq!(rt;
            spot_at(&text, at),
            Spot { line, column },
            "{chars:?} at {at}"
        );
    }
    Ok(())
}
