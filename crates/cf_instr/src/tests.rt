use super::*;
use cf_form::Instr;
use std::alloc::{AllocError, Global};
use std::test::Fail;

// One case a line: bytes in hexadecimal digits, and what they are. `0*5` is the byte 0 five times. An instruction is told
// by its opcode, with `w` behind it where it is wide, and its two operands; `back` only says that there is a code.
const CASES: &str = "10 fb b1 = 10 -5 0, b1 0 0
10 7f 10 80 = 10 127 0, 10 -128 0
11 7f ff 11 80 0 = 11 32767 0, 11 -32768 0
12 ff = 12 255 0
13 ff ff = 13 65535 0
15 ff = 15 255 0
c4 15 1 0 = 15w 256 0
c4 15 ff ff = 15w 65535 0
84 0 7f 84 ff 80 = 84 0 127, 84 255 -128
c4 84 1 0 ff fe = 84w 256 -2
c4 84 0 0 7f ff c4 84 ff ff 80 0 = 84w 0 32767, 84w 65535 -32768
b9 1 2 3 0 = b9 258 3
b9 ff ff ff 0 = b9 65535 255
a7 0 0 = a7 0 0
a7 0 3 b1 = a7 1 0, b1 0 0
0 a7 ff ff = 0 0 0, a7 0 0
10 0 a7 ff fe = 10 0 0, a7 0 0
a7 7f ff 0*32765 = back
0*32768 a7 80 0 = back
c8 0 0 0 0 = c8 0 0
c8 0 0 ff fe 0*65530 = back
0*65530 c8 ff ff 0 6 = back
 = Cut 0
ba = Opcode 0
0 ff 0 = Opcode 1
c4 57 = Opcode 0
c4 c4 15 1 0 = Opcode 0
c4 = Cut 0
c4 15 1 = Cut 0
b1 b9 0 1 1 = Cut 1
c8 0 0 0 = Cut 0
b9 0 1 1 1 = Shape 0
a7 0 3 = Jump 0
0 a7 ff fe = Jump 1
10 0 a7 ff ff = Jump 2
a7 0 0 a7 0 1 a7 0 1 = Jump 3
a7 0 3 ba = Opcode 3";

// Adds the bytes that a word writes.
fn add(bytes: &mut Vec<u8>, word: &str) -> Result<(), AllocError> {
    let (digits, times) = word.split_once('*').unwrap_or((word, "1"));
    if let Ok(byte) = u8::from_str_radix(digits, 16) {
        for _ in 0..times.parse::<u32>().unwrap_or(0) {
            bytes.push(byte)?;
        }
    }
    Ok(())
}

fn bytes_of(alloc: Global, words: &str) -> Result<Vec<u8>, AllocError> {
    let mut bytes = Vec::new(alloc);
    for word in words.split(' ') {
        add(&mut bytes, word)?;
    }
    Ok(bytes)
}

fn told(alloc: Global, code: &[Instr]) -> Result<String, AllocError> {
    let mut text = String::new(alloc);
    for instr in code {
        let comma = if text.is_empty() { "" } else { ", " };
        let wide = if instr.wide { "w" } else { "" };
        let (op, a, b) = (instr.op, instr.a, instr.b);
        text.push_str(format!(in alloc; "{comma}{op:x}{wide} {a} {b}")?.as_str())?;
    }
    Ok(text)
}

// Whether the bytes are what is said of them, and a code is written as its bytes.
fn are(alloc: Global, bytes: &[u8], said: &str) -> Result<bool, NoMemory> {
    if bytes.len() > 65535 {
        return Ok(false);
    }
    match decode(alloc, bytes) {
        Err(CodeFault { at, kind }) => { Ok(format!(in alloc; "{kind:?} {at}")?.as_str() == said) }
        Ok(code) => {
            rising();
            let again = encode(alloc, &code)?;
            let right = said == "back" || told(alloc, &code)?.as_str() == said;
            Ok(right && again.as_slice() == bytes)
        }
    }
}

#[test]
fn codes(rt: HostRuntime) -> Result<(), Fail> {
    for line in CASES.split('\n') {
        let (words, said) = line.split_once("= ").unwrap_or((line, ""));
        let bytes = bytes_of(rt.alloc(), words)?;
        assert!(rt; are(rt.alloc(), &bytes, said)?, "{line}");
    }
    Ok(())
}

// The first byte of each of four instructions and the length, and the numbers of instructions at bytes.
#[test]
fn first_bytes(rt: HostRuntime) -> Result<(), Fail> {
    let Ok(code) = decode(
        rt.alloc(),
        b"\x10\x05\xA7\x00\x03\xC4\x84\x00\x00\x00\x00\xB1",
    ) else {
        assert!(rt; false);
        return Ok(());
    };
    rising();
    let offsets = offsets(rt.alloc(), &code)?;
    assert!(rt; offsets.as_slice() == [0, 2, 5, 11, 12].as_slice());
    assert!(rt; code_len(&code) == 12);
    assert!(rt; number_at(&[0, 2, 5, 11, 12], 5) == Some(2));
    assert!(rt; number_at(&[0, 2, 5, 11, 12], 6) == None);
    Ok(())
}
