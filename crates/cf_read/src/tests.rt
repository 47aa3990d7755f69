use super::*;
use std::alloc::{AllocError, Global};
use std::test::Fail;

// The parts that cases share, in hexadecimal digits, two or one for a byte. The pool has 1 "A", 2 the class A, 3 "Code",
// 4 "m", 5 "()V", 6 "I".
fn part(word: &str) -> &'static str {
    match word {
        // the magic and version 49.0: 8 bytes
        "MAGIC" => "ca fe ba be 0 0 0 31",
        // 30 bytes
        "POOL" => "0 7 1 0 1 41 7 0 1 1 0 4 43 6f 64 65 1 0 1 6d 1 0 3 28 29 56 1 0 1 49",
        // access flags, the class, its parent, no interface: 8 bytes
        "CLASS" => "0 21 0 2 0 2 0 0",
        // the member m of descriptor ()V, behind its access flags: 4 bytes
        "NAMED" => "0 4 0 5",
        // the name of Code, the length 13, room for one local, and the code `return`: 19 bytes
        "CODE" => "0 3 0 0 0 d 0 0 0 1 0 0 0 1 b1 0 0 0 0",
        _ => "",
    }
}

// One case a line: what it shows, the bytes, and what is told of them.
const CASES: &str = "a byte follows: MAGIC POOL CLASS 0 0 0 0 0 0 0 = Rest 52
no magic: ca fe ba bf = Magic 0
version 53: ca fe ba be 0 0 0 35 = Version 6
version 50: ca fe ba be 0 0 0 32 = Version 6
version 44: ca fe ba be 0 0 0 2c = Version 6
version 45: ca fe ba be 0 3 0 2d POOL CLASS 0 0 0 0 0 0 = ok
version 52: ca fe ba be 0 3 0 34 POOL CLASS 0 0 0 0 0 0 = ok
an unknown tag: MAGIC 0 2 63 = Tag 10
a wrong text: MAGIC 0 2 1 0 1 80 = Utf 10
a pool of no entry: MAGIC 0 0 0 21 0 1 = Index 12
a pool of many entries: MAGIC 0 21 0 1 = Tag 10
a Long in the last entry: MAGIC 0 2 5 41 42 43 44 45 46 47 48 = Index 10
the second entry of a Long: MAGIC 0 4 5 41 42 43 44 45 46 47 48 7 0 2 = Index 20
a class of the index 0: MAGIC 0 2 7 0 0 = Index 11
references after the pool: MAGIC 0 3 7 0 0 63 = Tag 13
this is no class: MAGIC POOL 0 21 0 0 0 2 0 0 = Index 40
the parent is no class: MAGIC POOL 0 21 0 2 0 1 0 0 = Index 42
an interface is no class: MAGIC POOL 0 21 0 2 0 2 0 2 0 2 0 3 = Index 48
a field without a name: MAGIC POOL CLASS 0 1 0 1 0 2 0 6 0 0 = Index 50
an attribute passed over: MAGIC POOL CLASS 0 0 0 0 0 1 0 0 0 0 0 3 61 62 63 = ok
an attribute that lies: MAGIC POOL CLASS 0 0 0 0 0 1 0 0 ff ff ff ff 61 62 63 = Cut 61
two codes: MAGIC POOL CLASS 0 0 0 1 0 1 NAMED 0 2 CODE CODE 0 0 = Code 77
code of an abstract method: MAGIC POOL CLASS 0 0 0 1 4 1 NAMED 0 1 CODE 0 0 = Code 58
code of a native method: MAGIC POOL CLASS 0 0 0 1 1 1 NAMED 0 1 CODE 0 0 = Code 58
an abstract method: MAGIC POOL CLASS 0 0 0 1 4 1 NAMED 0 0 0 0 = ok
no code: MAGIC POOL CLASS 0 0 0 1 0 1 NAMED 0 0 0 0 = Code 50
a wrong length of a code: MAGIC POOL CLASS 0 0 0 1 0 1 NAMED 0 1 0 3 0 0 0 e 0 0 0 1 0 0 0 1 b1 0 0 0 0 0 0 = Code 60
no instruction: MAGIC POOL CLASS 0 0 0 1 0 1 NAMED 0 1 0 3 0 0 0 c 0 0 0 1 0 0 0 0 0 0 0 0 0 0 = Code 68
the same field: MAGIC POOL CLASS 0 2 0 1 0 4 0 6 0 0 0 1 0 4 0 6 0 0 0 0 0 0 = Double 56
a field of another descriptor: MAGIC POOL CLASS 0 2 0 1 0 4 0 6 0 0 0 1 0 4 0 5 0 0 0 0 0 0 = ok
the same method: MAGIC POOL CLASS 0 0 0 2 0 1 NAMED 0 1 CODE 0 1 NAMED 0 1 CODE 0 0 = Double 77
a method of another descriptor: MAGIC POOL CLASS 0 0 0 2 0 1 NAMED 0 1 CODE 0 1 0 4 0 6 0 1 CODE 0 0 = ok
an unknown opcode: MAGIC POOL CLASS 0 0 0 1 0 1 NAMED 0 1 0 3 0 0 0 f 0 0 0 1 0 0 0 3 0 ba b1 0 0 0 0 0 0 = Code 73
a jump astray: MAGIC POOL CLASS 0 0 0 1 0 1 NAMED 0 1 0 3 0 0 0 10 0 0 0 1 0 0 0 4 a7 0 1 b1 0 0 0 0 0 0 = Code 72
a jump: MAGIC POOL CLASS 0 0 0 1 0 1 NAMED 0 1 0 3 0 0 0 10 0 0 0 1 0 0 0 4 a7 0 3 b1 0 0 0 0 0 0 = ok
an operand of another kind: MAGIC POOL CLASS 0 0 0 1 0 1 NAMED 0 1 0 3 0 0 0 10 0 0 0 1 0 0 0 4 bb 0 1 b1 0 0 0 0 0 0 = Index 73
an operand: MAGIC POOL CLASS 0 0 0 1 0 1 NAMED 0 1 0 3 0 0 0 10 0 0 0 1 0 0 0 4 bb 0 2 b1 0 0 0 0 0 0 = ok
an operand before an opcode: MAGIC POOL CLASS 0 0 0 1 0 1 NAMED 0 1 0 3 0 0 0 10 0 0 0 1 0 0 0 4 bb 0 1 ba 0 0 0 0 0 0 = Index 73
an opcode before an operand: MAGIC POOL CLASS 0 0 0 1 0 1 NAMED 0 1 0 3 0 0 0 10 0 0 0 1 0 0 0 4 ba bb 0 1 0 0 0 0 0 0 = Code 72
a handler to the end: MAGIC POOL CLASS 0 0 0 1 0 1 NAMED 0 1 0 3 0 0 0 16 0 0 0 1 0 0 0 2 0 b1 0 1 0 0 0 2 0 1 0 0 0 0 0 0 = ok
a handler past the end: MAGIC POOL CLASS 0 0 0 1 0 1 NAMED 0 1 0 3 0 0 0 16 0 0 0 1 0 0 0 2 0 b1 0 1 0 0 0 3 0 1 0 0 0 0 0 0 = Code 78
a handler that stands at the end and leads there: MAGIC POOL CLASS 0 0 0 1 0 1 NAMED 0 1 0 3 0 0 0 16 0 0 0 1 0 0 0 2 0 b1 0 1 0 2 0 2 0 2 0 0 0 0 0 0 = ok
a handler from past the end: MAGIC POOL CLASS 0 0 0 1 0 1 NAMED 0 1 0 3 0 0 0 16 0 0 0 1 0 0 0 2 0 b1 0 1 0 3 0 2 0 1 0 0 0 0 0 0 = Code 76
a handler of no class: MAGIC POOL CLASS 0 0 0 1 0 1 NAMED 0 1 0 3 0 0 0 16 0 0 0 1 0 0 0 2 0 b1 0 1 0 0 0 2 0 1 0 3 0 0 0 0 = Index 82
a handler of a class: MAGIC POOL CLASS 0 0 0 1 0 1 NAMED 0 1 0 3 0 0 0 16 0 0 0 1 0 0 0 2 0 b1 0 1 0 0 0 2 0 1 0 2 0 0 0 0 = ok
a handler within an instruction: MAGIC POOL CLASS 0 0 0 1 0 1 NAMED 0 1 0 3 0 0 0 18 0 0 0 1 0 0 0 4 bb 0 2 b1 0 1 0 0 0 1 0 0 0 0 0 0 0 0 = Code 80
a code after the file: MAGIC POOL CLASS 0 0 0 1 0 1 NAMED 0 1 0 3 0 0 0 d 0 0 0 1 0 0 0 1 ba 0 0 0 0 0 0 0 = Rest 79";

// Adds the bytes that these digits are.
fn add(bytes: &mut Vec<u8>, digits: &str) -> Result<(), AllocError> {
    for word in digits.split(' ') {
        if let Ok(byte) = u8::from_str_radix(word, 16) {
            bytes.push(byte)?;
        }
    }
    Ok(())
}

// The bytes that digits and names of parts are.
fn bytes_of(alloc: Global, words: &str) -> Result<Vec<u8>, AllocError> {
    let mut bytes = Vec::new(alloc);
    for word in words.split(' ') {
        add(&mut bytes, word)?;
        add(&mut bytes, part(word))?;
    }
    Ok(bytes)
}

// What is told of bytes: the kind of their fault and its offset, or that they are a class file.
fn told(alloc: Global, bytes: &[u8]) -> Result<String, AllocError> {
    if bytes.len() > 1000 {
        return format!(in alloc; "too long");
    }
    match read(alloc, bytes) {
        Ok(_) => format!(in alloc; "ok"),
        Err(FileFault { at, kind }) => format!(in alloc; "{kind:?} {at}"),
    }
}

#[test]
fn files(rt: HostRuntime) -> Result<(), Fail> {
    for line in CASES.split('\n') {
        let (_shown, case) = line.split_once(": ").unwrap_or((line, ""));
        let (words, due) = case.split_once(" = ").unwrap_or((case, ""));
        let bytes = bytes_of(rt.alloc(), words)?;
        assert!(rt; told(rt.alloc(), &bytes)?.as_str() == due, "{line}");
    }
    Ok(())
}

// Each front of a file is cut at its end.
#[test]
fn fronts(rt: HostRuntime) -> Result<(), Fail> {
    let file = bytes_of(
        rt.alloc(),
        "MAGIC POOL CLASS 0 0 0 1 0 1 NAMED 0 1 CODE 0 0",
    )?;
    let mut front = Vec::new(rt.alloc());
    for (n, byte) in file.iter().enumerate() {
        let due = format!(in rt.alloc(); "Cut {n}")?;
        assert!(rt; told(rt.alloc(), &front)?.as_str() == due.as_str(), "{n}");
        front.push(*byte)?;
    }
    assert!(rt; told(rt.alloc(), &front)?.as_str() == "ok");
    Ok(())
}
