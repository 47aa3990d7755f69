ghost use Rattle.std.specs.Prelude.{◌≡◌, ℕ, List, IfOk};
ghost use Rattle.std.specs.Str.{chars};
ghost use Rattle.cf_form.specs.ClassFiles.{Spelled};
ghost use Rattle.cf_write.specs.Examples.{full_code, full_pool};

use super::*;
use cf_form::{Code, Const, FieldInfo, Handler, Instr, MethodInfo};
use sl_base::Name;
use sqlite_items::Items;
use std::test::Fail;

// The class A, whose parent and interface is B, with an entry of each kind in its pool, a field, a method without code and
// one with code (JVMS 4).
static FULL: [u8; 184] = [
    0xCA, 0xFE, 0xBA, 0xBE, 0, 3, 0, 52, // magic, version 52.3
    0, 20, // entries of the pool, and one more
    7, 0, 2, // 1
    1, 0, 1, b'A', // 2
    7, 0, 4, // 3
    1, 0, 1, b'B', // 4
    1, 0, 4, b'C', b'o', b'd', b'e', // 5
    5, 0xFF, 0xFF, 0xFF, 0xFF, 0xFF, 0xFF, 0xFF, 0xFE, // 6 and 7: -2
    6, 0x3F, 0xF0, 0, 0, 0, 0, 0, 0, // 8 and 9: 1.0
    1, 0, 8, 0xC0, 0x80, 0xED, 0xA0, 0xBD, 0xED, 0xB8, 0x80, // 10: U+0000, U+1F600
    1, 0, 3, b'(', b')', b'V', // 11
    1, 0, 4, b'C', b'o', b'd', b'e', // 12
    12, 0, 12, 0, 11, // 13: a name and a descriptor
    10, 0, 1, 0, 13, // 14: a method
    3, 0xFF, 0xFF, 0xFF, 0xFF, // 15: -1
    4, 0x3F, 0x80, 0, 0, // 16: 1.0
    8, 0, 10, // 17: a string
    9, 0, 1, 0, 13, // 18: a field
    11, 0, 3, 0, 13, // 19: a method of an interface
    0, 0x21, 0, 1, 0, 3, // access, class, parent
    0, 1, 0, 3, // interfaces
    0, 1, 0, 2, 0, 10, 0, 2, 0, 0, // fields
    0, 2, // methods
    0x04, 0x01, 0, 10, 0, 11, 0, 0, // abstract
    0, 1, 0, 12, 0, 11, 0, 1, // one attribute
    0, 5, 0, 0, 0, 32, // its name, the first entry that is Code, and its length
    0, 2, 0, 1, 0, 0, 0, 12, // stack, locals, length of the code
    0x03, 0x99, 0, 10, 0x14, 0, 6, 0x58, // iconst_0, ifeq 11, ldc2_w 6, pop2
    0xB8, 0, 19, 0xB1, // invokestatic 19, return
    0, 1, 0, 1, 0, 8, 0, 12, 0, 1, // handlers: one of 1 to 8 that leads to the end
    0, 0, // attributes of the code
    0, 0, // attributes
];

// The class file of those bytes.
fn full(alloc: Global) -> Result<ClassFile, NoMemory>
    ensures { IfOk result (λ file. (bytes : List ℕ) × Spelled file bytes) }
{
    let pool = full_pool(alloc)?;
    let interfaces = Items::from_slice(alloc, &[3])?;
    let field = FieldInfo {
        access: 2,
        name: 10,
        descriptor: 2,
    };
    let fields = Vec::from_array(alloc, [field])?;
    let without = MethodInfo {
        access: 0x0401,
        name: 10,
        descriptor: 11,
        code: None,
    };
    let code = full_code(alloc)?;
    let with = MethodInfo {
        access: 1,
        name: 12,
        descriptor: 11,
        code: Some(code),
    };
    let methods = Vec::from_array(alloc, [without, with])?;
    Ok(ClassFile {
        minor: 3,
        major: 52,
        pool,
        access: 0x21,
        this: 1,
        parent: 3,
        interfaces,
        fields: Items::from_vec(fields),
        methods: Items::from_vec(methods),
    })
}

// An entry of each kind.
fn full_pool(alloc: Global) -> Result<Items<Const>, NoMemory>
    ensures { IfOk result (λ pool. pool ≡ full_pool) }
{
    let own = text(alloc, "A")?;
    let parent = text(alloc, "B")?;
    let first = text(alloc, "Code")?;
    let odd = text(alloc, "\u{0}😀")?;
    let shape = text(alloc, "()V")?;
    let second = text(alloc, "Code")?;
    let pool = [
        Const::Class(2),
        own,
        Const::Class(4),
        parent,
        first,
        Const::Long(-2),
        Const::Rest,
        Const::Double(0x3FF0_0000_0000_0000),
        Const::Rest,
        odd,
        shape,
        second,
        Const::NameType(12, 11),
        Const::Method(1, 13),
        Const::Int(-1),
        Const::Float(0x3F80_0000),
        Const::Text(10),
        Const::Field(1, 13),
        Const::Interface(3, 13),
    ];
    Ok(Items::from_vec(Vec::from_array(alloc, pool)?))
}

// A text of the pool.
fn text(alloc: Global, text: &str) -> Result<Const, NoMemory>
    ensures { IfOk result (λ constant. constant ≡ Const.Utf8 (chars text.now)) }
{
    Ok(Const::Utf8(Name::from_text(alloc, text)?))
}

// Instructions of one operand or none, which is then 0.
macro_rules! instrs {
    ($($op:literal $a:literal),*) => {
        [$(Instr { op: $op, wide: false, a: $a, b: 0 }),*]
    };
}

// A jump to `return`, the call of a static method of an interface, and a handler that leads to the end.
fn full_code(alloc: Global) -> Result<Code, NoMemory>
    ensures { IfOk result (λ code. code ≡ full_code) }
{
    let instrs = instrs![0x03 0, 0x99 5, 0x14 6, 0x58 0, 0xB8 19, 0xB1 0];
    let instrs = Items::from_slice(alloc, &instrs)?;
    let handler = Handler {
        from: 1,
        to: 4,
        target: 6,
        class: 1,
    };
    let handlers = Items::from_slice(alloc, &[handler])?;
    Ok(Code {
        max_stack: 2,
        max_locals: 1,
        instrs,
        handlers,
    })
}

#[test]
fn a_file_is_written(rt: HostRuntime) -> Result<(), Fail> {
    let file = full(rt.alloc())?;
    let bytes = write(rt.alloc(), &file)?;
    assert_eq!(rt; bytes.as_slice(), FULL.as_slice());
    Ok(())
}
