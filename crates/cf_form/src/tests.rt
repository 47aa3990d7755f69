use super::*;
use std::alloc::Global;
use std::test::Fail;

// The rows in rising order: the byte in hexadecimal digits and the name as JVMS 7 has them, and the shape of what follows
// as JVMS 6.5 has it.
static LINES: &str = "\
00 nop Plain\n\
01 aconst_null Plain\n\
02 iconst_m1 Plain\n\
03 iconst_0 Plain\n\
04 iconst_1 Plain\n\
05 iconst_2 Plain\n\
06 iconst_3 Plain\n\
07 iconst_4 Plain\n\
08 iconst_5 Plain\n\
09 lconst_0 Plain\n\
0a lconst_1 Plain\n\
10 bipush Signed1\n\
11 sipush Signed2\n\
12 ldc Pool1\n\
13 ldc_w Pool2\n\
14 ldc2_w Pool2\n\
15 iload Local\n\
16 lload Local\n\
19 aload Local\n\
1a iload_0 Plain\n\
1b iload_1 Plain\n\
1c iload_2 Plain\n\
1d iload_3 Plain\n\
1e lload_0 Plain\n\
1f lload_1 Plain\n\
20 lload_2 Plain\n\
21 lload_3 Plain\n\
2a aload_0 Plain\n\
2b aload_1 Plain\n\
2c aload_2 Plain\n\
2d aload_3 Plain\n\
36 istore Local\n\
37 lstore Local\n\
3a astore Local\n\
3b istore_0 Plain\n\
3c istore_1 Plain\n\
3d istore_2 Plain\n\
3e istore_3 Plain\n\
3f lstore_0 Plain\n\
40 lstore_1 Plain\n\
41 lstore_2 Plain\n\
42 lstore_3 Plain\n\
4b astore_0 Plain\n\
4c astore_1 Plain\n\
4d astore_2 Plain\n\
4e astore_3 Plain\n\
57 pop Plain\n\
58 pop2 Plain\n\
59 dup Plain\n\
5a dup_x1 Plain\n\
5b dup_x2 Plain\n\
5c dup2 Plain\n\
5d dup2_x1 Plain\n\
5e dup2_x2 Plain\n\
5f swap Plain\n\
60 iadd Plain\n\
61 ladd Plain\n\
64 isub Plain\n\
65 lsub Plain\n\
68 imul Plain\n\
69 lmul Plain\n\
6c idiv Plain\n\
6d ldiv Plain\n\
70 irem Plain\n\
71 lrem Plain\n\
74 ineg Plain\n\
75 lneg Plain\n\
78 ishl Plain\n\
79 lshl Plain\n\
7a ishr Plain\n\
7b lshr Plain\n\
7c iushr Plain\n\
7d lushr Plain\n\
7e iand Plain\n\
7f land Plain\n\
80 ior Plain\n\
81 lor Plain\n\
82 ixor Plain\n\
83 lxor Plain\n\
84 iinc Step\n\
85 i2l Plain\n\
88 l2i Plain\n\
94 lcmp Plain\n\
99 ifeq Jump2\n\
9a ifne Jump2\n\
9b iflt Jump2\n\
9c ifge Jump2\n\
9d ifgt Jump2\n\
9e ifle Jump2\n\
9f if_icmpeq Jump2\n\
a0 if_icmpne Jump2\n\
a1 if_icmplt Jump2\n\
a2 if_icmpge Jump2\n\
a3 if_icmpgt Jump2\n\
a4 if_icmple Jump2\n\
a5 if_acmpeq Jump2\n\
a6 if_acmpne Jump2\n\
a7 goto Jump2\n\
ac ireturn Plain\n\
ad lreturn Plain\n\
b0 areturn Plain\n\
b1 return Plain\n\
b2 getstatic Pool2\n\
b3 putstatic Pool2\n\
b4 getfield Pool2\n\
b5 putfield Pool2\n\
b6 invokevirtual Pool2\n\
b7 invokespecial Pool2\n\
b8 invokestatic Pool2\n\
b9 invokeinterface Face\n\
bb new Pool2\n\
bf athrow Plain\n\
c0 checkcast Pool2\n\
c1 instanceof Pool2\n\
c4 wide Wide\n\
c6 ifnull Jump2\n\
c7 ifnonnull Jump2\n\
c8 goto_w Jump4\n\
";

// The rows of `OPS`, which a proved function can't go through as a constant.
static LISTED: [OpRow; 118] = op_table::ROWS;

// A row as that list has it.
fn line_of(alloc: Global, row: Option<OpRow>) -> Result<String, Fail> {
    match row {
        Some(row) => Ok(format!(in alloc; "{:02x} {} {:?}", row.op, row.name, row.shape)?),
        None => Ok(String::new(alloc)),
    }
}

#[test]
fn rows_are_those_of_the_standard(rt: HostRuntime) -> Result<(), Fail> {
    assert_eq!(rt; LINES.lines().count(), LISTED.len());
    for (listed, line) in LISTED.iter().zip(LINES.lines()) {
        assert_eq!(rt; line_of(rt.alloc(), Some(*listed))?.as_str(), line);
        assert_eq!(rt; line_of(rt.alloc(), row(listed.op))?.as_str(), line);
    }
    Ok(())
}
