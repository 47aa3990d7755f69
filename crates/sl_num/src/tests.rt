mod literals;
mod operators;

use super::*;
use std::test::Fail;

// One number of each sign and each count of digits that matters, behind a short and a long text.
#[test]
fn decimal_text(rt: HostRuntime) -> Result<(), Fail> {
    for (n, want) in [
        (0, "0"),
        (7, "7"),
        (-1, "-1"),
        (-10, "-10"),
        (65536, "65536"),
        (i64::from(i32::MIN), "-2147483648"),
        (i64::from(i32::MAX), "2147483647"),
        (-9_876_543_210, "-9876543210"),
        (i64::MIN, "-9223372036854775808"),
        (i64::MAX, "9223372036854775807"),
    ] {
        for length in [0, 2, 4099] {
            let mut text = vec![in rt.alloc(); b'='; length]?;
            put_i64(n, &mut text)?;
            assert_eq!(rt; &text.as_slice()[length..], want.as_bytes());
            text.truncate(length);
            if let Ok(n) = i32::try_from(n) {
                put_i32(n, &mut text)?;
                assert_eq!(rt; &text.as_slice()[length..], want.as_bytes());
            }
        }
    }
    Ok(())
}
