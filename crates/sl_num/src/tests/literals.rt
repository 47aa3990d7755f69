//! The texts of numbers.
use crate::*;
use std::test::Fail;

const fn int(value: u32) -> Result<Numeral, NumFault> {
    Ok(Numeral::Int { value, hex: false })
}

const fn int_hex(value: u32) -> Result<Numeral, NumFault> {
    Ok(Numeral::Int { value, hex: true })
}

const fn long(value: u64) -> Result<Numeral, NumFault> {
    Ok(Numeral::Long { value, hex: false })
}

const fn long_hex(value: u64) -> Result<Numeral, NumFault> {
    Ok(Numeral::Long { value, hex: true })
}

#[test]
fn numbers(rt: HostRuntime) {
    for (text, want) in [
        ("0", int(0)),
        ("7", int(7)),
        ("1_000", int(1000)),
        ("1__2", int(12)),
        ("2147483647", int(2147483647)),
        ("2147483648", int(2147483648)),
        ("2_147_483_648", int(2147483648)),
        ("0L", long(0)),
        ("0l", long(0)),
        ("1_0l", long(10)),
        ("2147483649L", long(2147483649)),
        ("9223372036854775807L", long(9223372036854775807)),
        ("9223372036854775808L", long(9223372036854775808)),
        ("0x0", int_hex(0)),
        ("0X0", int_hex(0)),
        ("0x00ff", int_hex(255)),
        ("0x1_0", int_hex(16)),
        ("0xdeadBEEF", int_hex(3735928559)),
        ("0xFFFFFFFF", int_hex(4294967295)),
        ("0x0L", long_hex(0)),
        ("0X100000000l", long_hex(4294967296)),
        ("0xFFFFFFFFFFFFFFFFL", long_hex(18446744073709551615)),
        ("0x00000000000000000000000000000000000000001", int_hex(1)),
    ] {
        assert_eq!(rt; literal(text), want, "{text}");
    }
}

#[test]
fn no_numbers(rt: HostRuntime) {
    for text in [
        "",
        "L",
        "l",
        "_",
        "_1",
        "1_",
        "1_L",
        "00",
        "01",
        "0_1",
        "0_",
        "0_L",
        "0x",
        "0X",
        "0xL",
        "0x_1",
        "0x1_",
        "0x1_L",
        "0xG",
        "1LL",
        "0xLL",
        "1lL",
        "L1",
        "-1",
        "+1",
        "1e5",
        "1.0",
        "1f",
        "1d",
        "0b1",
        "x1",
        "1x",
        "1 ",
        " 1",
        "ff",
        "1\u{0661}",
        "99999999999999999999999999999999999999999_",
        "99999999999999999999999999999999999999999e",
        "0xFFFFFFFFFFFFFFFFFFFFFFFFFFFFFFFFFFFFFFFFg",
    ] {
        assert_eq!(rt; literal(text), Err(NumFault::Form), "{text}");
    }
}

#[test]
fn too_large_numbers(rt: HostRuntime) -> Result<(), Fail> {
    for text in [
        "2147483649",
        "2_147_483_649",
        "4294967296",
        "18446744073709551616",
        "9223372036854775809L",
        "18446744073709551615L",
        "18446744073709551616L",
        "0x100000000",
        "0x1_0000_0000",
        "0x10000000000000000L",
        "0x10000000000000000",
    ] {
        assert_eq!(rt; literal(text), Err(NumFault::TooLarge), "{text}");
    }
    let mut nines = String::new(rt.alloc());
    for _ in 0..200 {
        nines.push_str("9")?;
    }
    assert_eq!(rt; literal(nines.as_str()), Err(NumFault::TooLarge));
    nines.push_str("L")?;
    assert_eq!(rt; literal(nines.as_str()), Err(NumFault::TooLarge));
    nines.push_str("_")?;
    assert_eq!(rt; literal(nines.as_str()), Err(NumFault::Form));
    Ok(())
}
