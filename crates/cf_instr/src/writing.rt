//! An instruction as bytes.

ghost use Rattle.std.specs.Prelude.{◌≡◌, ◌++◌, OnOk, FitsSigned, true, false, if◌then◌else◌, [], ◌∷◌};
ghost use Rattle.std.specs.Int.{w8, w16, w32};
ghost use Rattle.cf_form.specs.Instructions.{one, two, four, Is1, Is2, operands, OperandsFit, bytes_of, Fits, wide_opcode};

use crate::NoMemory;
use cf_form::{Instr, Shape, shape_of};

/// Appends the bytes of an instruction, which has its offset where it jumps.
pub fn put(out: &mut Vec<u8>, raw: Instr) -> Result<(), NoMemory>
    requires { Fits raw }
    ensures { OnOk result (out.new.items ≡ out.old.items ++ bytes_of raw) }
{
    put_opcode(out, raw.op, raw.wide)?;
    match shape_of(raw.op) {
        Some(shape) => put_operands(out, shape, raw.wide, raw.a, raw.b),
        None => Ok(()),
    }
}

// Appends an opcode, behind `wide` or not.
fn put_opcode(out: &mut Vec<u8>, op: u8, wide: bool) -> Result<(), NoMemory>
    ensures { OnOk result (out.new.items ≡ out.old.items ++ ((if wide then wide_opcode ∷ [] else []) ++ op ∷ [])) }
{
    if wide {
        out.push(0xC4)?;
    }
    out.push(op)?;
    Ok(())
}

// Appends the operands of this shape.
fn put_operands(out: &mut Vec<u8>, shape: Shape, wide: bool, a: i32, b: i32) -> Result<(), NoMemory>
    requires { OperandsFit shape wide a b }
    ensures { OnOk result (out.new.items ≡ out.old.items ++ operands shape wide a b) }
{
    match shape {
        Shape::Plain | Shape::Wide => Ok(()),
        Shape::Signed1 => put_signed_byte(out, a),
        Shape::Signed2 | Shape::Jump2 => put_signed_short(out, a),
        Shape::Pool1 => put_byte(out, a),
        Shape::Pool2 => put_short(out, a),
        Shape::Local => if wide {
            put_short(out, a)
        } else {
            put_byte(out, a)
        },
        Shape::Step => if wide {
            put_wide_step(out, a, b)
        } else {
            put_step(out, a, b)
        },
        Shape::Jump4 => put_signed_int(out, a),
        Shape::Face => put_face(out, a, b),
    }
}

// Appends a number as one byte.
fn put_byte(out: &mut Vec<u8>, x: i32) -> Result<(), NoMemory>
    requires { Is1 x }
    ensures { OnOk result (out.new.items ≡ out.old.items ++ one x) }
{
    out.push(x as u8)?;
    Ok(())
}

// Appends a signed number as one byte.
fn put_signed_byte(out: &mut Vec<u8>, x: i32) -> Result<(), NoMemory>
    requires { FitsSigned w8 x }
    ensures { OnOk result (out.new.items ≡ out.old.items ++ one x) }
{
    out.push((x as i8).cast_unsigned())?;
    Ok(())
}

// Appends a number as two bytes.
fn put_short(out: &mut Vec<u8>, x: i32) -> Result<(), NoMemory>
    requires { Is2 x }
    ensures { OnOk result (out.new.items ≡ out.old.items ++ two x) }
{
    out.extend_from_slice(&(x as u16).to_be_bytes())?;
    Ok(())
}

// Appends a signed number as two bytes.
fn put_signed_short(out: &mut Vec<u8>, x: i32) -> Result<(), NoMemory>
    requires { FitsSigned w16 x }
    ensures { OnOk result (out.new.items ≡ out.old.items ++ two x) }
{
    out.extend_from_slice(&(x as i16).cast_unsigned().to_be_bytes())?;
    Ok(())
}

// Appends a signed number as four bytes.
fn put_signed_int(out: &mut Vec<u8>, x: i32) -> Result<(), NoMemory>
    ensures { OnOk result (out.new.items ≡ out.old.items ++ four x) }
{
    out.extend_from_slice(&x.cast_unsigned().to_be_bytes())?;
    Ok(())
}

// Appends a local and an amount, a byte each.
fn put_step(out: &mut Vec<u8>, a: i32, b: i32) -> Result<(), NoMemory>
    requires { OperandsFit Shape.Step false a b }
    ensures { OnOk result (out.new.items ≡ out.old.items ++ operands Shape.Step false a b) }
{
    put_byte(out, a)?;
    put_signed_byte(out, b)
}

// Appends a local and an amount, two bytes each.
fn put_wide_step(out: &mut Vec<u8>, a: i32, b: i32) -> Result<(), NoMemory>
    requires { OperandsFit Shape.Step true a b }
    ensures { OnOk result (out.new.items ≡ out.old.items ++ operands Shape.Step true a b) }
{
    put_short(out, a)?;
    put_signed_short(out, b)
}

// Appends an index of the constant pool, a count, and a zero byte.
fn put_face(out: &mut Vec<u8>, a: i32, b: i32) -> Result<(), NoMemory>
    requires { OperandsFit Shape.Face false a b }
    ensures { OnOk result (out.new.items ≡ out.old.items ++ operands Shape.Face false a b) }
{
    put_short(out, a)?;
    put_byte(out, b)?;
    out.push(0)?;
    Ok(())
}
