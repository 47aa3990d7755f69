//! The code of chains. A `+` or `-` waits until the product behind it has its code.

ghost use Rattle.std.specs.Prelude.{◌≡◌, ◌^◌, ◌<◌, pos, List, [], ◌∷◌, ◌++◌, IfOk, OnOk};
ghost use Rattle.std.specs.List.{AllByRecursion};
ghost use Rattle.sl_top.specs.declared.code.Instruction.{Instruction};
ghost use Rattle.sl_top.specs.Listing.{HasLiterals};
ghost use Rattle.sl_top.specs.Code.{operation_of, ChainCode, ProgramCode, waiting_code, term_code, waiting_after};

use crate::NoMemory;
use crate::chain::{Chain, Term};
use crate::code::Instruction;
use crate::operator::Operator;
use std::alloc::Global;

/// The code that prints the value of each chain, in order, and returns.
pub fn compile(alloc: Global, chains: &[Chain]) -> Result<Vec<Instruction>, NoMemory>
    requires literals { AllByRecursion HasLiterals chains.now }
    ensures { IfOk result (λ code. ProgramCode chains.now code.items) }
{
    let mut code = Vec::new(alloc);
    for chain in chains {
        put_chain(&mut code, chain)?;
        put(&mut code, Instruction::Print)?;
    }
    put(&mut code, Instruction::Return)?;
    Ok(code)
}

// Appends the code of a chain.
fn put_chain(code: &mut Vec<Instruction>, chain: &Chain) -> Result<(), NoMemory>
    requires literals { HasLiterals chain.now }
    ensures { OnOk result ((made : List Instruction) × ChainCode chain.now.first chain.now.rest made
        × (code.new.items ≡ code.old.items ++ made)) }
{
    put(code, push_of(chain.first))?;
    let mut waiting = None;
    let terms = chain.rest.as_slice();
    for term in terms {
        waiting = put_term(code, waiting, *term)?;
    }
    put_waiting(code, waiting)
}

// Appends the code of a term, and gives the operator that waits then.
fn put_term(
    code: &mut Vec<Instruction>,
    waiting: Option<Operator>,
    term: Term,
) -> Result<Option<Operator>, NoMemory>
    requires literal { term.literal < 2 ^ 31 }
    ensures emitted { OnOk result (code.new.items ≡ code.old.items ++ term_code term.op term.literal waiting) }
    ensures waits { IfOk result (λ next. next ≡ waiting_after term.op waiting) }
{
    match term.op {
        Operator::Mul => {
            put(code, push_of(term.literal))?;
            put(code, Instruction::Mul)?;
            Ok(waiting)
        }
        Operator::Add | Operator::Sub => {
            put_waiting(code, waiting)?;
            put(code, push_of(term.literal))?;
            Ok(Some(term.op))
        }
    }
}

// Appends the instruction of the operator that waits, if there is one.
fn put_waiting(code: &mut Vec<Instruction>, waiting: Option<Operator>) -> Result<(), NoMemory>
    ensures { OnOk result (code.new.items ≡ code.old.items ++ waiting_code waiting) }
{
    match waiting {
        Some(op) => put(code, operation(op)),
        None => Ok(()),
    }
}

// The instruction of an operator.
fn operation(op: Operator) -> Instruction
    ensures { result ≡ operation_of op }
{
    match op {
        Operator::Add => Instruction::Add,
        Operator::Sub => Instruction::Sub,
        Operator::Mul => Instruction::Mul,
    }
}

// The instruction that brings a literal.
fn push_of(literal: u32) -> Instruction
    requires { literal < 2 ^ 31 }
    ensures { result ≡ Instruction.Push (pos literal) }
{
    Instruction::Push(literal as i32)
}

// Appends an instruction.
fn put(code: &mut Vec<Instruction>, instruction: Instruction) -> Result<(), NoMemory>
    ensures { OnOk result (code.new.items ≡ code.old.items ++ instruction ∷ []) }
{
    code.push(instruction)?;
    Ok(())
}
