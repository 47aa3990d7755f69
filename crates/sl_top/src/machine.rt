//! The private machine: it goes over code once, and counts its steps.

ghost use Rattle.std.specs.Prelude.{◌≡◌, ◌+◌, ◌^◌, ◌<◌, ◌∷◌, Some, length, IsSome, IfOk, OnOk};
ghost use Rattle.sl_top.specs.Machine.{machine_with, machine_at_start, after_operation, after_print, after_step, after_code};

use crate::NoMemory;
use crate::code::Instruction;
use crate::number_text::decimal_text;
use crate::operands::Operands;
use sl_num::{IntOp, int};
use sqlite_items::Items;
use std::alloc::Global;
use ty_prog::Event;

/// The state of the machine.
#[derive(Debug, Drop)]
pub struct Machine {
    pub operands: Operands,
    pub trace: Items<Event>,
    pub steps: u32,
}

/// The machine behind the first Return of the code.
pub fn execute(alloc: Global, code: &[Instruction]) -> Result<Machine, NoMemory>
    requires returns { IsSome (after_code code.now machine_at_start) }
    requires fits { length code.now < 2 ^ 32 }
    ensures { IfOk result (λ machine. after_code code.now machine_at_start ≡ Some machine) }
{
    let mut machine = Machine::new(alloc);
    for instruction in code {
        machine.step(alloc, *instruction)?;
        if let Instruction::Return = instruction {
            return Ok(machine);
        }
    }
    unreachable!()
}

impl Machine {
    // The machine before its first step.
    fn new(alloc: Global) -> Machine
        ensures { result ≡ machine_at_start }
    {
        Machine {
            operands: Operands::new(alloc),
            trace: Items::new(alloc),
            steps: 0,
        }
    }

    // One instruction, which is one step.
    fn step(&mut self, alloc: Global, instruction: Instruction) -> Result<(), NoMemory>
        requires operands { IsSome (after_step instruction self.old.operands self.old.trace self.old.steps) }
        requires fits { self.old.steps + 1 < 2 ^ 32 }
        ensures { OnOk result (after_step instruction self.old.operands self.old.trace self.old.steps ≡ Some self.new) }
    {
        self.steps += 1;
        match instruction {
            Instruction::Push(operand) => self.operands.push(operand),
            Instruction::Add => self.operate(IntOp::Add),
            Instruction::Sub => self.operate(IntOp::Sub),
            Instruction::Mul => self.operate(IntOp::Mul),
            Instruction::Print => self.print(alloc),
            Instruction::Return => Ok(()),
        }
    }

    // The right operand is on top.
    fn operate(&mut self, op: IntOp) -> Result<(), NoMemory>
        requires operands { IsSome (after_operation op self.old.operands self.old.trace self.old.steps) }
        ensures { OnOk result (after_operation op self.old.operands self.old.trace self.old.steps ≡ Some self.new) }
    {
        let Some(right) = self.operands.pop() else {
            unreachable!()
        };
        let Some(left) = self.operands.pop() else {
            unreachable!()
        };
        self.operands.push(int(op, left, right))
    }

    // Prints the topmost operand.
    fn print(&mut self, alloc: Global) -> Result<(), NoMemory>
        requires operands { IsSome (after_print self.old.operands self.old.trace self.old.steps) }
        ensures { OnOk result (after_print self.old.operands self.old.trace self.old.steps ≡ Some self.new) }
    {
        let Some(number) = self.operands.pop() else {
            unreachable!()
        };
        let text = decimal_text(alloc, number)?;
        self.trace.push(Event::Line { thread: 1, text })?;
        Ok(())
    }
}
