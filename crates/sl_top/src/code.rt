/// An instruction of the private machine, one step each.
#[derive(Clone, Copy, Debug, PartialEq, Eq)]
pub enum Instruction {
    Push(i32),
    Add,
    Sub,
    Mul,
    Print,
    Return,
}
