/// What an operand stands for: a number of the instruction's own, a register by its number, or an address of memory.
#[derive(Clone, Copy, Debug, PartialEq, Eq)]
pub enum Operand {
    Constant(u16),
    InRegister(u8),
    InMemory(u16),
}
