/// Where an instruction takes its source from. A register is a number of 0 to 15.
#[derive(Clone, Copy, Debug, PartialEq, Eq)]
pub enum Src {
    /// The register itself.
    Reg(u8),
    /// `x(Rn)`: the word or byte at the register's value plus the offset.
    Index(u8, u16),
    /// `&a`: the word or byte at the address.
    Abs(u16),
    /// `@Rn`: the word or byte at the register's value.
    At(u8),
    /// `@Rn+`: the same, and the register moves on.
    AtPlus(u8),
    /// `#c`, in a word of its own.
    Imm(u16),
    /// `#c` by a constant generator: 0, 1, 2, 4, 8 or 0xFFFF.
    Short(u16),
}

/// Where an instruction puts its result.
#[derive(Clone, Copy, Debug, PartialEq, Eq)]
pub enum Dst {
    Reg(u8),
    Index(u8, u16),
    Abs(u16),
}

/// The operations with two operands (SLAU367, section 4.5.1.1).
#[derive(Clone, Copy, Debug, PartialEq, Eq)]
pub enum TwoOp {
    Mov,
    Add,
    Addc,
    Subc,
    Sub,
    Cmp,
    Bit,
    Bic,
    Bis,
    Xor,
    And,
}

/// The operations with one operand (SLAU367, section 4.5.1.2).
#[derive(Clone, Copy, Debug, PartialEq, Eq)]
pub enum OneOp {
    Rrc,
    Swpb,
    Rra,
    Sxt,
    Push,
    Call,
}

/// When a jump is taken (SLAU367, section 4.5.1.3).
#[derive(Clone, Copy, Debug, PartialEq, Eq)]
pub enum Cond {
    Jne,
    Jeq,
    Jnc,
    Jc,
    Jn,
    Jge,
    Jl,
    Jmp,
}

/// An instruction. `byte` is the width: eight bits where it is true, sixteen where it is false. A jump goes so many
/// words on from the instruction behind it, -512 to 511.
#[derive(Clone, Copy, Debug, PartialEq, Eq)]
pub enum Instr {
    Two {
        op: TwoOp,
        byte: bool,
        src: Src,
        dst: Dst,
    },
    One {
        op: OneOp,
        byte: bool,
        src: Src,
    },
    Jump {
        on: Cond,
        words: i16,
    },
}
