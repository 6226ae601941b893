use super::*;

fn two(op: TwoOp, src: Src, dst: Dst) -> Instr {
    Instr::Two {
        op,
        byte: false,
        src,
        dst,
    }
}

fn two_bytes(op: TwoOp, src: Src, dst: Dst) -> Instr {
    Instr::Two {
        op,
        byte: true,
        src,
        dst,
    }
}

fn one(op: OneOp, src: Src) -> Instr {
    Instr::One {
        op,
        byte: false,
        src,
    }
}

fn jump(on: Cond, words: i16) -> Instr {
    Instr::Jump { on, words }
}

// Words as the MSP430's assembler writes them.
#[test]
fn reads_and_writes_instructions(rt: HostRuntime) {
    let instructions = [
        // boot, a head, an output and the end
        (
            2,
            [0x9392, 0x1800, 0],
            two(TwoOp::Cmp, Src::Short(1), Dst::Abs(0x1800)),
        ),
        (1, [0x2004, 0, 0], jump(Cond::Jne, 4)),
        (
            2,
            [0x4211, 0x1804, 0],
            two(TwoOp::Mov, Src::Abs(0x1804), Dst::Reg(1)),
        ),
        (
            2,
            [0x4210, 0x1802, 0],
            two(TwoOp::Mov, Src::Abs(0x1802), Dst::Reg(0)),
        ),
        (
            2,
            [0x42A2, 0x0F06, 0],
            two(TwoOp::Mov, Src::Short(4), Dst::Abs(0x0F06)),
        ),
        (
            2,
            [0x4182, 0x1804, 0],
            two(TwoOp::Mov, Src::Reg(1), Dst::Abs(0x1804)),
        ),
        (
            3,
            [0x40B2, 0x8024, 0x1802],
            two(TwoOp::Mov, Src::Imm(0x8024), Dst::Abs(0x1802)),
        ),
        (
            2,
            [0x4392, 0x1800, 0],
            two(TwoOp::Mov, Src::Short(1), Dst::Abs(0x1800)),
        ),
        (
            2,
            [0xD032, 0x0010, 0],
            two(TwoOp::Bis, Src::Imm(16), Dst::Reg(2)),
        ),
        (
            2,
            [0x4382, 0x1800, 0],
            two(TwoOp::Mov, Src::Short(0), Dst::Abs(0x1800)),
        ),
        (
            2,
            [0x403F, 0x0007, 0],
            two(TwoOp::Mov, Src::Imm(7), Dst::Reg(15)),
        ),
        (
            2,
            [0x4F82, 0x0F02, 0],
            two(TwoOp::Mov, Src::Reg(15), Dst::Abs(0x0F02)),
        ),
        (
            1,
            [0x430F, 0, 0],
            two(TwoOp::Mov, Src::Short(0), Dst::Reg(15)),
        ),
        // operations on registers
        (
            1,
            [0xE33F, 0, 0],
            two(TwoOp::Xor, Src::Short(0xFFFF), Dst::Reg(15)),
        ),
        (
            2,
            [0xF03F, 0x00FF, 0],
            two(TwoOp::And, Src::Imm(255), Dst::Reg(15)),
        ),
        (1, [0x118F, 0, 0], one(OneOp::Sxt, Src::Reg(15))),
        (
            1,
            [0x6D0D, 0, 0],
            two(TwoOp::Addc, Src::Reg(13), Dst::Reg(13)),
        ),
        (
            1,
            [0x9E0F, 0, 0],
            two(TwoOp::Cmp, Src::Reg(14), Dst::Reg(15)),
        ),
        (
            1,
            [0xB31E, 0, 0],
            two(TwoOp::Bit, Src::Short(1), Dst::Reg(14)),
        ),
        (
            1,
            [0x831C, 0, 0],
            two(TwoOp::Sub, Src::Short(1), Dst::Reg(12)),
        ),
        (
            1,
            [0x7234, 0, 0],
            two(TwoOp::Subc, Src::Short(8), Dst::Reg(4)),
        ),
        (1, [0x110E, 0, 0], one(OneOp::Rra, Src::Reg(14))),
        // moves of memory, calls and returns
        (
            3,
            [0x4F9F, 0x43FE, 0x1BFE],
            two(TwoOp::Mov, Src::Index(15, 0x43FE), Dst::Index(15, 0x1BFE)),
        ),
        (1, [0x23FB, 0, 0], jump(Cond::Jne, -5)),
        (2, [0x12B0, 0x8036, 0], one(OneOp::Call, Src::Imm(0x8036))),
        (
            1,
            [0x4130, 0, 0],
            two(TwoOp::Mov, Src::AtPlus(1), Dst::Reg(0)),
        ),
        (2, [0x1230, 0x0005, 0], one(OneOp::Push, Src::Imm(5))),
        (1, [0x1202, 0, 0], one(OneOp::Push, Src::Reg(2))),
        (
            1,
            [0x4303, 0, 0],
            two(TwoOp::Mov, Src::Short(0), Dst::Reg(3)),
        ),
        (
            1,
            [0x4D6C, 0, 0],
            two_bytes(TwoOp::Mov, Src::At(13), Dst::Reg(12)),
        ),
        (1, [0x3DFF, 0, 0], jump(Cond::Jmp, 511)),
        (1, [0x3E00, 0, 0], jump(Cond::Jmp, -512)),
    ];
    for (len, w, i) in instructions {
        assert!(rt; is_read_and_written(len, w, i), "at {w:?}");
    }
}

fn is_read_and_written(len: u8, w: [u16; 3], i: Instr) -> bool {
    decode(&w) == Ok((i, len))
        && in_profile(&i)
        && encode(&i) == Words { len, w }
        && decode_undoes_encode(&i)
        && encode_undoes_decode(&w)
}

#[test]
fn refuses_other_words(rt: HostRuntime) {
    let first_words = [
        0x0000, 0x1380, 0x1800, // MSP430X
        0xA505, 0x1300, // DADD R5,R5 and RETI
        0x4015, 0x4025, 0x4580, 0x4583, // x(PC), @PC, to x(PC), to x(R3)
        0x4503, 0x9303, 0x4343, // MOV R5,R3, CMP #0,R3, MOV.B #0,R3
        0x5500, 0x4540, // ADD R5,PC and MOV.B R5,PC
        0xC232, 0xD572, // BIC #8,SR and BIS.B @R5+,SR
        0x4535, 0x45B5, // MOV @R5+,R5 and MOV @R5+,0(R5)
        0x10C5, 0x11C5, 0x1245, 0x12C5, // SWPB, SXT, PUSH, CALL by byte
        0x1113, 0x1130, 0x1000, 0x1102, // RRA #1, RRA #5, RRC PC, RRA SR
        0x1201, 0x1211, 0x1221, 0x1231, 0x1281, // PUSH and CALL with SP
        0x12A2, 0x1280, 0x1282, // CALL #4, CALL PC, CALL SR
    ];
    for word in first_words {
        assert_eq!(rt;
            decode(&[word, 0, 0]),
            Err(NotInstr { word }),
            "at {word:x}"
        );
    }
    assert_eq!(rt; decode(&[0x9392]), Err(NotInstr { word: 0x9392 }));
    assert_eq!(rt; decode(&[0x40B2, 0x8024]), Err(NotInstr { word: 0x40B2 }));
    assert!(rt; !in_profile(&two(TwoOp::Add, Src::Short(3), Dst::Reg(4))));
    assert!(rt; !in_profile(&jump(Cond::Jmp, 512)));
}
