//! What operations cost, by their templates.

ghost use Rattle.std.specs.Prelude.{◌≡◌, ◌≤◌, ◌+◌, ◌↔◌, IsTrue, false, [], length, sum_by};
ghost use Rattle.msp430_machine.specs.Cost.{instruction_cost as instruction_cost_lem};
ghost use Rattle.op_cost.specs.Templates as spec;
ghost use Rattle.flow_graph.specs.declared.graph.OpKind.TheVariants as kind;
ghost use Rattle.op_cost.specs.Weights.{Fits, is_in, need, overhead, placed, wake_code, sleep_code, weight};

use crate::code::{
    by, constant, div_turn, index_code, jump, left_turn, less, logical_turn, mul_turn, negated,
    right_turn, shift_tests, sign_of_quotient, sign_of_remainder, sixteen, turned, unless_negative,
    unless_zero,
};
use crate::weighing::weigh;
use board_table::Board;
use flow_graph::{ArrayUse, Op, OpKind, Operand};
use msp430_isa::{Cond, Dst, Instr, OneOp, Src, TwoOp};
use msp430_machine::{
    END, FRAM_START, GATE, IN, OUT, RESUME, SAVED_SP, SRAM_START, instruction_cost,
};

/// The objects in SRAM; all others are in FRAM.
#[derive(Drop)]
pub struct Homes {
    pub sram: Vec<u32>,
}

fn is_in(sram: &[u32], object: u32) -> bool
    ensures { result ≡ is_in sram.now object }
{
    match sram {
        [] => false,
        [first, rest @ ..] => *first == object || is_in(rest, object),
    }
}

fn place(sram: &[u32], object: u32) -> u16
    ensures { result ≡ placed sram.now object }
{
    if is_in(sram, object) {
        SRAM_START
    } else {
        FRAM_START
    }
}

fn source(sram: &[u32], operand: Operand) -> Src
    ensures { result ≡ spec.source (placed sram.now) operand }
{
    match operand {
        Operand::Const(v) => constant(v),
        Operand::Object(o) => Src::Abs(place(sram, o)),
    }
}

fn load_cost(b: &Board, sram: &[u32], register: u8, operand: Operand) -> u64
    ensures cost { result ≡ instruction_cost_lem b.now (spec.loads (placed sram.now) register operand) }
    ensures small { result ≤ 7000000 }
{
    instruction_cost(b, by(TwoOp::Mov, source(sram, operand), register))
}

fn store_cost(b: &Board, register: u8, address: u16) -> u64
    ensures cost { result ≡ instruction_cost_lem b.now (spec.stores register address) }
    ensures small { result ≤ 7000000 }
{
    instruction_cost(
        b,
        Instr::Two {
            op: TwoOp::Mov,
            byte: false,
            src: Src::Reg(register),
            dst: Dst::Abs(address),
        },
    )
}

// The code between operands and result.
fn core_cost(b: &Board, kind: OpKind) -> u64
    ensures cost { result ≡ spec.weight_of b.now (spec.core kind) }
    ensures small { result ≤ 1330000000 }
{
    match kind {
        OpKind::Neg => weigh(b, &negated(15)),
        OpKind::Inv => instruction_cost(b, by(TwoOp::Xor, Src::Short(0xFFFF), 15)),
        OpKind::ToU8 => instruction_cost(b, by(TwoOp::And, Src::Imm(255), 15)),
        OpKind::ToS8 => instruction_cost(
            b,
            Instr::One {
                op: OneOp::Sxt,
                byte: false,
                src: Src::Reg(15),
            },
        ),
        OpKind::Add => instruction_cost(b, by(TwoOp::Add, Src::Reg(14), 15)),
        OpKind::Sub => instruction_cost(b, by(TwoOp::Sub, Src::Reg(14), 15)),
        OpKind::BitAnd => instruction_cost(b, by(TwoOp::And, Src::Reg(14), 15)),
        OpKind::BitOr => instruction_cost(b, by(TwoOp::Bis, Src::Reg(14), 15)),
        OpKind::BitXor => instruction_cost(b, by(TwoOp::Xor, Src::Reg(14), 15)),
        OpKind::Mul => weigh(b, &sixteen()) + 16 * weigh(b, &mul_turn()),
        OpKind::DivU | OpKind::RemU => unsigned_cost(b),
        OpKind::DivS => signed_cost(b, &sign_of_quotient(), 15),
        OpKind::RemS => signed_cost(b, &sign_of_remainder(), 13),
        OpKind::Shl => weigh(b, &shift_tests(1)) + 15 * weigh(b, &left_turn()),
        OpKind::ShrS => weigh(b, &shift_tests(1)) + 15 * weigh(b, &right_turn()),
        OpKind::ShrU => weigh(b, &shift_tests(3)) + 15 * weigh(b, &logical_turn()),
        OpKind::Eq => weigh(b, &less(Cond::Jeq)),
        OpKind::Ne => weigh(b, &less(Cond::Jne)),
        OpKind::LtS => weigh(b, &less(Cond::Jl)),
        OpKind::LtU => weigh(b, &less(Cond::Jnc)),
        OpKind::LeS => weigh(b, &turned(Cond::Jge)),
        OpKind::LeU => weigh(b, &turned(Cond::Jc)),
        _ => 0,
    }
}

fn unsigned_cost(b: &Board) -> u64
    ensures cost { result ≡ spec.weight_of b.now spec.unsigned_core }
    ensures small { result ≤ 1050000000 }
{
    weigh(b, &unless_zero()) + weigh(b, &sixteen()) + 16 * weigh(b, &div_turn())
}

fn signed_cost(b: &Board, sign: &[Instr], result_register: u8) -> u64
    requires few { length sign.now ≤ 2 }
    ensures cost { result ≡ sum_by (λ i. instruction_cost_lem b.now i) sign.now + spec.weight_of b.now (spec.signed_core [] result_register) }
    ensures small { result ≤ 1330000000 }
{
    let tests = weigh(b, &unless_negative(15, 15)) + weigh(b, &unless_negative(14, 14));
    let last = weigh(b, &unless_negative(11, result_register));
    weigh(b, sign) + tests + unsigned_cost(b) + last
}

fn at_dest(sram: &[u32], dest: Option<u32>) -> u16
    ensures { result ≡ spec.place_of (placed sram.now) dest }
{
    match dest {
        Some(o) => place(sram, o),
        None => 0,
    }
}

fn at_array(sram: &[u32], array: Option<ArrayUse>) -> u16
    ensures { result ≡ spec.array_of (placed sram.now) array }
{
    match array {
        Some(array) => place(sram, array.object),
        None => 0,
    }
}

fn array_length(array: Option<ArrayUse>) -> u16
    ensures { result ≡ spec.length_in array }
{
    match array {
        Some(array) => array.length,
        None => 0,
    }
}

fn at_operand(sram: &[u32], operand: Operand) -> u16
    ensures { result ≡ spec.operand_place (placed sram.now) operand }
{
    match operand {
        Operand::Const(_) => 0,
        Operand::Object(o) => place(sram, o),
    }
}

/// The register of the result.
pub fn result_of(kind: OpKind) -> u8
    ensures { result ≡ spec.result kind }
{
    match kind {
        OpKind::Mul
        | OpKind::RemU
        | OpKind::RemS
        | OpKind::Eq
        | OpKind::Ne
        | OpKind::LtS
        | OpKind::LtU
        | OpKind::LeS
        | OpKind::LeU => 13,
        _ => 15,
    }
}

#[tactic(auto, using(crate::proofs::Sums::weight_then))]
fn unary_cost(b: &Board, sram: &[u32], op: &Op) -> u64
    ensures cost { result ≡ spec.weight_of b.now (spec.unary (placed sram.now) op.now) }
    ensures small { result ≤ 1344000000 }
{
    load_cost(b, sram, 15, op.a)
        + core_cost(b, op.kind)
        + store_cost(b, result_of(op.kind), at_dest(sram, op.dest))
}

#[tactic(auto, using(crate::proofs::Sums::weight_then))]
fn binary_cost(b: &Board, sram: &[u32], op: &Op) -> u64
    ensures cost { result ≡ spec.weight_of b.now (spec.binary (placed sram.now) op.now) }
    ensures small { result ≤ 1351000000 }
{
    let loads = load_cost(b, sram, 15, op.a) + load_cost(b, sram, 14, op.b);
    loads + core_cost(b, op.kind) + store_cost(b, result_of(op.kind), at_dest(sram, op.dest))
}

fn jump_cost(b: &Board, on: Cond) -> u64
    ensures cost { result ≡ sum_by (λ i. instruction_cost_lem b.now i) (spec.unless on 0) }
    ensures small { result ≤ 14000000 }
{
    instruction_cost(b, jump(on, 2)) + instruction_cost(b, by(TwoOp::Mov, Src::Imm(0), 0))
}

fn two(op: TwoOp, src: Src, dst: Dst) -> Instr
    ensures { result ≡ Instr.Two op false src dst }
{
    Instr::Two {
        op,
        byte: false,
        src,
        dst,
    }
}

fn load_element_cost(b: &Board, sram: &[u32], op: &Op) -> u64
    ensures cost { result ≡ spec.weight_of b.now (spec.template_by kind.Load (placed sram.now) 0 op.now) }
    ensures small { result ≤ 49000000 }
{
    let fetch = instruction_cost(
        b,
        by(TwoOp::Mov, Src::Index(14, at_array(sram, op.array)), 15),
    );
    let index = load_cost(b, sram, 14, op.a) + weigh(b, &index_code(array_length(op.array)));
    index + fetch + store_cost(b, 15, at_dest(sram, op.dest))
}

fn store_element_cost(b: &Board, sram: &[u32], op: &Op) -> u64
    ensures cost { result ≡ spec.weight_of b.now (spec.template_by kind.Store (placed sram.now) 0 op.now) }
    ensures small { result ≤ 49000000 }
{
    let send = instruction_cost(
        b,
        two(
            TwoOp::Mov,
            Src::Reg(15),
            Dst::Index(14, at_array(sram, op.array)),
        ),
    );
    let operands = load_cost(b, sram, 15, op.a) + load_cost(b, sram, 14, op.b);
    operands + weigh(b, &index_code(array_length(op.array))) + send
}

fn cost_with(b: &Board, sram: &[u32], op: &Op) -> u64
    ensures cost { result ≡ weight b.now sram.now op.now }
    ensures small { result ≤ 1351000000 }
{
    match op.kind {
        OpKind::Copy | OpKind::Neg | OpKind::Inv | OpKind::ToU8 | OpKind::ToS8 => unary_cost(
            b, sram, op,
        ),
        OpKind::Load => load_element_cost(b, sram, op),
        OpKind::Store => store_element_cost(b, sram, op),
        OpKind::Input => instruction_cost(b, by(TwoOp::Mov, Src::Abs(IN), 15))
            + store_cost(b, 15, at_dest(sram, op.dest)),
        OpKind::Output => load_cost(b, sram, 15, op.a) + store_cost(b, 15, OUT),
        OpKind::Finish => load_cost(b, sram, 15, op.a) + store_cost(b, 15, END),
        OpKind::Test => load_cost(b, sram, 15, op.a)
            + instruction_cost(b, by(TwoOp::Cmp, Src::Short(0), 15))
            + jump_cost(b, Cond::Jne),
        OpKind::Below => {
            let compare = instruction_cost(
                b,
                two(
                    TwoOp::Cmp,
                    source(sram, op.b),
                    Dst::Abs(at_operand(sram, op.a)),
                ),
            );
            compare + jump_cost(b, Cond::Jnc)
        }
        OpKind::Step => instruction_cost(
            b,
            two(TwoOp::Add, Src::Short(1), Dst::Abs(at_dest(sram, op.dest))),
        ),
        OpKind::Go => instruction_cost(b, by(TwoOp::Mov, Src::Imm(0), 0)),
        OpKind::Call => instruction_cost(
            b,
            Instr::One {
                op: OneOp::Call,
                byte: false,
                src: Src::Imm(0),
            },
        ),
        OpKind::Ret => instruction_cost(b, by(TwoOp::Mov, Src::AtPlus(1), 0)),
        _ => binary_cost(b, sram, op),
    }
}

/// What an operation costs with the listed objects in SRAM, in energy units.
pub fn cost(op: &Op, homes: &Homes, b: &Board) -> u64
    ensures cost { result ≡ weight b.now homes.now.sram.items op.now }
    ensures small { result ≤ 1351000000 }
{
    cost_with(b, &homes.sram, op)
}

/// What a stretch costs apart from its work, in energy units: a wake, which is boot up to its jump to the program and the last
/// instruction of a head, and a sleep, which is a head up to that one.
pub fn overhead(b: &Board) -> u64
    ensures cost { result ≡ overhead b.now }
    ensures small { result ≤ 70000000 }
{
    let wake = [
        two(TwoOp::Cmp, Src::Short(1), Dst::Abs(GATE)),
        jump(Cond::Jne, 4),
        two(TwoOp::Mov, Src::Abs(SAVED_SP), Dst::Reg(1)),
        two(TwoOp::Mov, Src::Abs(RESUME), Dst::Reg(0)),
        two(TwoOp::Mov, Src::Short(0), Dst::Abs(GATE)),
    ];
    let sleep = [
        two(TwoOp::Mov, Src::Reg(1), Dst::Abs(SAVED_SP)),
        two(TwoOp::Mov, Src::Imm(0x8024), Dst::Abs(RESUME)),
        two(TwoOp::Mov, Src::Short(1), Dst::Abs(GATE)),
        two(TwoOp::Bis, Src::Imm(16), Dst::Reg(2)),
    ];
    weigh(b, &wake) + weigh(b, &sleep)
}

/// What an operation costs with all that it touches in FRAM, with a wake and a sleep, in energy units.
pub fn need(op: &Op, b: &Board) -> u64
    ensures cost { result ≡ need b.now op.now }
    ensures small { result ≤ 1421000000 }
{
    cost_with(b, &[], op) + overhead(b)
}

/// Whether one charge pays for the operation with all that it touches in FRAM, and for a wake and a sleep.
pub fn fits(op: &Op, b: &Board) -> bool
    ensures { IsTrue result ↔ Fits b.now op.now }
{
    need(op, b) <= b.budget
}
