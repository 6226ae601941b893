//! The code of an operation.

ghost use Rattle.std.specs.Prelude.{◌≡◌, ◌↔◌, IsTrue, ◌≤◌, ◌<◌, ◌+◌, ◌++◌, ℕ, false, length, take, slice_index_or};
ghost use Rattle.op_cost.specs.Templates as spec;
ghost use Rattle.emit_templates.specs.Layer.{DoesOperation, RunsOperation};
ghost use Rattle.emit_templates.specs.Placed.{home_in, HasArray, HasDest, HasHome, HasHomes};
ghost use Rattle.flow_graph.specs.declared.graph.OpKind.TheVariants as kind;

use crate::instrs::Instrs;
use flow_graph::{ArrayUse, Op, OpKind, Operand};
use msp430_isa::{Cond, Dst, Instr, OneOp, Src, TwoOp};
use msp430_machine::{END, IN, OUT};
use op_cost::{
    by, constant, div_turn, index_code, jump, left_turn, less, logical_turn, mul_turn, negated,
    result_of, right_turn, shift_tests, sign_of_quotient, sign_of_remainder, sixteen, turned,
    unless_negative, unless_zero,
};

/// The present address of each object, by its number.
#[derive(Drop)]
pub struct Places {
    pub of: Vec<u16>,
}

fn has_object(places: &[u16], object: u32) -> bool
    ensures { IsTrue result ↔ object < length places.now }
{
    (object as usize) < places.len()
}

fn has_operand(places: &[u16], operand: Operand) -> bool
    ensures { IsTrue result ↔ HasHome places.now operand }
{
    match operand {
        Operand::Const(_) => true,
        Operand::Object(o) => has_object(places, o),
    }
}

fn has_dest(places: &[u16], dest: Option<u32>) -> bool
    ensures { IsTrue result ↔ HasDest places.now dest }
{
    match dest {
        Some(o) => has_object(places, o),
        None => true,
    }
}

fn has_array(places: &[u16], array: Option<ArrayUse>) -> bool
    ensures { IsTrue result ↔ HasArray places.now array }
{
    match array {
        Some(array) => has_object(places, array.object),
        None => true,
    }
}

impl Places {
    /// Whether each object of the operation has its address.
    pub fn has(&self, op: &Op) -> bool
        ensures { IsTrue result ↔ HasHomes self.now.of.items op.now }
    {
        let operands = has_operand(&self.of, op.a) && has_operand(&self.of, op.b);
        operands && has_dest(&self.of, op.dest) && has_array(&self.of, op.array)
    }
}

fn address(places: &[u16], object: u32) -> u16
    requires has { object < length places.now }
    ensures { result ≡ home_in places.now object }
{
    places[object as usize]
}

fn source(places: &[u16], operand: Operand) -> Src
    requires has { HasHome places.now operand }
    ensures { result ≡ spec.source (home_in places.now) operand }
{
    match operand {
        Operand::Const(v) => constant(v),
        Operand::Object(o) => Src::Abs(address(places, o)),
    }
}

fn load(places: &[u16], register: u8, operand: Operand) -> Instr
    requires has { HasHome places.now operand }
    ensures { result ≡ spec.loads (home_in places.now) register operand }
{
    by(TwoOp::Mov, source(places, operand), register)
}

fn place_of(places: &[u16], dest: Option<u32>) -> u16
    requires has { HasDest places.now dest }
    ensures { result ≡ spec.place_of (home_in places.now) dest }
{
    match dest {
        Some(o) => address(places, o),
        None => 0,
    }
}

fn array_of(places: &[u16], array: Option<ArrayUse>) -> u16
    requires has { HasArray places.now array }
    ensures { result ≡ spec.array_of (home_in places.now) array }
{
    match array {
        Some(array) => address(places, array.object),
        None => 0,
    }
}

fn length_in(array: Option<ArrayUse>) -> u16
    ensures { result ≡ spec.length_in array }
{
    match array {
        Some(array) => array.length,
        None => 0,
    }
}

fn operand_place(places: &[u16], operand: Operand) -> u16
    requires has { HasHome places.now operand }
    ensures { result ≡ spec.operand_place (home_in places.now) operand }
{
    match operand {
        Operand::Const(_) => 0,
        Operand::Object(o) => address(places, o),
    }
}

fn two(op: TwoOp, src: Src, dst: Dst) -> Instr
    ensures { result ≡ Instr.Two op false src dst }
{
    Instr::Two {
        op,
        byte: false,
        src,
        dst,
    }
}

fn store(register: u8, address: u16) -> Instr
    ensures { result ≡ spec.stores register address }
{
    two(TwoOp::Mov, Src::Reg(register), Dst::Abs(address))
}

fn go(target: u16) -> Instr
    ensures { result ≡ spec.go target }
{
    by(TwoOp::Mov, Src::Imm(target), 0)
}

fn put_division(code: &mut Instrs)
    requires room { code.old.count ≤ 40 }
    ensures listed { take code.new.count code.new.list ≡ take code.old.count code.old.list ++ spec.code_of spec.unsigned_core }
    ensures count { code.new.count ≡ code.old.count + 14 }
{
    code.put(&unless_zero());
    code.put(&sixteen());
    code.put(&div_turn());
}

fn put_signed(code: &mut Instrs, sign: &[Instr], result_register: u8)
    requires room { code.old.count ≤ 4 }
    requires few { length sign.now ≤ 2 }
    ensures listed { take code.new.count code.new.list ≡ take code.old.count code.old.list ++ (spec.code_of spec.unless_zero_core ++ sign.now ++ spec.unless_negative 15 15 ++ spec.unless_negative 14 14 ++ spec.code_of spec.div_core ++ spec.unless_negative 11 result_register) }
    ensures count { code.new.count ≤ code.old.count + 40 }
{
    code.put(&unless_zero());
    code.put(sign);
    code.put(&unless_negative(15, 15));
    code.put(&unless_negative(14, 14));
    code.put(&sixteen());
    code.put(&div_turn());
    code.put(&unless_negative(11, result_register));
}

fn put_left(code: &mut Instrs)
    requires room { code.old.count ≤ 4 }
    ensures listed { take code.new.count code.new.list ≡ take code.old.count code.old.list ++ spec.code_of spec.left_core }
    ensures count { code.new.count ≤ code.old.count + 20 }
{
    put_two(code, &shift_tests(1), &left_turn());
}

fn put_right(code: &mut Instrs)
    requires room { code.old.count ≤ 4 }
    ensures listed { take code.new.count code.new.list ≡ take code.old.count code.old.list ++ spec.code_of spec.right_core }
    ensures count { code.new.count ≤ code.old.count + 20 }
{
    put_two(code, &shift_tests(1), &right_turn());
}

fn put_logical(code: &mut Instrs)
    requires room { code.old.count ≤ 4 }
    ensures listed { take code.new.count code.new.list ≡ take code.old.count code.old.list ++ spec.code_of spec.logical_core }
    ensures count { code.new.count ≤ code.old.count + 20 }
{
    put_two(code, &shift_tests(3), &logical_turn());
}

fn put_core(code: &mut Instrs, kind: OpKind)
    requires room { code.old.count ≤ 4 }
    ensures listed { take code.new.count code.new.list ≡ take code.old.count code.old.list ++ spec.code_of (spec.core kind) }
    ensures count { code.new.count ≤ code.old.count + 40 }
{
    match kind {
        OpKind::Neg => code.put(&negated(15)),
        OpKind::Inv => code.put(&[by(TwoOp::Xor, Src::Short(0xFFFF), 15)]),
        OpKind::ToU8 => code.put(&[by(TwoOp::And, Src::Imm(255), 15)]),
        OpKind::ToS8 => code.put(&[Instr::One {
            op: OneOp::Sxt,
            byte: false,
            src: Src::Reg(15),
        }]),
        OpKind::Add => code.put(&[by(TwoOp::Add, Src::Reg(14), 15)]),
        OpKind::Sub => code.put(&[by(TwoOp::Sub, Src::Reg(14), 15)]),
        OpKind::BitAnd => code.put(&[by(TwoOp::And, Src::Reg(14), 15)]),
        OpKind::BitOr => code.put(&[by(TwoOp::Bis, Src::Reg(14), 15)]),
        OpKind::BitXor => code.put(&[by(TwoOp::Xor, Src::Reg(14), 15)]),
        OpKind::Mul => put_two(code, &sixteen(), &mul_turn()),
        OpKind::DivU | OpKind::RemU => put_division(code),
        OpKind::DivS => put_signed(code, &sign_of_quotient(), 15),
        OpKind::RemS => put_signed(code, &sign_of_remainder(), 13),
        OpKind::Shl => put_left(code),
        OpKind::ShrS => put_right(code),
        OpKind::ShrU => put_logical(code),
        OpKind::Eq => code.put(&less(Cond::Jeq)),
        OpKind::Ne => code.put(&less(Cond::Jne)),
        OpKind::LtS => code.put(&less(Cond::Jl)),
        OpKind::LtU => code.put(&less(Cond::Jnc)),
        OpKind::LeS => code.put(&turned(Cond::Jge)),
        OpKind::LeU => code.put(&turned(Cond::Jc)),
        _ => {}
    }
}

fn put_two(code: &mut Instrs, first: &[Instr], second: &[Instr])
    requires room { code.old.count ≤ 4 }
    requires few { length first.now ≤ 10 }
    requires few_more { length second.now ≤ 10 }
    ensures listed { take code.new.count code.new.list ≡ take code.old.count code.old.list ++ (first.now ++ second.now) }
    ensures count { code.new.count ≤ code.old.count + 20 }
{
    code.put(first);
    code.put(second);
}

fn unary(places: &[u16], op: &Op) -> Instrs
    requires has { HasHomes places.now op.now }
    ensures listed { take result.count result.list ≡ spec.code_of (spec.unary (home_in places.now) op.now) }
    ensures few { result.count ≤ 96 }
{
    let mut code = Instrs::new();
    code.put(&[load(places, 15, op.a)]);
    put_core(&mut code, op.kind);
    code.put(&[store(result_of(op.kind), place_of(places, op.dest))]);
    code
}

fn binary(places: &[u16], op: &Op) -> Instrs
    requires has { HasHomes places.now op.now }
    ensures listed { take result.count result.list ≡ spec.code_of (spec.binary (home_in places.now) op.now) }
    ensures few { result.count ≤ 96 }
{
    let mut code = Instrs::new();
    code.put(&[load(places, 15, op.a), load(places, 14, op.b)]);
    put_core(&mut code, op.kind);
    code.put(&[store(result_of(op.kind), place_of(places, op.dest))]);
    code
}

fn load_element(places: &[u16], op: &Op) -> Instrs
    requires has { HasHomes places.now op.now }
    ensures listed { take result.count result.list ≡ spec.code_of (spec.template_by kind.Load (home_in places.now) 0 op.now) }
    ensures few { result.count ≤ 96 }
{
    let mut code = Instrs::new();
    code.put(&[load(places, 14, op.a)]);
    code.put(&index_code(length_in(op.array)));
    code.put(&[
        by(TwoOp::Mov, Src::Index(14, array_of(places, op.array)), 15),
        store(15, place_of(places, op.dest)),
    ]);
    code
}

fn store_element(places: &[u16], op: &Op) -> Instrs
    requires has { HasHomes places.now op.now }
    ensures listed { take result.count result.list ≡ spec.code_of (spec.template_by kind.Store (home_in places.now) 0 op.now) }
    ensures few { result.count ≤ 96 }
{
    let mut code = Instrs::new();
    code.put(&[load(places, 15, op.a), load(places, 14, op.b)]);
    code.put(&index_code(length_in(op.array)));
    code.put(&[two(
        TwoOp::Mov,
        Src::Reg(15),
        Dst::Index(14, array_of(places, op.array)),
    )]);
    code
}

fn listed(instrs: &[Instr]) -> Instrs
    requires few { length instrs.now ≤ 8 }
    ensures listed { take result.count result.list ≡ instrs.now }
    ensures few { result.count ≤ 96 }
{
    let mut code = Instrs::new();
    code.put(instrs);
    code
}

fn listed_template(homes: &[u16], op: &Op, target: u16) -> Instrs
    requires has { HasHomes homes.now op.now }
    ensures listed { take result.count result.list ≡ spec.code_of (spec.template (home_in homes.now) target op.now) }
    ensures few { result.count ≤ 96 }
{
    match op.kind {
        OpKind::Copy | OpKind::Neg | OpKind::Inv | OpKind::ToU8 | OpKind::ToS8 => unary(homes, op),
        OpKind::Load => load_element(homes, op),
        OpKind::Store => store_element(homes, op),
        OpKind::Input => listed(&[
            by(TwoOp::Mov, Src::Abs(IN), 15),
            store(15, place_of(homes, op.dest)),
        ]),
        OpKind::Output => listed(&[load(homes, 15, op.a), store(15, OUT)]),
        OpKind::Finish => listed(&[load(homes, 15, op.a), store(15, END)]),
        OpKind::Test => listed(&[
            load(homes, 15, op.a),
            by(TwoOp::Cmp, Src::Short(0), 15),
            jump(Cond::Jne, 2),
            go(target),
        ]),
        OpKind::Below => listed(&[
            two(
                TwoOp::Cmp,
                source(homes, op.b),
                Dst::Abs(operand_place(homes, op.a)),
            ),
            jump(Cond::Jnc, 2),
            go(target),
        ]),
        OpKind::Step => listed(&[two(
            TwoOp::Add,
            Src::Short(1),
            Dst::Abs(place_of(homes, op.dest)),
        )]),
        OpKind::Go => listed(&[go(target)]),
        OpKind::Call => listed(&[Instr::One {
            op: OneOp::Call,
            byte: false,
            src: Src::Imm(target),
        }]),
        OpKind::Ret => listed(&[by(TwoOp::Mov, Src::AtPlus(1), 0)]),
        _ => binary(homes, op),
    }
}

/// The code of an operation at the places of its objects, by words of its own length each (`msp430_isa::length_of`). A test that
/// isn't passed, a jump and a call go to the target. A trap's number is 1 for a divisor of 0, 2 for an index outside of the array
/// and 3 for a count of a shift that isn't below 16.
#[tactic(auto, using(crate::proofs::MakingLemmas::does_operation, crate::proofs::MakingLemmas::runs_operation))]
pub fn template(op: &Op, places: &Places, target: u16) -> Instrs
    requires has { HasHomes places.now.of.items op.now }
    ensures listed { take result.count result.list ≡ spec.code_of (spec.template (home_in places.now.of.items) target op.now) }
    ensures few { result.count ≤ 96 }
    ensures done { DoesOperation (take result.count result.list) (home_in places.now.of.items) target op.now }
    ensures runs { RunsOperation (take result.count result.list) (home_in places.now.of.items) target op.now }
{
    listed_template(&places.of, op, target)
}
