//! Which operation an operator or a conversion is.
ghost use Rattle.std.specs.Prelude.{◌≡◌, IfOk};
ghost use Rattle.lowered_graphs.specs.Operators as spec;
ghost use Rattle.c_lower.specs.Emitting.{Emits};

use crate::making::{Making, ZERO, make};
use base_io::{Memory, Place};
use c_values::{BinaryOp, Ty, UnaryOp};
use flow_graph::{OpKind, Operand};

fn by_sign(ty: Ty, signed: OpKind, unsigned: OpKind) -> OpKind
    ensures { result ≡ spec.by_sign ty signed unsigned }
{
    match ty {
        Ty::I8 | Ty::I16 => signed,
        Ty::U8 | Ty::U16 => unsigned,
    }
}

fn binary_kind(op: BinaryOp, ty: Ty) -> OpKind
    ensures { result ≡ spec.binary_kind op ty }
{
    match op {
        BinaryOp::Mul => OpKind::Mul,
        BinaryOp::Div => by_sign(ty, OpKind::DivS, OpKind::DivU),
        BinaryOp::Rem => by_sign(ty, OpKind::RemS, OpKind::RemU),
        BinaryOp::Add => OpKind::Add,
        BinaryOp::Sub => OpKind::Sub,
        BinaryOp::Shl => OpKind::Shl,
        BinaryOp::Shr => by_sign(ty, OpKind::ShrS, OpKind::ShrU),
        BinaryOp::Less | BinaryOp::Greater => by_sign(ty, OpKind::LtS, OpKind::LtU),
        BinaryOp::LessEq | BinaryOp::GreaterEq => by_sign(ty, OpKind::LeS, OpKind::LeU),
        BinaryOp::Equal => OpKind::Eq,
        BinaryOp::NotEqual => OpKind::Ne,
        BinaryOp::BitAnd | BinaryOp::And => OpKind::BitAnd,
        BinaryOp::BitXor => OpKind::BitXor,
        BinaryOp::BitOr | BinaryOp::Or => OpKind::BitOr,
    }
}

/// An operator on words of the type.
pub fn make_binary(
    op: BinaryOp,
    ty: Ty,
    a: Operand,
    b: Operand,
    place: Place,
    to: &mut Making,
) -> Result<Operand, Memory>
    ensures { IfOk result (λ x. Emits (spec.make_binary op ty a b place) x to.old to.new) }
{
    let kind = binary_kind(op, ty);
    match op {
        BinaryOp::Greater | BinaryOp::GreaterEq => make(kind, b, a, None, place, to),
        _ => make(kind, a, b, None, place, to),
    }
}

/// An operator of one operand.
pub fn make_unary(op: UnaryOp, a: Operand, place: Place, to: &mut Making) -> Result<Operand, Memory>
    ensures { IfOk result (λ x. Emits (spec.make_unary op a place) x to.old to.new) }
{
    match op {
        UnaryOp::Plus => Ok(a),
        UnaryOp::Minus => make(OpKind::Neg, a, ZERO, None, place, to),
        UnaryOp::Inv => make(OpKind::Inv, a, ZERO, None, place, to),
        UnaryOp::Not => make(OpKind::Eq, a, ZERO, None, place, to),
    }
}

fn conversion_kind(ty: Ty, from: Ty) -> Option<OpKind>
    ensures { result ≡ spec.conversion_kind ty from }
{
    match (ty, from) {
        (Ty::U8, Ty::U8) | (Ty::I8, Ty::I8) => None,
        (Ty::U8, _) => Some(OpKind::ToU8),
        (Ty::I8, _) => Some(OpKind::ToS8),
        _ => None,
    }
}

/// A conversion to the type.
pub fn make_conversion(
    ty: Ty,
    from: Ty,
    a: Operand,
    place: Place,
    to: &mut Making,
) -> Result<Operand, Memory>
    ensures { IfOk result (λ x. Emits (spec.make_conversion ty from a place) x to.old to.new) }
{
    match conversion_kind(ty, from) {
        None => Ok(a),
        Some(kind) => make(kind, a, ZERO, None, place, to),
    }
}
