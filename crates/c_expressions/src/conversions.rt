//! The types of operands and results, and conversions to them.
ghost use Rattle.std.specs.Prelude.{◌≡◌, ℕ};
ghost use Rattle.c_typing.specs.Conversions as spec;

use c_values::{BinaryOp, Ty, UnaryOp};

/// The type to which an operand of a type is promoted (C11 6.3.1.1).
pub fn promoted(ty: Ty) -> Ty
    ensures { result ≡ spec.promoted ty }
{
    match ty {
        Ty::I8 | Ty::U8 | Ty::I16 => Ty::I16,
        Ty::U16 => Ty::U16,
    }
}

/// The common type of two operands (C11 6.3.1.8).
pub fn common(a: Ty, b: Ty) -> Ty
    ensures { result ≡ spec.common a b }
{
    match (promoted(a), promoted(b)) {
        (Ty::I16, Ty::I16) => Ty::I16,
        _ => Ty::U16,
    }
}

/// The type to which an operator converts its first operand.
pub fn left_type(op: BinaryOp, a: Ty, b: Ty) -> Ty
    ensures { result ≡ spec.left_type op a b }
{
    match op {
        BinaryOp::And | BinaryOp::Or => a,
        BinaryOp::Shl | BinaryOp::Shr => promoted(a),
        _ => common(a, b),
    }
}

/// The type to which an operator converts its second operand.
pub fn right_type(op: BinaryOp, a: Ty, b: Ty) -> Ty
    ensures { result ≡ spec.right_type op a b }
{
    match op {
        BinaryOp::And | BinaryOp::Or => b,
        BinaryOp::Shl | BinaryOp::Shr => promoted(b),
        _ => common(a, b),
    }
}

/// The type of an operator's result.
pub fn result_type(op: BinaryOp, a: Ty, b: Ty) -> Ty
    ensures { result ≡ spec.result_type op a b }
{
    match op {
        BinaryOp::Less
        | BinaryOp::Greater
        | BinaryOp::LessEq
        | BinaryOp::GreaterEq
        | BinaryOp::Equal
        | BinaryOp::NotEqual
        | BinaryOp::And
        | BinaryOp::Or => Ty::I16,
        _ => left_type(op, a, b),
    }
}

/// The type to which an operator converts its one operand.
pub fn operand_type(op: UnaryOp, ty: Ty) -> Ty
    ensures { result ≡ spec.operand_type op ty }
{
    match op {
        UnaryOp::Not => ty,
        _ => promoted(ty),
    }
}

/// The type of the result of an operator of one operand.
pub fn unary_type(op: UnaryOp, ty: Ty) -> Ty
    ensures { result ≡ spec.unary_type op ty }
{
    match op {
        UnaryOp::Not => Ty::I16,
        _ => promoted(ty),
    }
}
