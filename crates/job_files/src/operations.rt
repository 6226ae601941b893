//! The names by which reports tell operations.
ghost use Rattle.std.specs.Prelude.{◌≡◌};
ghost use Rattle.job_files.specs.Operations.{operation_text};

use flow_graph::OpKind;

/// The name of an operation.
pub fn operation_name(kind: OpKind) -> &'static str
    ensures { result.now ≡ operation_text kind }
{
    match kind {
        OpKind::Copy => "copy",
        OpKind::Neg => "neg",
        OpKind::Inv => "inv",
        OpKind::ToU8 => "to_u8",
        OpKind::ToS8 => "to_s8",
        OpKind::Add => "add",
        OpKind::Sub => "sub",
        OpKind::BitAnd => "bit_and",
        OpKind::BitOr => "bit_or",
        OpKind::BitXor => "bit_xor",
        OpKind::Mul => "mul",
        OpKind::DivS => "div_s",
        OpKind::DivU => "div_u",
        OpKind::RemS => "rem_s",
        OpKind::RemU => "rem_u",
        OpKind::Shl => "shl",
        OpKind::ShrS => "shr_s",
        OpKind::ShrU => "shr_u",
        OpKind::Eq => "eq",
        OpKind::Ne => "ne",
        OpKind::LtS => "lt_s",
        OpKind::LtU => "lt_u",
        OpKind::LeS => "le_s",
        OpKind::LeU => "le_u",
        OpKind::Load => "load",
        OpKind::Store => "store",
        OpKind::Input => "input",
        OpKind::Output => "output",
        OpKind::Finish => "finish",
        OpKind::Test => "test",
        OpKind::Below => "below",
        OpKind::Step => "step",
        OpKind::Go => "go",
        OpKind::Call => "call",
        OpKind::Ret => "ret",
    }
}
